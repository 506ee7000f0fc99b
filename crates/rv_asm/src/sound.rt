ghost use Rattle.std.specs.Prelude.{IsTrue, ◌↔◌};
ghost use Rattle.rv_asm.specs.Layout.{IsSound, AreSound};

use crate::AsmItem;

/// Whether a piece of code may be laid out: its registers and instructions are in their ranges, and what it
/// adds to an address is at most 4,096.
pub fn is_sound(items: &[AsmItem]) -> bool
    ensures { IsTrue result ↔ AreSound items.now }
{
    for item in items {
        if !is_item_sound(*item) {
            return false;
        }
    }
    true
}

fn is_item_sound(item: AsmItem) -> bool
    ensures { IsTrue result ↔ IsSound item }
{
    match item {
        AsmItem::Code(instr) => instr.is_valid(),
        AsmItem::Here(_) => true,
        AsmItem::Address { reg, add, .. } => reg < 32 && -4096 <= add && add <= 4096,
        AsmItem::Jump { link, .. } => link < 32,
        AsmItem::Pool { reg, .. } => reg < 32,
    }
}
