use const_data::Label;
use rv_form::Instr;
use scheme_base::List;

/// An item of a text. Registers are numbered 0 to 31.
#[derive(Clone, Copy, Debug, PartialEq, Eq)]
pub enum AsmItem {
    /// An instruction as it stands.
    Code(Instr),
    /// The label of the place where the next item stands. It has no bytes.
    Here(Label),
    /// Two instructions that give a register the address of a label, and `add` more.
    Address { reg: u8, label: Label, add: i64 },
    /// Two instructions that jump to a label by way of register 31, with the place behind them in the
    /// register `link`: 0 for a jump for good, 1 and 28 for the call of a routine.
    Jump { link: u8, label: Label },
    /// Two instructions that load a number from the pool by way of register 31.
    Pool { reg: u8, number: u64 },
}

/// A piece of code.
pub type Asm = List<AsmItem>;

/// The pieces of a text in their order.
pub type Parts = List<Asm>;
