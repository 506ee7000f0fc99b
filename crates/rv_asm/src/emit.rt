//! The bytes of a text and of its data.
ghost use Rattle.std.specs.Prelude.{◌≡◌, [], ◌∷◌, ◌+◌, ◌++◌, ◌<◌, ◌^◌, ◌%◌, ◌≤ℤ◌, ◌<ℤ◌, pos, negsuc, length, map, replicate, IfOk, OnOk};
ghost use Rattle.rv_form.specs.Numbers.{low_bytes};
ghost use Rattle.rv_form.specs.Instruction.{IsValid, word_of, code_bytes};
ghost use Rattle.rv_asm.specs.Layout.{text_size, items_of, address_code, jump_code, load_code, instructions, text_bytes as bytes_of_text, value_of, number_bytes, data_bytes as bytes_of_data, IsSound, AreSound};
ghost use Rattle.rv_asm.specs.Symbols.{placing_in, IsNear};

use crate::distance::{distance, far_of, near_of};
use crate::measure::{Pool, item_size};
use crate::symbols::Symbols;
use crate::{AsmItem, Parts};
use byteorder::{ByteOrder, LittleEndian};
use const_data::{Data, Word};
use rv_encode::encode;
use rv_form::Instr;
use scheme_base::Bytes;
use std::alloc::{AllocError, Global};

/// The bytes of a text that begins at an address.
#[tactic(auto, using(crate::proofs::Items::size_joined, crate::proofs::Items::bytes_joined, crate::proofs::Items::first_sound, crate::proofs::Items::second_sound))]
pub fn text_bytes(
    alloc: Global,
    parts: &Parts,
    symbols: &Symbols,
    from: u64,
) -> Result<Bytes, AllocError>
    requires sound { AreSound (items_of parts.now) }
    requires near { IsNear (placing_in symbols.now) }
    requires room { from + text_size (items_of parts.now) < 2 ^ 29 }
    ensures { IfOk result (λ bytes. bytes ≡ bytes_of_text (placing_in symbols.now) from (items_of parts.now)) }
{
    let mut bytes = Bytes::new(alloc);
    let mut at = from;
    for part in parts.as_slice() {
        at = push_items(&mut bytes, part.as_slice(), symbols, at)?;
    }
    Ok(bytes)
}

/// Puts the bytes of a piece of code that begins at an address at the end, and answers the address behind it.
fn push_items(
    bytes: &mut Bytes,
    items: &[AsmItem],
    symbols: &Symbols,
    from: u64,
) -> Result<u64, AllocError>
    requires sound { AreSound items.now }
    requires near { IsNear (placing_in symbols.now) }
    requires room { from + text_size items.now < 2 ^ 29 }
    ensures end { IfOk result (λ end. end ≡ from + text_size items.now) }
    ensures text { OnOk result (bytes.new ≡ bytes.old ++ bytes_of_text (placing_in symbols.now) from items.now) }
{
    let mut at = from;
    for item in items {
        push_item(bytes, *item, symbols, at)?;
        at += item_size(*item);
    }
    Ok(at)
}

/// Puts the bytes of an item that stands at an address at the end.
fn push_item(bytes: &mut Bytes, item: AsmItem, symbols: &Symbols, at: u64) -> Result<(), AllocError>
    requires sound { IsSound item }
    requires near { IsNear (placing_in symbols.now) }
    requires room { at < 2 ^ 29 }
    ensures { OnOk result (bytes.new ≡ bytes.old ++ code_bytes (instructions (placing_in symbols.now) at item)) }
{
    match item {
        AsmItem::Code(instr) => push_instr(bytes, instr),
        AsmItem::Here(_) => Ok(()),
        AsmItem::Address { reg, label, add } => {
            push_address(bytes, reg, distance(symbols.place(label), add, at))
        }
        AsmItem::Jump { link, label } => push_jump(
            bytes,
            link,
            symbols.place(label) as i64 - at as i64,
        ),
        AsmItem::Pool { reg, number } => push_load(
            bytes,
            reg,
            symbols.pool_place(number) as i64 - at as i64,
        ),
    }
}

/// Puts what gives a register the address at a distance at the end.
fn push_address(bytes: &mut Bytes, reg: u8, distance: i64) -> Result<(), AllocError>
    requires reg { reg < 32 }
    requires near { (negsuc 0x7fff_f7ff ≤ℤ distance) × (distance <ℤ pos 0x7fff_f800) }
    ensures { OnOk result (bytes.new ≡ bytes.old ++ code_bytes (address_code reg distance)) }
{
    let far = Instr::Auipc {
        rd: reg,
        imm: far_of(distance),
    };
    push_pair(
        bytes,
        far,
        Instr::Addi {
            rd: reg,
            rs1: reg,
            imm: near_of(distance),
        },
    )
}

/// Puts a jump over a distance at the end.
fn push_jump(bytes: &mut Bytes, link: u8, distance: i64) -> Result<(), AllocError>
    requires link { link < 32 }
    requires near { (negsuc 0x7fff_f7ff ≤ℤ distance) × (distance <ℤ pos 0x7fff_f800) }
    ensures { OnOk result (bytes.new ≡ bytes.old ++ code_bytes (jump_code link distance)) }
{
    let far = Instr::Auipc {
        rd: 31,
        imm: far_of(distance),
    };
    push_pair(
        bytes,
        far,
        Instr::Jalr {
            rd: link,
            rs1: 31,
            imm: near_of(distance),
        },
    )
}

/// Puts what loads a register from a distance at the end.
fn push_load(bytes: &mut Bytes, reg: u8, distance: i64) -> Result<(), AllocError>
    requires reg { reg < 32 }
    requires near { (negsuc 0x7fff_f7ff ≤ℤ distance) × (distance <ℤ pos 0x7fff_f800) }
    ensures { OnOk result (bytes.new ≡ bytes.old ++ code_bytes (load_code reg distance)) }
{
    let far = Instr::Auipc {
        rd: 31,
        imm: far_of(distance),
    };
    push_pair(
        bytes,
        far,
        Instr::Ld {
            rd: reg,
            rs1: 31,
            imm: near_of(distance),
        },
    )
}

/// Puts the words of two instructions at the end.
fn push_pair(bytes: &mut Bytes, first: Instr, second: Instr) -> Result<(), AllocError>
    requires { IsValid first × IsValid second }
    ensures { OnOk result (bytes.new ≡ bytes.old ++ code_bytes (first ∷ second ∷ [])) }
{
    push_instr(bytes, first)?;
    push_instr(bytes, second)
}

/// Puts the word of an instruction at the end.
fn push_instr(bytes: &mut Bytes, instr: Instr) -> Result<(), AllocError>
    requires { IsValid instr }
    ensures { OnOk result (bytes.new ≡ bytes.old ++ low_bytes 4 (word_of instr)) }
{
    let mut word = [0; 4];
    LittleEndian::write_u32(&mut word, encode(instr));
    bytes.extend_from_slice(&word)
}

/// The bytes of data: the words, the pool, and zeros to a multiple of 16 bytes.
pub fn data_bytes(alloc: Global, words: &Data, symbols: &Symbols) -> Result<Bytes, AllocError>
    requires near { IsNear (placing_in symbols.now) }
    requires count { symbols.now.words ≡ length words.now }
    ensures { IfOk result (λ bytes. bytes ≡ bytes_of_data (placing_in symbols.now) words.now) }
{
    let mut bytes = Bytes::new(alloc);
    push_words(&mut bytes, words.as_slice(), symbols)?;
    push_pool(&mut bytes, &symbols.pool)?;
    push_padding(&mut bytes, words.len() + symbols.pool.len())?;
    Ok(bytes)
}

/// Puts a zero at the end where so many words are an odd number of them.
fn push_padding(bytes: &mut Bytes, count: usize) -> Result<(), AllocError>
    ensures { OnOk result (bytes.new ≡ bytes.old ++ number_bytes (replicate (count % 2) 0)) }
{
    if count % 2 == 1 {
        push_number(bytes, 0)?;
    }
    Ok(())
}

/// Puts the numbers of data words at the end.
fn push_words(bytes: &mut Bytes, words: &[Word], symbols: &Symbols) -> Result<(), AllocError>
    requires { IsNear (placing_in symbols.now) }
    ensures { OnOk result (bytes.new ≡ bytes.old ++ number_bytes (map (value_of (placing_in symbols.now)) words.now)) }
{
    for word in words {
        push_number(bytes, value_of(*word, symbols))?;
    }
    Ok(())
}

/// Puts the numbers of a pool at the end.
fn push_pool(bytes: &mut Bytes, pool: &Pool) -> Result<(), AllocError>
    ensures { OnOk result (bytes.new ≡ bytes.old ++ number_bytes pool.now.keys) }
{
    for number in pool.as_slice() {
        push_number(bytes, *number)?;
    }
    Ok(())
}

/// The number that a data word holds.
fn value_of(word: Word, symbols: &Symbols) -> u64
    requires { IsNear (placing_in symbols.now) }
    ensures { result ≡ value_of (placing_in symbols.now) word }
{
    match word {
        Word::Number(number) => number,
        Word::Address { label, add } => symbols.place(label).wrapping_add(add),
    }
}

/// Puts a number of 64 bits at the end.
fn push_number(bytes: &mut Bytes, number: u64) -> Result<(), AllocError>
    ensures { OnOk result (bytes.new ≡ bytes.old ++ low_bytes 8 number) }
{
    let mut word = [0; 8];
    LittleEndian::write_u64(&mut word, number);
    bytes.extend_from_slice(&word)
}
