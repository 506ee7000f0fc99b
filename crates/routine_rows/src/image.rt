//! A row as an image: the routines, code that calls them, and data for them to work on.

ghost use Rattle.std.specs.Prelude.{◌<◌, IfOk};
ghost use Rattle.rv_asm.specs.Layout.{AreSound, items_of, text_size};
ghost use Rattle.rv_emulator.specs.Loading.{IsLoadable};

use crate::row::{Ends, Row, Step, Value};
use const_data::{Data, Label, Word};
use image_support::support;
use rv_asm::{Asm, AsmItem, Parts, Routine, is_sound, layout};
use rv_form::{Image, Instr};
use scheme_base::List;
use std::alloc::{AllocError, Global};
use std::io;

/// The code that shows register 10.
const SHOW: Label = Label::Inner { proc: 0, number: 0 };

/// The return point of the continuation among the data.
const BACK: Label = Label::Inner { proc: 0, number: 1 };

/// The register of the position in a call: line 12, column 34.
const POSITION: u64 = 0x0000_000c_0000_0022;

/// The greatest heap.
const MOST: u64 = 0x4000_0000;

/// The image of a row.
pub(crate) fn image_of(alloc: Global, row: &Row) -> io::Result<Image>
    ensures { IfOk result (λ image. IsLoadable image.segments) }
{
    if row.heap > MOST {
        return Err(io::Error::from(io::ErrorKind::InvalidData));
    }
    let parts = parts_of(alloc, row)?;
    let words = data(alloc)?;
    match layout(alloc, &parts, &words, row.heap) {
        Ok(image) => Ok(image),
        Err(_) => Err(AllocError.into()),
    }
}

/// The routines, and the row's own code.
fn parts_of(alloc: Global, row: &Row) -> Result<Parts, AllocError>
    ensures { IfOk result (λ parts. AreSound (items_of parts) × (0 < text_size (items_of parts))) }
{
    let routines = support(alloc)?;
    let code = code_of(alloc, row)?;
    if !is_sound(code.as_slice()) {
        return Err(AllocError);
    }
    match vec![in alloc; routines, code] {
        Ok(parts) => Ok(List::from_vec(parts)),
        Err(_) => Err(AllocError),
    }
}

/// The code of a row, and that of a procedure and a return point.
fn code_of(alloc: Global, row: &Row) -> Result<Asm, AllocError> {
    let mut asm = List::new(alloc);
    push_row(&mut asm, row)?;
    push_show(&mut asm)?;
    push_procedure(&mut asm)?;
    push_list_entry(&mut asm)?;
    push_return(&mut asm)?;
    Ok(asm)
}

fn addi(rd: u8, rs1: u8, imm: i32) -> AsmItem {
    AsmItem::Code(Instr::Addi { rd, rs1, imm })
}

/// Puts what gives a register a word.
fn push_value(asm: &mut Asm, reg: u8, value: Value) -> Result<(), AllocError> {
    let (label, add) = match value {
        Value::Number(number) => return asm.push(AsmItem::Pool { reg, number }),
        Value::Data(word, add) => (Label::Word(word), add),
        Value::Start(add) => (Label::HeapStart, add),
        Value::End(add) => (Label::HeapEnd, add),
    };
    asm.push(AsmItem::Address { reg, label, add })
}

/// Shows a register.
fn push_shown(asm: &mut Asm, reg: u8) -> Result<(), AllocError> {
    asm.push(addi(10, reg, 0))?;
    asm.push(AsmItem::Jump {
        link: 1,
        label: SHOW,
    })
}

/// The end of a run.
fn push_finish(asm: &mut Asm) -> Result<(), AllocError> {
    asm.push(AsmItem::Jump {
        link: 0,
        label: Routine::Finish.label(),
    })
}

/// The calls of a row, and what it shows.
fn push_row(asm: &mut Asm, row: &Row) -> Result<(), AllocError> {
    asm.push(AsmItem::Here(entry(0, false)))?;
    asm.push(addi(9, 9, 24))?;
    for step in row.steps.as_slice() {
        push_step(asm, step)?;
    }
    asm.push(addi(21, 10, 0))?;
    push_shown(asm, 21)?;
    if let Ends::Shows(values) = &row.ends {
        push_words(asm, values.len())?;
    }
    push_finish(asm)
}

fn entry(proc: u32, list: bool) -> Label {
    Label::Entry {
        proc,
        part: 0,
        list,
    }
}

/// A call of a routine with its operands.
fn push_step(asm: &mut Asm, step: &Step) -> Result<(), AllocError> {
    for index in 0..4u8 {
        let operand = step.operands.get(usize::from(index));
        push_value(asm, 10 + index, *operand.unwrap_or(&Value::Number(0)))?;
    }
    asm.push(AsmItem::Pool {
        reg: 16,
        number: POSITION,
    })?;
    let link = match step.routine {
        Routine::Save | Routine::Restore => {
            push_frame(asm)?;
            28
        }
        _ => 1,
    };
    let label = step.routine.label();
    asm.push(AsmItem::Jump { link, label })
}

/// What `save` and `restore` work on: the free place, the frame and its return point, from the operands.
fn push_frame(asm: &mut Asm) -> Result<(), AllocError> {
    asm.push(addi(15, 11, 0))?;
    asm.push(addi(8, 12, 0))?;
    asm.push(addi(1, 13, 0))
}

/// Shows the words of the object in register 21, one fewer than `count`.
fn push_words(asm: &mut Asm, count: usize) -> Result<(), AllocError> {
    for index in 1..count.min(256) {
        asm.push(AsmItem::Code(Instr::Andi {
            rd: 22,
            rs1: 21,
            imm: -8,
        }))?;
        push_word(asm, 22, 8 * (index as i32 - 1))?;
    }
    Ok(())
}

/// Shows the word so far from an address.
fn push_word(asm: &mut Asm, rs1: u8, imm: i32) -> Result<(), AllocError> {
    asm.push(AsmItem::Code(Instr::Ld { rd: 23, rs1, imm }))?;
    push_shown(asm, 23)
}

/// Code that shows register 10 on channel 1, as 8 bytes, and goes back by register 1.
fn push_show(asm: &mut Asm) -> Result<(), AllocError> {
    asm.push(AsmItem::Here(SHOW))?;
    push_value(asm, 11, Value::Data(2, 0))?;
    asm.push(AsmItem::Code(Instr::Sd {
        rs1: 11,
        rs2: 10,
        imm: 0,
    }))?;
    asm.push(addi(13, 11, 8))?;
    asm.push(addi(10, 0, 1))?;
    asm.push(addi(12, 0, 1))?;
    asm.push(addi(17, 0, 64))?;
    asm.push(AsmItem::Code(Instr::Ecall))?;
    asm.push(addi(11, 11, 1))?;
    asm.push(AsmItem::Code(Instr::Bne {
        rs1: 11,
        rs2: 13,
        imm: -20,
    }))?;
    asm.push(AsmItem::Code(Instr::Jalr {
        rd: 0,
        rs1: 1,
        imm: 0,
    }))
}

/// Procedure 1, which shows its closure, how many argument words it has, and the first of them.
fn push_procedure(asm: &mut Asm) -> Result<(), AllocError> {
    asm.push(AsmItem::Here(entry(1, false)))?;
    asm.push(addi(21, 10, 0))?;
    asm.push(addi(22, 11, 0))?;
    push_shown(asm, 21)?;
    push_shown(asm, 22)?;
    push_word(asm, 19, 0)?;
    push_finish(asm)
}

/// Its entry with a list of operands, which shows its closure and the list.
fn push_list_entry(asm: &mut Asm) -> Result<(), AllocError> {
    asm.push(AsmItem::Here(entry(1, true)))?;
    asm.push(addi(21, 10, 0))?;
    asm.push(addi(22, 13, 0))?;
    push_shown(asm, 21)?;
    push_shown(asm, 22)?;
    push_finish(asm)
}

/// The return point, which shows the value and the running frame.
fn push_return(asm: &mut Asm) -> Result<(), AllocError> {
    asm.push(AsmItem::Here(BACK))?;
    asm.push(addi(21, 10, 0))?;
    push_shown(asm, 21)?;
    push_shown(asm, 8)?;
    push_finish(asm)
}

/// The data: 16 support words, 4 argument words, and from word 20 on what the rows name.
fn data(alloc: Global) -> Result<Data, AllocError> {
    let mut words = List::new(alloc);
    words.push(Word::Number(u64::MAX))?;
    for _ in 1..16 {
        words.push(Word::Number(0))?;
    }
    words.extend_from_slice(&[
        Word::Number(400),
        Word::Number(404),
        Word::Number(408),
        Word::Number(412),
        // 20: the pair (1)
        Word::Number(4),
        Word::Number(9),
        // 22: the string "ab"
        Word::Number(17),
        Word::Number(3133),
        Word::Number(3165),
        // 25: the vector #(7 #f)
        Word::Number(18),
        Word::Number(28),
        Word::Number(1),
        // 28: the symbol ab
        Word::Number(3),
        Word::Address {
            label: Label::Word(22),
            add: 3,
        },
        // 30: the descriptor of procedure 1, which takes one operand or two, and its closure
        Word::Address {
            label: Label::Entry {
                proc: 1,
                part: 0,
                list: false,
            },
            add: 0,
        },
        Word::Address {
            label: Label::Entry {
                proc: 1,
                part: 0,
                list: true,
            },
            add: 0,
        },
        Word::Number(1),
        Word::Number(2),
        Word::Address {
            label: Label::Word(30),
            add: 0,
        },
        // 35: a continuation, and its record
        Word::Number(4),
        Word::Address {
            label: Label::Word(37),
            add: 0,
        },
        Word::Address {
            label: BACK,
            add: 0,
        },
        Word::Number(0),
        Word::Number(0),
        // 40: a pair that is its own cdr
        Word::Number(4),
        Word::Address {
            label: Label::Word(40),
            add: 2,
        },
        // 42: the pair (1 . 2)
        Word::Number(4),
        Word::Number(8),
        // 44: the list (1 2 3)
        Word::Number(4),
        Word::Address {
            label: Label::Word(46),
            add: 2,
        },
        Word::Number(8),
        Word::Address {
            label: Label::Word(48),
            add: 2,
        },
        Word::Number(12),
        Word::Number(9),
        // 50: the list (1 2 . 3)
        Word::Number(4),
        Word::Address {
            label: Label::Word(52),
            add: 2,
        },
        Word::Number(8),
        Word::Number(12),
        // 54: a pair before a circle of two
        Word::Number(4),
        Word::Address {
            label: Label::Word(56),
            add: 2,
        },
        Word::Number(4),
        Word::Address {
            label: Label::Word(58),
            add: 2,
        },
        Word::Number(4),
        Word::Address {
            label: Label::Word(56),
            add: 2,
        },
        // 60: the descriptor of a procedure that takes one operand or more, and its closure
        Word::Address {
            label: Label::Entry {
                proc: 1,
                part: 0,
                list: false,
            },
            add: 0,
        },
        Word::Address {
            label: Label::Entry {
                proc: 1,
                part: 0,
                list: true,
            },
            add: 0,
        },
        Word::Number(1),
        Word::Number(u64::MAX),
        Word::Address {
            label: Label::Word(60),
            add: 0,
        },
        // 65: the empty string and the empty vector
        Word::Number(1),
        Word::Number(2),
        // 67: the pair (1 2)'s first, before 46
        Word::Number(0),
        // 68: the list (1 2)
        Word::Number(4),
        Word::Address {
            label: Label::Word(70),
            add: 2,
        },
        Word::Number(8),
        Word::Number(9),
    ])?;
    Ok(words)
}
