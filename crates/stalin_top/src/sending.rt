ghost use Rattle.stalin_outside.specs.Sending.{Sends};
ghost use Rattle.stalin_top.specs.Answer.{form_text, read_text, refusal_text, text_of};

use crate::answer::{Answer, Refusal};
use datum_form::FormErr;
use datum_reader::ReadErr;
use elf_write::ElfErr;
use itoa::Buffer;
use scheme_base::Pos;
use stalin_outside::{Console, send, send_all};

/// Writes an answer's text to the error channel, up to the first call that fails; tells whether none did.
pub(crate) fn tell<C: Console>(console: &mut C, answer: &Answer) -> bool
    ensures { Sends (text_of answer.now) result (C.told console.old) (C.told console.new) }
{
    let mut one = Buffer::new();
    let mut other = Buffer::new();
    match answer {
        Answer::Done => true,
        Answer::Usage { word } => {
            let word = one.format(*word).as_bytes();
            send_all(console, &[b"usage: word ", word, b"\n"])
        }
        Answer::Refused(Refusal::Read(error)) => tell_fault(console, error),
        Answer::Refused(Refusal::Form(error)) => tell_broken(console, error),
        Answer::TooLarge(limit) => {
            let name = limit.which.name().as_bytes();
            let count = one.format(limit.count).as_bytes();
            send_all(console, &[b"too large: ", name, b" ", count, b"\n"])
        }
        Answer::FileFault => send(console, b"file fault\n"),
        Answer::ConsoleFault => true,
        Answer::BadImage(err) => tell_break(console, err),
        Answer::Spent { steps } => {
            let steps = one.format(*steps).as_bytes();
            send_all(console, &[b"spent ", steps, b"\n"])
        }
        Answer::Trapped { kind, pc } => {
            let kind = one.format(*kind).as_bytes();
            let pc = other.format(*pc).as_bytes();
            send_all(console, &[b"trapped ", kind, b" at ", pc, b"\n"])
        }
        Answer::Image { .. } => true,
        Answer::NoMemory => send(console, b"no memory\n"),
    }
}

/// Writes which fault a text has, and where.
fn tell_fault<C: Console>(console: &mut C, error: &ReadErr) -> bool
    ensures { Sends (read_text error.now) result (C.told console.old) (C.told console.new) }
{
    let mut buffer = Buffer::new();
    match error {
        ReadErr::Unclosed { pos } => tell_refusal(console, b"read ", 1, *pos),
        ReadErr::Stray { pos } => tell_refusal(console, b"read ", 2, *pos),
        ReadErr::BadToken { pos } => tell_refusal(console, b"read ", 3, *pos),
        ReadErr::NumberRange { pos } => tell_refusal(console, b"read ", 4, *pos),
        ReadErr::TooDeep { pos } => tell_refusal(console, b"read ", 5, *pos),
        ReadErr::TooLong { len } => {
            let count = buffer.format(*len).as_bytes();
            send_all(console, &[b"too large: source ", count, b"\n"])
        }
        ReadErr::NoMemory => send(console, b"no memory\n"),
    }
}

/// Writes which rule a form breaks, and where.
fn tell_broken<C: Console>(console: &mut C, error: &FormErr) -> bool
    ensures { Sends (form_text error.now) result (C.told console.old) (C.told console.new) }
{
    match error {
        FormErr::Broken { pos, rule } => tell_refusal(console, b"form ", *rule, *pos),
        FormErr::NoMemory => send(console, b"no memory\n"),
    }
}

/// Writes why a source is refused, and at which position.
fn tell_refusal<C: Console>(console: &mut C, kind: &[u8], number: u32, pos: Pos) -> bool
    ensures { Sends (refusal_text kind.now number pos) result (C.told console.old) (C.told console.new) }
{
    let mut one = Buffer::new();
    let mut other = Buffer::new();
    let mut third = Buffer::new();
    let number = one.format(number).as_bytes();
    let line = other.format(pos.line).as_bytes();
    let col = third.format(pos.col).as_bytes();
    send_all(
        console,
        &[b"refused: ", kind, number, b" at ", line, b":", col, b"\n"],
    )
}

/// Writes which check the bytes of an image break to the error channel, up to the first call that fails.
fn tell_break<C: Console>(console: &mut C, err: &ElfErr) -> bool
    ensures { Sends (text_of (Answer.BadImage err.now)) result (C.told console.old) (C.told console.new) }
{
    let mut buffer = Buffer::new();
    match err {
        ElfErr::Short => send(console, b"bad image: 1\n"),
        ElfErr::Magic => send(console, b"bad image: 2\n"),
        ElfErr::Kind => send(console, b"bad image: 3\n"),
        ElfErr::Segment { index } => {
            let index = buffer.format(*index).as_bytes();
            send_all(console, &[b"bad image: 4 ", index, b"\n"])
        }
        ElfErr::Entry => send(console, b"bad image: 5\n"),
        ElfErr::NoMemory => send(console, b"no memory\n"),
    }
}
