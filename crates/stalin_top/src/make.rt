//! The numbers of a program that is made of many procedures.
ghost use Rattle.std.specs.Prelude.{◌≡◌, ◌++◌, ℕ, IfOk, OnOk, MatchResult};
ghost use Rattle.stalin_top.specs.Given.{IsBuildable, IsWorkable};
ghost use Rattle.stalin_top.specs.Make.{AreNumbers, AreSizes, IsUnmade, Outcome, number_text, numbers_text, procedure_text, program_text};

use crate::Answer;
use crate::source::answer_to;
use image_build::{analyse, build};
use itoa::Buffer;
use stalin_outside::{Console, Gate, print};
use std::alloc::{AllocError, AllocGlobal, Global};
use std::thread::Threads;

/// How large the analysis of a program is.
#[derive(Clone, Copy, Debug)]
pub(crate) struct Sizes {
    pub(crate) rows: u32,
    pub(crate) atoms: u32,
    pub(crate) rules: usize,
}

/// Prints how large the program of so many procedures is, its analysis and its image.
pub(crate) fn make<R: AllocGlobal + Threads + Sync, C: Console, G: Gate>(
    rt: &R,
    alloc: Global,
    console: &mut C,
    count: u64,
    workers: u32,
    heap: u64,
    gate: &G,
) -> Answer
    requires { IsBuildable workers heap }
    ensures { Outcome count heap result (C.told console.old) (C.told console.new) }
{
    let text = match numbers(rt, alloc, count, workers, heap, gate) {
        Ok(text) => text,
        Err(answer) => return answer,
    };
    if print(console, text.as_slice()) {
        Answer::Done
    } else {
        Answer::ConsoleFault
    }
}

/// The lines with the numbers, or the answer where there are none.
fn numbers<R: AllocGlobal + Threads + Sync, G: Gate>(
    rt: &R,
    alloc: Global,
    count: u64,
    workers: u32,
    heap: u64,
    gate: &G,
) -> Result<Vec<u8>, Answer>
    requires { IsBuildable workers heap }
    ensures { MatchResult result (λ text. AreNumbers count heap text.items) (IsUnmade count heap) }
{
    let Ok(program) = program_of(alloc, count) else {
        return Err(Answer::NoMemory);
    };
    let sizes = match sizes_of(rt, alloc, count, program.as_slice(), workers, gate) {
        Ok(sizes) => sizes,
        Err(answer) => return Err(answer),
    };
    let file = match build(rt, alloc, program.as_slice(), heap, workers, gate) {
        Ok(file) => file,
        Err(error) => return Err(answer_to(error)),
    };
    match lines(alloc, program.len(), sizes, file.len()) {
        Ok(text) => Ok(text),
        Err(_) => Err(Answer::NoMemory),
    }
}

/// How large the analysis of the program is.
fn sizes_of<R: AllocGlobal + Threads + Sync, G: Gate>(
    rt: &R,
    alloc: Global,
    count: u64,
    program: &[u8],
    workers: u32,
    gate: &G,
) -> Result<Sizes, Answer>
    requires workable { IsWorkable workers }
    requires program { program.now ≡ program_text count }
    ensures { (heap : ℕ) → MatchResult result (AreSizes count) (IsUnmade count heap) }
{
    match analyse(rt, alloc, program, workers, gate) {
        Ok(analysis) => Ok(Sizes {
            rows: analysis.constraints.rows,
            atoms: analysis.constraints.atoms,
            rules: analysis.constraints.rules.len(),
        }),
        Err(error) => Err(answer_to(error)),
    }
}

/// The program of so many procedures, each of which calls the next, and the last the first.
fn program_of(alloc: Global, count: u64) -> Result<Vec<u8>, AllocError>
    ensures { IfOk result (λ text. text.items ≡ program_text count) }
{
    let mut text = Vec::new(alloc);
    for number in 0..count {
        let next = if number + 1 == count { 0 } else { number + 1 };
        put_procedure(&mut text, number, next)?;
    }
    if count > 0 {
        text.extend_from_slice(b"(write (p0 5))\n")?;
    }
    Ok(text)
}

/// Puts the procedure of a number, which calls that of the next one.
fn put_procedure(text: &mut Vec<u8>, number: u64, next: u64) -> Result<(), AllocError>
    ensures { OnOk result (text.new.items ≡ text.old.items ++ procedure_text number next) }
{
    let mut one = Buffer::new();
    let mut other = Buffer::new();
    let number = one.format(number).as_bytes();
    let next = other.format(next).as_bytes();
    text.extend_from_slice(b"(define (p")?;
    text.extend_from_slice(number)?;
    text.extend_from_slice(b" x) (if (= x 0) (cons ")?;
    text.extend_from_slice(number)?;
    text.extend_from_slice(b" '()) (cons x (p")?;
    text.extend_from_slice(next)?;
    text.extend_from_slice(b" (- x 1)))))\n")?;
    Ok(())
}

/// The five lines.
fn lines(alloc: Global, source: usize, sizes: Sizes, image: usize) -> Result<Vec<u8>, AllocError>
    ensures { IfOk result (λ text. text.items ≡ numbers_text source sizes.rows sizes.atoms sizes.rules image) }
{
    let mut text = Vec::new(alloc);
    put_number(&mut text, b"source ", source as u64)?;
    put_number(&mut text, b"rows ", u64::from(sizes.rows))?;
    put_number(&mut text, b"atoms ", u64::from(sizes.atoms))?;
    put_number(&mut text, b"rules ", sizes.rules as u64)?;
    put_number(&mut text, b"image ", image as u64)?;
    Ok(text)
}

/// Puts a line of a name and a number.
fn put_number(text: &mut Vec<u8>, name: &[u8], number: u64) -> Result<(), AllocError>
    ensures { OnOk result (text.new.items ≡ text.old.items ++ number_text name.now number) }
{
    let mut buffer = Buffer::new();
    let digits = buffer.format(number).as_bytes();
    text.extend_from_slice(name)?;
    text.extend_from_slice(digits)?;
    text.push(b'\n')?;
    Ok(())
}
