//! The flow constraints of a program of many procedures, each of which calls the next, and the last the first.

ghost use Rattle.core_form.specs.Text.{HasText};

use alpha_core::rename;
use box_name::name;
use core_form::Core;
use datum_form::Datums;
use datum_reader::read_program;
use flow_constraints::generate;
use flow_form::Constraints;
use itoa::Buffer;
use named_form::Named;
use scheme_expand::expand;
use std::alloc::{AllocError, Global};

/// The constraints of the program of so many procedures, if they are within the limits.
pub(crate) fn constraints(alloc: Global, count: u64) -> Result<Option<Constraints>, AllocError> {
    let program = program_of(alloc, count)?;
    let Ok(data) = read_program(alloc, program.as_slice()) else {
        return Ok(None);
    };
    match named_data(alloc, &data) {
        Some(named) => Ok(generate(alloc, &named).ok()),
        None => Ok(None),
    }
}

fn named_data(alloc: Global, data: &Datums) -> Option<Named> {
    match expand(alloc, data) {
        Ok(core) => named_core(alloc, &core),
        Err(_) => None,
    }
}

fn named_core(alloc: Global, core: &Core) -> Option<Named>
    requires { HasText core.now }
{
    match rename(alloc, core) {
        Ok(renamed) => name(alloc, &renamed).ok(),
        Err(_) => None,
    }
}

/// The program of so many procedures.
fn program_of(alloc: Global, count: u64) -> Result<Vec<u8>, AllocError> {
    let mut text = Vec::new(alloc);
    for number in 0..count {
        let next = if number + 1 == count { 0 } else { number + 1 };
        put_procedure(&mut text, number, next)?;
    }
    text.extend_from_slice(b"(write (p0 5))\n")?;
    Ok(text)
}

/// Puts the procedure of a number, which calls that of the next one.
fn put_procedure(text: &mut Vec<u8>, number: u64, next: u64) -> Result<(), AllocError> {
    let mut one = Buffer::new();
    let mut other = Buffer::new();
    let number = one.format(number).as_bytes();
    let next = other.format(next).as_bytes();
    text.extend_from_slice(b"(define (p")?;
    text.extend_from_slice(number)?;
    text.extend_from_slice(b" x) (if (= x 0) (cons ")?;
    text.extend_from_slice(number)?;
    text.extend_from_slice(b" '()) (cons x (p")?;
    text.extend_from_slice(next)?;
    text.extend_from_slice(b" (- x 1)))))\n")?;
    Ok(())
}
