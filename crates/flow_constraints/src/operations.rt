//! The rules of operations.

ghost use Rattle.std.specs.Prelude.{◌≡◌, ◌++◌, OnOk, IfOk};
ghost use Rattle.flow_constraints.specs.Table.{making_rules, operand, prim_rules, read_rules, one_rules, reading_rules, results, write_rules, writing_rules};

use crate::Flow;
use crate::put::{
    CHARACTER, END_OF_FILE, FALSE, Guard, INTEGER, NAME, SYMBOL, TRUE, UNSPECIFIED, put_atom,
    put_row,
};
use flow_form::Rules;
use scheme_base::Op;
use std::alloc::AllocError;

/// An operation in a block: the guard of its rules, the atom of what it makes, if it makes something, and the
/// row of its value.
#[derive(Clone, Copy)]
pub(crate) struct Operation {
    pub(crate) guard: Guard,
    pub(crate) made: u32,
    pub(crate) value: u32,
}

/// The atoms of an operation's results that have no contents and come under no second test.
pub(crate) fn results(op: Op) -> &'static [u32]
    ensures { result.now ≡ results op }
{
    match op {
        Op::Eqv
        | Op::IsPair
        | Op::IsSymbol
        | Op::IsString
        | Op::IsVector
        | Op::IsProcedure
        | Op::IsInteger
        | Op::IsChar
        | Op::IsBoolean
        | Op::IsNull
        | Op::IsEof
        | Op::Equals
        | Op::Less => &[FALSE, TRUE],
        Op::SetCar | Op::SetCdr | Op::StringSet | Op::VectorSet | Op::WriteChar => &[UNSPECIFIED],
        Op::Add
        | Op::Subtract
        | Op::Multiply
        | Op::Quotient
        | Op::Remainder
        | Op::Modulo
        | Op::CharToInteger
        | Op::StringLength
        | Op::VectorLength => &[INTEGER],
        Op::IntegerToChar | Op::StringRef => &[CHARACTER],
        Op::ReadChar | Op::PeekChar => &[CHARACTER, END_OF_FILE],
        _ => &[],
    }
}

/// The row of an operand.
fn operand(flow: &Flow, operands: &[u32], place: usize) -> u32
    ensures { result ≡ operand flow.now operands.now place }
{
    match operands.get(place) {
        None => flow.var(0),
        Some(var) => flow.var(*var),
    }
}

/// The rules of an operation on these variables.
pub(crate) fn put_prim(
    flow: &Flow,
    rules: &mut Rules,
    operation: Operation,
    op: Op,
    operands: &[u32],
) -> Result<(), AllocError>
    ensures { OnOk result (rules.new ≡ rules.old ++ prim_rules flow.now operation op operands.now) }
{
    for atom in results(op) {
        put_atom(rules, operation.guard, *atom, operation.value)?;
    }
    put_made(flow, rules, operation, op, operands)?;
    put_reading(flow, rules, operation, op, operand(flow, operands, 0))?;
    put_writing(flow, rules, operation, op, operands)
}

/// The rules of an operation that makes an object.
fn put_made(
    flow: &Flow,
    rules: &mut Rules,
    operation: Operation,
    op: Op,
    operands: &[u32],
) -> Result<(), AllocError>
    ensures { OnOk result (rules.new ≡ rules.old ++ making_rules flow.now operation op operands.now) }
{
    match op {
        Op::Cons => {
            let car = operand(flow, operands, 0);
            let cdr = operand(flow, operands, 1);
            put_atom(rules, operation.guard, operation.made, operation.value)?;
            put_row(rules, operation.guard, car, flow.part(operation.made, 0)?)?;
            put_row(rules, operation.guard, cdr, flow.part(operation.made, 1)?)
        }
        Op::MakeVector => put_one(flow, rules, operation, operand(flow, operands, 1)),
        Op::MakeSymbol => put_one(flow, rules, operation, operand(flow, operands, 0)),
        Op::MakeString => put_atom(rules, operation.guard, operation.made, operation.value),
        _ => Ok(()),
    }
}

/// The rules of making an object that holds what stands in one row.
fn put_one(flow: &Flow, rules: &mut Rules, operation: Operation, row: u32) -> Result<(), AllocError>
    ensures { OnOk result (rules.new ≡ rules.old ++ one_rules flow.now operation row) }
{
    put_atom(rules, operation.guard, operation.made, operation.value)?;
    put_row(rules, operation.guard, row, flow.part(operation.made, 0)?)
}

/// The rules of an operation that reads a part of its first operand.
fn put_reading(
    flow: &Flow,
    rules: &mut Rules,
    operation: Operation,
    op: Op,
    row: u32,
) -> Result<(), AllocError>
    ensures { OnOk result (rules.new ≡ rules.old ++ reading_rules flow.now operation op row) }
{
    match op {
        Op::Car => put_reads(flow, rules, operation, flow.pairs.as_slice(), row, 0),
        Op::Cdr => put_reads(flow, rules, operation, flow.pairs.as_slice(), row, 1),
        Op::VectorRef => put_reads(flow, rules, operation, flow.vectors.as_slice(), row, 0),
        Op::SymbolName => {
            put_atom(
                rules,
                operation.guard.has(row, SYMBOL),
                NAME,
                operation.value,
            )?;
            put_reads(flow, rules, operation, flow.symbols.as_slice(), row, 0)
        }
        _ => Ok(()),
    }
}

/// The rules of reading a part of what stands in a row, for each of these atoms.
fn put_reads(
    flow: &Flow,
    rules: &mut Rules,
    operation: Operation,
    atoms: &[u32],
    row: u32,
    place: u32,
) -> Result<(), AllocError>
    ensures { OnOk result (rules.new ≡ rules.old ++ read_rules flow.now operation atoms.now row place) }
{
    for atom in atoms {
        let guard = operation.guard.has(row, *atom);
        put_row(rules, guard, flow.part(*atom, place)?, operation.value)?;
    }
    Ok(())
}

/// The rules of an operation that writes to its first operand.
fn put_writing(
    flow: &Flow,
    rules: &mut Rules,
    operation: Operation,
    op: Op,
    operands: &[u32],
) -> Result<(), AllocError>
    ensures { OnOk result (rules.new ≡ rules.old ++ writing_rules flow.now operation op operands.now) }
{
    let row = operand(flow, operands, 0);
    let second = operand(flow, operands, 1);
    let third = operand(flow, operands, 2);
    let pairs = flow.fresh_pairs.as_slice();
    let vectors = flow.fresh_vectors.as_slice();
    match op {
        Op::SetCar => put_writes(flow, rules, operation.guard, pairs, row, second, 0),
        Op::SetCdr => put_writes(flow, rules, operation.guard, pairs, row, second, 1),
        Op::VectorSet => put_writes(flow, rules, operation.guard, vectors, row, third, 0),
        _ => Ok(()),
    }
}

/// The rules of writing what stands in the row `from` to a part of what stands in a row, for each of these atoms.
fn put_writes(
    flow: &Flow,
    rules: &mut Rules,
    guard: Guard,
    atoms: &[u32],
    row: u32,
    from: u32,
    place: u32,
) -> Result<(), AllocError>
    ensures { OnOk result (rules.new ≡ rules.old ++ write_rules flow.now guard atoms.now row from place) }
{
    for atom in atoms {
        put_row(rules, guard.has(row, *atom), from, flow.part(*atom, place)?)?;
    }
    Ok(())
}
