//! Programs with their cores or their first broken forms.

mod rows;

use core_form::core_text;
use datum_form::FormErr;
use datum_reader::read_program;
use scheme_expand::expand;
use std::alloc::Global;
use std::test::Fail;

/// The text of a program's core, or its first broken form.
fn answer(alloc: Global, text: &[u8]) -> Result<Vec<u8>, Fail> {
    let Ok(datums) = read_program(alloc, text) else {
        return Err("not read".into());
    };
    match expand(alloc, &datums) {
        Ok(core) => Ok(core_text(alloc, &core)?),
        Err(FormErr::Broken { pos, rule }) => {
            let (line, col) = (pos.line, pos.col);
            let told = format!(in alloc; "rule {rule} at {line}:{col}")?;
            Ok(told.as_bytes().to_vec(alloc)?)
        }
        Err(FormErr::NoMemory) => Err("no memory".into()),
    }
}

/// Whether each program of a table has the answer that stands beside it.
fn are_answered(alloc: Global, table: &[(&[u8], &[u8])]) -> Result<bool, Fail> {
    for (text, want) in table {
        if answer(alloc, text)?.as_slice() != *want {
            return Ok(false);
        }
    }
    Ok(true)
}

#[test]
fn simple_forms(rt: HostRuntime) -> Result<(), Fail> {
    assert!(rt; are_answered(rt.alloc(), &rows::SIMPLE)?);
    Ok(())
}

#[test]
fn binding_forms(rt: HostRuntime) -> Result<(), Fail> {
    assert!(rt; are_answered(rt.alloc(), &rows::BINDING)?);
    Ok(())
}

#[test]
fn choices(rt: HostRuntime) -> Result<(), Fail> {
    assert!(rt; are_answered(rt.alloc(), &rows::CHOICE)?);
    Ok(())
}

#[test]
fn templates(rt: HostRuntime) -> Result<(), Fail> {
    assert!(rt; are_answered(rt.alloc(), &rows::TEMPLATES)?);
    Ok(())
}

#[test]
fn calls(rt: HostRuntime) -> Result<(), Fail> {
    assert!(rt; are_answered(rt.alloc(), &rows::CALLS)?);
    Ok(())
}

#[test]
fn faults_of_rules_1_to_4(rt: HostRuntime) -> Result<(), Fail> {
    assert!(rt; are_answered(rt.alloc(), &rows::FAULTS_OF_RULES_1_TO_4)?);
    Ok(())
}

#[test]
fn faults_of_rules_5_to_7(rt: HostRuntime) -> Result<(), Fail> {
    assert!(rt; are_answered(rt.alloc(), &rows::FAULTS_OF_RULES_5_TO_7)?);
    Ok(())
}

#[test]
fn faults_of_rules_8_to_10(rt: HostRuntime) -> Result<(), Fail> {
    assert!(rt; are_answered(rt.alloc(), &rows::FAULTS_OF_RULES_8_TO_10)?);
    Ok(())
}

#[test]
fn faults_of_rules_11_to_16(rt: HostRuntime) -> Result<(), Fail> {
    assert!(rt; are_answered(rt.alloc(), &rows::FAULTS_OF_RULES_11_TO_16)?);
    Ok(())
}
