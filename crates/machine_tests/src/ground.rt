//! Words, lists, operations, atoms and positions.

use scheme_base::{
    ErrKind, List, Op, Pos, Words, write_boolean, write_character, write_integer, write_string,
};
use std::test::Fail;

#[test]
fn calls_succeed(rt: HostRuntime) -> Result<(), Fail> {
    let alloc = rt.alloc();
    let mut words = Words::new(alloc)?;
    words.push("compile")?;
    words.push("")?;
    assert_eq!(rt; words.len(), 2);
    assert_eq!(rt; words.word(0), Some("compile"));
    assert_eq!(rt; words.word(1), Some(""));
    assert_eq!(rt; words.word(2), None);

    let mut bytes = List::from_vec(vec![in alloc; 1u8]?);
    bytes.push(2)?;
    bytes.extend_from_slice(&[3, 4])?;
    assert_eq!(rt; bytes.as_slice(), [1u8, 2, 3, 4].as_slice());
    Ok(())
}

#[test]
fn operations_have_their_names_and_counts(rt: HostRuntime) -> Result<(), Fail> {
    assert_eq!(rt; Op::Eqv.name(), "%eqv?");
    assert_eq!(rt; Op::CallCC.name(), "%call/cc");
    assert_eq!(rt; Op::ReadChar.operands(), 0);
    assert_eq!(rt; Op::VectorSet.operands(), 3);
    assert_eq!(rt; ErrKind::ZeroDivisor.number(), 7);
    Ok(())
}

#[test]
fn atoms_are_written_and_positions_found(rt: HostRuntime) -> Result<(), Fail> {
    let mut text = Vec::new(rt.alloc());
    write_integer(-12, &mut text)?;
    write_boolean(true, &mut text)?;
    write_character(b'\n', &mut text)?;
    write_string(b"a\"", &mut text)?;
    assert_eq!(rt; text.as_slice(), b"-12#t#\\newline\"a\\\"\"".as_slice());

    let start = Pos { line: 1, col: 1 };
    let end = start.after(b"a\nbc");
    assert_eq!(rt; end, Pos { line: 2, col: 3 });
    Ok(())
}
