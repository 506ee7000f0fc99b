ghost use Rattle.std.specs.Prelude.{◌≡◌, ◌++◌, ◌∷◌, [], OnOk};
ghost use Rattle.std.specs.Fmt.{signed_decimal};
ghost use Rattle.scheme_base.specs.AtomText.{boolean_text, character_text, escaped_text, string_text};

use itoa::Buffer;
use std::alloc::AllocError;

/// Writes a whole number in decimal. The text may hold a part of it where memory runs out, as with the others.
pub fn write_integer(value: i64, text: &mut Vec<u8>) -> Result<(), AllocError>
    ensures { OnOk result (text.new.items ≡ text.old.items ++ signed_decimal value) }
{
    let mut buffer = Buffer::new();
    text.extend_from_slice(buffer.format(value).as_bytes())?;
    Ok(())
}

/// Writes a boolean.
pub fn write_boolean(value: bool, text: &mut Vec<u8>) -> Result<(), AllocError>
    ensures { OnOk result (text.new.items ≡ text.old.items ++ boolean_text value) }
{
    if value {
        text.extend_from_slice(b"#t")?;
    } else {
        text.extend_from_slice(b"#f")?;
    }
    Ok(())
}

/// Writes a character: the space and the line end by their names, each other by its byte.
pub fn write_character(byte: u8, text: &mut Vec<u8>) -> Result<(), AllocError>
    ensures { OnOk result (text.new.items ≡ text.old.items ++ character_text byte) }
{
    if byte == b' ' {
        text.extend_from_slice(b"#\\space")?;
    } else if byte == b'\n' {
        text.extend_from_slice(b"#\\newline")?;
    } else {
        text.extend_from_slice(&[b'#', b'\\', byte])?;
    }
    Ok(())
}

/// Writes a string with its quotes and escapes.
pub fn write_string(bytes: &[u8], text: &mut Vec<u8>) -> Result<(), AllocError>
    ensures { OnOk result (text.new.items ≡ text.old.items ++ string_text bytes.now) }
{
    text.push(b'"')?;
    let mut rest = bytes;
    while let Some((first, others)) = rest.split_first() {
        write_escaped(*first, text)?;
        rest = others;
    }
    text.push(b'"')?;
    Ok(())
}

/// Writes a byte of a string.
fn write_escaped(byte: u8, text: &mut Vec<u8>) -> Result<(), AllocError>
    ensures { OnOk result (text.new.items ≡ text.old.items ++ escaped_text (byte ∷ [])) }
{
    if byte == b'"' || byte == b'\\' {
        text.extend_from_slice(&[b'\\', byte])?;
    } else {
        text.push(byte)?;
    }
    Ok(())
}
