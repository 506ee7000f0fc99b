ghost use Rattle.std.specs.Prelude.{◌≡◌, ◌≤◌, ◌<◌, ◌-◌, ◌||◌, not, length, IfOk, false};
ghost use Rattle.std.specs.List.{take_while};
ghost use Rattle.datum_form.specs.Text.{quoted};
ghost use Rattle.datum_reader.specs.Strings.{is_plain, is_escaped, quoted_of, ended, within};

use scheme_base::{Bytes, List};
use std::alloc::{AllocError, Global};

/// What follows the quote mark that begins a string.
#[derive(Debug, Drop)]
pub(crate) enum Quoted {
    /// The string's bytes, and how many bytes stand for them, with the quote mark that ends it.
    Closed(Bytes, usize),
    /// Some `\` stands before another byte than `"` and `\`.
    BadEscape,
    NeverClosed,
}

fn is_plain(byte: u8) -> bool
    ensures { result ≡ is_plain byte }
{
    byte != b'"' && byte != b'\\'
}

fn is_escaped(byte: u8) -> bool
    ensures { result ≡ is_escaped byte }
{
    byte == b'"' || byte == b'\\'
}

/// How many bytes stand before the first `"` or `\`.
fn plain_length(text: &[u8]) -> usize
    ensures value { result ≡ length (take_while (λ b. is_plain b) text.now) }
    ensures within { result ≤ length text.now }
{
    text.iter().take_while(|byte| is_plain(**byte)).count()
}

/// Whether an escape has been bad, after an escape of this byte.
fn bad_after(bad: bool, escaped: u8) -> bool
    ensures { result ≡ (bad || not (is_escaped escaped)) }
{
    bad || !is_escaped(escaped)
}

fn ended(bad: bool, bytes: Bytes, length: usize) -> Quoted
    ensures { quoted_of result ≡ ended bad bytes length }
{
    if bad {
        Quoted::BadEscape
    } else {
        Quoted::Closed(bytes, length)
    }
}

/// Reads what follows the quote mark that begins a string.
pub(crate) fn read_string(alloc: Global, text: &[u8]) -> Result<Quoted, AllocError>
    ensures value { IfOk result (λ found. quoted false text.now ≡ quoted_of found) }
    ensures within { IfOk result (λ found. within found (length text.now)) }
{
    let mut bytes = List::new(alloc);
    let mut bad = false;
    let mut rest = text;
    loop {
        let (plain, others) = rest.split_at(plain_length(rest));
        bytes.extend_from_slice(plain)?;
        let Some((mark, after)) = others.split_first() else {
            return Ok(Quoted::NeverClosed);
        };
        if *mark == b'"' {
            return Ok(ended(bad, bytes, text.len() - after.len()));
        }
        let Some((escaped, next)) = after.split_first() else {
            return Ok(Quoted::NeverClosed);
        };
        bad = bad_after(bad, *escaped);
        bytes.push(*escaped)?;
        rest = next;
    }
}
