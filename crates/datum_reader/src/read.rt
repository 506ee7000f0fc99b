ghost use Rattle.std.specs.Prelude.{◌≡◌, ◌≤◌, length, Err};
ghost use Rattle.datum_form.specs.Data.{Items};
ghost use Rattle.datum_reader.specs.declared.error.ReadErr.{ReadErr};
ghost use Rattle.datum_reader.specs.Answer.{max_length, Reads, ReadFault, Answers, AreData, OrNoMemory};

use crate::ReadErr;
use crate::lexer::{Next, Spot, next_token};
use crate::reading::{Reading, Taken};
use datum_form::Datums;
use scheme_base::Pos;
use std::alloc::Global;

/// The most bytes of a text.
const MAX_LENGTH: usize = 1 << 20;

/// Where a text begins.
const START: Pos = Pos { line: 1, col: 1 };

/// The data of a text, or its first fault.
///
/// A text has at most 2^20 bytes, which is looked at first, and its lists, vectors and marks are nested at
/// most 1,000 deep. The text is read once, from left to right, and what is open stands in a list.
pub fn read_program(alloc: Global, bytes: &[u8]) -> Result<Datums, ReadErr>
    ensures answer { Answers bytes.now result }
    ensures data { (d : Items) → Reads bytes.now d → OrNoMemory (AreData d) result }
    ensures fault { (e : ReadErr) → ReadFault bytes.now e → OrNoMemory (λ answer. answer ≡ Err e) result }
{
    if bytes.len() > MAX_LENGTH {
        return Err(ReadErr::TooLong {
            len: bytes.len() as u64,
        });
    }
    read_short(alloc, bytes)
}

/// The data of a text that is not too long.
fn read_short(alloc: Global, text: &[u8]) -> Result<Datums, ReadErr>
    requires { length text.now ≤ max_length }
    ensures { Answers text.now result }
{
    let mut reading = Reading::new(alloc);
    let mut spot = Spot {
        rest: text,
        pos: START,
    };
    loop {
        let Ok(next) = next_token(alloc, spot) else {
            return Err(ReadErr::NoMemory);
        };
        let (token, after) = match next {
            Next::Token(token, after) => (token, after),
            Next::End => return reading.finish(),
            Next::BadToken(pos) => return Err(ReadErr::BadToken { pos }),
            Next::BadNumber(pos) => return Err(ReadErr::NumberRange { pos }),
            Next::OpenString(pos) => return Err(ReadErr::Unclosed { pos }),
        };
        let pos = token.pos();
        let Ok(taken) = reading.take(alloc, token) else {
            return Err(ReadErr::NoMemory);
        };
        match taken {
            Taken::Goes => spot = after,
            Taken::Stray => return Err(ReadErr::Stray { pos }),
            Taken::Deep => return Err(ReadErr::TooDeep { pos }),
        }
    }
}
