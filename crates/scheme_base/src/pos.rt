ghost use Rattle.std.specs.Prelude.{◌≡◌, ◌+◌, ◌^◌, ◌<◌, ◌≤◌, length};
ghost use Rattle.scheme_base.specs.Positions.{after_byte, position_after};

/// A position in a text: its line, and its byte in that line, both counted from 1. Byte 10 ends a line.
#[derive(Clone, Copy, Debug, PartialEq, Eq)]
pub struct Pos {
    pub line: u32,
    pub col: u32,
}

impl Pos {
    /// The position after a text that begins at this position.
    pub fn after(self, text: &[u8]) -> Pos
        requires line { self.line + length text.now < 2 ^ 32 }
        requires col { self.col + length text.now < 2 ^ 32 }
        ensures value { result ≡ position_after self text.now }
        ensures line { result.line ≤ self.line + length text.now }
        ensures col { result.col ≤ self.col + length text.now }
    {
        let mut pos = self;
        let mut rest = text;
        while let Some((first, others)) = rest.split_first() {
            pos = after_byte(pos, *first);
            rest = others;
        }
        pos
    }
}

/// The position after a byte at this position.
fn after_byte(pos: Pos, byte: u8) -> Pos
    requires line { pos.line + 1 < 2 ^ 32 }
    requires col { pos.col + 1 < 2 ^ 32 }
    ensures { result ≡ after_byte pos byte }
{
    if byte == b'\n' {
        Pos {
            line: pos.line + 1,
            col: 1,
        }
    } else {
        Pos {
            line: pos.line,
            col: pos.col + 1,
        }
    }
}
