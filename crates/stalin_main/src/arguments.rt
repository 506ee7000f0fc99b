use scheme_base::Words;
use std::alloc::{AllocError, Global};
use std::env::{Env, FillError};
use std::str;

/// How many bytes an argument may have at first; a longer one makes the room double.
const ROOM: usize = 256;

/// How often the room may double before it passes the size of memory.
const DOUBLINGS: u32 = 64;

/// The words of the command: the arguments of the process without the program's own name.
///
/// An argument that is not UTF-8 is the empty word, which no command takes.
pub(crate) fn words<R: Env>(rt: &R, alloc: Global) -> Result<Words, AllocError> {
    let mut words = Words::new(alloc)?;
    let mut room = vec![in alloc; 0u8; ROOM]?;
    for at in 1..usize::MAX {
        let Some(len) = fill(rt, at, &mut room)? else {
            break;
        };
        let word = room.get(..len).ok_or(AllocError)?;
        words.push(str::from_utf8(word).unwrap_or(""))?;
    }
    Ok(words)
}

/// Copies an argument to the front of `room`, which grows as it needs to, and tells its length; or
/// tells that there is none.
fn fill<R: Env>(rt: &R, at: usize, room: &mut Vec<u8>) -> Result<Option<usize>, AllocError> {
    for _doubling in 0..DOUBLINGS {
        match rt.arg(at, room.as_mut_slice()) {
            Ok(len) => return Ok(Some(len)),
            Err(FillError::NotPresent) => return Ok(None),
            Err(FillError::TooLong) => {
                let size = room.len().checked_mul(2).ok_or(AllocError)?;
                room.resize(size, 0)?;
            }
        }
    }
    Err(AllocError)
}

#[cfg(test)]
mod tests {
    use super::*;
    use std::test::Fail;

    /// A process with these arguments after its name.
    #[derive(Drop)]
    struct Given {
        arguments: [&'static [u8]; 4],
    }

    impl Env for Given {
        fn arg(&self, i: usize, buf: &mut [u8]) -> Result<usize, FillError> {
            if i == 0 || i > self.arguments.len() {
                return Err(FillError::NotPresent);
            }
            let argument = self.arguments[i - 1];
            if argument.len() > buf.len() {
                return Err(FillError::TooLong);
            }
            buf[..argument.len()].copy_from_slice(argument);
            Ok(argument.len())
        }

        fn var(&self, _name: &str, _buf: &mut [u8]) -> Result<usize, FillError> {
            Err(FillError::NotPresent)
        }

        fn var_at(&self, _i: usize, _buf: &mut [u8]) -> Result<usize, FillError> {
            Err(FillError::NotPresent)
        }
    }

    #[test]
    fn words_are_the_arguments(rt: HostRuntime) -> Result<(), Fail> {
        let long = [b'a'; 1000];
        let given = Given {
            arguments: [b"compile", b"a\xffb", b"\xc3\xa9", &[b'a'; 1000]],
        };
        let words = words(&given, rt.alloc())?;
        assert_eq!(rt; words.len(), 4);
        assert_eq!(rt; words.word(0), Some("compile"));
        assert_eq!(rt; words.word(1), Some(""));
        assert_eq!(rt; words.word(2), Some("\u{e9}"));
        assert_eq!(rt; words.word(3).map(|word| word.len()), Some(long.len()));
        Ok(())
    }
}
