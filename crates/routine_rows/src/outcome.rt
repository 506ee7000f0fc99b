//! Whether a row comes out as it says.

use crate::image::image_of;
use crate::row::{Ends, Row, Value};
use rv_emulator::{RunEnd, load};
use rv_form::Image;
use stalin_outside::MemConsole;
use std::alloc::Global;
use std::io;

/// How many steps a row may take.
const STEPS: u64 = 10_000_000;

/// How many bytes a row may write.
const ROOM: usize = 4096;

/// What a row comes to.
#[derive(Drop)]
struct Outcome {
    /// Its status; 254 where it has not ended, 255 where it stopped in another way.
    status: u8,
    console: MemConsole,
    /// Where the data and the heap begin.
    data: u64,
    heap: u64,
}

/// Whether a row comes out as it says.
pub(crate) fn agrees(alloc: Global, row: &Row) -> io::Result<bool> {
    let outcome = outcome_of(alloc, row)?;
    Ok(outcome.is_as_said(row))
}

fn outcome_of(alloc: Global, row: &Row) -> io::Result<Outcome> {
    let image = image_of(alloc, row)?;
    let failing = row.failing.as_slice();
    let mut console = MemConsole::new(alloc, row.input.as_slice(), ROOM, failing)?;
    let mut machine = load(alloc, &image)?;
    let status = match machine.run(STEPS, &mut console) {
        RunEnd::Ended { status } => status,
        RunEnd::Spent { .. } => 254,
        RunEnd::Trapped { .. } => 255,
    };
    let (data, heap) = places(&image);
    Ok(Outcome {
        status,
        console,
        data,
        heap,
    })
}

/// Where an image's data and its heap begin.
fn places(image: &Image) -> (u64, u64) {
    match image.segments.get(1) {
        Some(segment) => {
            let heap = segment.vaddr.wrapping_add(segment.bytes.len() as u64);
            (segment.vaddr, heap)
        }
        None => (0, 0),
    }
}

impl Outcome {
    fn is_as_said(&self, row: &Row) -> bool {
        let output = row.output.as_slice();
        match &row.ends {
            Ends::Shows(values) | Ends::Called(values) => {
                self.ends(0, b"") && self.shows(output, values.as_slice(), row.heap)
            }
            Ends::Error(number) => {
                self.status == 1 && is_report(self.console.errors(), *number) && self.wrote(output)
            }
            Ends::Storage => self.ends(2, b"storage\n") && self.wrote(output),
            Ends::Io => self.ends(3, b"io\n") && self.wrote(output),
        }
    }

    /// Whether the run ended with this status and this report.
    fn ends(&self, status: u8, report: &[u8]) -> bool {
        self.status == status && self.console.errors() == report
    }

    fn wrote(&self, output: &[u8]) -> bool {
        self.console.output() == output
    }

    /// Whether these bytes and then these words were written, and no more.
    fn shows(&self, output: &[u8], values: &[Value], heap: u64) -> bool {
        let Some(mut left) = self.console.output().strip_prefix(output) else {
            return false;
        };
        for value in values {
            let word = self.number_of(*value, heap).to_le_bytes();
            match left.strip_prefix(word.as_slice()) {
                Some(rest) => left = rest,
                None => return false,
            }
        }
        left.is_empty()
    }

    /// The number that a word stands for.
    fn number_of(&self, value: Value, heap: u64) -> u64 {
        match value {
            Value::Number(number) => number,
            Value::Data(word, add) => {
                let place = self.data.wrapping_add(8 * u64::from(word));
                place.wrapping_add_signed(add)
            }
            Value::Start(add) => self.heap.wrapping_add_signed(add),
            Value::End(add) => self.heap.wrapping_add(heap).wrapping_add_signed(add),
        }
    }
}

/// Whether a text is the report of the error of this number at 12:34.
fn is_report(text: &[u8], number: u8) -> bool {
    match text.strip_prefix(b"error ") {
        Some(rest) => match rest.split_first() {
            Some((digit, rest)) => *digit == number.wrapping_add(b'0')
                && rest == b" at 12:34\n".as_slice(),
            None => false,
        },
        None => false,
    }
}
