ghost use Rattle.std.specs.Prelude.{◌≡◌, IfOk, IfErr};
ghost use Rattle.elf_write.specs.Fields.{headers_place, headers_count};
ghost use Rattle.elf_write.specs.Valid.{IsValid};
ghost use Rattle.elf_write.specs.Reading.{HasHeader, Taken, loaded, HoldsImage, Breaks, OneAnswer};

use crate::ElfErr;
use crate::fields::long;
use crate::header::{PROGRAM_HEADER, Table, program_header, read_header};
use crate::segments::{Loaded, is_entry};
use rv_form::{Image, Segments};
use std::alloc::Global;

/// The image in a file's bytes.
pub fn read(alloc: Global, bytes: &[u8]) -> Result<Image, ElfErr>
    ensures image { IfOk result (λ image. HoldsImage bytes.now image) }
    ensures valid { IfOk result (λ image. IsValid image) }
    ensures fault { IfErr result (λ err. Breaks bytes.now err) }
{
    let table = read_header(bytes)?;
    let segments = read_segments(alloc, bytes, table)?;
    let entry = long(bytes, 24);
    if !is_entry(segments.as_slice(), entry) {
        return Err(ElfErr::Entry);
    }
    Ok(Image { entry, segments })
}

/// The segments of the program headers, in their order.
fn read_segments(alloc: Global, bytes: &[u8], table: Table) -> Result<Segments, ElfErr>
    requires header { HasHeader bytes.now }
    requires place { table.place ≡ headers_place bytes.now }
    requires count { table.count ≡ headers_count bytes.now }
    ensures segments { IfOk result (λ segments. segments ≡ loaded bytes.now (headers_count bytes.now)) }
    ensures taken { IfOk result (λ segments. Taken bytes.now (headers_count bytes.now)) }
    ensures fault { IfErr result (λ err. Breaks bytes.now err) }
{
    let mut loaded = Loaded::new(alloc);
    for index in 0..table.count {
        let header = program_header(bytes, table.place + PROGRAM_HEADER * usize::from(index));
        if !loaded.takes(bytes.len(), &header) {
            return Err(ElfErr::Segment { index });
        }
        loaded.add(alloc, bytes, &header)?;
    }
    Ok(loaded.segments)
}

/// The law of reading: bytes have one answer.
pub fn one_answer(bytes: &[u8])
    ensures { OneAnswer bytes.now }
{
    let _ = bytes;
}
