//! From the text of a program to the bytes of its image.

ghost use Rattle.std.specs.Prelude.{◌≡◌, ◌≤◌, ◌<◌, ◌%◌, ◌^◌, IfOk, IfErr, IsTrue};
ghost use Rattle.elf_write.specs.File.{file_of as file_bytes};
ghost use Rattle.elf_write.specs.Valid.{IsValid};
ghost use Rattle.rv_asm.specs.Layout.{AreSound, items_of};
ghost use Rattle.named_form.specs.Valid.{WellFormed};
ghost use Rattle.named_form.specs.Written.{form};
ghost use Rattle.flow_workers.specs.Rounds.{IsSolved};
ghost use Rattle.image_build.specs.Emitted.{Emitted, IsFlat, IsImage, IsRuled, IsUnlaid, Refuses, text_with};

use crate::codes::codes;
use crate::error::limit_error;
use crate::plan::plan_of;
use crate::{Analysis, BuildErr, analyse};
use closure_conv::flatten;
use const_data::{Offsets, static_words};
use flat_form::Flat;
use image_support::support;
use rv_asm::{Asm, Parts, is_sound, layout};
use rv_form::Image;
use scheme_base::LimitErr;
use stalin_outside::Gate;
use std::alloc::{AllocError, AllocGlobal, Global};
use std::thread::Threads;

/// The file of the image of the program that a text is, with a heap of so many bytes. Up to `workers`
/// threads work on it, from 1 to 32; the file is the same for every number of them.
pub fn build<R: AllocGlobal + Threads + Sync, G: Gate>(
    rt: &R,
    alloc: Global,
    source: &[u8],
    heap: u64,
    workers: u32,
    gate: &G,
) -> Result<Vec<u8>, BuildErr>
    requires least { 4096 ≤ heap }
    requires most { heap ≤ 2 ^ 30 }
    requires aligned { heap % 16 ≡ 0 }
    requires some { 1 ≤ workers }
    requires few { workers ≤ 32 }
    ensures built { IfOk result (λ file. Emitted source.now heap file.items) }
    ensures refused { IfErr result (λ error. Refuses source.now heap error) }
{
    let analysis = match analyse(rt, alloc, source, workers, gate) {
        Ok(analysis) => analysis,
        Err(error) => return Err(error),
    };
    let Ok(flat) = flat_of(alloc, &analysis) else {
        return Err(BuildErr::NoMemory);
    };
    match image_of(rt, alloc, &flat, heap, workers) {
        Ok(image) => file_of(alloc, &image),
        Err(error) => Err(limit_error(error)),
    }
}

/// The flat form of a well-formed program under the storage plan of its analysis.
fn flat_of(alloc: Global, analysis: &Analysis) -> Result<Flat, AllocError>
    requires well_formed { WellFormed (form analysis.now.named) }
    requires ruled { IsRuled analysis.now.named analysis.now.constraints }
    requires solved { IsSolved analysis.now.constraints analysis.now.closed }
    ensures { IfOk result (IsFlat analysis.now.named) }
{
    let plan = plan_of(alloc, &analysis.named, analysis.closed.rows())?;
    flatten(alloc, &analysis.named, &plan)
}

/// The image of a flat program.
fn image_of<R: AllocGlobal + Threads + Sync>(
    rt: &R,
    alloc: Global,
    flat: &Flat,
    heap: u64,
    workers: u32,
) -> Result<Image, LimitErr>
    requires { heap ≤ 2 ^ 30 }
    ensures image { IfOk result (IsImage flat.now heap) }
    ensures limit { IfErr result (IsUnlaid flat.now) }
{
    let Ok(offsets) = Offsets::of(alloc, flat) else {
        return Err(LimitErr::NoMemory);
    };
    let Ok(words) = static_words(alloc, flat) else {
        return Err(LimitErr::NoMemory);
    };
    let Ok(parts) = parts_of(rt, alloc, flat, &offsets, workers) else {
        return Err(LimitErr::NoMemory);
    };
    layout(alloc, &parts, &words, heap)
}

/// The file of an image.
fn file_of(alloc: Global, image: &Image) -> Result<Vec<u8>, BuildErr>
    requires { IsValid image.now }
    ensures written { IfOk result (λ file. file.items ≡ file_bytes image.now) }
    ensures refused { IfErr result (λ error. error ≡ BuildErr.NoMemory) }
{
    match elf_write::write(alloc, image) {
        Ok(file) => Ok(file),
        Err(_) => Err(BuildErr::NoMemory),
    }
}

/// The text of a program in its parts: the routines, then each procedure.
fn parts_of<R: AllocGlobal + Threads + Sync>(
    rt: &R,
    alloc: Global,
    flat: &Flat,
    offsets: &Offsets,
    workers: u32,
) -> Result<Parts, AllocError>
    ensures text { IfOk result (λ parts. parts ≡ text_with flat.now offsets.now) }
    ensures sound { IfOk result (λ parts. AreSound (items_of parts)) }
{
    let Ok(count) = u32::try_from(flat.procs.len()) else {
        return Err(AllocError);
    };
    let mut all = Vec::new(alloc);
    all.push(support(alloc)?)?;
    let mut procedures = codes(rt, alloc, flat, offsets, 0, count, workers)?;
    all.append(&mut procedures)?;
    if are_sound(all.as_slice()) {
        Ok(Parts::from_vec(all))
    } else {
        Err(AllocError)
    }
}

/// Whether all pieces of code may be laid out.
fn are_sound(parts: &[Asm]) -> bool
    ensures { IsTrue result → AreSound (items_of parts.now) }
{
    let mut left = parts;
    while let Some((part, others)) = left.split_first() {
        if !is_sound(part.as_slice()) {
            return false;
        }
        left = others;
    }
    true
}
