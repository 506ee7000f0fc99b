//! The code of all procedures, made in halves side by side and put together in order.

ghost use Rattle.std.specs.Prelude.{◌≡◌, ◌+◌, ◌<◌, ◌^◌, IfOk};
ghost use Rattle.std.specs.Thread.{IsSync};
ghost use Rattle.image_build.specs.Emitted.{codes_from};

use const_data::Offsets;
use flat_form::Flat;
use rv_asm::Asm;
use std::alloc::{AllocError, Global};
use std::thread::{Threads, join};
use tail_codegen::code_at;

/// The code of `count` procedures, from number `first` on. At most `workers` threads work on it.
pub(crate) fn codes<R: Threads + Sync>(
    rt: &R,
    alloc: Global,
    flat: &Flat,
    offsets: &Offsets,
    first: u32,
    count: u32,
    workers: u32,
) -> Result<Vec<Asm>, AllocError>
    requires { first + count < 2 ^ 32 }
    ensures { IfOk result (λ codes. codes.items ≡ codes_from flat.now offsets.now first count) }
{
    if workers < 2 || count < 2 {
        return in_order(alloc, flat, offsets, first, count);
    }
    let half = count / 2;
    let others = count - half;
    let helpers = workers / 2;
    let left = workers - helpers;
    let (one, two) = join(
        rt,
        || -> Result<Vec<Asm>, AllocError>
            requires { IsSync R.row × (first + half < 2 ^ 32) }
            ensures { IfOk result (λ codes. codes.items ≡ codes_from flat.entry.now offsets.entry.now first half) }
        { codes(rt, alloc, flat, offsets, first, half, helpers) },
        || -> Result<Vec<Asm>, AllocError>
            requires { IsSync R.row × (first + half + others < 2 ^ 32) }
            ensures { IfOk result (λ codes. codes.items ≡ codes_from flat.entry.now offsets.entry.now (first + half) others) }
        { codes(rt, alloc, flat, offsets, first + half, others, left) },
    );
    let mut all = one?;
    let mut more = two?;
    all.append(&mut more)?;
    Ok(all)
}

/// The code of `count` procedures, from number `first` on, in order.
fn in_order(
    alloc: Global,
    flat: &Flat,
    offsets: &Offsets,
    first: u32,
    count: u32,
) -> Result<Vec<Asm>, AllocError>
    requires { first + count < 2 ^ 32 }
    ensures { IfOk result (λ codes. codes.items ≡ codes_from flat.now offsets.now first count) }
{
    let mut all = Vec::new(alloc);
    for proc in first..first + count {
        all.push(code_at(alloc, flat, offsets, proc)?)?;
    }
    Ok(all)
}
