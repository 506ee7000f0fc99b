//! Reading a source, and analysing it or building its image.
ghost use Rattle.std.specs.Prelude.{◌≡◌, ◌∷◌, MatchResult, IfOk, IfErr, Err};
ghost use Rattle.stalin_outside.specs.Causes.{HasCause};
ghost use Rattle.stalin_outside.specs.declared.shelf.Ask.TheVariants.{ToRead};
ghost use Rattle.stalin_outside.specs.Shelf.{SameFiles};
ghost use Rattle.image_build.specs.Emitted.{Unanalysed};
ghost use Rattle.stalin_top.specs.Given.{IsBuildable, IsWorkable};
ghost use Rattle.stalin_top.specs.Source.{AsksSource, IsBuilt, IsOfSource, IsSource, IsUnread, StopsAs, StopsBy, answer_to};

use crate::answer::{Answer, Refusal};
use image_build::{Analysis, BuildErr, analyse, build};
use scheme_base::{Bytes, Limit, LimitKind};
use stalin_outside::{Gate, Reading, Shelf, read_file};
use std::alloc::{AllocGlobal, Global};
use std::thread::Threads;

/// The most bytes that a source may have.
const MOST: usize = 0x10_0000;

/// What a source of more bytes than there may be passes.
const LIMIT: Limit = Limit {
    which: LimitKind::Source,
    count: MOST as u64 + 1,
};

/// The image file of the program in the file `source`, or the answer to one that has none.
#[tactic(auto, using(crate::proofs::Stops::unread))]
pub(crate) fn build_source<R: AllocGlobal + Threads + Sync, H: Shelf, G: Gate>(
    rt: &R,
    alloc: Global,
    shelf: &mut H,
    source: &str,
    workers: u32,
    heap: u64,
    gate: &G,
) -> Result<Vec<u8>, Answer>
    requires { IsBuildable workers heap }
    ensures content { MatchResult result (λ bytes. IsBuilt (H.files shelf.old) source.now heap bytes.items) (StopsAs (H.files shelf.old) source.now heap) }
    ensures files { SameFiles (H.files shelf.old) (H.files shelf.new) }
    ensures asks { MatchResult result
        (λ bytes. H.asks shelf.new ≡ ToRead source.now ∷ H.asks shelf.old)
        (λ answer. AsksSource source.now answer (H.asks shelf.old) (H.asks shelf.new)) }
    ensures cause { HasCause (H.faults shelf.old) (H.faults shelf.new) (result ≡ Err Answer.FileFault) }
{
    let text = match read_source(alloc, shelf, source) {
        Ok(text) => text,
        Err(answer) => return Err(answer),
    };
    match build(rt, alloc, text.as_slice(), heap, workers, gate) {
        Ok(bytes) => Ok(bytes),
        Err(error) => Err(answer_to(error)),
    }
}

/// The analysis of the program in the file `source`, or the answer to one that has none.
#[tactic(auto, using(crate::proofs::Stops::unread))]
pub(crate) fn analyse_source<R: AllocGlobal + Threads + Sync, H: Shelf, G: Gate>(
    rt: &R,
    alloc: Global,
    shelf: &mut H,
    source: &str,
    workers: u32,
    gate: &G,
) -> Result<Analysis, Answer>
    requires { IsWorkable workers }
    ensures content { MatchResult result (IsOfSource (H.files shelf.old) source.now) (StopsBy Unanalysed (H.files shelf.old) source.now) }
    ensures files { SameFiles (H.files shelf.old) (H.files shelf.new) }
    ensures asks { MatchResult result
        (λ analysis. H.asks shelf.new ≡ ToRead source.now ∷ H.asks shelf.old)
        (λ answer. AsksSource source.now answer (H.asks shelf.old) (H.asks shelf.new)) }
    ensures cause { HasCause (H.faults shelf.old) (H.faults shelf.new) (result ≡ Err Answer.FileFault) }
{
    let text = match read_source(alloc, shelf, source) {
        Ok(text) => text,
        Err(answer) => return Err(answer),
    };
    match analyse(rt, alloc, text.as_slice(), workers, gate) {
        Ok(analysis) => Ok(analysis),
        Err(error) => Err(answer_to(error)),
    }
}

/// The text of the source in a file, or the answer where it is not read whole.
fn read_source<H: Shelf>(alloc: Global, shelf: &mut H, source: &str) -> Result<Bytes, Answer>
    ensures content { MatchResult result (IsSource (H.files shelf.old) source.now) (IsUnread (H.files shelf.old) source.now) }
    ensures files { SameFiles (H.files shelf.old) (H.files shelf.new) }
    ensures asks { MatchResult result
        (λ text. H.asks shelf.new ≡ ToRead source.now ∷ H.asks shelf.old)
        (λ answer. AsksSource source.now answer (H.asks shelf.old) (H.asks shelf.new)) }
    ensures cause { HasCause (H.faults shelf.old) (H.faults shelf.new) (result ≡ Err Answer.FileFault) }
{
    match read_file(alloc, shelf, source, MOST) {
        Reading::Whole(text) => Ok(text),
        Reading::TooLong => Err(Answer::TooLarge(LIMIT)),
        Reading::Fault => Err(Answer::FileFault),
        Reading::NoMemory => Err(Answer::NoMemory),
    }
}

/// The answer to a source that is refused for this reason.
pub(crate) fn answer_to(error: BuildErr) -> Answer
    ensures { result ≡ answer_to error }
{
    match error {
        BuildErr::Read(error) => Answer::Refused(Refusal::Read(error)),
        BuildErr::Form(error) => Answer::Refused(Refusal::Form(error)),
        BuildErr::Limit(limit) => Answer::TooLarge(limit),
        BuildErr::NoMemory => Answer::NoMemory,
    }
}
