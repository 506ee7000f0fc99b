ghost use Rattle.std.specs.Prelude.{◌≡◌, ◌≤◌, ◌^◌, ◌*◌, ◌+◌, ◌<◌, [], ◌∷◌, length, IfOk};
ghost use Rattle.rv_asm.specs.Layout.{text_size as text_size_of, items_of, pool_of as pool_for, data_start as start_of_data, heap_start as start_of_heap, image_size, image_of as image_for, placing, Lays, AreSound};
ghost use Rattle.elf_write.specs.Valid.{IsValid};
ghost use Rattle.rv_asm.specs.Symbols.{placing_in};

use crate::Parts;
use crate::emit::{data_bytes, text_bytes};
use crate::measure::{Pool, data_size, pool_of, text_size};
use crate::symbols::{Symbols, places_of};
use const_data::Data;
use rv_form::{Image, Segment, Segments};
use scheme_base::{Limit, LimitErr, LimitKind, List};
use std::alloc::{AllocError, Global};

/// Where the text stands in memory, and where it is entered.
const TEXT: u64 = 65536;

/// Segments begin at multiples of this size.
const PAGE: u64 = 4096;

/// The most bytes that text and data may have together.
const MOST: u64 = 1 << 28;

/// The image of a text, its data words and a heap of so many bytes.
///
/// The text may be read and executed, the data read and written. The heap stands behind the data, which end
/// with the pool and zeros. The limit `Image` is passed where text and data together have more than 2^28
/// bytes; its count is theirs.
pub fn layout(alloc: Global, parts: &Parts, words: &Data, heap: u64) -> Result<Image, LimitErr>
    requires sound { AreSound (items_of parts.now) }
    requires heap { heap ≤ 2 ^ 30 }
    ensures image { Lays parts.now words.now heap result }
    ensures valid { IfOk result (λ image. 0 < text_size_of (items_of parts.now) → IsValid image) }
{
    let Ok(pool) = pool_of(alloc, parts) else {
        return Err(LimitErr::NoMemory);
    };
    let text = text_size(parts);
    let data = data_size(words, &pool);
    let count = text.saturating_add(data);
    if count > MOST {
        return Err(LimitErr::Limit(Limit {
            which: LimitKind::Image,
            count,
        }));
    }
    let start = TEXT + text.next_multiple_of(PAGE);
    match image_of(alloc, parts, words, pool, start, start + data, heap) {
        Ok(image) => Ok(image),
        Err(_) => Err(LimitErr::NoMemory),
    }
}

/// The image whose data begin at one address and whose heap begins at another.
fn image_of(
    alloc: Global,
    parts: &Parts,
    words: &Data,
    pool: Pool,
    data_start: u64,
    heap_start: u64,
    heap: u64,
) -> Result<Image, AllocError>
    requires sound { AreSound (items_of parts.now) }
    requires size { image_size parts.now words.now ≤ 2 ^ 28 }
    requires pool { pool.keys ≡ pool_for (items_of parts.now) }
    requires start { data_start ≡ start_of_data (items_of parts.now) }
    requires end { heap_start ≡ start_of_heap (items_of parts.now) (length words.now) }
    requires heap { heap ≤ 2 ^ 30 }
    ensures { IfOk result (λ image. image ≡ image_for parts.now words.now heap) }
{
    let symbols = Symbols {
        places: places_of(alloc, parts, TEXT)?,
        pool,
        words: words.len() as u64,
        data: data_start,
        heap_start,
        heap_end: heap_start + heap,
    };
    placed_image(alloc, parts, words, &symbols, heap)
}

/// The image whose symbols these are.
fn placed_image(
    alloc: Global,
    parts: &Parts,
    words: &Data,
    symbols: &Symbols,
    heap: u64,
) -> Result<Image, AllocError>
    requires sound { AreSound (items_of parts.now) }
    requires size { image_size parts.now words.now ≤ 2 ^ 28 }
    requires placed { placing_in symbols.now ≡ placing (items_of parts.now) (length words.now) heap }
    requires heap { heap ≤ 2 ^ 30 }
    ensures { IfOk result (λ image. image ≡ image_for parts.now words.now heap) }
{
    let text = text_bytes(alloc, parts, symbols, TEXT)?;
    let contents = data_bytes(alloc, words, symbols)?;
    let code = Segment {
        vaddr: TEXT,
        memsz: text.len() as u64,
        flags: 5,
        bytes: text,
    };
    let memory = Segment {
        vaddr: symbols.data,
        memsz: contents.len() as u64 + heap,
        flags: 6,
        bytes: contents,
    };
    Ok(Image {
        entry: TEXT,
        segments: two_segments(alloc, code, memory)?,
    })
}

/// The list of two segments.
fn two_segments(alloc: Global, first: Segment, second: Segment) -> Result<Segments, AllocError>
    ensures { IfOk result (λ segments. segments ≡ first ∷ second ∷ []) }
{
    let mut segments = List::new(alloc);
    segments.push(first)?;
    segments.push(second)?;
    Ok(segments)
}
