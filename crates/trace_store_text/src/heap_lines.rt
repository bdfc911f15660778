//! What a store call changes in heaps.

ghost use Rattle.std.specs.Prelude.{◌≡◌};
ghost use Rattle.std.specs.List.{flat_map};
ghost use Rattle.store_copies.specs.Store.{IsSound, store_of};
ghost use Rattle.profile.specs.Output.{Writes};
ghost use Rattle.trace_store_text.specs.HeapLines.{heap_gone_line, gone_heap_lines, heap_lines, heap_lines_by, kept_heap_lines, limit_line, limit_lines, lines_of_region, made_line};
ghost use Rattle.trace_store_text.specs.Sound.{AreBothSound};

use crate::heaps::{HeapLimits, limits_of};
use crate::item_lines::push_items;
use address_map::{AddressMap, Region};
use itoa::Buffer;
use profile::{HexText, Sink, WriteFault, push_parts};

/// Writes a line for each heap that is gone or made, for each limit of one that differs, and for each
/// item that is gone or new.
pub fn push_heaps<W: Sink>(
    sink: &mut W,
    before: &AddressMap,
    after: &AddressMap,
) -> Result<(), WriteFault>
    requires stores { AreBothSound before.now after.now }
    ensures writes { Writes W.contents W.has_failed sink.old sink.new result
        (heap_lines (store_of before.now) (store_of after.now)) }
{
    push_gone_heaps(sink, before.regions(), after)?;
    push_kept_heaps(sink, after.regions(), before, after)
}

fn push_gone_heaps<W: Sink>(
    sink: &mut W,
    regions: &[Region],
    after: &AddressMap,
) -> Result<(), WriteFault>
    requires { IsSound (store_of after.now) }
    ensures { Writes W.contents W.has_failed sink.old sink.new result
        (flat_map (lines_of_region (gone_heap_lines (store_of after.now))) regions.now) }
{
    for region in regions {
        push_gone_region(sink, region, after)?;
    }
    Ok(())
}

fn push_gone_region<W: Sink>(
    sink: &mut W,
    region: &Region,
    after: &AddressMap,
) -> Result<(), WriteFault>
    requires { IsSound (store_of after.now) }
    ensures { Writes W.contents W.has_failed sink.old sink.new result
        (lines_of_region (gone_heap_lines (store_of after.now)) region.now) }
{
    if !region.kind.is_heap() {
        return Ok(());
    }
    match limits_of(after, region.at) {
        Some(_) => Ok(()),
        None => push_gone_line(sink, region.at),
    }
}

fn push_gone_line<W: Sink>(sink: &mut W, start: u32) -> Result<(), WriteFault>
    ensures { Writes W.contents W.has_failed sink.old sink.new result (heap_gone_line start) }
{
    push_parts(
        sink,
        &[
            b"                  heap ".as_slice(),
            HexText::word(start).as_slice(),
            b" gone\n".as_slice(),
        ],
    )
}

fn push_kept_heaps<W: Sink>(
    sink: &mut W,
    regions: &[Region],
    before: &AddressMap,
    after: &AddressMap,
) -> Result<(), WriteFault>
    requires stores { AreBothSound before.now after.now }
    ensures { Writes W.contents W.has_failed sink.old sink.new result
        (flat_map (lines_of_region (kept_heap_lines (store_of before.now) (store_of after.now)))
        regions.now) }
{
    for region in regions {
        push_kept_region(sink, region, before, after)?;
    }
    Ok(())
}

// What differs of a heap that is there after the call, or may be.
fn push_kept_region<W: Sink>(
    sink: &mut W,
    region: &Region,
    before: &AddressMap,
    after: &AddressMap,
) -> Result<(), WriteFault>
    requires stores { AreBothSound before.now after.now }
    ensures { Writes W.contents W.has_failed sink.old sink.new result
        (lines_of_region (kept_heap_lines (store_of before.now) (store_of after.now)) region.now) }
{
    if !region.kind.is_heap() {
        return Ok(());
    }
    let start = region.at;
    push_kept(
        sink,
        start,
        limits_of(before, start),
        limits_of(after, start),
    )?;
    push_items(sink, start, before, after)
}

fn push_kept<W: Sink>(
    sink: &mut W,
    start: u32,
    old: Option<HeapLimits>,
    new: Option<HeapLimits>,
) -> Result<(), WriteFault>
    ensures { Writes W.contents W.has_failed sink.old sink.new result (heap_lines_by start old new) }
{
    match (old, new) {
        (None, Some(new)) => push_made(sink, start, new.end),
        (Some(old), Some(new)) => push_limits(sink, start, old, new),
        (_, None) => Ok(()),
    }
}

fn push_made<W: Sink>(sink: &mut W, start: u32, end: u32) -> Result<(), WriteFault>
    ensures { Writes W.contents W.has_failed sink.old sink.new result (made_line start end) }
{
    let mut digits = Buffer::new();
    push_parts(
        sink,
        &[
            b"                  heap ".as_slice(),
            HexText::word(start).as_slice(),
            b" made, end ".as_slice(),
            digits.format(end).as_bytes(),
            b"\n".as_slice(),
        ],
    )
}

fn push_limits<W: Sink>(
    sink: &mut W,
    start: u32,
    old: HeapLimits,
    new: HeapLimits,
) -> Result<(), WriteFault>
    ensures { Writes W.contents W.has_failed sink.old sink.new result (limit_lines start old new) }
{
    push_limit(sink, start, b" base ", old.base, new.base)?;
    push_limit(sink, start, b" end ", old.end, new.end)
}

fn push_limit<W: Sink>(
    sink: &mut W,
    start: u32,
    name: &[u8],
    old: u32,
    new: u32,
) -> Result<(), WriteFault>
    ensures { Writes W.contents W.has_failed sink.old sink.new result (limit_line start name.now old new) }
{
    if old == new {
        return Ok(());
    }
    let mut is = Buffer::new();
    let mut was = Buffer::new();
    push_parts(
        sink,
        &[
            b"                  heap ".as_slice(),
            HexText::word(start).as_slice(),
            name,
            is.format(new).as_bytes(),
            b" was ".as_slice(),
            was.format(old).as_bytes(),
            b"\n".as_slice(),
        ],
    )
}
