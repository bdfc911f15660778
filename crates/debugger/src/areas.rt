//! The view AREAS: each dynamic area, and the pool.

ghost use Rattle.std.specs.List.{flat_map};
ghost use Rattle.swi_dispatch_guest.specs.Output.{Writes};
ghost use Rattle.debugger.specs.Areas.{area_text, areas_text, area_extent_text, pool_text};
ghost use Rattle.swi_dispatch_guest.specs.GuestState.{state_of};

use assembler_text::HexText;
use itoa::Buffer;
use swi_dispatch_guest::{Area, Machine, PAGE_SIZE, Sink, WriteFault, push_parts};

/// Writes a line for each area by number, `area 1 base 01800000 size 65536 max 4194304 RMA`, with
/// its size and its maximum in bytes, and then how many pages are in the pool, `pool 173 pages`.
pub fn show_areas<W: Sink>(machine: &Machine, sink: &mut W) -> Result<(), WriteFault>
    ensures writes { Writes W.contents W.has_failed sink.old sink.new result
        (areas_text (state_of machine.now.guest).tables.area_table.areas (state_of machine.now.guest).pool) }
{
    let areas = machine.areas();
    show_list(areas.list(), sink)?;
    show_pool(areas.pool(machine.memory()), sink)
}

// A line for each area.
fn show_list<W: Sink>(areas: &[Area], sink: &mut W) -> Result<(), WriteFault>
    ensures { Writes W.contents W.has_failed sink.old sink.new result (flat_map area_text areas.now) }
{
    for area in areas {
        show_area(area, sink)?;
    }
    Ok(())
}

fn show_area<W: Sink>(area: &Area, sink: &mut W) -> Result<(), WriteFault>
    ensures { Writes W.contents W.has_failed sink.old sink.new result (area_text area.now) }
{
    let mut number = Buffer::new();
    push_parts(
        sink,
        &[
            b"area ".as_slice(),
            number.format(area.number).as_bytes(),
            b" base ".as_slice(),
            HexText::word(area.base).as_slice(),
        ],
    )?;
    show_extent(area, sink)?;
    push_parts(
        sink,
        &[b" ".as_slice(), area.name.as_slice(), b"\n".as_slice()],
    )
}

// The size of an area and its maximum.
fn show_extent<W: Sink>(area: &Area, sink: &mut W) -> Result<(), WriteFault>
    ensures { Writes W.contents W.has_failed sink.old sink.new result (area_extent_text area.now) }
{
    let mut size = Buffer::new();
    let mut maximum = Buffer::new();
    push_parts(
        sink,
        &[
            b" size ".as_slice(),
            size.format(u64::from(PAGE_SIZE) * u64::from(area.pages))
                .as_bytes(),
            b" max ".as_slice(),
            maximum.format(area.maximum).as_bytes(),
        ],
    )
}

fn show_pool<W: Sink>(pages: u32, sink: &mut W) -> Result<(), WriteFault>
    ensures { Writes W.contents W.has_failed sink.old sink.new result (pool_text pages) }
{
    let mut count = Buffer::new();
    push_parts(
        sink,
        &[
            b"pool ".as_slice(),
            count.format(pages).as_bytes(),
            b" pages\n".as_slice(),
        ],
    )
}
