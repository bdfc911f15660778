//! What a step changes in dynamic areas.

ghost use Rattle.std.specs.Prelude.{◌≡◌, ◌*◌, IfOk};
ghost use Rattle.std.specs.List.{flat_map};
ghost use Rattle.profile.specs.Output.{Writes};
ghost use Rattle.trace_text.specs.Areas.{area_line, area_line_by, area_lines, area_marks, gone_area_line, has_area, new_area_line, pages_marked, sized_area_line};

use itoa::Buffer;
use profile::memory_map::PAGE_SIZE;
use profile::{HexText, Sink, WriteFault, push_parts};
use std::alloc::{AllocError, Global};
use trace_store_text::Area;

/// What a trace keeps of an area: its number, and how many pages it has.
#[derive(Clone, Copy, Default)]
pub struct AreaMark {
    pub number: u32,
    pub pages: u32,
}

/// What a trace keeps of some areas.
///
/// # Errors
///
/// Where the host has no memory for it.
pub fn area_marks(alloc: Global, areas: &[Area]) -> Result<Vec<AreaMark>, WriteFault>
    ensures value { IfOk result (λ marks. marks.items ≡ area_marks areas.now) }
{
    match marks_of(alloc, areas) {
        Ok(marks) => Ok(marks),
        Err(_) => Err(WriteFault),
    }
}

fn marks_of(alloc: Global, areas: &[Area]) -> Result<Vec<AreaMark>, AllocError>
    ensures { IfOk result (λ marks. marks.items ≡ area_marks areas.now) }
{
    let mut marks = Vec::with_capacity(alloc, areas.len())?;
    for area in areas {
        marks.push(AreaMark {
            number: area.number,
            pages: area.pages,
        })?;
    }
    Ok(marks)
}

/// Writes a line for each area that is gone, new or of another size.
pub fn push_areas<W: Sink>(
    sink: &mut W,
    marks: &[AreaMark],
    areas: &[Area],
) -> Result<(), WriteFault>
    ensures writes { Writes W.contents W.has_failed sink.old sink.new result
        (area_lines marks.now areas.now) }
{
    push_gone(sink, marks, areas)?;
    push_present(sink, marks, areas)
}

fn push_gone<W: Sink>(sink: &mut W, marks: &[AreaMark], areas: &[Area]) -> Result<(), WriteFault>
    ensures { Writes W.contents W.has_failed sink.old sink.new result
        (flat_map (gone_area_line areas.now) marks.now) }
{
    for mark in marks {
        push_gone_line(sink, mark, areas)?;
    }
    Ok(())
}

fn push_gone_line<W: Sink>(sink: &mut W, mark: &AreaMark, areas: &[Area]) -> Result<(), WriteFault>
    ensures { Writes W.contents W.has_failed sink.old sink.new result (gone_area_line areas.now mark.now) }
{
    if has_area(areas, mark.number) {
        return Ok(());
    }
    let mut number = Buffer::new();
    push_parts(
        sink,
        &[
            b"                  area ".as_slice(),
            number.format(mark.number).as_bytes(),
            b" gone\n".as_slice(),
        ],
    )
}

fn has_area(areas: &[Area], number: u32) -> bool
    ensures { result ≡ has_area areas.now number }
{
    areas.iter().any(|area| area.number == number)
}

fn push_present<W: Sink>(sink: &mut W, marks: &[AreaMark], areas: &[Area]) -> Result<(), WriteFault>
    ensures { Writes W.contents W.has_failed sink.old sink.new result
        (flat_map (area_line marks.now) areas.now) }
{
    for area in areas {
        push_area_line(sink, area, pages_marked(marks, area.number))?;
    }
    Ok(())
}

fn pages_marked(marks: &[AreaMark], number: u32) -> Option<u32>
    ensures { result ≡ pages_marked marks.now number }
{
    for mark in marks {
        if mark.number == number {
            return Some(mark.pages);
        }
    }
    None
}

fn push_area_line<W: Sink>(sink: &mut W, area: &Area, pages: Option<u32>) -> Result<(), WriteFault>
    ensures { Writes W.contents W.has_failed sink.old sink.new result (area_line_by area.now pages) }
{
    match pages {
        None => push_new(sink, area),
        Some(pages) if pages == area.pages => Ok(()),
        Some(pages) => push_size(sink, area, pages),
    }
}

fn push_new<W: Sink>(sink: &mut W, area: &Area) -> Result<(), WriteFault>
    ensures { Writes W.contents W.has_failed sink.old sink.new result (new_area_line area.now) }
{
    let mut number = Buffer::new();
    let mut size = Buffer::new();
    push_parts(
        sink,
        &[
            b"                  area ".as_slice(),
            number.format(area.number).as_bytes(),
            b" new at ".as_slice(),
            HexText::word(area.base).as_slice(),
            b" size ".as_slice(),
            size.format(bytes_in(area.pages)).as_bytes(),
            b"\n".as_slice(),
        ],
    )
}

fn push_size<W: Sink>(sink: &mut W, area: &Area, pages: u32) -> Result<(), WriteFault>
    ensures { Writes W.contents W.has_failed sink.old sink.new result (sized_area_line area.now pages) }
{
    let mut number = Buffer::new();
    let mut size = Buffer::new();
    let mut old = Buffer::new();
    push_parts(
        sink,
        &[
            b"                  area ".as_slice(),
            number.format(area.number).as_bytes(),
            b" size ".as_slice(),
            size.format(bytes_in(area.pages)).as_bytes(),
            b" was ".as_slice(),
            old.format(bytes_in(pages)).as_bytes(),
            b"\n".as_slice(),
        ],
    )
}

fn bytes_in(pages: u32) -> u64
    ensures { result ≡ 4096 * pages }
{
    u64::from(PAGE_SIZE) * u64::from(pages)
}
