//! What a store call changes in modules.

ghost use Rattle.std.specs.Prelude.{◌≡◌};
ghost use Rattle.std.specs.List.{flat_map};
ghost use Rattle.profile.specs.Output.{Writes};
ghost use Rattle.trace_store_text.specs.ModuleLines.{gone_instance_lines, kept_instance_lines, module_lines, moved_instance_line, new_instance_line, preferred_lines};

use crate::modules::{InstanceMark, has_same, is_preferred_anew, marks_of, old_address};
use itoa::Buffer;
use profile::{HexText, Sink, WriteFault, push_parts};
use store_copies::Instances;

/// Writes a line for each instance of a module that is gone, new or moved, and for each that is
/// preferred in place of another.
#[tactic(auto, unfolding(crate::specs::ModuleLines::module_lines))]
pub fn push_modules<W: Sink>(
    sink: &mut W,
    before: &Instances,
    after: &Instances,
) -> Result<(), WriteFault>
    ensures writes { Writes W.contents W.has_failed sink.old sink.new result
        (module_lines before.now after.now) }
{
    if before.count() == 0 && after.count() == 0 {
        return Ok(());
    }
    push_instances(sink, before, after)
}

// The lines of instances, where there are any. Not a part of `push_modules`, which then would pay for
// large locals where there are none.
#[inline(never)]
#[tactic(auto, unfolding(crate::specs::ModuleLines::module_lines))]
fn push_instances<W: Sink>(
    sink: &mut W,
    before: &Instances,
    after: &Instances,
) -> Result<(), WriteFault>
    ensures { Writes W.contents W.has_failed sink.old sink.new result
        (module_lines before.now after.now) }
{
    let olds = marks_of(before);
    let news = marks_of(after);
    push_gone_instances(sink, olds.as_slice(), news.as_slice())?;
    push_kept_instances(sink, news.as_slice(), olds.as_slice())?;
    push_preferred_instances(sink, news.as_slice(), olds.as_slice())
}

fn push_gone_instances<W: Sink>(
    sink: &mut W,
    marks: &[InstanceMark],
    after: &[InstanceMark],
) -> Result<(), WriteFault>
    ensures { Writes W.contents W.has_failed sink.old sink.new result
        (flat_map (gone_instance_lines after.now) marks.now) }
{
    for mark in marks {
        push_gone_instance(sink, mark, after)?;
    }
    Ok(())
}

#[tactic(auto, unfolding(crate::specs::ModuleLines::gone_instance_line))]
fn push_gone_instance<W: Sink>(
    sink: &mut W,
    mark: &InstanceMark,
    after: &[InstanceMark],
) -> Result<(), WriteFault>
    ensures { Writes W.contents W.has_failed sink.old sink.new result
        (gone_instance_lines after.now mark.now) }
{
    if has_same(after, mark) {
        return Ok(());
    }
    push_parts(
        sink,
        &[
            b"                  module ".as_slice(),
            mark.title.as_slice(),
            b"%".as_slice(),
            mark.name.as_slice(),
            b" gone at ".as_slice(),
            HexText::word(mark.at).as_slice(),
            b"\n".as_slice(),
        ],
    )
}

fn push_kept_instances<W: Sink>(
    sink: &mut W,
    marks: &[InstanceMark],
    before: &[InstanceMark],
) -> Result<(), WriteFault>
    ensures { Writes W.contents W.has_failed sink.old sink.new result
        (flat_map (kept_instance_lines before.now) marks.now) }
{
    for mark in marks {
        push_kept_instance(sink, mark, before)?;
    }
    Ok(())
}

fn push_kept_instance<W: Sink>(
    sink: &mut W,
    mark: &InstanceMark,
    before: &[InstanceMark],
) -> Result<(), WriteFault>
    ensures { Writes W.contents W.has_failed sink.old sink.new result
        (kept_instance_lines before.now mark.now) }
{
    match old_address(before, mark) {
        None => push_new(sink, mark),
        Some(was) if was == mark.at => Ok(()),
        Some(was) => push_moved(sink, mark, was),
    }
}

fn push_preferred_instances<W: Sink>(
    sink: &mut W,
    marks: &[InstanceMark],
    before: &[InstanceMark],
) -> Result<(), WriteFault>
    ensures { Writes W.contents W.has_failed sink.old sink.new result
        (flat_map (preferred_lines before.now) marks.now) }
{
    for mark in marks {
        push_preferred_instance(sink, mark, before)?;
    }
    Ok(())
}

#[tactic(auto, unfolding(crate::specs::ModuleLines::preferred_line))]
fn push_preferred_instance<W: Sink>(
    sink: &mut W,
    mark: &InstanceMark,
    before: &[InstanceMark],
) -> Result<(), WriteFault>
    ensures { Writes W.contents W.has_failed sink.old sink.new result
        (preferred_lines before.now mark.now) }
{
    if !is_preferred_anew(before, mark) {
        return Ok(());
    }
    push_parts(
        sink,
        &[
            b"                  module ".as_slice(),
            mark.title.as_slice(),
            b"%".as_slice(),
            mark.name.as_slice(),
            b" preferred\n".as_slice(),
        ],
    )
}

#[tactic(auto, unfolding(crate::specs::ModuleLines::new_instance_line))]
fn push_new<W: Sink>(sink: &mut W, mark: &InstanceMark) -> Result<(), WriteFault>
    ensures { Writes W.contents W.has_failed sink.old sink.new result
        (new_instance_line mark.now mark.now.at) }
{
    let mut length = Buffer::new();
    push_parts(
        sink,
        &[
            b"                  module ".as_slice(),
            mark.title.as_slice(),
            b"%".as_slice(),
            mark.name.as_slice(),
            b" new at ".as_slice(),
            HexText::word(mark.at).as_slice(),
            b" length ".as_slice(),
            length.format(mark.len).as_bytes(),
            b"\n".as_slice(),
        ],
    )
}

#[tactic(auto, unfolding(crate::specs::ModuleLines::moved_instance_line))]
fn push_moved<W: Sink>(sink: &mut W, mark: &InstanceMark, was: u32) -> Result<(), WriteFault>
    ensures { Writes W.contents W.has_failed sink.old sink.new result
        (moved_instance_line mark.now was mark.now.at) }
{
    push_parts(
        sink,
        &[
            b"                  module ".as_slice(),
            mark.title.as_slice(),
            b"%".as_slice(),
            mark.name.as_slice(),
            b" at ".as_slice(),
            HexText::word(mark.at).as_slice(),
            b" was ".as_slice(),
            HexText::word(was).as_slice(),
            b"\n".as_slice(),
        ],
    )
}
