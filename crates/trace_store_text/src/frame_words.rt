//! The frames of module code that a step leaves and enters.

ghost use Rattle.std.specs.Prelude.{◌≡◌};
ghost use Rattle.std.specs.List.{flat_map};
ghost use Rattle.profile.specs.Output.{Writes};
ghost use Rattle.store_copies.specs.Frames.{innermost_frame};
ghost use Rattle.trace_store_text.specs.FrameWords.{entered_word, frame_word, instance_name_text, kind_text, left_word, marked_name_if};

use crate::modules::{InstanceMark, marks_of};
use debugger::{CodeKind, Frame, FrameKind};
use itoa::Buffer;
use profile::{HexText, Sink, WriteFault, push_all, push_parts};
use store_copies::Instances;

/// Writes ` leaves frame 1 SWI &40000 Low%Base`, where a step leaves the innermost of so many frames;
/// the modules are those before it.
pub fn push_left<W: Sink>(
    sink: &mut W,
    leaves: bool,
    count: usize,
    innermost: Option<Frame>,
    modules: &Instances,
) -> Result<(), WriteFault>
    ensures { Writes W.contents W.has_failed sink.old sink.new result
        (left_word leaves count innermost modules.now) }
{
    if leaves {
        push_frame(sink, b" leaves frame ", count, modules, innermost)
    } else {
        Ok(())
    }
}

/// Writes ` enters frame 1 Initialise Dbl%Base`, where more frames are open than were kept.
pub fn push_entered<W: Sink>(
    sink: &mut W,
    kept: usize,
    frames: &[Frame],
    modules: &Instances,
) -> Result<(), WriteFault>
    ensures { Writes W.contents W.has_failed sink.old sink.new result
        (entered_word kept frames.now modules.now) }
{
    if kept < frames.len() {
        push_frame(
            sink,
            b" enters frame ",
            frames.len(),
            modules,
            innermost(frames),
        )
    } else {
        Ok(())
    }
}

/// The frame that was opened last, if one is open.
pub fn innermost(frames: &[Frame]) -> Option<Frame>
    ensures value { result ≡ innermost_frame frames.now }
{
    frames.last().copied()
}

fn push_frame<W: Sink>(
    sink: &mut W,
    verb: &[u8],
    number: usize,
    modules: &Instances,
    frame: Option<Frame>,
) -> Result<(), WriteFault>
    ensures { Writes W.contents W.has_failed sink.old sink.new result
        (frame_word verb.now number modules.now frame) }
{
    let Some(frame) = frame else {
        return Ok(());
    };
    let mut digits = Buffer::new();
    push_parts(
        sink,
        &[verb, digits.format(number).as_bytes(), b" ".as_slice()],
    )?;
    push_kind(sink, frame.kind)?;
    push_instance_name(sink, modules, frame.slot)
}

fn push_kind<W: Sink>(sink: &mut W, kind: FrameKind) -> Result<(), WriteFault>
    ensures { Writes W.contents W.has_failed sink.old sink.new result (kind_text kind) }
{
    match kind {
        FrameKind::Swi(number) => push_parts(
            sink,
            &[b"SWI &".as_slice(), HexText::number(number).as_slice()],
        ),
        FrameKind::Entry(CodeKind::Initialise) => push_all(sink, b"Initialise"),
        FrameKind::Entry(CodeKind::Finalise) => push_all(sink, b"Finalise"),
    }
}

#[tactic(auto, unfolding(crate::specs::FrameWords::instance_name_text))]
fn push_instance_name<W: Sink>(
    sink: &mut W,
    modules: &Instances,
    slot: u32,
) -> Result<(), WriteFault>
    ensures { Writes W.contents W.has_failed sink.old sink.new result
        (instance_name_text modules.now slot) }
{
    let marks = marks_of(modules);
    push_names(sink, marks.as_slice(), slot)
}

// The names of those that have a slot.
fn push_names<W: Sink>(sink: &mut W, marks: &[InstanceMark], slot: u32) -> Result<(), WriteFault>
    ensures { Writes W.contents W.has_failed sink.old sink.new result
        (flat_map (marked_name_if slot) marks.now) }
{
    for mark in marks {
        push_name_if(sink, mark, slot)?;
    }
    Ok(())
}

#[tactic(auto, unfolding(crate::specs::FrameWords::marked_name))]
fn push_name_if<W: Sink>(sink: &mut W, mark: &InstanceMark, slot: u32) -> Result<(), WriteFault>
    ensures { Writes W.contents W.has_failed sink.old sink.new result (marked_name_if slot mark.now) }
{
    if mark.slot != slot {
        return Ok(());
    }
    push_parts(
        sink,
        &[
            b" ".as_slice(),
            mark.title.as_slice(),
            b"%".as_slice(),
            mark.name.as_slice(),
        ],
    )
}
