//! The view FRAMES: the frames of module code that are open.

ghost use Rattle.std.specs.Prelude.{◌≡◌, length, slice_get};
ghost use Rattle.debugger.specs.AddressMapMemory.{bytes_of};
ghost use Rattle.profile.specs.Output.{Writes};
ghost use Rattle.debugger.specs.Modules.{one_text};
ghost use Rattle.debug_labels.specs.place_views.Frames.{named_address_text, called_at_text, caller_address, caller_text, calls_entered, entry_text, frame_kind_text, frame_line, frame_lines, frame_number_text, open_frame_numbered, frame_text, frames_text, full_name_at, full_name_of_slot, full_name_text, full_name_within, is_called_by_instruction};
ghost use Rattle.debug_labels.specs.place_views.Places.{naming_on};
ghost use Rattle.debugger.specs.GuestState.{state_of};

use crate::place_views::names::names_on;
use crate::place_views::standing::show_where;
use crate::{InstanceInfo, Instances, LabelTable, ModuleInfo, PlaceNames};
use debugger::{AddressMap, CodeKind, Frame, FrameKind, Machine, mode_name, without_x_bit};
use itoa::Buffer;
use profile::{HexText, Sink, SwiName, WriteFault, push_all, push_parts};

/// Writes where the machine stands, and a line for each open frame, the innermost first. Frames are
/// numbered from 1 on, the outermost first; a line says what the frame's code was entered for, the
/// instance whose code it is, where the call was made, with the label there or near below it, in
/// which mode, and R13 of SVC as it was on entry,
/// `frame 2 SWI &40000 Low%Base called at &1800074 high:swi+4 in SVC, R13_svc 01C01FFC`. A call that
/// no instruction made there is `called from outside`.
pub fn show_frames<W: Sink>(
    labels: &LabelTable,
    machine: &Machine,
    sink: &mut W,
) -> Result<(), WriteFault>
    ensures writes { Writes W.contents W.has_failed sink.old sink.new result
        (frames_text labels.now (state_of machine.now.guest)) }
{
    show_where(labels, machine, sink)?;
    show_open(&names_on(labels, machine), machine, sink)
}

fn show_open<W: Sink>(names: &PlaceNames, machine: &Machine, sink: &mut W) -> Result<(), WriteFault>
    ensures { let s = state_of machine.now.guest in
        Writes W.contents W.has_failed sink.old sink.new result
        (frame_lines names.now s (length s.tables.frames)) }
{
    let mut number = machine.frames();
    while number > 0 {
        show_frame(names, machine, number, sink)?;
        number -= 1;
    }
    Ok(())
}

// The line of an open frame, if there is one of that number.
fn show_frame<W: Sink>(
    names: &PlaceNames,
    machine: &Machine,
    number: usize,
    sink: &mut W,
) -> Result<(), WriteFault>
    ensures writes { Writes W.contents W.has_failed sink.old sink.new result
        (frame_text names.now (state_of machine.now.guest) number) }
{
    match open_frame_numbered(machine.open_frames(), number) {
        Some(frame) => show_line(
            names,
            machine.instances(),
            machine.memory(),
            number,
            &frame,
            sink,
        ),
        None => Ok(()),
    }
}

fn open_frame_numbered(frames: &[Frame], number: usize) -> Option<Frame>
    ensures { result ≡ open_frame_numbered number frames.now }
{
    if number == 0 {
        return None;
    }
    frames.get(number - 1).copied()
}

fn show_line<W: Sink>(
    names: &PlaceNames,
    modules: &Instances,
    memory: &AddressMap,
    number: usize,
    frame: &Frame,
    sink: &mut W,
) -> Result<(), WriteFault>
    ensures { Writes W.contents W.has_failed sink.old sink.new result
        (frame_line names.now modules.now (bytes_of memory.now) number frame.now) }
{
    show_number(number, sink)?;
    show_kind(frame.kind, sink)?;
    show_name(modules, frame.slot, sink)?;
    show_caller(names, memory, frame, sink)?;
    show_entry(frame, sink)
}

// `frame 2 `
fn show_number<W: Sink>(number: usize, sink: &mut W) -> Result<(), WriteFault>
    ensures { Writes W.contents W.has_failed sink.old sink.new result (frame_number_text number) }
{
    let mut digits = Buffer::new();
    push_parts(
        sink,
        &[
            b"frame ".as_slice(),
            digits.format(number).as_bytes(),
            b" ".as_slice(),
        ],
    )
}

fn show_kind<W: Sink>(kind: FrameKind, sink: &mut W) -> Result<(), WriteFault>
    ensures { Writes W.contents W.has_failed sink.old sink.new result (frame_kind_text kind) }
{
    match kind {
        FrameKind::Swi(number) => push_parts(
            sink,
            &[b"SWI &".as_slice(), HexText::number(number).as_slice()],
        ),
        FrameKind::Entry(CodeKind::Initialise) => push_all(sink, b"Initialise"),
        FrameKind::Entry(CodeKind::Finalise) => push_all(sink, b"Finalise"),
    }
}

// A space and the full name of the instance in a slot.
fn show_name<W: Sink>(modules: &Instances, slot: u32, sink: &mut W) -> Result<(), WriteFault>
    ensures { Writes W.contents W.has_failed sink.old sink.new result
        (full_name_of_slot slot modules.now) }
{
    for number in 0..modules.count() {
        show_name_within(modules, number, slot, sink)?;
    }
    Ok(())
}

// The name, if the instance is one of the module of a number.
fn show_name_within<W: Sink>(
    modules: &Instances,
    number: u32,
    slot: u32,
    sink: &mut W,
) -> Result<(), WriteFault>
    ensures { Writes W.contents W.has_failed sink.old sink.new result
        (one_text (full_name_within slot) (slice_get modules.now number)) }
{
    for instance in 0..modules.instance_count(number) {
        show_name_if(modules, number, instance, slot, sink)?;
    }
    Ok(())
}

// The name, if the instance of a number is the one in the slot.
fn show_name_if<W: Sink>(
    modules: &Instances,
    number: u32,
    instance: u32,
    slot: u32,
    sink: &mut W,
) -> Result<(), WriteFault>
    ensures { Writes W.contents W.has_failed sink.old sink.new result
        (full_name_at slot instance (slice_get modules.now number)) }
{
    match (modules.module(number), modules.instance(number, instance)) {
        (Some(module), Some(reported)) if reported.slot == slot => show_full_name(
            &module, &reported, sink,
        ),
        _ => Ok(()),
    }
}

fn show_full_name<W: Sink>(
    module: &ModuleInfo,
    reported: &InstanceInfo,
    sink: &mut W,
) -> Result<(), WriteFault>
    ensures { Writes W.contents W.has_failed sink.old sink.new result
        (full_name_text module.now.title.items reported.now.name.items) }
{
    push_parts(
        sink,
        &[
            b" ".as_slice(),
            module.title.as_slice(),
            b"%".as_slice(),
            reported.name.as_slice(),
        ],
    )
}

fn show_caller<W: Sink>(
    names: &PlaceNames,
    memory: &AddressMap,
    frame: &Frame,
    sink: &mut W,
) -> Result<(), WriteFault>
    ensures { Writes W.contents W.has_failed sink.old sink.new result
        (caller_text names.now (bytes_of memory.now) frame.now) }
{
    if is_called_by_instruction(memory, frame) {
        show_call(names, caller_address(frame), sink)
    } else {
        push_all(sink, b" called from outside")
    }
}

// The address of an instruction that made a call, with its label.
fn show_call<W: Sink>(names: &PlaceNames, address: u32, sink: &mut W) -> Result<(), WriteFault>
    ensures { Writes W.contents W.has_failed sink.old sink.new result (called_at_text names.now address) }
{
    push_all(sink, b" called at &")?;
    show_address(names, address, sink)
}

fn show_address<W: Sink>(names: &PlaceNames, address: u32, sink: &mut W) -> Result<(), WriteFault>
    ensures { Writes W.contents W.has_failed sink.old sink.new result (named_address_text names.now address) }
{
    push_all(sink, HexText::number(address).as_slice())?;
    names.push_place(address, sink)
}

fn caller_address(frame: &Frame) -> u32
    ensures { result ≡ caller_address frame.now }
{
    frame.call.next.wrapping_sub(4)
}

fn is_called_by_instruction(memory: &AddressMap, frame: &Frame) -> bool
    ensures { result ≡ is_called_by_instruction (bytes_of memory.now) frame.now }
{
    match memory.load_word(caller_address(frame)) {
        Ok(word) => {
            word >> 24 & 15 == 15 && calls_entered(frame.kind, without_x_bit(word % (1 << 24)))
        }
        Err(_) => false,
    }
}

fn calls_entered(kind: FrameKind, number: u32) -> bool
    ensures { result ≡ calls_entered kind number }
{
    match kind {
        FrameKind::Swi(entered) => number == entered,
        FrameKind::Entry(_) => SwiName::of(number) == Some(SwiName::Module),
    }
}

// The mode of the caller, and R13 of SVC.
fn show_entry<W: Sink>(frame: &Frame, sink: &mut W) -> Result<(), WriteFault>
    ensures { Writes W.contents W.has_failed sink.old sink.new result (entry_text frame.now) }
{
    push_parts(
        sink,
        &[
            b" in ".as_slice(),
            mode_name(frame.call.caller.mode).as_slice(),
            b", R13_svc ".as_slice(),
            HexText::word(frame.stack).as_slice(),
            b"\n".as_slice(),
        ],
    )
}
