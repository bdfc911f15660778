//! Frames of module code in records.

use arm_core::{Cpu, Mode};
use std::alloc::AllocError;
use trace_effects::record_text::{Bracket, RecordText};
use trace_moments::{
    CodeKind, FrameKind, Instances, ShownFrame, changed_frames, marks_of, mode_name,
};
use trace_text::Machine;

/// Writes which frames a step has left and which one it entered, where so many were kept open of so
/// many before it. `caller` is where the step was made, if that isn't outside.
pub(crate) fn push_frames(
    text: &mut RecordText,
    count: usize,
    kept: usize,
    machine: &Machine,
    caller: Option<u32>,
) -> Result<(), AllocError> {
    let changes = changed_frames(count, kept, machine.open_frames());
    if let Some(kept) = changes.kept {
        text.number_field(b"leaves", (kept as u64).saturating_add(1))?;
    }
    match changes.entered {
        Some(frame) => push_entered(text, frame, machine, caller),
        None => Ok(()),
    }
}

fn push_entered(
    text: &mut RecordText,
    frame: ShownFrame,
    machine: &Machine,
    caller: Option<u32>,
) -> Result<(), AllocError> {
    text.open_field(b"enters", Bracket::Object)?;
    text.number_field(b"frame", machine.frames() as u64)?;
    push_kind(text, frame.kind)?;
    push_instance(text, machine.instances(), frame.slot)?;
    text.name(b"caller")?;
    match caller {
        Some(at) => text.number(u64::from(at))?,
        None => text.word(b"null")?,
    }
    push_stack(text, machine.cpu())?;
    text.close(Bracket::Object)
}

fn push_stack(text: &mut RecordText, cpu: &Cpu) -> Result<(), AllocError> {
    text.string_field(b"mode", mode_name(cpu.psr().mode))?;
    let stack = cpu.register_in(Mode::Supervisor, 13);
    text.number_field(b"sp", u64::from(stack))
}

fn push_kind(text: &mut RecordText, kind: FrameKind) -> Result<(), AllocError> {
    match kind {
        FrameKind::Swi(number) => {
            text.string_field(b"entry", b"SWI")?;
            text.number_field(b"swi", u64::from(number))
        }
        FrameKind::Entry(CodeKind::Initialise) => text.string_field(b"entry", b"Initialise"),
        FrameKind::Entry(CodeKind::Finalise) => text.string_field(b"entry", b"Finalise"),
    }
}

// The module and the instance of a slot.
fn push_instance(text: &mut RecordText, modules: &Instances, slot: u32) -> Result<(), AllocError> {
    for mark in &marks_of(modules) {
        if mark.slot == slot {
            text.string_field(b"module", mark.title.as_slice())?;
            return text.string_field(b"instance", mark.name.as_slice());
        }
    }
    text.string_field(b"module", b"")?;
    text.string_field(b"instance", b"")
}
