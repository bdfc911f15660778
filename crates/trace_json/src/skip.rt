//! Steps that aren't shown one by one, as a record: what they leave together.

use crate::changes::{MachineCopy, push_store_changes};
use crate::frames::push_frames;
use crate::heaps::BlockFate;
use crate::step::push_out;
use crate::stops::{push_stop, stop_reason};
use std::alloc::{AllocError, Global};
use trace_effects::record_text::RecordText;
use trace_text::Machine;

/// Writes what steps left that aren't shown one by one, beside what differs of the core and of words, and
/// but for where images stand.
///
/// # Errors
///
/// Memory ran out.
pub fn push_skip(
    alloc: Global,
    text: &mut RecordText,
    before: &MachineCopy,
    machine: &Machine,
    printed: &[u8],
) -> Result<(), AllocError> {
    let kept = before.frames.min(machine.frames());
    push_frames(text, before.frames, kept, machine, None)?;
    push_store_changes(alloc, text, before, machine, BlockFate::Unknown)?;
    push_out(text, printed)?;
    match machine.stop() {
        Some(stop) => push_stop(
            alloc,
            text,
            stop_reason(stop),
            Some(stop),
            machine.cpu().pc(),
        ),
        None => Ok(()),
    }
}
