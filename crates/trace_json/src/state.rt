//! A whole machine in a record.

use crate::flex::push_store;
use crate::heaps::push_all_heaps;
use crate::lists::{push_areas, push_modules};
use std::alloc::AllocError;
use trace_effects::record_text::RecordText;
use trace_moments::{flex_range_of, marks_of, push_core, push_memory, shown_areas};
use trace_text::Machine;

/// Writes all that stands in a machine: its core, its memory, its heaps, areas and modules, and where
/// its flex store is.
///
/// # Errors
///
/// Memory ran out.
pub fn push_state(text: &mut RecordText, machine: &Machine) -> Result<(), AllocError> {
    push_core(text, machine.cpu())?;
    push_memory(text, machine.memory())?;
    push_all_heaps(text, machine.memory())?;
    push_areas(text, &shown_areas(machine.areas(), machine.memory()))?;
    push_store(text, b"flex", flex_range_of(machine.flex()))?;
    push_modules(text, marks_of(machine.instances()).as_slice())
}
