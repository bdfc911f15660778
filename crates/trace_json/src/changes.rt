//! What differs between a machine as it was and as it is, in records.

ghost use Rattle.std.specs.Prelude.{◌≡◌, codes, IfOk, OnOk};
ghost use Rattle.address_map.specs.Bytes.{word_at};
ghost use Rattle.trace_text.specs.GuestState.{state_of};
ghost use Rattle.trace_text.specs.MachineState.{MachineState};
ghost use Rattle.trace_text.specs.Copies.{kept_in};
ghost use Rattle.trace_json.specs.Moments.{IsCopy, ShowsChanges, words_of};
ghost use Rattle.trace_moments.specs.WordFields.{ShowsWords};

use crate::flex::push_changed_flex;
use crate::heaps::{BlockFate, push_changed_heaps};
use crate::lists::{push_areas, push_modules};
use arm_core::Cpu;
use std::alloc::{AllocError, Global};
use trace_effects::record_text::RecordText;
use trace_effects::shown_registers::WrittenRegisters;
use trace_effects::shown_words::changed_words;
use trace_moments::{
    ShownAreas, changed_areas, changed_modules, push_core_changes, push_words, shown_areas,
};
use trace_text::{Machine, StoreCopy};

/// What is kept of a machine, to show later what differs.
#[derive(Drop)]
pub struct MachineCopy {
    pub(crate) cpu: Cpu,
    pub(crate) frames: usize,
    store: StoreCopy,
    areas: ShownAreas,
}

impl MachineCopy {
    /// A copy of a machine as it is.
    ///
    /// # Errors
    ///
    /// Memory ran out.
    pub fn of(alloc: Global, machine: &Machine) -> Result<MachineCopy, AllocError>
        ensures { IfOk result (λ copy. IsCopy copy (state_of machine.now.guest)) }
    {
        Ok(MachineCopy {
            cpu: *machine.cpu(),
            frames: machine.frames(),
            store: StoreCopy::of(alloc, machine)?,
            areas: shown_areas(machine.areas(), machine.memory()),
        })
    }
}

/// Writes the words of memory that differ.
pub(crate) fn push_changed_words(
    alloc: Global,
    text: &mut RecordText,
    before: &MachineCopy,
    machine: &Machine,
) -> Result<(), AllocError>
    ensures { OnOk result (ShowsWords (word_at (kept_in before.now.store).store.bytes.at)
        (words_of (state_of machine.now.guest)) text.old text.new) }
{
    let words = changed_words(alloc, before.store.memory(), machine.memory())?;
    push_words(text, words.as_slice())?;
    Ok(())
}

/// Writes the heaps, flex blocks, areas and modules that differ.
pub(crate) fn push_store_changes(
    alloc: Global,
    text: &mut RecordText,
    before: &MachineCopy,
    machine: &Machine,
    fate: BlockFate,
) -> Result<(), AllocError> {
    let old = &before.store;
    push_changed_heaps(alloc, text, old.memory(), machine.memory(), fate)?;
    push_flex_changes(alloc, text, old, machine)?;
    if let Some(areas) = changed_areas(&before.areas, machine.areas(), machine.memory()) {
        push_areas(text, &areas)?;
    }
    match changed_modules(old.instances(), machine.instances()) {
        Some(modules) => push_modules(text, modules.as_slice()),
        None => Ok(()),
    }
}

fn push_flex_changes(
    alloc: Global,
    text: &mut RecordText,
    before: &StoreCopy,
    machine: &Machine,
) -> Result<(), AllocError> {
    push_changed_flex(
        alloc,
        text,
        before.memory(),
        before.flex(),
        machine.memory(),
        machine.flex(),
    )
}

/// Writes what differs of the core and of words after a line that takes no steps.
///
/// # Errors
///
/// Memory ran out.
pub fn push_changes(
    alloc: Global,
    text: &mut RecordText,
    before: &MachineCopy,
    machine: &Machine,
) -> Result<(), AllocError>
    ensures { (s : MachineState) → IsCopy before.now s → OnOk result
        (ShowsChanges (codes "pc") s.cpu.pc s (state_of machine.now.guest) text.old text.new) }
{
    push_all_changes(alloc, text, before, machine, b"pc")
}

/// Writes the same of steps that aren't shown one by one.
///
/// # Errors
///
/// Memory ran out.
pub fn push_skip_changes(
    alloc: Global,
    text: &mut RecordText,
    before: &MachineCopy,
    machine: &Machine,
) -> Result<(), AllocError>
    ensures { (s : MachineState) → IsCopy before.now s → OnOk result
        (ShowsChanges (codes "next") s.cpu.pc s (state_of machine.now.guest) text.old text.new) }
{
    push_all_changes(alloc, text, before, machine, b"next")
}

fn push_all_changes(
    alloc: Global,
    text: &mut RecordText,
    before: &MachineCopy,
    machine: &Machine,
    name: &[u8],
) -> Result<(), AllocError>
    ensures { (s : MachineState) → IsCopy before.now s → OnOk result
        (ShowsChanges name.now s.cpu.pc s (state_of machine.now.guest) text.old text.new) }
{
    let none = WrittenRegisters::new();
    let expected = before.cpu.pc();
    push_core_changes(text, &before.cpu, machine.cpu(), &none, name, expected)?;
    push_changed_words(alloc, text, before, machine)?;
    Ok(())
}

/// Writes what else differs after a line that takes no steps.
///
/// # Errors
///
/// Memory ran out.
pub fn push_changed_store(
    alloc: Global,
    text: &mut RecordText,
    before: &MachineCopy,
    machine: &Machine,
) -> Result<(), AllocError> {
    push_store_changes(alloc, text, before, machine, BlockFate::Slid)
}
