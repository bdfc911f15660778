//! What is kept of a machine's memory before a step, by how the step is made.

ghost use Rattle.std.specs.Prelude.{◌≡◌, ◌||◌, true, is_some, not, IfOk, OnOk};
ghost use Rattle.trace_text.specs.GuestState.{state_of};
ghost use Rattle.trace_text.specs.MachineState.{MachineState};
ghost use Rattle.trace_json.specs.Moments.{ChangesListed, KeepsWords, changes_all, is_copied, step_place_by, words_of};
ghost use Rattle.trace_moments.specs.WordFields.{ShowsWords};
ghost use Rattle.trace_moments.specs.law_trace.Laws.{is_plain};

use crate::changes::MachineCopy;
use std::alloc::{AllocError, Global};
use trace_effects::record_text::RecordText;
use trace_effects::shown_words::ShownWord;
use trace_effects::{Cause, called_swi, stored_words};
use trace_moments::{push_words, stored_changes, words_at};
use trace_text::{Machine, without_x_bit};

/// How a step is made.
#[derive(Clone, Copy, PartialEq, Eq)]
pub enum StepKind {
    /// An instruction that is carried out or skipped, or can't be.
    Instruction,
    /// A stub does something in place of the step.
    Stub,
    /// A store call, by its number without the X bit.
    Call(u32),
    /// One from outside.
    Outside(u32),
    /// The return gate.
    Gate,
}

/// What is kept of a machine's memory before a step.
#[derive(Drop)]
pub enum MemoryBefore {
    /// The words that an instruction may store to.
    Stored(Vec<ShownWord>),
    /// All that a call may change.
    Copied(MachineCopy),
}

impl MemoryBefore {
    /// What is kept before a step of a kind.
    pub(crate) fn of(
        alloc: Global,
        machine: &Machine,
        kind: StepKind,
        cause: Cause,
    ) -> Result<MemoryBefore, AllocError>
        ensures memory { IfOk result
            (λ memory. KeepsWords memory cause (state_of machine.now.guest)) }
        ensures copied { IfOk result (λ memory. is_copied memory ≡ changes_all kind) }
    {
        match kind {
            StepKind::Instruction => {
                let words = stored_words(cause, machine.cpu());
                let stored = words_at(alloc, machine.memory(), words)?;
                Ok(MemoryBefore::Stored(stored))
            }
            _ => {
                let copy = MachineCopy::of(alloc, machine)?;
                Ok(MemoryBefore::Copied(copy))
            }
        }
    }
}

/// Writes the words that an instruction stored to; where it was refused it stored none.
pub(crate) fn push_stored(
    alloc: Global,
    text: &mut RecordText,
    words: &[ShownWord],
    machine: &Machine,
) -> Result<(), AllocError>
    ensures { (e : MachineState) → let t = state_of machine.now.guest in ChangesListed words.now e t
        → OnOk result (ShowsWords (words_of e) (words_of t) text.old text.new) }
{
    if machine.stop().is_some() {
        return Ok(());
    }
    let changes = stored_changes(alloc, words, machine.memory())?;
    push_words(text, changes.as_slice())?;
    Ok(())
}

/// How a step is made at which this stands, and in whose place a stub may do something.
pub(crate) fn kind_of(cause: Cause, is_stubbed: bool) -> StepKind
    ensures all { changes_all result ≡ (is_stubbed || not (is_plain cause)) }
    ensures inside { is_some (step_place_by result 0) ≡ true }
{
    if is_stubbed {
        return StepKind::Stub;
    }
    match cause {
        Cause::Gate => StepKind::Gate,
        Cause::Word(_) => match called_swi(cause) {
            Some(number) => StepKind::Call(without_x_bit(number)),
            None => StepKind::Instruction,
        },
        Cause::Skipped(_) | Cause::Unmapped => StepKind::Instruction,
    }
}
