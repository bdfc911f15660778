//! What places are shown by on a machine.

ghost use Rattle.std.specs.Prelude.{◌≡◌, IfOk};
ghost use Rattle.debug_labels.specs.Lines.{line_with_numbers};
ghost use Rattle.debug_labels.specs.place_views.Places.{line_naming_on, naming_on};
ghost use Rattle.debugger.specs.GuestState.{state_of};

use crate::{LabelTable, PlaceNames};
use debugger::Machine;
use std::alloc::{AllocError, Global};

/// Words and places are shown by these labels, by the modules of a machine and by its core.
pub fn names_on<'a>(labels: &'a LabelTable, machine: &'a Machine) -> PlaceNames<'a>
    ensures { result ≡ naming_on labels.now (state_of machine.now.guest) }
{
    PlaceNames::new(labels, machine.instances(), machine.cpu())
}

/// A tidy line with numbers, on a machine: [`PlaceNames::line_with_numbers`].
///
/// # Errors
///
/// Memory ran out.
pub fn line_on(
    alloc: Global,
    labels: &LabelTable,
    machine: &Machine,
    line: &[u8],
) -> Result<Vec<u8>, AllocError>
    ensures { IfOk result (λ text. text.items
        ≡ line_with_numbers (line_naming_on labels.now (state_of machine.now.guest)) line.now) }
{
    names_on(labels, machine).line_with_numbers(alloc, machine.memory(), line)
}
