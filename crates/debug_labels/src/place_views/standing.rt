//! The view WHERE: where the machine stands.

ghost use Rattle.profile.specs.Output.{Writes};
ghost use Rattle.debug_labels.specs.place_views.Places.{where_text};
ghost use Rattle.debugger.specs.GuestState.{state_of};

use crate::LabelTable;
use crate::place_views::names::names_on;
use debugger::Machine;
use profile::{Sink, WriteFault};

/// Writes where the machine stands: the program counter in capitals without leading zeros, and the
/// label there or near below it, `at &8004 countdown:loop+4`.
pub fn show_where<W: Sink>(
    labels: &LabelTable,
    machine: &Machine,
    sink: &mut W,
) -> Result<(), WriteFault>
    ensures writes { Writes W.contents W.has_failed sink.old sink.new result
        (where_text labels.now (state_of machine.now.guest)) }
{
    names_on(labels, machine).show_place(machine.cpu().pc(), sink)
}
