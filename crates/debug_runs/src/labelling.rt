//! The labels of a trace: the line of one before a step, and the name of where a branch goes.

ghost use Rattle.std.specs.Prelude.{◌≡◌, option_map};
ghost use Rattle.debug_labels.specs.Places.{shown_of_place_label};
ghost use Rattle.profile.specs.Output.{Writes};
ghost use Rattle.debug_runs.specs.TraceWriter.{label_ahead, label_itself, label_line_in, step_label_line};
ghost use Rattle.debug_tables.specs.GuestState.{state_of};

use debug_labels::{LabelTable, PlaceLabel, PlaceNames};
use debug_tables::Machine;
use profile::{Sink, WriteFault, push_parts};
use trace_text::Cause;
use trace_text::instruction::branch_destination;

/// Writes `image:label:` where a label stands at the program counter.
pub(crate) fn push_label_line<W: Sink>(
    labels: &LabelTable,
    machine: &Machine,
    sink: &mut W,
) -> Result<(), WriteFault>
    ensures { Writes W.contents W.has_failed sink.old sink.new result
        (label_line_in labels.now (state_of machine.now.guest)) }
{
    let names = PlaceNames::new(labels, machine.instances(), machine.cpu());
    push_label(names.label_at(machine.cpu().pc()), sink)
}

fn push_label<W: Sink>(place: Option<PlaceLabel>, sink: &mut W) -> Result<(), WriteFault>
    ensures { Writes W.contents W.has_failed sink.old sink.new result
        (step_label_line (option_map shown_of_place_label place.entry)) }
{
    match place {
        Some(place) if place.offset == 0 => push_parts(
            sink,
            &[place.image, b":".as_slice(), place.label, b":\n".as_slice()],
        ),
        _ => Ok(()),
    }
}

/// The label to which the branch goes that stands at the program counter, if there is one.
pub(crate) fn label_ahead<'a>(labels: &'a LabelTable, machine: &'a Machine) -> Option<&'a [u8]>
    ensures { option_map (λ label. label.now) result
        ≡ label_ahead labels.now (state_of machine.now.guest) }
{
    let cpu = machine.cpu();
    let target = branch_destination(cpu.pc(), Cause::of(cpu, machine.memory()))?;
    label_itself(PlaceNames::new(labels, machine.instances(), cpu).label_at(target))
}

fn label_itself<'a>(place: Option<PlaceLabel<'a>>) -> Option<&'a [u8]>
    ensures { option_map (λ label. label.now) result
        ≡ label_itself (option_map shown_of_place_label place.entry) }
{
    match place {
        Some(place) if place.offset == 0 => Some(place.label),
        _ => None,
    }
}
