//! What lines show that only look.

ghost use Rattle.std.specs.Prelude.{◌≡◌, IfOk};
ghost use Rattle.profile.specs.Output.{Writes};
ghost use Rattle.command_shell.specs.GuestState.{state_of};
ghost use Rattle.debug_lines.specs.DebugRequests.{view_request_of};
ghost use Rattle.debug_modes.specs.ViewTexts.{view_text};

use crate::expectations::{show_banks, show_dump, show_why, show_words};
use crate::help::HELP;
use command_shell::Machine;
use debug_labels::LabelTable;
use debug_labels::place_views::{names_on, show_frames, show_stack, show_where};
use debug_lines::DebugView;
use profile::text_sink::TextSink;
use profile::{Sink, WriteFault, push_all};
use std::alloc::{AllocError, Global};

/// What such a line shows.
///
/// # Errors
///
/// Memory ran out.
pub fn view_text(
    alloc: Global,
    labels: &LabelTable,
    machine: &Machine,
    view: DebugView,
) -> Result<Vec<u8>, AllocError>
    ensures { IfOk result (λ text. text.items
        ≡ view_text labels.now (state_of machine.now.guest) (view_request_of view)) }
{
    let mut text = TextSink::new(alloc);
    match show_view(labels, machine, &mut text, view) {
        Ok(()) => Ok(text.into_bytes()),
        Err(_) => Err(AllocError),
    }
}

fn show_view<W: Sink>(
    labels: &LabelTable,
    machine: &Machine,
    sink: &mut W,
    view: DebugView,
) -> Result<(), WriteFault>
    ensures { Writes W.contents W.has_failed sink.old sink.new result
        (view_text labels.now (state_of machine.now.guest) (view_request_of view)) }
{
    match view {
        DebugView::Words(address, count) => show_words(machine, address.address(), count, sink),
        DebugView::Where => show_where(labels, machine, sink),
        DebugView::Banks => show_banks(machine, sink),
        DebugView::Stack(count) => show_stack(labels, machine, count, sink),
        DebugView::Frames => show_frames(labels, machine, sink),
        DebugView::Labels => names_on(labels, machine).show_labels(sink),
        DebugView::Dump(address, count) => show_dump(machine, address, count, sink),
        DebugView::Why => show_why(machine, sink),
        DebugView::Help => push_all(sink, HELP),
    }
}
