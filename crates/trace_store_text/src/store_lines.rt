//! All lines of what a store call changes in the machine's store.

ghost use Rattle.std.specs.Prelude.{◌≡◌};
ghost use Rattle.profile.specs.Output.{Writes};
ghost use Rattle.debugger.specs.GuestState.{state_of};
ghost use Rattle.store_copies.specs.Copies.{kept_in, kept_of};
ghost use Rattle.store_copies.specs.Words.{AreListedWithin, is_shown_elsewhere};
ghost use Rattle.trace_store_text.specs.FlexLines.{flex_lines};
ghost use Rattle.trace_store_text.specs.StoreLines.{changed_word_lines, store_lines};

use crate::flex_lines::push_flex;
use crate::heap_lines::push_heaps;
use crate::image_lines::push_images;
use crate::module_lines::push_modules;
use crate::word_lines::push_words;
use debugger::Machine;
use profile::{Sink, WriteFault};
use store_copies::{PageRange, StoreCopy, changed_words_in};

/// Writes a line for each thing that differs from the store before a call, whose words lie in some pages.
#[tactic(auto, unfolding(crate::specs::StoreLines::store_lines))]
pub fn push_store_lines_in<W: Sink>(
    sink: &mut W,
    before: &StoreCopy,
    machine: &Machine,
    has_error: bool,
    pages: PageRange,
) -> Result<(), WriteFault>
    requires { AreListedWithin (is_shown_elsewhere has_error) (kept_in before.now).store.bytes
        (state_of machine.now.guest).store.bytes pages }
    ensures writes { Writes W.contents W.has_failed sink.old sink.new result
        (store_lines has_error (kept_in before.now) (kept_of (state_of machine.now.guest))) }
{
    push_images(sink, before.memory(), machine.memory())?;
    push_modules(sink, before.instances(), machine.instances())?;
    push_changed_flex(sink, before, machine)?;
    push_heaps(sink, before.memory(), machine.memory())?;
    push_changed_words(sink, before, machine, has_error, pages)
}

fn push_changed_flex<W: Sink>(
    sink: &mut W,
    before: &StoreCopy,
    machine: &Machine,
) -> Result<(), WriteFault>
    ensures { let k = kept_in before.now in let s = state_of machine.now.guest in
        Writes W.contents W.has_failed sink.old sink.new result
        (flex_lines k.store.bytes k.flex s.store.bytes s.tables.flex) }
{
    push_flex(
        sink,
        before.memory(),
        before.flex(),
        machine.memory(),
        machine.flex(),
    )
}

fn push_changed_words<W: Sink>(
    sink: &mut W,
    before: &StoreCopy,
    machine: &Machine,
    has_error: bool,
    pages: PageRange,
) -> Result<(), WriteFault>
    requires { AreListedWithin (is_shown_elsewhere has_error) (kept_in before.now).store.bytes
        (state_of machine.now.guest).store.bytes pages }
    ensures { Writes W.contents W.has_failed sink.old sink.new result
        (changed_word_lines has_error (kept_in before.now).store (state_of machine.now.guest).store) }
{
    let changes = changed_words_in(before.memory(), machine, has_error, pages);
    push_words(sink, &changes)
}
