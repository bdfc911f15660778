//! Words of memory with how often steps were taken at them, as text.

ghost use Rattle.std.specs.Prelude.{◌≡◌, ◌≤◌, codes, take, IfOk};
ghost use Rattle.profile.specs.Output.{Writes};
ghost use Rattle.debug_modes.specs.Counting.{count_column, counted_line, counted_lines, counts_shown, counts_text, counts_text_from, one_if_taken, taken_line, ten_columns, words_of_size, words_taken};
ghost use Rattle.command_shell.specs.GuestState.{state_of};

use crate::answers::refused_line;
use crate::modes::DebugModes;
use command_shell::{Machine, show_code};
use debug_labels::{ImagePlace, LabelTable, PlaceNames};
use debug_tables::counts::StepCounts;
use itoa::Buffer;
use profile::text_sink::TextSink;
use profile::{Sink, WriteFault, push_all, push_parts};
use std::alloc::{AllocError, Global};

/// As many blanks as a count has digits at most.
const BLANKS: &[u8] = b"          ";

impl DebugModes {
    ghost use Rattle.debug_labels.specs.place_views.Places.{naming_on};

    /// How often the steps of the words of an image of that name were taken, of those that were assembled:
    /// a line for each word, where the image stands now, with the line that CODE has for it, and behind
    /// these at how many of them steps were taken, `5 of 6 words`; or `refused NoImage`.
    ///
    /// # Errors
    ///
    /// `AllocError` where the host has no memory for the text.
    pub fn counts_text(
        &self,
        alloc: Global,
        labels: &LabelTable,
        machine: &Machine,
        name: &[u8],
    ) -> Result<Vec<u8>, AllocError>
        ensures { let s = state_of machine.now.guest in IfOk result (λ text. text.items
            ≡ counts_text self.now.counts (naming_on labels.now s) s.store.bytes name.now) }
    {
        let names = PlaceNames::new(labels, machine.instances(), machine.cpu());
        match names.image_place(name) {
            None => refused_line(alloc, b"NoImage"),
            Some(place) => counts_text_from(alloc, &self.counts, machine, place),
        }
    }
}

fn counts_text_from(
    alloc: Global,
    counts: &StepCounts,
    machine: &Machine,
    place: ImagePlace,
) -> Result<Vec<u8>, AllocError>
    ensures { IfOk result (λ text. text.items
        ≡ counts_text_from counts.now (state_of machine.now.guest).store.bytes place) }
{
    let mut text = TextSink::new(alloc);
    let count = words_of_size(place.size);
    match show_counts(counts, machine, place.start, count, &mut text) {
        Ok(()) => Ok(text.into_bytes()),
        Err(_) => Err(AllocError),
    }
}

// How many words so many bytes lie in.
fn words_of_size(size: usize) -> u32
    ensures { result ≡ words_of_size size }
{
    let words = size.div_ceil(4);
    if words < u32::MAX as usize {
        words as u32
    } else {
        u32::MAX
    }
}

fn show_counts<W: Sink>(
    counts: &StepCounts,
    machine: &Machine,
    address: u32,
    count: u32,
    sink: &mut W,
) -> Result<(), WriteFault>
    ensures { Writes W.contents W.has_failed sink.old sink.new result
        (counts_shown counts.now (state_of machine.now.guest).store.bytes address count) }
{
    show_lines(counts, machine, address, count, sink)?;
    push_taken(sink, words_taken(counts, address, count), count)
}

#[tactic(auto, using(crate::proofs::CountingLemmas::line_steps))]
fn show_lines<W: Sink>(
    counts: &StepCounts,
    machine: &Machine,
    address: u32,
    count: u32,
    sink: &mut W,
) -> Result<(), WriteFault>
    ensures { Writes W.contents W.has_failed sink.old sink.new result
        (counted_lines counts.now (state_of machine.now.guest).store.bytes address count) }
{
    let mut at = address;
    for _words in 0..count {
        show_line(counts, machine, at, sink)?;
        at = at.wrapping_add(4);
    }
    Ok(())
}

fn show_line<W: Sink>(
    counts: &StepCounts,
    machine: &Machine,
    address: u32,
    sink: &mut W,
) -> Result<(), WriteFault>
    ensures { Writes W.contents W.has_failed sink.old sink.new result
        (counted_line counts.now (state_of machine.now.guest).store.bytes address) }
{
    push_count(sink, counts.times(address))?;
    show_code(machine, address, 1, sink)
}

// At how many of so many words steps were taken.
#[tactic(auto, using(crate::proofs::CountingLemmas::taken_steps))]
fn words_taken(counts: &StepCounts, address: u32, count: u32) -> u32
    ensures { result ≡ words_taken counts.now address count }
{
    let mut at = address;
    let mut taken: u32 = 0;
    for _words in 0..count {
        taken += one_if_taken(counts, at);
        at = at.wrapping_add(4);
    }
    taken
}

// 1 where a step was taken.
fn one_if_taken(counts: &StepCounts, address: u32) -> u32
    ensures value { result ≡ one_if_taken counts.now address }
    ensures few { result ≤ 1 }
{
    if counts.times(address) > 0 { 1 } else { 0 }
}

// A count, behind blanks, in ten columns.
fn push_count<W: Sink>(sink: &mut W, times: u32) -> Result<(), WriteFault>
    ensures { Writes W.contents W.has_failed sink.old sink.new result (count_column times) }
{
    let mut digits = Buffer::new();
    push_columns(sink, digits.format(times).as_bytes())?;
    push_all(sink, b" ")
}

fn push_columns<W: Sink>(sink: &mut W, digits: &[u8]) -> Result<(), WriteFault>
    ensures { Writes W.contents W.has_failed sink.old sink.new result (ten_columns digits.now) }
{
    push_all(sink, blanks(BLANKS.len().saturating_sub(digits.len())))?;
    push_all(sink, digits)
}

// So many of them.
fn blanks(count: usize) -> &'static [u8]
    requires { count ≤ 10 }
    ensures { result.now ≡ take count (codes "          ") }
{
    &BLANKS[..count]
}

fn push_taken<W: Sink>(sink: &mut W, taken: u32, count: u32) -> Result<(), WriteFault>
    ensures { Writes W.contents W.has_failed sink.old sink.new result (taken_line taken count) }
{
    let mut first = Buffer::new();
    let mut second = Buffer::new();
    push_parts(
        sink,
        &[
            first.format(taken).as_bytes(),
            b" of ".as_slice(),
            second.format(count).as_bytes(),
            b" words\n".as_slice(),
        ],
    )
}
