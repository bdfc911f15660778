//! What a trace reports a step once it is taken.

ghost use Rattle.std.specs.Prelude.{◌≡◌, OnOk};
ghost use Rattle.std.specs.Io.KnownBytes.{Appends};
ghost use Rattle.profile.specs.Output.{Writes};
ghost use Rattle.trace_store_text.specs.MachineState.{outcome_with};
ghost use Rattle.trace_store_text.specs.GuestState.{state_of};
ghost use Rattle.trace_text.specs.Below.{AreListedInside, error_words, frames_kept, has_error};
ghost use Rattle.trace_effects.specs.Columns.{below_text};
ghost use Rattle.trace_text.specs.Start.{store_kept};
ghost use Rattle.trace_store_text.specs.Copies.{kept_of};
ghost use Rattle.trace_text.specs.Step.{is_heap_call, skipped_word, store_lines_below};

use crate::areas::push_areas;
use crate::below::{push_entered_line, push_left_line, push_prints_line};
use crate::core_text::push_core;
use crate::errors::{push_error, push_stop};
use crate::start::{StepStart, Taking};
use profile::text_sink::TextSink;
use profile::{Sink, Stop, WriteFault, push_all};
use std::alloc::Global;
use trace_effects::columns::{LineRooms, push_behind, push_below};
use trace_effects::stays_in_heap;
use trace_effects::word_text::{push_loaded, push_stored_below, push_stored_here};
use trace_store_text::{Frame, Machine, PageRange, StoreCopy, heap_pages, push_store_lines_in};

impl StepStart {
    ghost use Rattle.trace_text.specs.Start.{known_in};
    ghost use Rattle.trace_text.specs.Step.{ListsInside, ListsWith, lines_after_call, lines_with, frame_lines_below, core_line, step_end_text, instruction_below, instruction_end, instruction_words, memory_lines_below, pages_listed};

    /// Writes what the step left behind, by the machine after it and what it printed.
    ///
    /// # Errors
    ///
    /// Where the sink failed, or memory ran out.
    pub fn print_end<W: Sink>(
        &self,
        alloc: Global,
        machine: &Machine,
        printed: &[u8],
        sink: &mut W,
    ) -> Result<(), WriteFault>
        ensures text { OnOk result (Appends (W.contents sink.old) (W.contents sink.new)
            (step_end_text (known_in self.now) (outcome_with (state_of machine.now.guest) printed.now))) }
    {
        let mut rooms = LineRooms::new(alloc);
        self.print_end_in(machine, printed, PageRange::all(), &mut rooms, sink)
    }

    /// Writes the same of a step that the machine took, by what such a step writes, in host memory that
    /// an earlier step left.
    ///
    /// # Errors
    ///
    /// As `print_end`.
    pub fn print_taken<W: Sink>(
        &self,
        machine: &Machine,
        printed: &[u8],
        rooms: &mut LineRooms,
        sink: &mut W,
    ) -> Result<(), WriteFault>
        requires { ListsInside (known_in self.now) (state_of machine.now.guest) }
        ensures text { OnOk result (Appends (W.contents sink.old) (W.contents sink.new)
            (step_end_text (known_in self.now) (outcome_with (state_of machine.now.guest) printed.now))) }
    {
        let pages = self.pages_listed(machine);
        self.print_end_in(machine, printed, pages, rooms, sink)
    }

    fn pages_listed(&self, machine: &Machine) -> PageRange
        ensures { result ≡ pages_listed (known_in self.now) (state_of machine.now.guest) }
    {
        let is_heap = is_heap_call(self.cpu.register(0), self.taking);
        if !is_heap || machine.frames() != self.frames {
            return PageRange::all();
        }
        match &self.before {
            Some(before) => { heap_pages(before.memory(), machine.memory(), self.cpu.register(1)) }
            None => PageRange::all(),
        }
    }

    // Where no word is listed beyond some pages.
    fn print_end_in<W: Sink>(
        &self,
        machine: &Machine,
        printed: &[u8],
        pages: PageRange,
        rooms: &mut LineRooms,
        sink: &mut W,
    ) -> Result<(), WriteFault>
        requires { ListsWith self.now.frames (store_kept self.now.before) (state_of machine.now.guest) pages }
        ensures { OnOk result (Appends (W.contents sink.old) (W.contents sink.new)
            (step_end_text (known_in self.now) (outcome_with (state_of machine.now.guest) printed.now))) }
    {
        let (alloc, stop) = (rooms.alloc, machine.stop());
        match self.taking {
            Taking::Instruction => self.end_instruction(machine, stop, rooms, sink),
            Taking::Call { .. } => self.end_call(alloc, machine, printed, false, pages, stop, sink),
            Taking::Gate => {
                let pages = PageRange::all();
                self.end_call(alloc, machine, printed, true, pages, stop, sink)
            }
        }
    }

    fn end_instruction<W: Sink>(
        &self,
        machine: &Machine,
        stop: Option<Stop>,
        rooms: &mut LineRooms,
        sink: &mut W,
    ) -> Result<(), WriteFault>
        ensures { OnOk result (Appends (W.contents sink.old) (W.contents sink.new)
            (instruction_end (known_in self.now) (state_of machine.now.guest) stop)) }
    {
        let mut words = rooms.take_words();
        self.push_words(&mut words, machine, stop)?;
        push_behind(sink, self.text_length, words.bytes())?;
        push_all(sink, b"\n")?;
        rooms.words = words.into_bytes();
        self.push_stored(sink, machine, stop)
    }

    // Why an instruction halted the machine, or what it leaves.
    fn push_words<W: Sink>(
        &self,
        sink: &mut W,
        machine: &Machine,
        stop: Option<Stop>,
    ) -> Result<(), WriteFault>
        ensures { Writes W.contents W.has_failed sink.old sink.new result
            (instruction_words (known_in self.now) (state_of machine.now.guest) stop) }
    {
        match stop {
            Some(stop) => push_stop(sink, stop),
            None => {
                push_skipped(sink, self.is_skipped)?;
                push_core(sink, self.expected, &self.cpu, machine.cpu())?;
                push_loaded(
                    sink,
                    &self.cpu,
                    machine.cpu(),
                    machine.memory(),
                    self.loaded,
                    self.target,
                )?;
                push_stored_here(
                    sink,
                    machine.memory(),
                    self.stored_at,
                    self.old_words.as_slice(),
                )
            }
        }
    }

    fn push_stored<W: Sink>(
        &self,
        sink: &mut W,
        machine: &Machine,
        stop: Option<Stop>,
    ) -> Result<(), WriteFault>
        ensures { Writes W.contents W.has_failed sink.old sink.new result
            (instruction_below (known_in self.now) (state_of machine.now.guest) stop) }
    {
        match stop {
            Some(_) => Ok(()),
            None => push_stored_below(
                sink,
                machine.memory(),
                self.stored_at,
                self.old_words.as_slice(),
            ),
        }
    }

    // Why a store call or the return gate halted the machine, or what it leaves. The gate leaves a
    // frame.
    fn end_call<W: Sink>(
        &self,
        alloc: Global,
        machine: &Machine,
        printed: &[u8],
        leaves: bool,
        pages: PageRange,
        stop: Option<Stop>,
        sink: &mut W,
    ) -> Result<(), WriteFault>
        requires { let now = state_of machine.now.guest in
            ListsWith (frames_kept leaves self.now.frames) (store_kept self.now.before) now pages }
        ensures { let o = outcome_with (state_of machine.now.guest) printed.now in
            OnOk result (Appends (W.contents sink.old) (W.contents sink.new)
            (lines_after_call leaves (known_in self.now) o stop)) }
    {
        match stop {
            Some(stop) => {
                let mut words = TextSink::new(alloc);
                push_stop(&mut words, stop)?;
                push_below(sink, words.bytes())
            }
            None => {
                let kept = frames_kept(leaves, self.frames);
                self.push_lines_with(alloc, machine, printed, leaves, kept, pages, sink)
            }
        }
    }

    // The lines where so many frames were kept open.
    fn push_lines_with<W: Sink>(
        &self,
        alloc: Global,
        machine: &Machine,
        printed: &[u8],
        leaves: bool,
        kept: usize,
        pages: PageRange,
        sink: &mut W,
    ) -> Result<(), WriteFault>
        requires { ListsWith kept (store_kept self.now.before) (state_of machine.now.guest) pages }
        ensures { let o = outcome_with (state_of machine.now.guest) printed.now in
            OnOk result (Appends (W.contents sink.old) (W.contents sink.new)
            (lines_with leaves kept (known_in self.now) o)) }
    {
        self.push_core_line(alloc, machine, kept, sink)?;
        push_prints_line(alloc, printed, sink)?;
        self.push_frame_lines(alloc, machine, leaves, kept, sink)?;
        self.push_memory_lines(machine, kept, pages, sink)
    }

    // The lines of the areas, and of what is in them.
    #[tactic(auto, unfolding(crate::specs::Step::memory_lines_below))]
    fn push_memory_lines<W: Sink>(
        &self,
        machine: &Machine,
        kept: usize,
        pages: PageRange,
        sink: &mut W,
    ) -> Result<(), WriteFault>
        requires { ListsWith kept (store_kept self.now.before) (state_of machine.now.guest) pages }
        ensures { Writes W.contents W.has_failed sink.old sink.new result
            (memory_lines_below kept (known_in self.now) (state_of machine.now.guest)) }
    {
        push_areas(sink, self.areas.as_slice(), machine.areas().list())?;
        push_store(sink, &self.before, machine, has_error(kept, machine), pages)
    }

    // The lines of the frames that were left and entered.
    fn push_frame_lines<W: Sink>(
        &self,
        alloc: Global,
        machine: &Machine,
        leaves: bool,
        kept: usize,
        sink: &mut W,
    ) -> Result<(), WriteFault>
        ensures { OnOk result (Appends (W.contents sink.old) (W.contents sink.new)
            (frame_lines_below leaves kept (known_in self.now) (state_of machine.now.guest))) }
    {
        push_left_line(
            alloc,
            leaves,
            self.frames,
            self.innermost,
            &self.before,
            sink,
        )?;
        push_entered_line(alloc, kept, machine, sink)
    }

    // The line of an error that went back, and of the core.
    fn push_core_line<W: Sink>(
        &self,
        alloc: Global,
        machine: &Machine,
        kept: usize,
        sink: &mut W,
    ) -> Result<(), WriteFault>
        ensures { OnOk result (Appends (W.contents sink.old) (W.contents sink.new)
            (core_line kept (known_in self.now) (state_of machine.now.guest))) }
    {
        let mut words = TextSink::new(alloc);
        push_error_words(&mut words, kept, machine)?;
        push_core(&mut words, self.expected, &self.cpu, machine.cpu())?;
        push_below(sink, words.bytes())
    }
}

fn push_store<W: Sink>(
    sink: &mut W,
    before: &Option<Box<StoreCopy>>,
    machine: &Machine,
    has_error: bool,
    pages: PageRange,
) -> Result<(), WriteFault>
    requires { AreListedInside has_error (store_kept before.now)
        (kept_of (state_of machine.now.guest)) pages }
    ensures { Writes W.contents W.has_failed sink.old sink.new result
        (store_lines_below has_error (store_kept before.now) (kept_of (state_of machine.now.guest))) }
{
    match before {
        Some(before) => push_store_lines_in(sink, before, machine, has_error, pages),
        None => Ok(()),
    }
}

fn is_heap_call(r0: u32, taking: Taking) -> bool
    ensures { result ≡ is_heap_call r0 taking }
{
    match taking {
        Taking::Call { number, .. } => stays_in_heap(r0, number),
        Taking::Instruction | Taking::Gate => false,
    }
}

fn push_skipped<W: Sink>(sink: &mut W, is_skipped: bool) -> Result<(), WriteFault>
    ensures { Writes W.contents W.has_failed sink.old sink.new result (skipped_word is_skipped) }
{
    if is_skipped {
        push_all(sink, b" skipped")
    } else {
        Ok(())
    }
}

fn frames_kept(leaves: bool, count: usize) -> usize
    ensures { result ≡ frames_kept leaves count }
{
    if leaves {
        count.saturating_sub(1)
    } else {
        count
    }
}

fn push_error_words<W: Sink>(sink: &mut W, kept: usize, machine: &Machine) -> Result<(), WriteFault>
    ensures { Writes W.contents W.has_failed sink.old sink.new result
        (error_words kept (state_of machine.now.guest)) }
{
    if has_error(kept, machine) {
        push_error(sink, machine.error_number())
    } else {
        Ok(())
    }
}

fn has_error(kept: usize, machine: &Machine) -> bool
    ensures { result ≡ has_error kept (state_of machine.now.guest) }
{
    machine.cpu().psr().overflow && machine.frames() == kept
}
