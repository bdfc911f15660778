//! One step of a session, shown or not shown.

ghost use Rattle.std.specs.Prelude.{◌≡◌, ◌<◌, ◌++◌, [], List, Some, IfOk, OnOk};
ghost use Rattle.debug_tables.specs.Session.{script_state};
ghost use Rattle.debug_tables.specs.GuestState.{IsState, state_of};
ghost use Rattle.trace_text.specs.Start.{known_in};
ghost use Rattle.trace_text.specs.Step.{known_outside};
ghost use Rattle.profile.specs.images.Entries.{Entry};
ghost use Rattle.profile.specs.Output.{Writes};
ghost use Rattle.debug_runs.specs.Calls.{outside_start_text, outside_text};
ghost use Rattle.debug_runs.specs.TraceWriter.{is_step_shown, more_text, one_answer, untold_text};
ghost use Rattle.profile.specs.text_sink.TextSink.{sink_text_of};

use crate::context::StepContext;
use crate::labelling::{label_ahead, push_label_line};
use crate::stub_lines::push_stub_line;
use debug_tables::{Machine, OutsideCall, Session, StubDeed};
use itoa::Buffer;
use law_machine::other_bytes::laws::other_bytes_stay;
use profile::images::Images;
use profile::text_sink::TextSink;
use profile::{Sink, WriteFault, push_all, push_parts};
use std::alloc::Global;
use trace_text::{
    Cause, LineRooms, StepStart, StoreCopy, StoredWords, old_words, push_prints_line,
};

/// What is shown of the steps of a line, and what the guest prints in them.
#[derive(Drop)]
pub(crate) struct TraceWriter {
    pub(crate) alloc: Global,
    /// How many steps more are shown, where steps are.
    pub(crate) reported: Option<u64>,
    pub(crate) text: TextSink,
    pub(crate) printed: TextSink,
    // The host memory in which a step that was shown kept the store.
    scratch: Option<Box<StoreCopy>>,
    // That of the texts of its line.
    rooms: LineRooms,
}

impl TraceWriter {
    ghost use Rattle.debug_tables.specs.Calls.{first_step, step_made};
    ghost use Rattle.debug_tables.specs.Step.{machine_step};
    ghost use Rattle.trace_text.specs.Step.{ListsInside, step_end_text, step_text};
    ghost use Rattle.debug_runs.specs.Runs.{next_step, text_of_next};
    ghost use Rattle.debug_tables.specs.Stubs.{script_after_deed};
    ghost use Rattle.debug_runs.specs.TraceWriter.{answer_of_step, label_ahead, stub_step_text, whole_step_text};
    ghost use Rattle.debug_runs.specs.Reported.{IsAnswerOn};

    /// A telling of so many steps, or of what is printed alone, before the first step.
    pub(crate) fn new(alloc: Global, reported: Option<u64>) -> TraceWriter
        ensures reported { result.reported ≡ reported }
        ensures text { sink_text_of result.text ≡ [] }
        ensures printed { sink_text_of result.printed ≡ [] }
    {
        TraceWriter {
            alloc,
            reported,
            text: TextSink::new(alloc),
            printed: TextSink::new(alloc),
            scratch: None,
            rooms: LineRooms::new(alloc),
        }
    }

    /// Takes a step, or lets a stub answer it, and shows it where it is one of those that are shown.
    #[tactic(auto, using(crate::proofs::TraceWriterLemmas::trace_writer_steps))]
    pub(crate) fn step(
        &mut self,
        session: &mut Session,
        context: &StepContext<'_>,
    ) -> Result<(), WriteFault>
        requires { 0 < (script_state session.old context.now.images.now).left }
        ensures state { let s = script_state session.old context.now.images.now in OnOk result
            (script_state session.new context.now.images.now
            ≡ step_made s (next_step context.now.modes.now s)) }
        ensures reported { let s = script_state session.old context.now.images.now in
            let modes = context.now.modes.now in OnOk result
            (IsAnswerOn self.old self.new (text_of_next modes context.now.labels.now self.old.reported s)
            (next_step modes s).printed) }
        ensures one_answer { OnOk result (self.new.reported ≡ one_answer self.old.reported) }
    {
        if is_step_shown(self.reported) {
            self.take_answer(session, context)?;
        } else {
            self.take_untold(session, context)?;
        }
        self.reported = one_answer(self.reported);
        Ok(())
    }

    /// Takes the first step of a call from outside, and shows it where a step is shown.
    #[tactic(auto, using(crate::proofs::TraceWriterLemmas::trace_writer_steps))]
    pub(crate) fn begin(
        &mut self,
        session: &mut Session,
        context: &StepContext<'_>,
        call: OutsideCall,
    ) -> Result<(), WriteFault>
        requires { 0 < (script_state session.old context.now.images.now).left }
        ensures state { let s = script_state session.old context.now.images.now in OnOk result
            (script_state session.new context.now.images.now ≡ step_made s (first_step s call.entry)) }
        ensures reported { let s = script_state session.old context.now.images.now in
            let o = first_step s call.entry in OnOk result
            (IsAnswerOn self.old self.new
            (answer_of_step self.old.reported (outside_text call.entry s.machine o) o.printed) o.printed) }
        ensures one_answer { OnOk result (self.new.reported ≡ one_answer self.old.reported) }
    {
        if is_step_shown(self.reported) {
            self.begin_answer(session, context.images, call)?;
        } else {
            self.begin_untold(session, context.images, call)?;
        }
        self.reported = one_answer(self.reported);
        Ok(())
    }

    fn take_answer(
        &mut self,
        session: &mut Session,
        context: &StepContext<'_>,
    ) -> Result<(), WriteFault>
        requires { 0 < (script_state session.old context.now.images.now).left }
        ensures state { let s = script_state session.old context.now.images.now in OnOk result
            (script_state session.new context.now.images.now
            ≡ step_made s (next_step context.now.modes.now s)) }
        ensures reported { let s = script_state session.old context.now.images.now in
            let modes = context.now.modes.now in let o = next_step modes s in OnOk result
            (IsAnswerOn self.old self.new
            (whole_step_text modes.stubs context.now.labels.now s.machine o) o.printed) }
        ensures same { self.new.reported ≡ self.old.reported }
    {
        push_label_line(context.labels, session.machine(), &mut self.text)?;
        match context.modes.stubs.ahead(session.machine()) {
            Some(deed) => self.take_stubbed(session, &deed),
            None => self.take_stepped(session, context),
        }
    }

    // A step that is shown, and no stub answers.
    fn take_stepped(
        &mut self,
        session: &mut Session,
        context: &StepContext<'_>,
    ) -> Result<(), WriteFault>
        requires { 0 < (script_state session.old context.now.images.now).left }
        ensures state { let images = context.now.images.now in
            let s = script_state session.old images in OnOk result
            (script_state session.new images ≡ step_made s (machine_step images s.machine)) }
        ensures reported { let s = script_state session.old context.now.images.now in
            let o = machine_step context.now.images.now s.machine in OnOk result
            (IsAnswerOn self.old self.new
            (step_text (label_ahead context.now.labels.now s.machine) s.machine o) o.printed) }
        ensures same { self.new.reported ≡ self.old.reported }
    {
        let machine = session.machine();
        machine.known();
        other_bytes_stay();
        let label = label_ahead(context.labels, machine);
        let scratch = self.scratch.take();
        let rooms = &mut self.rooms;
        let start = StepStart::print_step(machine, label, scratch, rooms, &mut self.text)?;
        let taken = self.take_started(session, context.images, &start);
        self.scratch = start.into_scratch();
        taken
    }

    // A step of which a trace has shown how it begins.
    fn take_started(
        &mut self,
        session: &mut Session,
        images: &Images,
        start: &StepStart,
    ) -> Result<(), WriteFault>
        requires left { 0 < (script_state session.old images.now).left }
        requires lists { let s = script_state session.old images.now in
            let now = (machine_step images.now s.machine).now in
            IsState now → ListsInside (known_in start.now) now }
        ensures state { let s = script_state session.old images.now in OnOk result
            (script_state session.new images.now ≡ step_made s (machine_step images.now s.machine)) }
        ensures reported { let s = script_state session.old images.now in
            let o = machine_step images.now s.machine in OnOk result
            (IsAnswerOn self.old self.new (step_end_text (known_in start.now) o) o.printed) }
        ensures same { self.new.reported ≡ self.old.reported }
    {
        let mut printed = TextSink::new(self.alloc);
        session.take_step(images, &mut printed)?;
        let machine = session.machine();
        machine.known();
        start.print_taken(machine, printed.bytes(), &mut self.rooms, &mut self.text)?;
        push_all(&mut self.printed, printed.bytes())
    }

    // A step that is shown, and in whose place a stub does something.
    fn take_stubbed(&mut self, session: &mut Session, deed: &StubDeed) -> Result<(), WriteFault>
        requires left { (images : List Entry) → 0 < (script_state session.old images).left }
        ensures state { (images : List Entry) → script_state session.new images
            ≡ script_after_deed deed.now (script_state session.old images) }
        ensures reported { (images : List Entry) → let s = (script_state session.old images).machine in
            OnOk result (IsAnswerOn self.old self.new
            (stub_step_text deed.now s (script_state session.new images).machine) []) }
        ensures same { self.new.reported ≡ self.old.reported }
    {
        let core = *session.machine().cpu();
        let cause = Cause::of(session.machine().cpu(), session.machine().memory());
        let words = StoredWords {
            at: deed.stored_at(),
            count: deed.stored_words(),
        };
        let old = old_words(session.machine().memory(), words);
        deed.act(session);
        push_stub_line(
            self.alloc,
            &core,
            cause,
            session.machine(),
            words.at,
            old.as_slice(),
            &mut self.text,
        )
    }

    // A step that is not shown, or what a stub does in its place.
    fn take_untold(
        &mut self,
        session: &mut Session,
        context: &StepContext<'_>,
    ) -> Result<(), WriteFault>
        requires { 0 < (script_state session.old context.now.images.now).left }
        ensures state { let s = script_state session.old context.now.images.now in OnOk result
            (script_state session.new context.now.images.now
            ≡ step_made s (next_step context.now.modes.now s)) }
        ensures reported { let s = script_state session.old context.now.images.now in
            let o = next_step context.now.modes.now s in OnOk result
            (IsAnswerOn self.old self.new (untold_text self.old.reported o.printed) o.printed) }
        ensures same { self.new.reported ≡ self.old.reported }
    {
        let mut printed = TextSink::new(self.alloc);
        let stubs = &context.modes.stubs;
        stubs.take_step(session, context.images, &mut printed)?;
        self.push_untold(printed.bytes())
    }

    // The first step of a call, which is shown.
    fn begin_answer(
        &mut self,
        session: &mut Session,
        images: &Images,
        call: OutsideCall,
    ) -> Result<(), WriteFault>
        requires { 0 < (script_state session.old images.now).left }
        ensures state { let s = script_state session.old images.now in OnOk result
            (script_state session.new images.now ≡ step_made s (first_step s call.entry)) }
        ensures reported { let s = script_state session.old images.now in
            let o = first_step s call.entry in OnOk result
            (IsAnswerOn self.old self.new (outside_text call.entry s.machine o) o.printed) }
        ensures same { self.new.reported ≡ self.old.reported }
    {
        let start = print_outside(self.alloc, session.machine(), call, &mut self.text)?;
        self.begin_started(session, images, call, &start)
    }

    // The first step of a call of which a trace has shown how it begins.
    fn begin_started(
        &mut self,
        session: &mut Session,
        images: &Images,
        call: OutsideCall,
        start: &StepStart,
    ) -> Result<(), WriteFault>
        requires { 0 < (script_state session.old images.now).left }
        ensures state { let s = script_state session.old images.now in OnOk result
            (script_state session.new images.now ≡ step_made s (first_step s call.entry)) }
        ensures reported { let s = script_state session.old images.now in
            let o = first_step s call.entry in OnOk result
            (IsAnswerOn self.old self.new (step_end_text (known_in start.now) o) o.printed) }
        ensures same { self.new.reported ≡ self.old.reported }
    {
        let mut printed = TextSink::new(self.alloc);
        session.begin_call(images, &mut printed, call)?;
        let machine = session.machine();
        start.print_end(self.alloc, machine, printed.bytes(), &mut self.text)?;
        push_all(&mut self.printed, printed.bytes())
    }

    // The first step of a call, which is not shown.
    fn begin_untold(
        &mut self,
        session: &mut Session,
        images: &Images,
        call: OutsideCall,
    ) -> Result<(), WriteFault>
        requires { 0 < (script_state session.old images.now).left }
        ensures state { let s = script_state session.old images.now in OnOk result
            (script_state session.new images.now ≡ step_made s (first_step s call.entry)) }
        ensures reported { let s = script_state session.old images.now in
            let o = first_step s call.entry in OnOk result
            (IsAnswerOn self.old self.new (untold_text self.old.reported o.printed) o.printed) }
        ensures same { self.new.reported ≡ self.old.reported }
    {
        let mut printed = TextSink::new(self.alloc);
        session.begin_call(images, &mut printed, call)?;
        self.push_untold(printed.bytes())
    }

    // What a step printed that is not shown, on a line of its own where other steps are: most print nothing.
    fn push_untold(&mut self, printed: &[u8]) -> Result<(), WriteFault>
        ensures reported { OnOk result
            (IsAnswerOn self.old self.new (untold_text self.old.reported printed.now) printed.now) }
        ensures same { self.new.reported ≡ self.old.reported }
    {
        if printed.is_empty() {
            return Ok(());
        }
        match self.reported {
            None => push_all(&mut self.text, printed)?,
            Some(_) => push_prints_line(self.alloc, printed, &mut self.text)?,
        }
        push_all(&mut self.printed, printed)
    }

    /// Says how many steps more were taken than shown, of so many, where so many were to be shown.
    pub(crate) fn push_more(&mut self, reported: Option<u64>, taken: u64) -> Result<(), WriteFault>
        ensures { OnOk result (IsAnswerOn self.old self.new (more_text reported taken) []) }
    {
        match reported {
            None => Ok(()),
            Some(limit) => push_more_steps(&mut self.text, limit, taken),
        }
    }
}

/// Whether a step is shown, where so many are.
pub(crate) fn is_step_shown(reported: Option<u64>) -> bool
    ensures { result ≡ is_step_shown reported }
{
    match reported {
        None => false,
        Some(limit) => 0 < limit,
    }
}

// How many are shown after it.
fn one_answer(reported: Option<u64>) -> Option<u64>
    ensures { result ≡ one_answer reported }
{
    match reported {
        None => None,
        Some(limit) => Some(limit.saturating_sub(1)),
    }
}

// `.. 64540 steps more`
fn push_more_steps<W: Sink>(sink: &mut W, limit: u64, taken: u64) -> Result<(), WriteFault>
    ensures { Writes W.contents W.has_failed sink.old sink.new result (more_text (Some limit) taken) }
{
    if taken <= limit {
        return Ok(());
    }
    let mut digits = Buffer::new();
    let steps = digits.format(taken - limit).as_bytes();
    push_parts(
        sink,
        &[b".. ".as_slice(), steps, b" steps more\n".as_slice()],
    )
}

// Writes a call from outside, before it is made.
fn print_outside(
    alloc: Global,
    machine: &Machine,
    call: OutsideCall,
    text: &mut TextSink,
) -> Result<StepStart, WriteFault>
    ensures text { OnOk result (sink_text_of text.new ≡ sink_text_of text.old
        ++ outside_start_text call.entry (state_of machine.now.guest)) }
    ensures known { IfOk result (λ start. known_in start ≡ known_outside (state_of machine.now.guest)) }
{
    match call {
        OutsideCall::Swi(number) => StepStart::print_call(alloc, machine, number, text),
        OutsideCall::Load(words) => StepStart::print_load(alloc, machine, words, text),
    }
}
