//! The last steps of a run so far, and what can be shown of each.

ghost use Rattle.std.specs.Prelude.{◌≡◌, ◌<◌, ◌+◌, ◌-◌, ◌^◌, ◌++◌, IfOk, OnOk};
ghost use Rattle.std.specs.List.{flat_map};
ghost use Rattle.profile.specs.Output.{Writes};
ghost use Rattle.debug_tables.specs.Session.{script_state};
ghost use Rattle.debug_runs.specs.LastSteps.{steps_before_text, whole_text};
ghost use Rattle.profile.specs.text_sink.TextSink.{sink_text_of};

use crate::context::StepContext;
use crate::writer::TraceWriter;
use debug_tables::Session;
use itoa::Buffer;
use profile::text_sink::TextSink;
use profile::{Sink, WriteFault, push_all, push_parts};
use std::alloc::Global;
use std::collections::VecDeque;
use std::marker::Model;
use trace_text::push_prints_line;

/// All that can be shown of a step, and what it printed.
#[derive(Drop)]
pub(crate) struct KeptStep {
    whole: Vec<u8>,
    printed: Vec<u8>,
}

impl Model for KeptStep {
    ghost use Rattle.debug_runs.specs.LastSteps.{StepText};

    ghost Value = { StepText };

    ghost view = { λ t. record { whole = t.whole.items; printed = t.printed.items } };
}

impl KeptStep {
    ghost use Rattle.debug_tables.specs.Calls.{step_made};
    ghost use Rattle.debug_runs.specs.LastSteps.{text_of_step};
    ghost use Rattle.debug_runs.specs.Runs.{next_step};

    /// Takes a step, or lets a stub answer it, and keeps what can be shown of it.
    pub(crate) fn take(
        alloc: Global,
        session: &mut Session,
        context: &StepContext<'_>,
    ) -> Result<KeptStep, WriteFault>
        requires { 0 < (script_state session.old context.now.images.now).left }
        ensures state { let s = script_state session.old context.now.images.now in OnOk result
            (script_state session.new context.now.images.now
            ≡ step_made s (next_step context.now.modes.now s)) }
        ensures text { let s = script_state session.old context.now.images.now in IfOk result
            (λ kept. kept ≡ text_of_step context.now.modes.now context.now.labels.now s) }
    {
        let mut writer = TraceWriter::new(alloc, Some(1));
        writer.step(session, context)?;
        Ok(KeptStep {
            whole: writer.text.into_bytes(),
            printed: writer.printed.into_bytes(),
        })
    }

    /// What it printed.
    pub(crate) fn printed(&self) -> &[u8]
        ensures { result.now ≡ self.now.printed }
    {
        self.printed.as_slice()
    }
}

/// The last steps of a run so far, at most so many; of those before them what they printed, as it is
/// shown, and how many they were.
#[derive(Drop)]
pub(crate) struct LastSteps {
    alloc: Global,
    count: u32,
    before: u64,
    untold: TextSink,
    steps: VecDeque<KeptStep>,
}

impl Model for LastSteps {
    ghost use Rattle.debug_runs.specs.LastSteps.{LastState};
    ghost use Rattle.profile.specs.text_sink.TextSink.{sink_text_of};

    ghost Value = { LastState };

    ghost view = { λ l. record {
      count = l.count;
      before = l.before;
      untold = sink_text_of l.untold;
      steps = l.steps.items;
    } };
}

impl LastSteps {
    ghost use Rattle.debug_runs.specs.LastSteps.{last_text, no_last, printed_line, last_ones_of, with_step};

    /// No step, of which so many will be kept.
    pub(crate) fn new(alloc: Global, count: u32) -> LastSteps
        ensures { result ≡ no_last count }
    {
        LastSteps {
            alloc,
            count,
            before: 0,
            untold: TextSink::new(alloc),
            steps: VecDeque::new(alloc),
        }
    }

    /// One step more.
    pub(crate) fn add(&mut self, step: KeptStep) -> Result<(), WriteFault>
        requires { self.old.before < 2 ^ 64 - 1 }
        ensures { OnOk result (self.new ≡ with_step self.old step) }
    {
        match self.steps.push_back(step) {
            Ok(()) => self.shorten(),
            Err(_) => Err(WriteFault),
        }
    }

    // Keeps so many alone.
    fn shorten(&mut self) -> Result<(), WriteFault>
        requires { self.old.before < 2 ^ 64 - 1 }
        ensures { OnOk result (self.new ≡ last_ones_of self.old) }
    {
        if self.steps.len() <= self.count as usize {
            return Ok(());
        }
        match self.steps.pop_front() {
            None => Ok(()),
            Some(step) => self.print_printed(&step),
        }
    }

    // Says what a step printed that is not among the last ones.
    fn print_printed(&mut self, step: &KeptStep) -> Result<(), WriteFault>
        requires { self.old.before < 2 ^ 64 - 1 }
        ensures { OnOk result (self.new ≡ record self.old {
          before = self.old.before + 1;
          untold = self.old.untold ++ printed_line step.now;
        }) }
    {
        push_prints_line(self.alloc, step.printed(), &mut self.untold)?;
        self.before += 1;
        Ok(())
    }

    /// Writes what is shown of the run.
    pub(crate) fn print(self, text: &mut TextSink) -> Result<(), WriteFault>
        ensures { OnOk result (sink_text_of text.new ≡ sink_text_of text.old ++ last_text self) }
    {
        push_all(text, self.untold.bytes())?;
        push_before(text, self.before)?;
        push_steps(text, self.steps)
    }
}

// `.. 64540 steps before`
fn push_before<W: Sink>(sink: &mut W, before: u64) -> Result<(), WriteFault>
    ensures { Writes W.contents W.has_failed sink.old sink.new result (steps_before_text before) }
{
    if before == 0 {
        return Ok(());
    }
    let mut digits = Buffer::new();
    let steps = digits.format(before).as_bytes();
    push_parts(
        sink,
        &[b".. ".as_slice(), steps, b" steps before\n".as_slice()],
    )
}

fn push_steps(text: &mut TextSink, mut steps: VecDeque<KeptStep>) -> Result<(), WriteFault>
    ensures { OnOk result (sink_text_of text.new
        ≡ sink_text_of text.old ++ flat_map whole_text steps.items) }
{
    while let Some(step) = steps.pop_front() {
        push_all(text, step.whole.as_slice())?;
    }
    Ok(())
}
