//! A script read whole and answered line by line on a fresh machine.

ghost use Rattle.std.specs.Prelude.{◌≡◌, ◌+◌, true, false, [], None, length, IfOk, IfErr, IfSome, OnOk, OnErr};
ghost use Rattle.command_shell.specs.Error.{IsLineError};
ghost use Rattle.profile.specs.Output.{AddsFront};
ghost use Rattle.command_shell.specs.Fronts.{HasSome};
ghost use Rattle.command_shell.specs.Script.{script_answer};
ghost use Rattle.command_shell.specs.Whole.{AnswersWhole};

use crate::error::RunError;
use crate::session::Session;
use command_shell_lines::{command_of, read_script};
use profile::images::Images;
use profile::text_lines::Lines;
use profile::{Config, Sink, Source, Stop};
use std::alloc::Global;

/// What a script came to.
#[derive(Clone, Copy, PartialEq, Eq)]
pub struct Summary {
    /// The last stop that a line was answered with.
    pub last: Option<Stop>,
    /// How many steps are left of the budget.
    pub left: u64,
}

/// Reads a script whole, and then answers its lines one after another on a fresh machine of these
/// sizes. The guest's steps count against one budget.
///
/// # Errors
///
/// `ReadFault` and `ScriptTooLong`, past 1,048,576 bytes, before anything is written; `Memory`,
/// when a part of the answers may stand written; `WriteFault`. The images are then those of before
/// and some of those that the script adds, in order.
#[tactic(auto, using(crate::proofs::ScriptLemmas::whole_steps), unfolding(crate::specs::Script::script_answer))]
pub fn run_script<R: Source, W: Sink>(
    alloc: Global,
    reader: &mut R,
    images: &mut Images,
    writer: &mut W,
    config: Config,
    budget: u64,
) -> Result<Summary, RunError>
    ensures answers { AnswersWhole R.remaining R.has_failed R.pulls W.contents W.has_failed
        reader.old reader.new writer.old writer.new images.old images.new result
        (script_answer config images.old budget) }
    ensures last { IfOk result (λ summary. IfSome (R.remaining reader.old) (λ script.
        summary.last ≡ (script_answer config images.old budget script).state.last)) }
    ensures left { IfOk result (λ summary. IfSome (R.remaining reader.old) (λ script.
        summary.left ≡ (script_answer config images.old budget script).state.left)) }
{
    let script = read_script(alloc, reader)?;
    let Ok(mut session) = Session::on_fresh_machine(alloc, config, budget) else {
        return Err(RunError::Memory);
    };
    let mut lines = Lines::new(script.as_slice());
    session.answer_lines(images, writer, &mut lines)?;
    Ok(Summary {
        last: session.last(),
        left: session.left(),
    })
}

impl Session {
    ghost use Rattle.command_shell.specs.Script.{lines_answer};
    ghost use Rattle.command_shell.specs.Session.{script_state};
    ghost use Rattle.command_shell.specs.State.{IsAnswered};

    /// Answers the requests of all lines that are left, one after another.
    ///
    /// # Errors
    ///
    /// `Memory` and `WriteFault`, when a part of the answers may stand written; the images are then
    /// those of before and some of those that the lines add, in order.
    #[tactic(auto, using(crate::proofs::ScriptLemmas::line_steps))]
    pub fn answer_lines<W: Sink>(
        &mut self,
        images: &mut Images,
        sink: &mut W,
        script: &mut Lines,
    ) -> Result<(), RunError>
        ensures reported { OnOk result (IsAnswered (W.contents sink.old) (W.contents sink.new)
            (script_state self.new images.new)
            (lines_answer script.old.number (script_state self.old images.old) None script.old.left)) }
        ensures left { OnOk result (script.new.left ≡ []) }
        ensures number { OnOk result (script.new.number ≡ script.old.number + length script.old.left) }
        ensures memory { result ≡ Err RunError.Memory → AddsFront (W.contents sink.old) (W.contents sink.new)
            (lines_answer script.old.number (script_state self.old images.old) None script.old.left).text }
        ensures write_fault { result ≡ Err RunError.WriteFault → W.has_failed sink.new ≡ true }
        ensures write_answer { W.has_failed sink.old ≡ false → W.has_failed sink.new ≡ true
            → result ≡ Err RunError.WriteFault }
        ensures added { OnErr result (HasSome images.old
            (lines_answer script.old.number (script_state self.old images.old) None
            script.old.left).state.images images.new) }
        ensures errors { IfErr result IsLineError }
        ensures same_flag { OnOk result (W.has_failed sink.new ≡ W.has_failed sink.old) }
    {
        while let Some(line) = script.next_line() {
            self.answer(images, sink, command_of(line), script)?;
        }
        Ok(())
    }
}
