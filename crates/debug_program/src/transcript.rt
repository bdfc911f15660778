//! The transcript of a debugging script: its lines as they are typed, each with what it is answered
//! below it, so that a program can run it again and compare.

ghost use Rattle.std.specs.Prelude.{◌≡◌, ◌<◌, ◌⊎◌, true, length, Err, IfOk, IfSome, IsErr, OnOk, IfErr};
ghost use Rattle.profile.specs.Output.{Writes};
ghost use Rattle.profile.specs.Pulls.{PullsAtMost};
ghost use Rattle.debug_session.specs.Error.{IsLineError};
ghost use Rattle.debug_session.specs.ExitStatus.{debug_status};
ghost use Rattle.debug_session.specs.Failing.{ReportsWriteFault};
ghost use Rattle.debug_session.specs.Reports.{summary_text};
ghost use Rattle.debug_program.specs.Transcript.{answered_text, debug_shown_in, BeginsTranscript, WritesTranscript};

use crate::answering::{AnsweredLine, ScriptAnswering};
use crate::spelling::{Side, push_side};
use command_shell_lines::read_script;
use debug_session::{DebugSession, DebugSettings, RunError};
use profile::images::Images;
use profile::text_sink::TextSink;
use profile::{Sink, Source, WriteFault};
use std::alloc::{AllocError, Global};

/// Reads a script whole, writes its transcript, and gives the exit status of its lines.
///
/// # Errors
///
/// `ReadFault` and `ScriptTooLong`, when nothing is written; `WriteFault` and `Memory`, when a part
/// of the transcript may stand written.
pub fn show_transcript<R: Source, W: Sink>(
    alloc: Global,
    images: Images,
    setting: DebugSettings,
    reader: &mut R,
    sink: &mut W,
) -> Result<u8, RunError>
    ensures text { OnOk result (IfSome (R.remaining reader.old) (λ script. WritesTranscript
        setting images script (W.contents sink.old) (W.contents sink.new))) }
    ensures status { IfOk result (λ status. IfSome (R.remaining reader.old) (λ script.
        status ≡ debug_status (debug_shown_in setting images script).state)) }
    ensures memory { result ≡ Err RunError.Memory → (sink.new ≡ sink.old) ⊎ IfSome (R.remaining reader.old)
        (λ script. BeginsTranscript setting images script (W.contents sink.old) (W.contents sink.new)) }
    ensures read_shown { R.has_failed reader.new ≡ true → result ≡ Err RunError.ReadFault }
    ensures read_fault { result ≡ Err RunError.ReadFault
        → (R.has_failed reader.new ≡ true) × (sink.new ≡ sink.old) }
    ensures write_fault { ReportsWriteFault W.has_failed sink.old sink.new result }
    ensures too_long { result ≡ Err RunError.ScriptTooLong
        → (sink.new ≡ sink.old) × IfSome (R.remaining reader.old) (λ script. 1048576 < length script) }
    ensures never_long { IfSome (R.remaining reader.old) (λ script. 1048576 < length script → IsErr result) }
    ensures few_pulls { PullsAtMost (R.pulls reader.old) (R.pulls reader.new) 1048577 }
{
    let script = read_script(alloc, reader)?;
    push_transcript(alloc, sink, script.as_slice(), images, setting)
}

/// Answers the lines of a debugging script one after another, each once, up to its end or a line
/// QUIT, and writes the transcript of them; gives the exit status of a program whose lines these
/// were. Each line is written as soon as it is answered. Memory is taken for the machine and for the
/// line at hand.
///
/// # Errors
///
/// `Memory`, when the first lines may stand written; `WriteFault`.
pub fn push_transcript<W: Sink>(
    alloc: Global,
    sink: &mut W,
    script: &[u8],
    images: Images,
    setting: DebugSettings,
) -> Result<u8, RunError>
    ensures text { OnOk result (WritesTranscript setting images script.now
        (W.contents sink.old) (W.contents sink.new)) }
    ensures status { IfOk result (λ status. status ≡ debug_status
        (debug_shown_in setting images script.now).state) }
    ensures memory { result ≡ Err RunError.Memory → (sink.new ≡ sink.old)
        ⊎ BeginsTranscript setting images script.now (W.contents sink.old) (W.contents sink.new) }
    ensures write_fault { ReportsWriteFault W.has_failed sink.old sink.new result }
    ensures errors { IfErr result IsLineError }
    ensures same_flag { OnOk result (W.has_failed sink.new ≡ W.has_failed sink.old) }
{
    let session = DebugSession::new(alloc, setting)?;
    let mut answering = ScriptAnswering::new(session, images, script);
    'script_lines: while let Some(answered) = answering.next_line(alloc)? {
        push_answered(sink, &answered)?;
    }
    let summary = summary_of(alloc, answering.session())?;
    push_side(sink, Side::Reported, summary.as_slice())?;
    Ok(answering.session().status())
}

fn push_answered<W: Sink>(sink: &mut W, answered: &AnsweredLine<'_>) -> Result<(), WriteFault>
    ensures { Writes W.contents W.has_failed sink.old sink.new result (answered_text answered.now) }
{
    push_side(sink, Side::Typed, answered.lines)?;
    push_side(sink, Side::Reported, answered.answer.as_slice())
}

// How many lines passed, failed and were refused, if any of them expects something.
fn summary_of(alloc: Global, session: &DebugSession) -> Result<Vec<u8>, AllocError>
    ensures { IfOk result (λ text. text.items ≡ summary_text session.now.setting.form session.now.tally) }
{
    let mut text = TextSink::new(alloc);
    match session.print_summary(&mut text) {
        Ok(()) => Ok(text.into_bytes()),
        Err(WriteFault) => Err(AllocError),
    }
}
