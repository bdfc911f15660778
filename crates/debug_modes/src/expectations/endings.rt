//! What a guest printed, as a part of the answer to a line that takes steps.

ghost use Rattle.std.specs.Prelude.{◌≡◌, ◌≤◌, ◌++◌, length, take};
ghost use Rattle.profile.specs.Output.{Writes};
ghost use Rattle.debug_modes.specs.expectations.Endings.{begins_ending, ending_of, output_of};
ghost use Rattle.debug_modes.specs.expectations.reports.Reports.{answer_in};

use crate::expectations::reports::{ReportForm, push_answer};
use profile::{Sink, WriteFault, push_all};

/// What a guest printed in a line that takes steps, and how the steps ended, by the line's answer: what
/// stands before the last place at which the end of steps is shown, and what follows. None of the words
/// that it begins with stands anywhere in it but at its beginning, so the first is all that was printed.
#[tactic(auto, using(crate::proofs::ExpectationsLemmas::EndingLemmas::ending_behind))]
pub fn answer_parts(answer: &[u8]) -> (&[u8], &[u8])
    ensures output { result.0.now ≡ output_of answer.now }
    ensures ending { result.1.now ≡ ending_of answer.now }
    ensures whole { result.0.now ++ result.1.now ≡ answer.now }
{
    answer.split_at(ending_place(answer))
}

/// Writes the answer to a line of a script. That to a line that takes steps comes in two pieces, what
/// the guest printed and how the steps ended, so that a writer can show where the one ends.
pub fn push_line_answer<W: Sink>(
    sink: &mut W,
    form: ReportForm,
    takes_steps: bool,
    answer: &[u8],
) -> Result<(), WriteFault>
    ensures { Writes W.contents W.has_failed sink.old sink.new result (answer_in form answer.now) }
{
    if !takes_steps {
        return push_answer(sink, form, answer);
    }
    match form {
        ReportForm::Answers => push_in_parts(sink, answer),
        ReportForm::Tap => Ok(()),
    }
}

fn push_in_parts<W: Sink>(sink: &mut W, answer: &[u8]) -> Result<(), WriteFault>
    ensures { Writes W.contents W.has_failed sink.old sink.new result answer.now }
{
    let (output, ending) = answer_parts(answer);
    push_all(sink, output)?;
    push_all(sink, ending)
}

// Where the last place is at which the end of steps is shown; where it is told nowhere, after the
// answer.
fn ending_place(answer: &[u8]) -> usize
    ensures inside { result ≤ length answer.now }
    ensures output { take result answer.now ≡ output_of answer.now }
{
    let mut place = answer.len();
    while place > 0 {
        place -= 1;
        if begins_ending(&answer[place..]) {
            return place;
        }
    }
    answer.len()
}

/// Whether a text begins as the end of steps is shown: by a stop, by where the machine stands, or by
/// how a call came back.
pub fn begins_ending(text: &[u8]) -> bool
    ensures { result ≡ begins_ending text.now }
{
    text.starts_with(b"stop ")
        || text.starts_with(b"at &")
        || text.starts_with(b"error ")
        || text.starts_with(b"ok\n")
}
