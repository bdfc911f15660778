//! What is shown of lines that expect something and of refusals, and what stands after the last line.

ghost use Rattle.std.specs.Prelude.{◌≡◌, ◌++◌, codes};
ghost use Rattle.std.specs.Fmt.{decimal};
ghost use Rattle.std.specs.List.{flat_map};
ghost use Rattle.profile.specs.Output.{Writes};
ghost use Rattle.debug_modes.specs.expectations.reports.Reports.{answer_in, fail_text, missing_end_text, pass_text, report_of_refusal, refused_words, report_count, summary_text, tally_line, tap_byte_text, tap_line, tap_remark, tap_remarks, tap_words};

use itoa::Buffer;
use profile::text_lines::Lines;
use profile::{Sink, WriteFault, push_all, push_parts};

/// What is shown of a block that lacks its line END stands before the line's number and behind it.
pub const NO_END: &[u8] = b"no END: the block that begins at line ";
/// See [`NO_END`].
pub const BLOCK_GOES_ON: &[u8] = b" goes on up to a line END, or to the script's end\n";

/// The form in which lines are answered.
#[derive(Clone, Copy, PartialEq, Eq)]
pub enum ReportForm {
    /// Each line's answer.
    Answers,
    /// The Test Anything Protocol, version 12, and nothing else: a line for each EXPECT line and for
    /// each refusal.
    Tap,
}

/// How many lines expected something that was so, how many something that wasn't, and how many lines
/// and blocks were refused. Each counts up to 2^64 - 1.
#[derive(Clone, Copy)]
pub struct CheckTally {
    /// Lines EXPECT that passed.
    pub passed: u64,
    /// Lines EXPECT that failed.
    pub failed: u64,
    /// Lines and blocks that were refused.
    pub refused: u64,
}

impl CheckTally {
    ghost use Rattle.debug_modes.specs.expectations.reports.Reports.{is_untested, no_tally, with_fail, with_pass, with_refusal};

    /// Of no lines.
    pub fn new() -> CheckTally
        ensures { result ≡ no_tally }
    {
        CheckTally {
            passed: 0,
            failed: 0,
            refused: 0,
        }
    }

    /// With one more that passed.
    pub fn with_pass(self) -> CheckTally
        ensures { result ≡ with_pass self }
    {
        CheckTally {
            passed: self.passed.saturating_add(1),
            ..self
        }
    }

    /// With one more that failed.
    pub fn with_fail(self) -> CheckTally
        ensures { result ≡ with_fail self }
    {
        CheckTally {
            failed: self.failed.saturating_add(1),
            ..self
        }
    }

    /// With one more that was refused.
    pub fn with_refusal(self) -> CheckTally
        ensures { result ≡ with_refusal self }
    {
        CheckTally {
            refused: self.refused.saturating_add(1),
            ..self
        }
    }

    /// Whether no line expected anything.
    pub fn is_untested(self) -> bool
        ensures { result ≡ is_untested self }
    {
        self.passed == 0 && self.failed == 0
    }

    /// How many lines of the protocol stand for it.
    pub(crate) fn report_count(self) -> u128
        ensures { result ≡ report_count self }
    {
        u128::from(self.passed) + u128::from(self.failed) + u128::from(self.refused)
    }
}

/// Writes an answer that is no report; the protocol leaves it out.
pub fn push_answer<W: Sink>(sink: &mut W, form: ReportForm, text: &[u8]) -> Result<(), WriteFault>
    ensures { Writes W.contents W.has_failed sink.old sink.new result (answer_in form text.now) }
{
    match form {
        ReportForm::Answers => push_all(sink, text),
        ReportForm::Tap => Ok(()),
    }
}

/// Writes that the line of that number expected what is so; `words` are the line, made tidy.
pub fn push_pass<W: Sink>(
    sink: &mut W,
    form: ReportForm,
    before: CheckTally,
    number: usize,
    words: &[u8],
) -> Result<(), WriteFault>
    ensures { Writes W.contents W.has_failed sink.old sink.new result
        (pass_text form before number words.now) }
{
    match form {
        ReportForm::Answers => push_all(sink, b"pass\n"),
        ReportForm::Tap => push_tap_line(sink, b"ok ", before, number, words),
    }
}

/// Writes that it didn't, and what is so.
pub fn push_fail<W: Sink>(
    sink: &mut W,
    form: ReportForm,
    before: CheckTally,
    number: usize,
    words: &[u8],
    reason: &[u8],
) -> Result<(), WriteFault>
    ensures { Writes W.contents W.has_failed sink.old sink.new result
        (fail_text form before number words.now reason.now) }
{
    match form {
        ReportForm::Answers => push_failed(sink, number, reason),
        ReportForm::Tap => {
            push_tap_line(sink, b"not ok ", before, number, words)?;
            push_remark(sink, reason)
        }
    }
}

/// Writes a refusal of the line of that number, as the lines that show it.
pub fn push_refusal<W: Sink>(
    sink: &mut W,
    form: ReportForm,
    before: CheckTally,
    number: usize,
    text: &[u8],
) -> Result<(), WriteFault>
    ensures { Writes W.contents W.has_failed sink.old sink.new result
        (report_of_refusal form before number text.now) }
{
    match form {
        ReportForm::Answers => push_all(sink, text),
        ReportForm::Tap => {
            push_tap_line(sink, b"not ok ", before, number, b"")?;
            push_remarks(sink, text)
        }
    }
}

/// Writes what stands after the last line.
pub fn push_summary<W: Sink>(
    sink: &mut W,
    form: ReportForm,
    tally: CheckTally,
) -> Result<(), WriteFault>
    ensures { Writes W.contents W.has_failed sink.old sink.new result (summary_text form tally) }
{
    match form {
        ReportForm::Answers if tally.is_untested() => Ok(()),
        ReportForm::Answers => push_tally(sink, tally),
        ReportForm::Tap => push_plan(sink, tally.report_count()),
    }
}

/// Writes behind a text that the block lacks its line END that begins at that line.
pub fn push_missing_end<W: Sink>(sink: &mut W, front: &[u8], begin: usize) -> Result<(), WriteFault>
    ensures { Writes W.contents W.has_failed sink.old sink.new result (missing_end_text front.now begin) }
{
    let mut digits = Buffer::new();
    push_parts(
        sink,
        &[
            front,
            NO_END,
            digits.format(begin).as_bytes(),
            BLOCK_GOES_ON,
        ],
    )
}

// `fail line 9: R0 is 00000004`
fn push_failed<W: Sink>(sink: &mut W, number: usize, reason: &[u8]) -> Result<(), WriteFault>
    ensures { Writes W.contents W.has_failed sink.old sink.new result
        (codes "fail line " ++ (decimal number ++ (codes ": " ++ (reason.now ++ codes "\n")))) }
{
    let mut digits = Buffer::new();
    push_parts(
        sink,
        &[
            b"fail line ".as_slice(),
            digits.format(number).as_bytes(),
            b": ".as_slice(),
            reason,
            b"\n".as_slice(),
        ],
    )
}

// `ok 1 - line 16 EXPECT R0 2`
fn push_tap_line<W: Sink>(
    sink: &mut W,
    begin: &[u8],
    before: CheckTally,
    number: usize,
    words: &[u8],
) -> Result<(), WriteFault>
    ensures { Writes W.contents W.has_failed sink.old sink.new result
        (tap_line begin.now (report_count before) number words.now) }
{
    let mut count = Buffer::new();
    let mut digits = Buffer::new();
    push_parts(
        sink,
        &[
            begin,
            count.format(before.report_count() + 1).as_bytes(),
            b" - line ".as_slice(),
            digits.format(number).as_bytes(),
        ],
    )?;
    push_tap_words(sink, words)?;
    push_all(sink, b"\n")
}

// The lines of a text, each as a remark.
#[tactic(auto, using(crate::proofs::ExpectationsLemmas::ReportsLemmas::RemarkLemmas::remark_steps))]
fn push_remarks<W: Sink>(sink: &mut W, text: &[u8]) -> Result<(), WriteFault>
    ensures { Writes W.contents W.has_failed sink.old sink.new result (tap_remarks text.now) }
{
    let mut lines = Lines::new(text);
    while let Some(line) = lines.next_line() {
        push_remark(sink, line)?;
    }
    Ok(())
}

// `# R1 is 00000000`
fn push_remark<W: Sink>(sink: &mut W, text: &[u8]) -> Result<(), WriteFault>
    ensures { Writes W.contents W.has_failed sink.old sink.new result (tap_remark text.now) }
{
    push_parts(sink, &[b"# ".as_slice(), text, b"\n".as_slice()])
}

fn push_tap_words<W: Sink>(sink: &mut W, words: &[u8]) -> Result<(), WriteFault>
    ensures { Writes W.contents W.has_failed sink.old sink.new result (tap_words words.now) }
{
    if words.is_empty() {
        return Ok(());
    }
    push_all(sink, b" ")?;
    push_escaped(sink, words)
}

// A text in which nothing is a directive.
fn push_escaped<W: Sink>(sink: &mut W, text: &[u8]) -> Result<(), WriteFault>
    ensures { Writes W.contents W.has_failed sink.old sink.new result (flat_map tap_byte_text text.now) }
{
    for byte in text {
        push_byte(sink, *byte)?;
    }
    Ok(())
}

fn push_byte<W: Sink>(sink: &mut W, byte: u8) -> Result<(), WriteFault>
    ensures { Writes W.contents W.has_failed sink.old sink.new result (tap_byte_text byte) }
{
    match byte {
        b'#' | b'\\' => push_all(sink, &[b'\\', byte]),
        _ => push_all(sink, &[byte]),
    }
}

// `5 passed, 2 failed, 1 refused`
fn push_tally<W: Sink>(sink: &mut W, tally: CheckTally) -> Result<(), WriteFault>
    ensures { Writes W.contents W.has_failed sink.old sink.new result (tally_line tally) }
{
    let mut passed = Buffer::new();
    let mut failed = Buffer::new();
    push_parts(
        sink,
        &[
            passed.format(tally.passed).as_bytes(),
            b" passed, ".as_slice(),
            failed.format(tally.failed).as_bytes(),
            b" failed".as_slice(),
        ],
    )?;
    push_refused_words(sink, tally.refused)?;
    push_all(sink, b"\n")
}

fn push_refused_words<W: Sink>(sink: &mut W, refused: u64) -> Result<(), WriteFault>
    ensures { Writes W.contents W.has_failed sink.old sink.new result (refused_words refused) }
{
    if refused == 0 {
        return Ok(());
    }
    let mut digits = Buffer::new();
    push_parts(
        sink,
        &[
            b", ".as_slice(),
            digits.format(refused).as_bytes(),
            b" refused".as_slice(),
        ],
    )
}

fn push_plan<W: Sink>(sink: &mut W, count: u128) -> Result<(), WriteFault>
    ensures { Writes W.contents W.has_failed sink.old sink.new result
        (codes "1.." ++ (decimal count ++ codes "\n")) }
{
    let mut digits = Buffer::new();
    push_parts(
        sink,
        &[
            b"1..".as_slice(),
            digits.format(count).as_bytes(),
            b"\n".as_slice(),
        ],
    )
}
