//! What the record of an answer begins with.

ghost use Rattle.std.specs.Prelude.{◌≡◌, ◌==◌, ◌++◌, List, true, codes, OnOk};
ghost use Rattle.std.specs.List.{position};
ghost use Rattle.trace_effects.specs.record_text.Spelling.{string_text};
ghost use Rattle.profile.specs.images.Entries.{Entry};
ghost use Rattle.debug_session.specs.Session.{debug_state};
ghost use Rattle.debug_records.specs.AnswerHeads.{answer_fields, expect_field, is_remark_use, is_stepping_use, reason_from, reason_in, refused_field, steps_field, text_field, without_end};

use crate::answers::AnsweredLine;
use crate::counts::LineCounts;
use crate::lines::LineUse;
use std::alloc::AllocError;
use trace_effects::record_text::{Bracket, RecordText};

/// What a line was answered, behind its number.
pub(crate) fn push_answer(head: &mut RecordText, line: &AnsweredLine<'_>) -> Result<(), AllocError>
    requires { head.old.follows ≡ true }
    ensures { (held : List Entry) → let l = line.now in OnOk result (head.new.bytes.items
        ≡ head.old.bytes.items ++ answer_fields (is_remark_use l.used) (is_stepping_use l.used)
        l.taken l.counts (debug_state l.session.now held) l.answer.now) }
{
    match line.used {
        LineUse::Remark => head.truth_field(b"remark"),
        LineUse::Steps => push_stepped(head, line.taken, line.session.answer()),
        _ => push_plain(head, line.answer, line.counts, LineCounts::of(line.session)),
    }
}

// How many steps a line took, and how they ended.
fn push_stepped(head: &mut RecordText, taken: u64, answer: &[u8]) -> Result<(), AllocError>
    requires { head.old.follows ≡ true }
    ensures { OnOk result (head.new.bytes.items
        ≡ head.old.bytes.items ++ (steps_field taken ++ text_field answer.now)) }
{
    push_steps(head, taken)?;
    push_text(head, answer)
}

fn push_steps(head: &mut RecordText, taken: u64) -> Result<(), AllocError>
    requires { head.old.follows ≡ true }
    ensures text { OnOk result (head.new.bytes.items ≡ head.old.bytes.items ++ steps_field taken) }
    ensures follows { OnOk result (head.new.follows ≡ true) }
{
    if taken > 0 {
        return head.number_field(b"steps", taken);
    }
    Ok(())
}

// What a line is answered that takes no steps.
fn push_plain(
    head: &mut RecordText,
    answer: &[u8],
    before: LineCounts,
    after: LineCounts,
) -> Result<(), AllocError>
    requires { head.old.follows ≡ true }
    ensures { OnOk result (head.new.bytes.items ≡ head.old.bytes.items ++ (text_field answer.now ++
        (refused_field before after ++ expect_field before after answer.now))) }
{
    push_text(head, answer)?;
    push_refused(head, before, after)?;
    push_verdict(head, answer, before, after)
}

// A text without the end of its last line, if there is one.
fn push_text(head: &mut RecordText, bytes: &[u8]) -> Result<(), AllocError>
    requires { head.old.follows ≡ true }
    ensures text { OnOk result (head.new.bytes.items ≡ head.old.bytes.items ++ text_field bytes.now) }
    ensures follows { OnOk result (head.new.follows ≡ true) }
{
    let whole = without_end(bytes);
    if whole.is_empty() {
        return Ok(());
    }
    head.string_field(b"text", whole)
}

/// A text without the end of its line.
pub(crate) fn without_end(text: &[u8]) -> &[u8]
    ensures { result.now ≡ without_end text.now }
{
    match text {
        [front @ .., b'\n'] => front,
        _ => text,
    }
}

// Whether more lines are refused than before.
fn push_refused(
    head: &mut RecordText,
    before: LineCounts,
    after: LineCounts,
) -> Result<(), AllocError>
    requires { head.old.follows ≡ true }
    ensures text { OnOk result (head.new.bytes.items ≡ head.old.bytes.items ++ refused_field before after) }
    ensures follows { OnOk result (head.new.follows ≡ true) }
{
    if before.refused < after.refused {
        return head.truth_field(b"refused");
    }
    Ok(())
}

// Whether what a line expects is so, and what is so if not.
fn push_verdict(
    head: &mut RecordText,
    answer: &[u8],
    before: LineCounts,
    after: LineCounts,
) -> Result<(), AllocError>
    requires { head.old.follows ≡ true }
    ensures { OnOk result (head.new.bytes.items ≡ head.old.bytes.items
        ++ expect_field before after answer.now) }
{
    if before.passed < after.passed {
        return push_pass(head);
    }
    if before.failed == after.failed {
        return Ok(());
    }
    push_fail(head, reason_in(answer))
}

fn push_pass(head: &mut RecordText) -> Result<(), AllocError>
    requires { head.old.follows ≡ true }
    ensures { OnOk result (head.new.bytes.items
        ≡ head.old.bytes.items ++ codes ",\"expect\":{\"pass\":true}") }
{
    head.open_field(b"expect", Bracket::Object)?;
    head.truth_field(b"pass")?;
    head.close(Bracket::Object)
}

fn push_fail(head: &mut RecordText, reason: &[u8]) -> Result<(), AllocError>
    requires { head.old.follows ≡ true }
    ensures { OnOk result (head.new.bytes.items ≡ head.old.bytes.items
        ++ (codes ",\"expect\":{\"pass\":false,\"is\":" ++ (string_text reason.now ++ codes "}"))) }
{
    head.open_field(b"expect", Bracket::Object)?;
    head.name(b"pass")?;
    head.word(b"false")?;
    head.string_field(b"is", reason)?;
    head.close(Bracket::Object)
}

// What stands behind the first colon and a space, up to the end of the line.
fn reason_in(answer: &[u8]) -> &[u8]
    ensures { result.now ≡ reason_in answer.now }
{
    match colon_in(answer) {
        Some(place) => reason_from(&answer[place + 1..]),
        None => b"",
    }
}

fn colon_in(text: &[u8]) -> Option<usize>
    ensures { result ≡ position (λ b. b == 58) text.now }
{
    text.iter().position(|byte| *byte == b':')
}

fn reason_from(text: &[u8]) -> &[u8]
    ensures { result.now ≡ reason_from text.now }
{
    match text {
        [b' ', reason @ .., b'\n'] => reason,
        _ => b"",
    }
}
