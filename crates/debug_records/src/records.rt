//! A record, written: what it begins with, and its other fields behind that.

ghost use Rattle.std.specs.Prelude.{◌≡◌, ◌++◌, not, ◌==◌, true, IfOk, OnOk};
ghost use Rattle.std.specs.Fmt.{decimal};
ghost use Rattle.std.specs.List.{list_all};
ghost use Rattle.trace_effects.specs.record_text.Spelling.{name_text};
ghost use Rattle.profile.specs.text_sink.Safe.{is_safe};
ghost use Rattle.debug_records.specs.LineRecords.{Adds, IsOfForm, IsRecord, Whole, line_head};
ghost use Rattle.debug_records.specs.Moments.{behind_fields, place_field, skip_head, step_head};
ghost use Rattle.debug_records.specs.Taking.{IsMomentPrinted};

use crate::recorder::Twin;
use debug_session::RunError;
use profile::{Sink, push_parts};
use std::alloc::{AllocError, Global};
use trace_effects::record_text::RecordText;
use trace_json::are_others;

/// Writes a record, a line of its own.
///
/// # Errors
///
/// `WriteFault` where the sink failed, or the other fields aren't one line: nothing is written then.
pub(crate) fn push_record<'a, W: Sink>(
    sink: &mut W,
    head: &'a RecordText,
    others: &'a RecordText,
) -> Result<(), RunError>
    ensures { OnOk result (Adds (IsRecord head.now.bytes.items) (W.contents sink.old) (W.contents sink.new)) }
{
    if !is_one_line(others.bytes()) {
        return Err(RunError::WriteFault);
    }
    Ok(push_parts(
        sink,
        &[
            b"{".as_slice(),
            head.bytes(),
            comma_before(others),
            others.bytes(),
            b"}\n".as_slice(),
        ],
    )?)
}

/// Writes a record that has no other fields.
///
/// # Errors
///
/// `WriteFault` where the sink failed.
pub(crate) fn push_whole<W: Sink>(sink: &mut W, fields: &RecordText) -> Result<(), RunError>
    ensures { OnOk result
        (Adds (IsOfForm (Whole fields.now.bytes.items)) (W.contents sink.old) (W.contents sink.new)) }
{
    Ok(push_parts(sink, &[b"{".as_slice(), fields.bytes(), b"}\n".as_slice()])?)
}

impl Twin {
    /// Writes the record of a moment: what differs of the core and of words, between other fields.
    ///
    /// # Errors
    ///
    /// `WriteFault` where the sink failed, or other fields say something of the core or of words: nothing
    /// is written then.
    pub(crate) fn print_moment<'a, W: Sink>(
        &'a self,
        head: &'a RecordText,
        sink: &mut W,
    ) -> Result<(), RunError>
        ensures { OnOk result (IsMomentPrinted head.now.bytes.items self.now.front.bytes.items
            self.now.changes.bytes.items self.now.text.bytes.items
            (W.contents sink.old) (W.contents sink.new)) }
    {
        if !are_others(self.front.bytes()) || !are_others(self.text.bytes()) {
            return Err(RunError::WriteFault);
        }
        Ok(push_parts(
            sink,
            &[
                b"{".as_slice(),
                head.bytes(),
                comma_before(&self.front),
                self.front.bytes(),
                comma_before(&self.changes),
                self.changes.bytes(),
                comma_before(&self.text),
                self.text.bytes(),
                b"}\n".as_slice(),
            ],
        )?)
    }
}

// What stands between fields and others that come next, if there are some.
fn comma_before(next: &RecordText) -> &[u8]
    ensures value { result.now ++ next.now.bytes.items ≡ behind_fields next.now.bytes.items }
    ensures safe { list_all is_safe result.now ≡ true }
{
    if next.bytes().is_empty() { b"" } else { b"," }
}

fn is_one_line(bytes: &[u8]) -> bool
    ensures { result ≡ list_all (λ b. not (b == 10)) bytes.now }
{
    bytes.iter().all(|byte| *byte != b'\n')
}

/// What a record begins with: its kind, and a number.
pub(crate) fn head_of(alloc: Global, kind: &[u8], number: u64) -> Result<RecordText, AllocError>
    ensures text { IfOk result (λ head. head.bytes.items ≡ name_text kind.now ++ decimal number) }
    ensures follows { IfOk result (λ head. head.follows ≡ true) }
{
    let mut head = RecordText::new(alloc);
    head.number_field(kind, number)?;
    Ok(head)
}

/// The same of a line: with its text, and which time it is that it is answered.
pub(crate) fn line_head(
    alloc: Global,
    number: usize,
    line: &[u8],
    time: Option<u32>,
) -> Result<RecordText, AllocError>
    ensures text { IfOk result (λ head. head.bytes.items ≡ line_head number line.now time) }
    ensures follows { IfOk result (λ head. head.follows ≡ true) }
{
    let mut head = head_of(alloc, b"line", number as u64)?;
    head.string_field(b"text", line)?;
    let Some(time) = time else {
        return Ok(head);
    };
    head.number_field(b"repeat", u64::from(time) + 1)?;
    Ok(head)
}

/// The same of a step of a number, with the address at which it is made.
pub(crate) fn step_head(
    alloc: Global,
    number: u64,
    place: Option<u32>,
) -> Result<RecordText, AllocError>
    ensures { IfOk result (λ head. head.bytes.items ≡ step_head number ++ place_field place) }
{
    let mut head = head_of(alloc, b"step", number)?;
    let Some(at) = place else {
        return Ok(head);
    };
    head.number_field(b"pc", u64::from(at))?;
    Ok(head)
}

/// The same of so many steps past the limit, up to the step of a number.
pub(crate) fn skip_head(alloc: Global, last: u64, count: u64) -> Result<RecordText, AllocError>
    ensures { IfOk result (λ head. head.bytes.items ≡ skip_head last count) }
{
    let mut head = head_of(alloc, b"step", last)?;
    head.number_field(b"skip", count)?;
    Ok(head)
}
