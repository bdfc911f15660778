//! How the records of a script begin and end.

ghost use Rattle.std.specs.Prelude.{◌≡◌, ◌++◌, List, [], true, false, codes, IfOk, OnOk};
ghost use Rattle.profile.specs.images.Entries.{Entry};
ghost use Rattle.debug_records.specs.LineRecords.{Adds, IsRecord};
ghost use Rattle.debug_records.specs.Records.{IsLastRecord, first_head, last_record, record_sizes};
ghost use Rattle.debug_session.specs.Session.{debug_state};
ghost use Rattle.trace_effects.specs.record_text.Spelling.{comma_before};

use crate::counts::LineCounts;
use crate::recorder::Recorder;
use crate::records::push_record;
use debug_session::{DebugSettings, RunError};
use profile::{Config, Sink};
use std::alloc::AllocError;
use trace_effects::record_text::{Bracket, RecordText, push_records};
use trace_json::push_state;

/// So many steps of a line have a record of their own where no line says otherwise.
pub(crate) const FIRST_LIMIT: u64 = 100_000;

/// The version of the records.
const VERSION: u64 = 1;

/// Writes the first record: what the script may take, and the machine as it stands.
pub(crate) fn record_start<W: Sink>(
    recorder: &Recorder,
    setting: &DebugSettings,
    name: &[u8],
    sink: &mut W,
) -> Result<(), RunError>
    ensures { OnOk result (Adds (IsRecord (first_head setting.now name.now))
        (W.contents sink.old) (W.contents sink.new)) }
{
    let mut head = RecordText::new(recorder.alloc);
    push_setting(&mut head, setting, name)?;
    let mut state = RecordText::new(recorder.alloc);
    push_state(&mut state, recorder.session.machine())?;
    push_record(sink, &head, &state)
}

// Begins the first record: the script's name, the sizes of its machine, and its bounds.
fn push_setting(
    text: &mut RecordText,
    setting: &DebugSettings,
    name: &[u8],
) -> Result<(), AllocError>
    requires empty { text.old.bytes.items ≡ [] }
    requires first { text.old.follows ≡ false }
    ensures { OnOk result (text.new.bytes.items ≡ first_head setting.now name.now) }
{
    text.number_field(b"start", VERSION)?;
    text.string_field(b"name", name)?;
    push_sizes(text, setting.config)?;
    text.number_field(b"budget", setting.budget)?;
    text.number_field(b"limit", FIRST_LIMIT)
}

fn push_sizes(text: &mut RecordText, config: Config) -> Result<(), AllocError>
    ensures text { OnOk result (text.new.bytes.items ≡ text.old.bytes.items
        ++ (comma_before text.old.follows ++ (codes "\"sizes\":" ++ record_sizes config))) }
    ensures follows { OnOk result (text.new.follows ≡ true) }
{
    text.open_field(b"sizes", Bracket::Object)?;
    text.number_field(b"pages", u64::from(config.pages()))?;
    text.number_field(b"app", u64::from(config.app()))?;
    text.number_field(b"rma", u64::from(config.rma()))?;
    text.close(Bracket::Object)?;
    Ok(())
}

/// Writes the last record: how many lines passed, failed and were refused, and the exit status, which it
/// gives.
pub(crate) fn record_end<W: Sink>(recorder: &Recorder, sink: &mut W) -> Result<u8, RunError>
    ensures { (images : List Entry) → IfOk result (λ status. Adds (IsLastRecord (debug_state
        recorder.now.session images) status) (W.contents sink.old) (W.contents sink.new)) }
{
    let mut text = RecordText::new(recorder.alloc);
    let status = recorder.session.status();
    push_end(&mut text, LineCounts::of(&recorder.session), status)?;
    push_records(sink, &text)?;
    Ok(status)
}

fn push_end(text: &mut RecordText, counts: LineCounts, status: u8) -> Result<(), AllocError>
    requires empty { text.old.bytes.items ≡ [] }
    requires first { text.old.follows ≡ false }
    ensures { OnOk result (text.new.bytes.items ≡ last_record counts status) }
{
    text.open(Bracket::Object)?;
    text.number_field(b"end", 1)?;
    text.number_field(b"passed", counts.passed)?;
    text.number_field(b"failed", counts.failed)?;
    text.number_field(b"refused", counts.refused)?;
    text.number_field(b"status", u64::from(status))?;
    end_record(text)
}

// Ends the object and the line of a record.
fn end_record(text: &mut RecordText) -> Result<(), AllocError>
    ensures { OnOk result (text.new.bytes.items ≡ text.old.bytes.items ++ codes "}\n") }
{
    text.close(Bracket::Object)?;
    text.end_line()
}
