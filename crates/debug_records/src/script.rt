//! A whole script, recorded.

ghost use Rattle.std.specs.Prelude.{List, IfOk, OnOk};
ghost use Rattle.std.specs.Str.Lines.{lines};
ghost use Rattle.debug_session.specs.Session.{debug_state};
ghost use Rattle.debug_records.specs.LineRecords.{Adds, AreAllRecorded};
ghost use Rattle.debug_records.specs.Recording.{recording_state};
ghost use Rattle.debug_records.specs.Records.{HasAllRecords};
ghost use Rattle.profile.specs.text_sink.Safe.{AddsSafe};

use crate::ends::{record_end, record_start};
use crate::recorder::Recorder;
use debug_session::{DebugSettings, RunError};
use profile::Sink;
use profile::images::Images;
use profile::text_lines::Lines;
use std::alloc::Global;

/// Writes the records of a script on a fresh machine, from the first to the last, and gives the exit
/// status of its lines, which the last record has. The images are handed in twice, for the session that
/// answers and for the one that takes its steps one by one.
///
/// # Errors
///
/// `WriteFault`, `Memory` and `ScriptTooLong`, when a part of the records may stand written.
pub fn record_script<W: Sink>(
    alloc: Global,
    setting: DebugSettings,
    images: Images,
    twin_images: Images,
    name: &[u8],
    script: &[u8],
    sink: &mut W,
) -> Result<u8, RunError>
    ensures safe { OnOk result (AddsSafe (W.contents sink.old) (W.contents sink.new)) }
    ensures whole { IfOk result (λ status. HasAllRecords setting images name.now script.now status
        (W.contents sink.old) (W.contents sink.new)) }
{
    let mut recorder = Recorder::new(alloc, setting, images, twin_images)?;
    record_start(&recorder, &setting, name, sink)?;
    record_lines(&mut recorder, script, sink)?;
    record_end(&recorder, sink)
}

// Records the lines of a script, up to its end or a line QUIT.
fn record_lines<W: Sink>(
    recorder: &mut Recorder,
    script: &[u8],
    sink: &mut W,
) -> Result<(), RunError>
    ensures { OnOk result (Adds (AreAllRecorded
        (recording_state recorder.old (record { left = lines script.now; number = 0 }))
        (debug_state recorder.new.session recorder.new.images))
        (W.contents sink.old) (W.contents sink.new)) }
{
    let mut lines = Lines::new(script);
    for _count in 0..u64::MAX {
        if recorder.session.has_quit() {
            return Ok(());
        }
        let Some(line) = lines.next_line() else {
            return Ok(());
        };
        recorder.record_typed(line, &mut lines, sink)?;
    }
    Err(RunError::ScriptTooLong)
}
