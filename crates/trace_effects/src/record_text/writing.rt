//! Records, written.

ghost use Rattle.std.specs.Prelude.{OnOk};
ghost use Rattle.std.specs.Io.KnownBytes.{Appends};
ghost use Rattle.profile.specs.text_sink.Safe.{AddsSafe};

use crate::record_text::text::RecordText;
use profile::{Sink, WriteFault, push_all};

/// Writes records: no byte below 32 but line feeds, none above 126, and no `<`.
///
/// # Errors
///
/// `WriteFault` where the sink failed.
pub fn push_records<W: Sink>(sink: &mut W, text: &RecordText) -> Result<(), WriteFault>
    ensures text { OnOk result (Appends (W.contents sink.old) (W.contents sink.new) text.now.bytes.items) }
    ensures safe { OnOk result (AddsSafe (W.contents sink.old) (W.contents sink.new)) }
{
    push_all(sink, text.bytes())?;
    Ok(())
}
