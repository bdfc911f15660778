//! The answers to a script, in room that a caller lends.

ghost use Rattle.std.specs.Prelude.{◌≡◌, ◌<◌, ◌≤◌, length, IfOk};
ghost use Rattle.profile.specs.text_sink.TextSink.{sink_text_of};
ghost use Rattle.command_shell.specs.Script.{script_answer};
ghost use Rattle.rosm_c.specs.Answers.{ShowsAnswersUnlessNone, room_with};

use command_shell::{RunError, run_script};
use profile::images::Images;
use profile::stop::stop_status;
use profile::text_sink::TextSink;
use profile::{Config, Device, Stop};
use std::alloc::Global;

/// The status for sizes that no machine has.
pub(crate) const SIZES_REFUSED: u32 = 2;

/// The status where a script isn't run whole.
pub(crate) const NOT_RUN: u32 = 4;

/// Runs a script on a fresh machine with these images, and puts as much of its answers to the front
/// of the room as fits, and how long they are into `written`. Answers the exit status, which is 4
/// where memory runs out or the script is too long; nothing is written then.
pub(crate) fn write_answers(
    alloc: Global,
    images: &mut Images,
    config: Config,
    budget: u64,
    script: &[u8],
    room: &mut [u8],
    written: &mut usize,
) -> u32
    ensures reported { ShowsAnswersUnlessNone (script_answer config images.old budget script.now)
        result written.new room.old room.new }
    ensures too_long { 1048576 < length script.now → result ≡ 4 }
{
    match answers_to(alloc, images, config, budget, script) {
        Err(_) => refuse(NOT_RUN, written),
        Ok((reported, last)) => {
            *written = reported.bytes().len();
            put(reported.bytes(), room);
            u32::from(stop_status(last))
        }
    }
}

/// Answers a status for which nothing is written.
pub(crate) fn refuse(status: u32, written: &mut usize) -> u32
    ensures status { result ≡ status }
    ensures none { written.new ≡ 0 }
{
    *written = 0;
    status
}

// All that a script is answered, and the last stop.
fn answers_to(
    alloc: Global,
    images: &mut Images,
    config: Config,
    budget: u64,
    script: &[u8],
) -> Result<(TextSink, Option<Stop>), RunError>
    ensures text { IfOk result (λ reported. sink_text_of reported.0
        ≡ (script_answer config images.old budget script.now).text) }
    ensures last { IfOk result (λ reported. reported.1
        ≡ (script_answer config images.old budget script.now).state.last) }
    ensures in_limit { IfOk result (λ _. length script.now ≤ 1048576) }
{
    let mut sink = TextSink::new(alloc);
    let mut reader = Device::new(script);
    let summary = run_script(alloc, &mut reader, images, &mut sink, config, budget)?;
    Ok((sink, summary.last))
}

// As much of a text as fits goes to the front of the room.
pub(crate) fn put(text: &[u8], room: &mut [u8])
    ensures { room.new ≡ room_with room.old text.now }
{
    let count = text.len().min(room.len());
    room[..count].copy_from_slice(&text[..count]);
}
