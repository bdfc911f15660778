//! The records of a debugging script, in room that a caller lends.

ghost use Rattle.std.specs.Prelude.{◌≡◌, ◌<◌, length};
ghost use Rattle.rosm_c.specs.Answers.{ShowsRecordsUnlessNone};

use crate::answers::{NOT_RUN, put, refuse};
use debug_modes::expectations::reports::ReportForm;
use debug_records::{DebugSettings, RunMeter, record_script};
use profile::Config;
use profile::images::Images;
use profile::memory_map::MOST_BYTES;
use profile::text_sink::TextSink;
use std::alloc::Global;

/// Answers a debugging script on a fresh machine, and puts as much of its records to the front of the room
/// as fits, and how long they are into `written`. Answers the exit status, which is 4 where memory runs
/// out or the script is too long; nothing is written then.
pub(crate) fn write_records(
    alloc: Global,
    config: Config,
    budget: u64,
    name: &[u8],
    script: &[u8],
    room: &mut [u8],
    written: &mut usize,
) -> u32
    ensures recorded { ShowsRecordsUnlessNone result written.new room.old room.new }
    ensures too_long { 1048576 < length script.now → result ≡ 4 }
{
    if script.len() > MOST_BYTES {
        return refuse(NOT_RUN, written);
    }
    let setting = DebugSettings {
        config,
        budget,
        form: ReportForm::Answers,
        meter: RunMeter::silent(),
        keeps_past: false,
    };
    let mut sink = TextSink::new(alloc);
    let (images, twin_images) = (Images::new(), Images::new());
    match record_script(alloc, setting, images, twin_images, name, script, &mut sink) {
        Err(_) => refuse(NOT_RUN, written),
        Ok(status) => {
            *written = sink.bytes().len();
            put(sink.bytes(), room);
            u32::from(status)
        }
    }
}

#[cfg(test)]
mod tests {
    use crate::rosm_records;
    use std::test::Fail;

    #[test]
    fn records_begin_with_the_machine(rt: HostRuntime) -> Result<(), Fail> {
        let (mut out, mut written) = ([0u8; 64], 7);
        let status = rosm_records(
            rt.alloc(),
            256,
            64,
            16,
            1000,
            b"none",
            b"SET R0 5\nEXPECT R0 5\n",
            &mut out,
            &mut written,
        );
        assert!(rt; status == 0);
        assert!(rt; written > 64);
        assert!(rt; out.starts_with(b"{\"start\":1,\"name\":\"none\",\"sizes\":{\"pages\":256,"));
        Ok(())
    }
}
