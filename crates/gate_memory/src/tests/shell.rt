//! Scripts that can't be read, also where a reader never ends, or whose answers can't be written.

use command_shell::{RunError, run_script};
use profile::images::Images;
use profile::{Config, Device, MemorySink, MemorySource, Source};
use std::alloc::Global;
use std::io;
use std::io::Read;
use std::process::Abort;
use std::test::Fail;

/// Six words: a loop that adds 3, 2 and 1, and OS_Exit.
const SIX_WORDS: &str = "HEX a
03 00 A0 E3 00 10 81 E0 01 00 40 E2
00 00 50 E3 FB FF FF 1A 11 00 00 EF
END
BOOT a
RUN
REGS
";

const SIX_WORDS_ANSWER: &str = "hex a: 24 bytes
boot a
stop Exit
R0  00000000 R1  00000006 R2  00000000 R3  00000000
R4  00000000 R5  00000000 R6  00000000 R7  00000000
R8  00000000 R9  00000000 R10 00000000 R11 00000000
R12 00000000 R13 00000000 R14 00000000 R15 60008014
PSR nZCvif USR
";

fn usual_sizes(rt: &impl Abort) -> Config {
    Config::new(256, 64, 16).expect(rt, "sizes that a machine can have")
}

#[test]
fn each_pull_can_fail(rt: HostRuntime) {
    let pulls = SIX_WORDS.len() as u64 + 1;
    for n in 1..pulls + 2 {
        let mut reader = MemorySource::new(SIX_WORDS.as_bytes(), 1, n);
        let mut room = [0u8; 1024];
        let mut writer = MemorySink::new(&mut room, 1024, u64::MAX);
        let mut images = Images::new();
        let result = run_script(
            rt.alloc(),
            &mut reader,
            &mut images,
            &mut writer,
            usual_sizes(&rt),
            20,
        );
        if n <= pulls {
            assert!(rt; result == Err(RunError::ReadFault), "pull {n}");
            assert!(rt; writer.written().is_empty());
        } else {
            assert!(rt; result.is_ok());
            assert!(rt; writer.written() == SIX_WORDS_ANSWER.as_bytes());
        }
    }
}

#[test]
fn each_push_can_fail(rt: HostRuntime) -> Result<(), Fail> {
    let sizes = Config::new(5, 1, 1).ok_or("sizes")?;
    let mut last_failing = 0;
    for n in 1..200u64 {
        let mut reader = MemorySource::new(SIX_WORDS.as_bytes(), 4096, u64::MAX);
        let mut room = [0u8; 1024];
        let mut writer = MemorySink::new(&mut room, 5, n);
        let mut images = Images::new();
        let result = run_script(rt.alloc(), &mut reader, &mut images, &mut writer, sizes, 20);
        assert!(rt; SIX_WORDS_ANSWER.as_bytes().starts_with(writer.written()));
        if writer.written().len() < SIX_WORDS_ANSWER.len() {
            assert!(rt; result == Err(RunError::WriteFault), "push {n}");
            last_failing = n;
        } else {
            assert!(rt; result.is_ok());
        }
    }
    assert!(rt; 55 < last_failing && last_failing < 150);
    Ok(())
}

/// A reader that gives an empty line a time and never ends, and counts how often it was asked.
#[derive(Drop)]
struct Endless {
    reads: u64,
}

impl Read for Endless {
    fn read(&mut self, buf: &mut [u8]) -> io::Result<usize> {
        self.reads = self.reads.saturating_add(1);
        match buf.first_mut() {
            Some(byte) => {
                *byte = b'\n';
                Ok(1)
            }
            None => Ok(0),
        }
    }
}

/// Whether a script is found too long before anything is written.
fn is_too_long<R: Source>(rt: &impl Abort, alloc: Global, reader: &mut R) -> bool {
    let mut room = [0u8; 16];
    let mut writer = MemorySink::new(&mut room, 16, u64::MAX);
    let result = run_script(
        alloc,
        reader,
        &mut Images::new(),
        &mut writer,
        usual_sizes(rt),
        20,
    );
    result == Err(RunError::ScriptTooLong) && writer.written().is_empty()
}

#[test]
fn a_reader_without_end_is_left(rt: HostRuntime) {
    let mut repeated = Device::new(io::repeat(b'\n'));
    assert!(rt; is_too_long(&rt, rt.alloc(), &mut repeated));
    let mut endless = Endless { reads: 0 };
    let mut device = Device::new(&mut endless);
    assert!(rt; is_too_long(&rt, rt.alloc(), &mut device));
    assert!(rt; endless.reads <= 1_048_577);
}
