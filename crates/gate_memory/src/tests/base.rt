//! Sources and sinks, in memory and over readers and writers that fail, are interrupted or take
//! nothing; and the texts of a module header's faults, which no program prints.

use profile::images::module_header::HeaderFault;
use profile::{
    Device, MemorySink, MemorySource, ReadFault, Sink, Source, WriteFault, push_all, push_parts,
};
use std::io;
use std::io::{BufWriter, ErrorKind, Read, Write};
use std::test::Fail;

#[test]
fn a_source_gives_its_bytes(rt: HostRuntime) {
    let mut source = MemorySource::new(b"abcde", 2, 5);
    let mut buffer = [0u8; 3];
    assert!(rt; source.pull(&mut buffer) == Ok(2));
    assert!(rt; buffer == *b"ab\0");
    assert!(rt; source.pull(&mut buffer[..1]) == Ok(1));
    assert!(rt; source.pull(&mut buffer) == Ok(2));
    assert!(rt; source.pull(&mut buffer) == Ok(0));
    assert!(rt; source.pull(&mut buffer) == Err(ReadFault));
    assert!(rt; source.pull(&mut buffer) == Err(ReadFault));
}

#[test]
fn a_sink_fills_its_room(rt: HostRuntime) {
    let mut room = [0u8; 5];
    let mut sink = MemorySink::new(&mut room, 2, 9);
    assert!(rt; sink.push(b"abc") == Ok(2));
    assert!(rt; push_all(&mut sink, b"cd") == Ok(()));
    assert!(rt; push_parts(&mut sink, &[b"e".as_slice(), b"fg".as_slice()]) == Err(WriteFault));
    assert!(rt; sink.written() == b"abcde".as_slice());
    assert!(rt; sink.push(b"f") == Err(WriteFault));
}

#[test]
fn a_sink_fails_from_its_call_on(rt: HostRuntime) {
    let mut room = [0u8; 9];
    let mut sink = MemorySink::new(&mut room, 4, 2);
    assert!(rt; sink.push(b"abc") == Ok(3));
    assert!(rt; sink.push(b"d") == Err(WriteFault));
    assert!(rt; sink.push(b"d") == Err(WriteFault));
    assert!(rt; sink.written() == b"abc".as_slice());
}

// Answers an interruption, then one byte, then a failure, then bytes again.
#[derive(Drop)]
struct Unsteady {
    calls: u8,
    failure: ErrorKind,
}

impl Unsteady {
    fn new(failure: ErrorKind) -> Unsteady {
        Unsteady { calls: 0, failure }
    }

    fn answer(&mut self) -> io::Result<usize> {
        self.calls = self.calls.saturating_add(1);
        match self.calls {
            1 => Err(io::Error::from(ErrorKind::Interrupted)),
            2 => Ok(1),
            3 => Err(io::Error::from(self.failure)),
            _ => Ok(1),
        }
    }
}

impl Read for Unsteady {
    fn read(&mut self, buf: &mut [u8]) -> io::Result<usize> {
        let count = self.answer()?;
        Ok(count.min(buf.len()))
    }
}

impl Write for Unsteady {
    fn write(&mut self, buf: &[u8]) -> io::Result<usize> {
        let count = self.answer()?;
        Ok(count.min(buf.len()))
    }

    fn flush(&mut self) -> io::Result<()> {
        self.answer()?;
        Ok(())
    }
}

static FAILURES: [ErrorKind; 4] = [
    ErrorKind::BrokenPipe,
    ErrorKind::StorageFull,
    ErrorKind::WouldBlock,
    ErrorKind::UnexpectedEof,
];

#[test]
fn a_reader_fails_for_good(rt: HostRuntime) {
    for failure in FAILURES {
        let mut reader = Device::new(Unsteady::new(failure));
        let mut buffer = [0u8; 2];
        assert!(rt; reader.pull(&mut buffer) == Ok(1));
        assert!(rt; reader.pull(&mut buffer) == Err(ReadFault));
        assert!(rt; reader.pull(&mut buffer) == Err(ReadFault));
    }
}

#[test]
fn a_writer_fails_for_good(rt: HostRuntime) {
    for failure in FAILURES {
        let mut writer = Device::new(Unsteady::new(failure));
        assert!(rt; writer.push(b"ab") == Ok(1));
        assert!(rt; writer.push(b"ab") == Err(WriteFault));
        assert!(rt; push_all(&mut writer, b"ab") == Err(WriteFault));
        assert!(rt; writer.flush() == Err(WriteFault));
    }
}

// Takes nothing in its first call, and all in those after it.
#[derive(Drop)]
struct Reluctant {
    has_refused: bool,
}

impl Write for Reluctant {
    fn write(&mut self, buf: &[u8]) -> io::Result<usize> {
        if self.has_refused {
            return Ok(buf.len());
        }
        self.has_refused = true;
        Ok(0)
    }

    fn flush(&mut self) -> io::Result<()> {
        Ok(())
    }
}

#[test]
fn a_writer_that_takes_nothing_has_failed(rt: HostRuntime) {
    let mut writer = Device::new(Reluctant { has_refused: false });
    assert!(rt; writer.push(b"ab") == Err(WriteFault));
    assert!(rt; writer.push(b"ab") == Err(WriteFault));
    assert!(rt; writer.flush() == Err(WriteFault));
}

#[test]
fn a_flush_fails_as_a_push_does(rt: HostRuntime) {
    let mut writer = Device::new(Unsteady::new(ErrorKind::StorageFull));
    assert!(rt; writer.flush() == Ok(()));
    assert!(rt; writer.flush() == Err(WriteFault));
    assert!(rt; writer.push(b"ab") == Err(WriteFault));
}

#[test]
fn the_end_is_no_failure(rt: HostRuntime) {
    let mut reader = Device::new(b"a".as_slice());
    let mut buffer = [0u8; 2];
    assert!(rt; reader.pull(&mut buffer) == Ok(1));
    assert!(rt; reader.pull(&mut buffer) == Ok(0));
    assert!(rt; reader.pull(&mut buffer) == Ok(0));
}

#[test]
fn what_a_buffer_holds_is_handed_on(rt: HostRuntime) -> Result<(), Fail> {
    let mut bytes = Vec::new(rt.alloc());
    let mut writer = Device::new(BufWriter::new(rt.alloc(), &mut bytes)?);
    assert!(rt; push_all(&mut writer, b"abc") == Ok(()));
    let Ok(mut below) = writer.unbuffered() else {
        assert!(rt; false);
        return Ok(());
    };
    assert!(rt; push_all(&mut below, b"d") == Ok(()));
    assert!(rt; bytes.as_slice() == b"abcd".as_slice());
    Ok(())
}

#[test]
fn a_buffer_is_not_handed_on_to_a_writer_that_fails(rt: HostRuntime) -> Result<(), Fail> {
    let buffered = BufWriter::new(rt.alloc(), Reluctant { has_refused: false })?;
    let mut writer = Device::new(buffered);
    assert!(rt; push_all(&mut writer, b"abc") == Ok(()));
    assert!(rt; writer.unbuffered().is_err());
    Ok(())
}

#[test]
fn faults_of_headers_have_texts(rt: HostRuntime) -> Result<(), Fail> {
    let text = format!(in rt.alloc();
        "{}; {}; {}; {}",
        HeaderFault::Short,
        HeaderFault::Initialise,
        HeaderFault::Finalise,
        HeaderFault::Title
    )?;
    assert!(rt;
        text.as_str()
            == "the image is shorter than a module's header; the initialisation entry is no word of the image; the finalisation entry is no word of the image; the image has no good title"
    );
    Ok(())
}
