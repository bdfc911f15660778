//! A sink that keeps what it takes.
ghost use Rattle.std.specs.Prelude.{◌≡◌, [], Some};
ghost use Rattle.profile.specs.text_sink.TextSink.{sink_text_of};

use crate::{Sink, WriteFault};
use std::alloc::Global;

/// A sink over a `Vec`: it fails where memory runs out, and from then on.
#[derive(Drop)]
pub struct TextSink {
    bytes: Vec<u8>,
    has_failed: bool,
}

impl TextSink {
    /// A sink that has taken nothing.
    pub fn new(alloc: Global) -> TextSink
        ensures { sink_text_of result ≡ [] }
    {
        TextSink {
            bytes: Vec::new(alloc),
            has_failed: false,
        }
    }

    /// A sink that has taken nothing, over memory that is used again.
    pub fn over(memory: Vec<u8>) -> TextSink
        ensures { sink_text_of result ≡ [] }
    {
        let mut bytes = memory;
        bytes.clear();
        TextSink {
            bytes,
            has_failed: false,
        }
    }

    /// What it has taken.
    pub fn bytes(&self) -> &[u8]
        ensures { result.now ≡ sink_text_of self.now }
    {
        self.bytes.as_slice()
    }

    /// What it has taken, as bytes of one's own.
    pub fn into_bytes(self) -> Vec<u8>
        ensures { result.items ≡ sink_text_of self }
    {
        self.bytes
    }
}

impl Sink for TextSink {
    ghost contents = { λ s. Some (sink_text_of s) };

    ghost has_failed = { λ s. s.has_failed };

    fn push(&mut self, bytes: &[u8]) -> Result<usize, WriteFault> {
        if self.has_failed || self.bytes.extend_from_slice(bytes).is_err() {
            self.has_failed = true;
            return Err(WriteFault);
        }
        Ok(bytes.len())
    }
}
