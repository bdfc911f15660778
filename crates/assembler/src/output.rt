//! A program while it is written.

ghost use Rattle.std.specs.Prelude.{◌≡◌, ◌+◌, ◌≤◌, ◌<◌, ◌^◌, ◌++◌, [], None, length, replicate, nat_lt, ◌||◌, OnOk};
ghost use Rattle.std.specs.Int.{to_le_bytes, w32};
ghost use Rattle.assembler.specs.Written.{program_to_whole_words, byte_item, instruction_item, written_without_fault, with_item, with_reason, word_item};

use assembler_reading::{Reason, Value};
use byteorder::{ByteOrder, LittleEndian};
use profile::memory_map::{ADDRESS_LIMIT, MOST_BYTES};
use std::alloc::{AllocError, Global};
use std::marker::Model;

/// The bytes so far, and the first reason that the line at their end is refused for.
#[derive(Drop)]
pub(crate) struct Output {
    bytes: Vec<u8>,
    fault: Option<Reason>,
}

impl Model for Output {
    ghost use Rattle.assembler.specs.Written.{Written};

    ghost Value = { Written };

    ghost view = { λ o. record { bytes = o.bytes.items; fault = o.fault } };
}

impl Output {
    ghost use Rattle.assembler.specs.Passes.{is_program_too_long};

    /// No bytes.
    pub(crate) fn new(alloc: Global) -> Output
        ensures { result ≡ written_without_fault [] }
    {
        Output {
            bytes: Vec::new(alloc),
            fault: None,
        }
    }

    /// The bytes, when all is written.
    pub(crate) fn into_bytes(self) -> Vec<u8>
        ensures { result.items ≡ self.bytes }
    {
        self.bytes
    }

    /// What the last line is refused for.
    pub(crate) fn fault(&self) -> Option<Reason>
        ensures { result ≡ self.now.fault }
    {
        self.fault
    }

    /// Nothing is refused yet.
    pub(crate) fn begin_line(&mut self)
        ensures { self.new ≡ written_without_fault self.old.bytes }
    {
        self.fault = None;
    }

    /// The address of what is written next.
    pub(crate) fn end(&self, origin: u32) -> u32
        requires origin { origin < 2 ^ 26 }
        requires room { length self.now.bytes < 2 ^ 31 }
        ensures { result ≡ origin + length self.now.bytes }
    {
        origin + self.bytes.len() as u32
    }

    /// Whether there are over 1,048,576 bytes, or some past the 26-bit addresses.
    pub(crate) fn is_too_long(&self, origin: u32) -> bool
        requires { origin < 2 ^ 26 }
        ensures { result ≡ is_program_too_long origin self.now.bytes }
    {
        let len = self.bytes.len();
        len > MOST_BYTES || origin as usize + len > ADDRESS_LIMIT as usize
    }

    /// Zero bytes up to the next multiple of 4.
    pub(crate) fn align(&mut self) -> Result<(), AllocError>
        requires { length self.old.bytes < 2 ^ 31 }
        ensures aligned { OnOk result (self.new ≡ record
            self.old { bytes = program_to_whole_words self.old.bytes }) }
        ensures room { OnOk result (length self.new.bytes ≤ length self.old.bytes + 3) }
    {
        let len = self.bytes.len();
        self.push_zeros((4 - len % 4) % 4)
    }

    /// So many zero bytes.
    pub(crate) fn push_zeros(&mut self, count: usize) -> Result<(), AllocError>
        requires room { length self.old.bytes < 2 ^ 31 }
        requires count { count < 2 ^ 31 }
        ensures { OnOk result (self.new ≡ record self.old { bytes = self.old.bytes ++ replicate count 0 }) }
    {
        let len = self.bytes.len();
        self.bytes.resize(len + count, 0)
    }

    /// The bytes of a text.
    pub(crate) fn push_text(&mut self, text: &[u8]) -> Result<(), AllocError>
        ensures { OnOk result (self.new ≡ with_item self.old (written_without_fault text.now)) }
    {
        self.bytes.extend_from_slice(text)
    }

    /// A word, zero where a label in it is unknown.
    pub(crate) fn push_word(&mut self, value: Value) -> Result<(), AllocError>
        ensures { OnOk result (self.new ≡ with_item self.old (word_item value)) }
    {
        match value {
            Some(word) => self.push_bytes_of(word),
            None => {
                self.refuse(Reason::UnknownLabel);
                self.push_bytes_of(0)
            }
        }
    }

    /// A byte, zero where a label in it is unknown or where it is above 255.
    pub(crate) fn push_byte(&mut self, value: Value) -> Result<(), AllocError>
        ensures { OnOk result (self.new ≡ with_item self.old (byte_item value)) }
    {
        let byte = match value {
            Some(value) if value <= 255 => value as u8,
            Some(_) => {
                self.refuse(Reason::BadImmediate);
                0
            }
            None => {
                self.refuse(Reason::UnknownLabel);
                0
            }
        };
        Ok(self.bytes.push(byte)?)
    }

    /// An instruction's word, zero where it is refused.
    pub(crate) fn push_instruction(&mut self, read: Result<u32, Reason>) -> Result<(), AllocError>
        ensures { OnOk result (self.new ≡ with_item self.old (instruction_item read)) }
    {
        let word = match read {
            Ok(word) => word,
            Err(reason) => {
                self.refuse(reason);
                0
            }
        };
        self.push_bytes_of(word)
    }

    // The bytes of a word, the lowest first.
    fn push_bytes_of(&mut self, word: u32) -> Result<(), AllocError>
        ensures { OnOk result (self.new ≡ record self.old
            { bytes = self.old.bytes ++ to_le_bytes w32 word }) }
    {
        let mut bytes = [0u8; 4];
        LittleEndian::write_u32(&mut bytes, word);
        self.bytes.extend_from_slice(&bytes)
    }

    // An unknown label counts before the reasons that were met before it.
    fn refuse(&mut self, reason: Reason)
        ensures { self.new ≡ record self.old { fault = with_reason self.old.fault reason } }
    {
        self.fault = match self.fault {
            Some(Reason::UnknownLabel) => Some(Reason::UnknownLabel),
            _ => Some(reason),
        };
    }
}
