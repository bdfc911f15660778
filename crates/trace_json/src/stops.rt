//! Errors and stops in records.

use profile::text_lines::cut;
use profile::text_sink::TextSink;
use profile::{Fault, Stop};
use std::alloc::{AllocError, Global};
use trace_effects::record_text::{Bracket, RecordText};
use trace_text::errors::push_error as push_error_words;

/// Writes an error by its number, and by its name where it is one of the store calls'.
///
/// # Errors
///
/// Memory ran out.
pub fn push_error(alloc: Global, text: &mut RecordText, number: u32) -> Result<(), AllocError> {
    text.open_field(b"error", Bracket::Object)?;
    text.number_field(b"number", u64::from(number))?;
    push_name(alloc, text, number)?;
    text.close(Bracket::Object)
}

fn push_name(alloc: Global, text: &mut RecordText, number: u32) -> Result<(), AllocError> {
    let name = error_name(alloc, number)?;
    if name.is_empty() {
        return Ok(());
    }
    text.string_field(b"name", name.as_slice())
}

/// The name of the store calls' error of that number; no bytes where none has it.
///
/// # Errors
///
/// Memory ran out.
pub fn error_name(alloc: Global, number: u32) -> Result<Vec<u8>, AllocError> {
    let mut words = TextSink::new(alloc);
    if push_error_words(&mut words, number).is_err() {
        return Err(AllocError);
    }
    // ` error 9 HeapNoRoom`
    let (_nothing, behind) = cut(words.bytes(), b' ');
    let (_word, behind) = cut(behind.unwrap_or(b""), b' ');
    let (_number, name) = cut(behind.unwrap_or(b""), b' ');
    Ok(Vec::from_slice(alloc, name.unwrap_or(b""))?)
}

/// Writes why a machine was stopped, and after a fault or at a break where it stands.
///
/// # Errors
///
/// Memory ran out.
pub fn push_stop(
    alloc: Global,
    text: &mut RecordText,
    reason: &[u8],
    stop: Option<Stop>,
    at: u32,
) -> Result<(), AllocError> {
    text.open_field(b"stop", Bracket::Object)?;
    text.string_field(b"reason", reason)?;
    if let Some(Stop::Fault(Fault::ErrorStop(number))) = stop {
        text.number_field(b"error", u64::from(number))?;
        push_name(alloc, text, number)?;
    }
    if let Some(Stop::Fault(_)) | Some(Stop::Break(_)) = stop {
        text.number_field(b"pc", u64::from(at))?;
    }
    text.close(Bracket::Object)
}

/// The word for a stop.
pub fn stop_reason(stop: Stop) -> &'static [u8] {
    match stop {
        Stop::Exit => b"Exit",
        Stop::Budget => b"Budget",
        Stop::Break(_) => b"Break",
        Stop::Fault(fault) => fault.name().as_bytes(),
    }
}
