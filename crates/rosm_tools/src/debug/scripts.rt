//! The files that scripts include and save, as the host has them.

ghost use Rattle.std.specs.Prelude.{◌≡◌, None};
ghost use Rattle.rosm_tools.specs.debug.Endings.{ending_by_reader};

use crate::debug::refusal::DebugRefusal;
use crate::debug::saves::saved_bytes;
use address_map::AddressMap;
use debug_program::{DebugSession, FileFault, IncludeRefusal, ScriptFiles, path_beside};
use debug_records::RunError;
use profile::images::{ImageError, Images};
use profile::memory_map::MOST_BYTES;
use rosm_settings::image_files::{FileError, file_front, script_text};
use rosm_settings::saved_files::{
    SavedBytes, saved_words, unwritten_line, write_found, written_line,
};
use std::alloc::{AllocError, Global};
use std::fs;

const LONG: &str = "more than 1048576 bytes";

const SAVE_WANTS: &str = "SAVE wants an image and a file, as SAVE pots lib/pots, \
or an address, how many bytes and a file, as SAVE &9000 64 table";

/// The host's files.
#[derive(Clone, Copy)]
pub struct HostScripts<'a, R> {
    /// What opens them.
    pub rt: &'a R,
}

impl<R: AllocGlobal + Eprint + fs::Files> ScriptFiles for HostScripts<'_, R> {
    // What a file of the host holds isn't known before it is read.
    ghost text_of = { λ _ _. None };

    // Nor what is against it.
    ghost is_refused = { λ _ _. Unit {0} };

    fn read_text(&self, alloc: Global, path: &str) -> Result<Vec<u8>, FileFault> {
        match script_text(file_front(self.rt, alloc, path, MOST_BYTES as u64 + 1)) {
            Ok(text) => Ok(text),
            Err(error) => Err(unread_fault(alloc, error)),
        }
    }

    fn write_saved(
        &self,
        alloc: Global,
        session: &DebugSession,
        images: &Images,
        script: &str,
        words: &[u8],
    ) -> Result<String, FileFault> {
        let memory = session.machine().memory();
        match saved_words(words) {
            Some((named, path)) => self.save(alloc, memory, images, script, named, path),
            None => Err(fault_of(String::from_str(alloc, SAVE_WANTS))),
        }
    }

    fn show(&self, message: &str) {
        let _ = eprintln!(self.rt; "rosm_debug: {message}");
    }
}

impl<R: fs::Files> HostScripts<'_, R> {
    // Writes the file of a path, which counts from the script's folder.
    fn save(
        &self,
        alloc: Global,
        memory: &AddressMap,
        images: &Images,
        script: &str,
        named: SavedBytes<'_>,
        path: &str,
    ) -> Result<String, FileFault> {
        match path_beside(alloc, script, path) {
            Ok(path) => self.save_beside(alloc, memory, images, named, path.as_str()),
            Err(_) => Err(FileFault::Memory),
        }
    }

    fn save_beside(
        &self,
        alloc: Global,
        memory: &AddressMap,
        images: &Images,
        named: SavedBytes<'_>,
        path: &str,
    ) -> Result<String, FileFault> {
        match saved_bytes(alloc, images, memory, named) {
            Ok(found) => self.write(alloc, path, named, &found),
            Err(_) => Err(FileFault::Memory),
        }
    }

    // Writes the bytes that were found, and gives the line about them.
    fn write(
        &self,
        alloc: Global,
        path: &str,
        named: SavedBytes<'_>,
        found: &Option<Vec<u8>>,
    ) -> Result<String, FileFault> {
        match write_found(self.rt, path, named, found) {
            Ok(count) => line_of(written_line(alloc, path, count)),
            Err(reason) => Err(fault_of(unwritten_line(alloc, path, reason))),
        }
    }
}

// Why a script's file isn't read.
fn unread_fault(alloc: Global, error: Option<FileError>) -> FileFault {
    match error {
        None => fault_of(String::from_str(alloc, LONG)),
        Some(FileError::Image(ImageError::Memory)) => FileFault::Memory,
        Some(error) => fault_of(format!(in alloc; "{error}")),
    }
}

fn line_of(line: Result<String, AllocError>) -> Result<String, FileFault> {
    match line {
        Ok(line) => Ok(line),
        Err(_) => Err(FileFault::Memory),
    }
}

// The fault of this reason; where it isn't there memory ran out.
fn fault_of<E: Drop>(reason: Result<String, E>) -> FileFault {
    match reason {
        Ok(reason) => FileFault::Reason(reason),
        Err(_) => FileFault::Memory,
    }
}

/// The ending of a script whose reader may say why it can't be read on.
pub fn ending_by_reader<'a>(
    ending: Result<u8, DebugRefusal<'a>>,
    why: Option<IncludeRefusal>,
) -> Result<u8, DebugRefusal<'a>>
    ensures { result ≡ ending_by_reader ending.entry why }
{
    match (ending, why) {
        (Err(DebugRefusal::Script(RunError::ReadFault)), Some(why)) => Err(DebugRefusal::from(why)),
        (ending, _) => ending,
    }
}
