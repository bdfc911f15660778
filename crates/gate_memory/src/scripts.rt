//! Scripts run after some takings of memory.

use crate::outcome::{CallOutcome, take_and_give_back};
use crate::rows::Row;
use command_shell::{RunError, run_script};
use profile::images::Images;
use profile::{Config, MemorySink, MemorySource};
use std::alloc::Global;

const HANDED_IN: &[u8] = b"xyz";

/// A script on a small machine, with one image handed in.
pub fn script(alloc: Global, takings: u32, row: &Row) -> CallOutcome {
    let mut images = Images::new();
    let Some(config) = Config::new(21, 2, 16) else {
        return CallOutcome::Wrong;
    };
    if images.add(alloc, b"kept", HANDED_IN).is_err()
        || take_and_give_back(alloc, takings).is_err()
    {
        return CallOutcome::Before;
    }
    let mut reader = MemorySource::new(row.script.as_bytes(), 4096, u64::MAX);
    let mut room = [0u8; 4096];
    let mut writer = MemorySink::new(&mut room, 4096, u64::MAX);
    let result = run_script(
        alloc,
        &mut reader,
        &mut images,
        &mut writer,
        config,
        1_000_000,
    );
    let answer = row.answer.as_bytes();
    match result {
        Ok(_) => CallOutcome::answered(
            is_all(writer.written(), answer) && has_images(&images, row, false),
        ),
        Err(RunError::Memory) => CallOutcome::refused(
            answer.starts_with(writer.written()) && has_images(&images, row, true),
        ),
        Err(_) => CallOutcome::Wrong,
    }
}

fn is_all(written: &[u8], answer: &[u8]) -> bool {
    written == answer
}

/// Whether there are the image that was handed in and the script's own, which may be missing where
/// memory was.
fn has_images(images: &Images, row: &Row, may_lack: bool) -> bool {
    let has_own = match images.get(row.image.as_bytes()) {
        Some(bytes) => bytes.len() == row.len,
        None => may_lack,
    };
    has_own && images.get(b"kept") == Some(HANDED_IN)
}
