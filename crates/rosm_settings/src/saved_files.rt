//! What a line SAVE names: an image's bytes or those of memory, and the file that they are written to.

ghost use Rattle.std.specs.Prelude.{◌≡◌, ℕ, List, [], ◌∷◌, length, IfErr, IfNone, IfOk, IfSome, IsErr, string_bytes};
ghost use Rattle.std.specs.Fmt.{debug_str};
ghost use Rattle.command_shell_lines.specs.Requests.{words};
ghost use Rattle.rosm_settings.specs.SavedFiles.{IsHostReason, NamesSaved, save_refusal, written_line as written_text, unwritten_line as unwritten_text, write_reason};
ghost use Rattle.rosm_settings.specs.declared.saved_files.SavedBytes.{SavedBytes};

use command_shell_lines::{count_up_to, number_of};
use profile::memory_map::ADDRESS_LIMIT;
use profile::text_lines::cut;
use std::alloc::{AllocError, Global};
use std::fs;
use std::io::ErrorKind;

/// The bytes that a line SAVE names.
#[derive(Clone, Copy)]
pub enum SavedBytes<'a> {
    /// Those of the image of this name.
    Image(&'a [u8]),
    /// So many of memory, from an address on.
    Memory(u32, u32),
}

/// The bytes that the words of a line SAVE name, and the path of their file: an image and a path, or an
/// address, a number from 1 to 67,108,864 and a path.
pub fn saved_words(line: &[u8]) -> Option<(SavedBytes<'_>, &str)>
    ensures named { IfSome result (λ r. NamesSaved line.now r.0 r.1.now) }
    ensures none { IfNone result
        ((named : SavedBytes) (path : List ℕ) → ¬ (NamesSaved line.now named path)) }
{
    let (first, rest) = cut(line, b' ');
    let Some(rest) = rest else {
        return None;
    };
    let (second, path) = cut(rest, b' ');
    match path {
        None => saved_image(first, second),
        Some(path) => saved_memory(first, second, path),
    }
}

fn saved_image<'a>(name: &'a [u8], path: &'a [u8]) -> Option<(SavedBytes<'a>, &'a str)>
    ensures named { (line : List ℕ) → words line ≡ name.now ∷ path.now ∷ []
        → IfSome result (λ r. NamesSaved line r.0 r.1.now) }
    ensures none { (line : List ℕ) → words line ≡ name.now ∷ path.now ∷ [] → IfNone result
        ((named : SavedBytes) (file : List ℕ) → ¬ (NamesSaved line named file)) }
{
    match str::from_utf8(path) {
        Ok(path) => Some((SavedBytes::Image(name), path)),
        Err(_) => None,
    }
}

fn saved_memory<'a>(
    address: &'a [u8],
    count: &'a [u8],
    path: &'a [u8],
) -> Option<(SavedBytes<'a>, &'a str)>
    ensures named { (line : List ℕ) → words line ≡ address.now ∷ count.now ∷ words path.now
        → IfSome result (λ r. NamesSaved line r.0 r.1.now) }
    ensures none { (line : List ℕ) → words line ≡ address.now ∷ count.now ∷ words path.now → IfNone result
        ((named : SavedBytes) (file : List ℕ) → ¬ (NamesSaved line named file)) }
{
    let (file, more) = cut(path, b' ');
    if more.is_some() {
        return None;
    }
    let Some(address) = number_of(address) else {
        return None;
    };
    let Some(count) = count_up_to(ADDRESS_LIMIT, count) else {
        return None;
    };
    match str::from_utf8(file) {
        Ok(file) => Some((SavedBytes::Memory(address, count), file)),
        Err(_) => None,
    }
}

// The refusal of bytes that aren't there.
fn save_refusal(named: SavedBytes<'_>) -> &'static str
    ensures { result.now ≡ save_refusal named.entry }
{
    match named {
        SavedBytes::Image(_) => "refused NoImage",
        SavedBytes::Memory(_, _) => "refused DataUnmapped",
    }
}

/// Makes a file of the bytes that a line names, also in place of one that is there, and answers how
/// many they are.
///
/// # Errors
///
/// The refusal of bytes that aren't there, and the host's reason against the file, when a part of it may
/// be written.
pub fn write_found<R: fs::Files>(
    rt: &R,
    path: &str,
    named: SavedBytes<'_>,
    found: &Option<Vec<u8>>,
) -> Result<usize, &'static str>
    ensures none { IfNone found.now (IsErr result) }
    ensures missing { IfNone found.now (IfErr result (λ reason. reason.now ≡ save_refusal named.entry)) }
    ensures written { IfSome found.now (λ bytes. IfOk result (λ count. count ≡ length bytes.items)) }
    ensures refused { IfSome found.now (λ bytes. IfErr result (λ reason. IsHostReason reason.now)) }
{
    match found {
        None => Err(save_refusal(named)),
        Some(bytes) => write_file(rt, path, bytes.as_slice()),
    }
}

fn write_file<R: fs::Files>(rt: &R, path: &str, bytes: &[u8]) -> Result<usize, &'static str>
    ensures written { IfOk result (λ count. count ≡ length bytes.now) }
    ensures refused { IfErr result (λ reason. IsHostReason reason.now) }
{
    match fs::write(rt, path, bytes) {
        Ok(()) => Ok(bytes.len()),
        Err(error) => Err(write_reason(error.kind())),
    }
}

fn write_reason(kind: ErrorKind) -> &'static str
    ensures { result.now ≡ write_reason kind }
{
    match kind {
        ErrorKind::NotFound => "no such folder",
        ErrorKind::PermissionDenied => "no permission to write it",
        ErrorKind::IsADirectory => "a directory",
        _ => "can't be written",
    }
}

/// The line about a file that was written.
pub fn written_line(alloc: Global, path: &str, count: usize) -> Result<String, AllocError>
    ensures { IfOk result (λ line. string_bytes line ≡ written_text path.now count) }
{
    format!(in alloc; "save {path}: {count} bytes")
}

/// Why there is no file of a path.
pub fn unwritten_line(alloc: Global, path: &str, reason: &str) -> Result<String, AllocError>
    ensures { IfOk result (λ line. IfSome (debug_str path.now)
        (λ quoted. string_bytes line ≡ unwritten_text quoted reason.now)) }
{
    format!(in alloc; "SAVE {path:?}: {reason}")
}
