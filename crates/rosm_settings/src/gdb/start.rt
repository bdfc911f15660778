//! What a machine begins with: the images of the files, and its first lines.

ghost use Rattle.std.specs.Prelude.{◌≡◌, [], None, IfErr, IfOk, OnOk, option_map};
ghost use Rattle.std.specs.Path.{path_file_name};
ghost use Rattle.rosm_settings.specs.ImageFiles.{AddsFiles};
ghost use Rattle.rosm_settings.specs.gdb.Start.{AreFirstLines, boot_line, boot_line_named, first_elf, is_elf_image, is_elf_named};
ghost use Rattle.rosm_settings.specs.gdb.Endings.{gdb_refusal_status};

use crate::SettingsRefusal;
use crate::command_line::Files;
use crate::gdb::refusal::GdbRefusal;
use crate::gdb::words::WantedGdb;
use crate::image_files::{FileError, add_files};
use command_shell_lines::read_script;
use profile::Device;
use profile::images::Images;
use std::alloc::{AllocError, Global};
use std::fs;
use std::fs::File;
use std::path::Path;

/// Takes in the files, each as an image.
///
/// # Errors
///
/// The first file that gives no image, or else the first that is an ELF file.
pub fn take_files<'a, F>(
    files: &F,
    wanted: &'a WantedGdb,
    images: &mut Images,
) -> Result<(), GdbRefusal<'a>>
where
    F: AllocGlobal + fs::Files,
    ensures added { OnOk result
        (AddsFiles F.File.Read.remaining images.old wanted.entry.now.settings.files images.new) }
    ensures no_elf { OnOk result (first_elf images.new wanted.entry.now.settings.files ≡ None) }
    ensures refused { IfErr result (λ e. gdb_refusal_status e ≡ 4) }
{
    match add_files(files, &wanted.settings.files, images) {
        Ok(()) => no_elf_among(images, &wanted.settings.files),
        Err(SettingsRefusal::File(path, error)) => Err(GdbRefusal::File(path, error)),
        Err(_) => Err(GdbRefusal::Memory),
    }
}

#[tactic(auto, using(crate::proofs::GdbLemmas::StartLemmas::elf_steps))]
fn no_elf_among<'a>(images: &Images, files: &'a Files) -> Result<(), GdbRefusal<'a>>
    ensures none { OnOk result (first_elf images.now files.entry.now ≡ None) }
    ensures refused { IfErr result (λ e. gdb_refusal_status e ≡ 4) }
{
    for n in 0..files.len() {
        let path = files.get(n);
        if is_elf_named(images, path) {
            return Err(GdbRefusal::Elf(path));
        }
    }
    Ok(())
}

// Whether the image of a file is an ELF file.
fn is_elf_named(images: &Images, path: &str) -> bool
    ensures { result ≡ is_elf_named images.now (path_file_name path.now) }
{
    match Path::new(path).file_name() {
        Some(name) => is_elf_image(images.get(name.as_bytes())),
        None => false,
    }
}

fn is_elf_image(bytes: Option<&[u8]>) -> bool
    ensures { result ≡ is_elf_image (option_map (λ b. b.now) bytes.entry) }
{
    match bytes {
        Some(bytes) => &bytes[..bytes.len().min(4)] == b"\x7fELF".as_slice(),
        None => false,
    }
}

/// The lines that a machine begins with: those of the script, else one that boots the first file.
///
/// # Errors
///
/// The script can't be read, or memory ran out.
pub fn start_lines<'a, F>(files: &F, wanted: &'a WantedGdb) -> Result<Vec<u8>, GdbRefusal<'a>>
where
    F: AllocGlobal + fs::Files,
    ensures start { IfOk result (λ start. AreFirstLines F.File.Read.remaining wanted.entry.now start.items) }
    ensures refused { IfErr result (λ e. gdb_refusal_status e ≡ 4) }
{
    let Some(path) = &wanted.script else {
        return Ok(boot_line(files.alloc(), &wanted.settings.files)?);
    };
    match File::open(files, path.as_str()) {
        Ok(file) => match read_script(files.alloc(), &mut Device::new(file)) {
            Ok(script) => Ok(script),
            Err(error) => Err(GdbRefusal::Start(error.into())),
        },
        Err(error) => Err(GdbRefusal::File(path.as_str(), FileError::from(error))),
    }
}

// The line that boots the first file, by the last part of its path.
fn boot_line(alloc: Global, files: &Files) -> Result<Vec<u8>, AllocError>
    ensures { IfOk result (λ line. line.items ≡ boot_line files.now) }
{
    if files.len() == 0 {
        return Ok(Vec::new(alloc));
    }
    match Path::new(files.get(0)).file_name() {
        Some(name) => boot_line_named(alloc, name.as_bytes()),
        None => Ok(Vec::new(alloc)),
    }
}

fn boot_line_named(alloc: Global, name: &[u8]) -> Result<Vec<u8>, AllocError>
    ensures { IfOk result (λ line. line.items ≡ boot_line_named name.now) }
{
    let mut line = Vec::from_slice(alloc, b"BOOT ")?;
    line.extend_from_slice(name)?;
    line.extend_from_slice(b"\n")?;
    Ok(line)
}
