//! The files, read anew for a `run`.

ghost use Rattle.std.specs.Prelude.{◌≡◌, IfErr, IfOk, option_map};
ghost use Rattle.std.specs.Path.{path_file_name};
ghost use Rattle.gdb_server.specs.Server.{server_state};
ghost use Rattle.rosm_settings.specs.gdb.Endings.{gdb_refusal_status};
ghost use Rattle.rosm_tools.specs.gdb.Renewed.{AreGiven, AreRead, FilesRead, IsRenewed, has_others, is_equal_image, is_other_image};

use gdb_server::GdbServer;
use profile::images::Images;
use rosm_settings::command_line::Files;
use rosm_settings::gdb::refusal::GdbRefusal;
use rosm_settings::gdb::start::{start_lines, take_files};
use rosm_settings::gdb::words::WantedGdb;
use std::fs;
use std::path::Path;

/// What the files give: their images, and the lines that a machine begins with.
#[derive(Drop)]
pub struct ReadFiles {
    /// The images.
    pub images: Images,
    /// The lines.
    pub start: Vec<u8>,
}

/// Reads the files where a `run` has come, and gives them to the server. Where one can't be read standard
/// error says so, and the `run` is an error.
pub fn renew<F>(files: &F, wanted: &WantedGdb, server: &mut GdbServer, images: &mut Images)
where
    F: AllocGlobal + Eprint + fs::Files,
    ensures { IsRenewed F.File.Read.remaining wanted.now (server_state server.old images.old)
        (server_state server.new images.new) }
{
    if server.is_run_ahead() {
        give_files(files, wanted, server, images);
    }
}

fn give_files<F>(files: &F, wanted: &WantedGdb, server: &mut GdbServer, images: &mut Images)
where
    F: AllocGlobal + Eprint + fs::Files,
    ensures { AreGiven F.File.Read.remaining wanted.now (server_state server.old images.old)
        (server_state server.new images.new) }
{
    match read_files(files, wanted) {
        Ok(found) => {
            let is_other_image = has_others(images, &found.images, &wanted.settings.files);
            *images = found.images;
            server.take_files(found.start, is_other_image);
        }
        Err(refusal) => {
            let _ = eprintln!(files; "rosm_gdb: {refusal}");
            server.lack_files();
        }
    }
}

/// Reads the files.
///
/// # Errors
///
/// The first file that gives no image, or that is an ELF file; else the script's, where it can't be read.
pub fn read_files<'a, F>(files: &F, wanted: &'a WantedGdb) -> Result<ReadFiles, GdbRefusal<'a>>
where
    F: AllocGlobal + fs::Files,
    ensures read { IfOk result (λ r. AreRead F.File.Read.remaining wanted.entry.now
        (record { images = r.images; start = r.start.items })) }
    ensures refused { IfErr result (λ e. gdb_refusal_status e ≡ 4) }
{
    let mut images = Images::new();
    take_files(files, wanted, &mut images)?;
    let start = start_lines(files, wanted)?;
    Ok(ReadFiles { images, start })
}

// Whether one of the files gives another image than the one of its name.
#[tactic(auto, using(crate::proofs::GdbLemmas::RenewedLemmas::others_steps))]
fn has_others(images: &Images, fresh: &Images, files: &Files) -> bool
    ensures { result ≡ has_others images.now fresh.now files.now }
{
    for n in 0..files.len() {
        if is_other_image(images, fresh, files.get(n)) {
            return true;
        }
    }
    false
}

fn is_other_image(images: &Images, fresh: &Images, path: &str) -> bool
    ensures { result ≡ is_other_image images.now fresh.now (path_file_name path.now) }
{
    match Path::new(path).file_name() {
        Some(name) => !is_equal_image(fresh.get(name.as_bytes()), images.get(name.as_bytes())),
        None => false,
    }
}

fn is_equal_image(one: Option<&[u8]>, other: Option<&[u8]>) -> bool
    ensures { result ≡ is_equal_image (option_map (λ b. b.now) one.entry)
        (option_map (λ b. b.now) other.entry) }
{
    match (one, other) {
        (Some(one), Some(other)) => one == other,
        (None, None) => true,
        _ => false,
    }
}
