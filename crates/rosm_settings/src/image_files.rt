//! Files taken in as images, and why one gives none.

ghost use Rattle.std.specs.Prelude.{◌≡◌, ◌<◌, ◌≤◌, [], ◌∷◌, ◌++◌, false, length, IfErr, IfOk, IfSome, OnErr, OnOk, Ok, Err, Some, None};
ghost use Rattle.std.specs.IoError.{error_kind};
ghost use Rattle.std.specs.Path.{path_file_name};
ghost use Rattle.rosm_settings.specs.ImageFiles.{file_error as error_of, AddsFile, AddsFiles, AddsImageFile, RefusesFile, RefusesImage, StopsAtFile, front_of, is_host_error, names_for, names_of};
ghost use Rattle.rosm_settings.specs.Texts.{rule_text};

use crate::command_line::Files;
use crate::refusal::SettingsRefusal;
use profile::images::{ImageError, Images};
use profile::memory_map::MOST_BYTES;
use std::alloc::Global;
use std::error::Error;
use std::fs::File;
use std::io::{ErrorKind, Read};
use std::path::Path;
use std::{fmt, fs, io};

/// Why a file gives no image.
#[derive(Clone, Copy, Debug)]
pub enum FileError {
    /// There is no such file.
    Missing,
    /// The file may not be read by this user.
    NotPermitted,
    /// It is a directory.
    Directory,
    /// It can't be opened or read to its end, for another reason.
    Unreadable,
    /// Its path has no last part.
    Nameless,
    /// The table of images refuses it.
    Image(ImageError),
}

impl fmt::Display for FileError {
    ghost use Rattle.rosm_settings.specs.Texts.{file_error_text};

    ghost output = { λ error. Some (file_error_text error) };

    fn fmt<W: fmt::Write>(&self, f: &mut fmt::Formatter<W>) -> fmt::Result {
        match self {
            FileError::Missing => f.write_str("no such file"),
            FileError::NotPermitted => f.write_str("no permission to read it"),
            FileError::Directory => f.write_str("a directory"),
            FileError::Unreadable => f.write_str("can't be read"),
            FileError::Nameless => f.write_str("no name in this path"),
            FileError::Image(error) => {
                let (name, rule) = (error.name(), image_rule(*error));
                write!(f, "refused {name}{rule}")
            }
        }
    }
}

impl Error for FileError {}

// What an image has to be that is refused so, for people who named a file.
fn image_rule(error: ImageError) -> &'static str
    ensures { result.now ≡ rule_text error }
{
    match error {
        ImageError::BadName => ": a name has 1 to 63 bytes from ! to ~, and no space",
        ImageError::NameTaken => ": the last part of a path is the name, and each name stands once",
        ImageError::TooLarge => ": an image has at most 1048576 bytes",
        ImageError::TableFull => ": there are at most 64 images",
        ImageError::Memory => "",
    }
}

impl From<ImageError> for FileError {
    ghost use Rattle.rosm_settings.specs.declared.image_files.FileError.TheVariants.{Image};

    ghost from_gives = { λ e f. f ≡ Image e };

    fn from(error: ImageError) -> FileError {
        FileError::Image(error)
    }
}

impl From<io::Error> for FileError {
    ghost use Rattle.std.specs.IoError.{error_kind};
    ghost use Rattle.rosm_settings.specs.ImageFiles.{file_error};

    ghost from_gives = { λ e f. f ≡ file_error (error_kind e) };

    fn from(error: io::Error) -> FileError {
        file_error(error.kind())
    }
}

fn file_error(kind: ErrorKind) -> FileError
    ensures { result ≡ error_of kind }
{
    match kind {
        ErrorKind::NotFound => FileError::Missing,
        ErrorKind::PermissionDenied => FileError::NotPermitted,
        ErrorKind::IsADirectory => FileError::Directory,
        ErrorKind::OutOfMemory => FileError::Image(ImageError::Memory),
        _ => FileError::Unreadable,
    }
}

/// Adds an image for each file in turn, named by the last part of its path.
///
/// # Errors
///
/// `Refusal::File` of the first file that gives no image; those before it are added.
pub fn add_files<'a, R>(
    rt: &R,
    files: &'a Files,
    images: &mut Images,
) -> Result<(), SettingsRefusal<'a>>
where
    R: AllocGlobal + fs::Files,
    ensures added { OnOk result (AddsFiles R.File.Read.remaining images.old files.entry.now images.new) }
    ensures named { OnOk result (names_of images.new ≡ names_of images.old ++ names_for files.entry.now) }
    ensures refused { IfErr result (StopsAtFile R.File.Read.remaining images.old images.new files.entry.now) }
{
    for n in 0..files.len() {
        let path = files.get(n);
        if let Err(error) = add_file(rt, path, images) {
            return Err(SettingsRefusal::File(path, error));
        }
    }
    Ok(())
}

fn add_file<R>(rt: &R, path: &str, images: &mut Images) -> Result<(), FileError>
where
    R: AllocGlobal + fs::Files,
    ensures added { OnOk result (AddsFile R.File.Read.remaining images.old path.now images.new) }
    ensures refused { IfErr result (λ e. is_host_error e ≡ false
        → RefusesFile R.File.Read.remaining images.old path.now e) }
    ensures err { OnErr result (images.new ≡ images.old) }
{
    let file = File::open(rt, path)?;
    add_image(rt.alloc(), path, file, images)
}

/// Adds the bytes of a reader under the last part of a path.
///
/// # Errors
///
/// The first of these, and nothing is changed then: `Nameless` where the path has no last part; the
/// host's error where the reader fails; `Image` as the table of images refuses them.
pub fn add_image<R: Read + Drop>(
    alloc: Global,
    path: &str,
    reader: R,
    images: &mut Images,
) -> Result<(), FileError>
    ensures ok { OnOk result (AddsImageFile images.old path.now (R.remaining reader) images.new) }
    ensures refused { IfErr result (λ e. is_host_error e ≡ false
        → RefusesImage images.old path.now (R.remaining reader) e) }
    ensures named { OnOk result (names_of images.new ≡ names_of images.old ++ path_file_name path.now ∷ []) }
    ensures err { OnErr result (images.new ≡ images.old) }
{
    let name = Path::new(path).file_name().ok_or(FileError::Nameless)?;
    // One byte more than an image can have is enough to refuse it.
    let bytes = read_front(alloc, reader, MOST_BYTES as u64 + 1)?;
    images.add(alloc, name.as_bytes(), bytes.as_slice())?;
    Ok(())
}

/// The bytes of a file, or only so many of them.
///
/// # Errors
///
/// The host's, and `OutOfMemory`.
pub fn file_front<R: fs::Files>(
    rt: &R,
    alloc: Global,
    path: &str,
    most: u64,
) -> io::Result<Vec<u8>> {
    read_front(alloc, File::open(rt, path)?, most)
}

/// The bytes of a script's file as they were read; `None` stands for more than it may have.
///
/// # Errors
///
/// The file's, and `None`.
pub fn script_text(read: io::Result<Vec<u8>>) -> Result<Vec<u8>, Option<FileError>>
    ensures read { IfOk read (λ text. length text.items ≤ 1048576 → result ≡ Ok text) }
    ensures long { IfOk read (λ text. 1048576 < length text.items → result ≡ Err None) }
    ensures unread { IfErr read (λ error. result ≡ Err (Some (error_of (error_kind error)))) }
{
    match read {
        Ok(text) if text.len() > MOST_BYTES => Err(None),
        Ok(text) => Ok(text),
        Err(error) => Err(Some(FileError::from(error))),
    }
}

// The bytes of a reader, or only so many of them.
#[tactic(auto, unfolding(crate::specs::ImageFiles::front_of))]
fn read_front<R: Read + Drop>(alloc: Global, reader: R, most: u64) -> io::Result<Vec<u8>>
    ensures { IfOk result (λ bytes. IfSome (R.remaining reader) (λ all. bytes.items ≡ front_of most all)) }
{
    let mut bytes = Vec::new(alloc);
    reader.take(most).read_to_end(&mut bytes)?;
    Ok(bytes)
}
