//! What a script gives, byte by byte, with the lines of the files that it includes.

ghost use Rattle.std.specs.Prelude.{◌≡◌, ℕ, true, List, Option, option_map, IfOk, IfNone, IfSome, IsSome, OnErr, OnOk, string_bytes};

use crate::include_words::{
    is_block_open_after, note_text, path_beside, saved_line, without_return, words_of_line,
};
use debug_session::DebugSession;
use profile::images::Images;
use profile::memory_map::MOST_BYTES;
use std::alloc::{AllocError, Global};

/// How deeply files may include one another.
pub(crate) const DEPTH: usize = 8;

const TOO_DEEP: &str = "files include one another more than 8 deep";

const TOO_MUCH: &str = "more than 1048576 bytes with what it includes";

const NO_FILE: &str = "INCLUDE wants one file";

/// Why a file isn't read that a script includes, or isn't written that it saves.
#[derive(Drop)]
pub enum FileFault {
    /// Memory ran out.
    Memory,
    /// It can't be read or written, for this reason.
    Reason(String),
}

/// What a line names, where it names something.
pub(crate) type Words = Option<Vec<u8>>;

/// The files that scripts include and save.
pub trait ScriptFiles {
    // The bytes of the file of a path, or `None` where that isn't known.
    ghost text_of: { Self → List ℕ → Option (List ℕ) };

    // That there is a reason against the file of a path.
    ghost is_refused: { Self → List ℕ → Type 0 };

    /// The bytes of the file of a path, 1,048,576 at most.
    ///
    /// # Errors
    ///
    /// `Memory`, and `Reason` where there is no such file, or another reason against it.
    fn read_text(&self, alloc: Global, path: &str) -> Result<Vec<u8>, FileFault>
        ensures text { IfOk result (λ t. IfSome (text_of self.now path.now) (λ known. t.items ≡ known)) }
        ensures refused { OnErr result (is_refused self.now path.now) };

    /// Writes the file that a line SAVE names by the words behind it, as a session and its images stand:
    /// the path counts from the script's folder. Gives a line about it.
    ///
    /// # Errors
    ///
    /// `Memory`, and `Reason` where the words name nothing, or there is another reason against it.
    fn write_saved(
        &self,
        alloc: Global,
        session: &DebugSession,
        images: &Images,
        script: &str,
        words: &[u8],
    ) -> Result<String, FileFault>;

    /// Shows a person a line about a file that was written, or one that isn't included or saved.
    fn show(&self, message: &str);
}

/// Why a script can't be read on.
#[derive(Drop)]
pub enum IncludeRefusal {
    /// Memory ran out.
    Memory,
    /// The script's own file, or standard input, can't be read.
    ReadFault,
    /// A line of the script has more than 1,048,576 bytes.
    TooLong,
    /// A line INCLUDE or SAVE names no file that can be read or written: the script, its line, the file and
    /// the reason.
    Line(String),
}

impl From<AllocError> for IncludeRefusal {
    ghost use Rattle.debug_program.specs.declared.including.IncludeRefusal.TheVariants.{Memory};

    ghost from_gives = { λ _ refusal. refusal ≡ Memory };

    fn from(_error: AllocError) -> IncludeRefusal {
        IncludeRefusal::Memory
    }
}

/// What a script has given, and where its reading stands.
#[derive(Drop)]
pub(crate) struct GivenText {
    /// What was given.
    pub(crate) text: Vec<u8>,
    /// The line that has no end yet.
    pub(crate) line: Vec<u8>,
    is_in_block: bool,
    // How many lines were given, and how many of them stand in the script itself.
    number: usize,
    own_number: usize,
    /// What the last line SAVE asks for, until its file is written.
    pub(crate) save: Option<Vec<u8>>,
}

impl GivenText {
    ghost use Rattle.std.specs.Prelude.{◌∷◌, Some, [], length};
    ghost use Rattle.debug_program.specs.Including.{GivenSoFar, Included, StaysKnown, file_given, given_all, given_file, given_line, given_none, given_byte, given_ended, given_last, given_wanted};
    ghost use Rattle.debug_program.specs.GivenText.{given_of};

    /// Before the first line of a script, where so many lines were given before it.
    pub(crate) fn new(alloc: Global, number: usize) -> GivenText
        ensures { given_of result ≡ given_none number }
    {
        GivenText {
            text: Vec::new(alloc),
            line: Vec::new(alloc),
            is_in_block: false,
            number,
            own_number: 0,
            save: None,
        }
    }

    /// Takes a byte of the script; of a line INCLUDE that ends here what lies behind that word, and that
    /// line stays.
    ///
    /// # Errors
    ///
    /// Memory ran out, and nothing is taken.
    pub(crate) fn take_byte(&mut self, alloc: Global, byte: u8) -> Result<Words, AllocError>
        ensures taken { IfOk result (λ wanted. (files : Included) (script : List ℕ)
            → given_byte files script (given_of self.old) byte
            ≡ given_wanted files script (given_of self.new) (option_map (λ path. path.items) wanted)) }
        ensures waits { IfOk result (λ wanted. IfSome wanted (λ _. self.new ≡ self.old)) }
        ensures kept { OnErr result (given_of self.new ≡ given_of self.old) }
    {
        if byte == b'\n' {
            return self.take_line(alloc, &[byte]);
        }
        self.line.extend_from_slice(&[byte])?;
        Ok(None)
    }

    /// Takes the line that has no end, where nothing follows it, with this end.
    ///
    /// # Errors
    ///
    /// Memory ran out, and nothing is taken.
    pub(crate) fn take_last(&mut self, alloc: Global, end: &[u8]) -> Result<Words, AllocError>
        ensures taken { IfOk result (λ wanted. (files : Included) (script : List ℕ)
            → given_last files script end.now (given_of self.old)
            ≡ given_wanted files script (given_of self.new) (option_map (λ path. path.items) wanted)) }
        ensures line { IfOk result (λ wanted. IfNone wanted (self.new.line.items ≡ [])) }
        ensures waits { IfOk result (λ wanted. IfSome wanted (λ _. self.new ≡ self.old)) }
        ensures kept { OnErr result (given_of self.new ≡ given_of self.old) }
    {
        if self.line.is_empty() {
            return Ok(None);
        }
        self.take_line(alloc, end)
    }

    // Takes a line that ends here.
    fn take_line(&mut self, alloc: Global, end: &[u8]) -> Result<Words, AllocError>
        ensures taken { IfOk result (λ wanted. (files : Included) (script : List ℕ)
            → given_ended files script end.now (given_of self.old)
            ≡ given_wanted files script (given_of self.new) (option_map (λ path. path.items) wanted)) }
        ensures line { IfOk result (λ wanted. IfNone wanted (self.new.line.items ≡ [])) }
        ensures waits { IfOk result (λ wanted. IfSome wanted (λ _. self.new ≡ self.old)) }
        ensures kept { OnErr result (given_of self.new ≡ given_of self.old) }
    {
        let line = without_return(self.line.as_slice());
        if let Some(path) = words_of_line(alloc, b"INCLUDE", b"INCLUDE ", self.is_in_block, line)? {
            return Ok(Some(path));
        }
        let is_open = is_block_open_after(alloc, self.is_in_block, line)?;
        let save = words_of_line(alloc, b"SAVE", b"SAVE ", self.is_in_block, line)?;
        let whole = saved_line(alloc, &save, self.line.as_slice(), end)?;
        self.text.extend_from_slice(&whole)?;
        self.line.clear();
        self.is_in_block = is_open;
        self.number = self.number.saturating_add(1);
        self.own_number = self.own_number.saturating_add(1);
        if save.is_none() {
            return Ok(None);
        }
        self.save = save;
        Ok(None)
    }

    /// Takes in, in place of a line INCLUDE, the lines of the file that it names.
    ///
    /// # Errors
    ///
    /// `Line` where it names no one file, the file can't be read, or files include one another more deeply
    /// than this; `Memory`. Nothing is taken then.
    #[cycle(include)]
    pub(crate) fn include<D: ScriptFiles>(
        &mut self,
        alloc: Global,
        files: &D,
        script: &str,
        depth: usize,
        wanted: Option<Vec<u8>>,
    ) -> Result<(), IncludeRefusal>
        ensures taken { OnOk result (IfSome (given_wanted (file_given (D.text_of files.now) depth) script.now
            (given_of self.old) (option_map (λ path. path.items) wanted)) (λ g. given_of self.new ≡ g)) }
        ensures line { OnOk result (IfSome wanted (λ _. self.new.line.items ≡ [])) }
        ensures none { IfNone wanted (self.new ≡ self.old) }
        ensures asked { OnErr result (IsSome wanted) }
        ensures kept { OnErr result (given_of self.new ≡ given_of self.old) }
    {
        let Some(wanted) = wanted else {
            return Ok(());
        };
        let number = self.own_number.saturating_add(1);
        let place = IncludingLine { script, number };
        let path = place.path_of(alloc, depth, wanted.as_slice())?;
        let bytes = place.text_at(alloc, files, path.as_str())?;
        let mut file = GivenText::new(alloc, self.number.saturating_add(1));
        file.take_text(alloc, files, place, depth - 1, &path, &bytes)?;
        self.take_file(alloc, path.as_str(), &file)
    }

    // Takes all bytes of a file.
    #[cycle(include)]
    fn take_text<D: ScriptFiles>(
        &mut self,
        alloc: Global,
        files: &D,
        place: IncludingLine<'_>,
        depth: usize,
        path: &str,
        bytes: &[u8],
    ) -> Result<(), IncludeRefusal>
        ensures { OnOk result (StaysKnown (given_all (file_given (D.text_of files.now) depth) path.now
            (10 ∷ []) (given_of self.old) bytes.now) (Some (given_of self.new))) }
    {
        for byte in bytes {
            let inner = self.take_byte(alloc, *byte)?;
            self.include(alloc, files, path, depth, inner)?;
            if self.text.len() > MOST_BYTES {
                return Err(place.refused(alloc, path, TOO_MUCH));
            }
        }
        let inner = self.take_last(alloc, b"\n")?;
        self.include(alloc, files, path, depth, inner)?;
        if self.text.len() > MOST_BYTES {
            return Err(place.refused(alloc, path, TOO_MUCH));
        }
        if self.save.is_some() {
            return Err(place.refused(alloc, path, "it has a line SAVE"));
        }
        Ok(())
    }

    /// The last line can't save anything, for this reason.
    pub(crate) fn refused_save(&self, alloc: Global, script: &str, reason: &str) -> IncludeRefusal {
        let number = self.own_number;
        IncludingLine { script, number }.refused_line(alloc, reason)
    }

    // Takes in what a file gives in place of a line.
    fn take_file(
        &mut self,
        alloc: Global,
        path: &str,
        file: &GivenText,
    ) -> Result<(), IncludeRefusal>
        ensures taken { OnOk result
            (given_of self.new ≡ given_file (given_of self.old) path.now (given_of file.now)) }
        ensures kept { OnErr result (given_of self.new ≡ given_of self.old) }
    {
        let first = self.number.saturating_add(1).saturating_add(1);
        let mut whole = note_text(alloc, path, first, file.number)?;
        whole.extend_from_slice(file.text.as_slice())?;
        self.text.extend_from_slice(&whole)?;
        self.line.clear();
        self.is_in_block = file.is_in_block;
        self.number = file.number;
        self.own_number = self.own_number.saturating_add(1);
        Ok(())
    }
}

// A line of a script.
#[derive(Clone, Copy)]
struct IncludingLine<'a> {
    script: &'a str,
    number: usize,
}

impl IncludingLine<'_> {
    ghost use Rattle.std.specs.Prelude.{◌&&◌, ◌⊎◌, ◌<◌, IfErr};
    ghost use Rattle.debug_program.specs.Including.{NamesNoFile, is_path, path_beside};
    ghost use Rattle.debug_program.specs.declared.including.IncludeRefusal.TheVariants.{Memory};

    // The path of the file that the line names, where files may include one another so many deep.
    fn path_of(&self, alloc: Global, depth: usize, wanted: &[u8]) -> Result<String, IncludeRefusal>
        ensures one { OnOk result ((is_path wanted.now ≡ true) × (0 < depth)) }
        ensures path { IfOk result (λ path. string_bytes path ≡ path_beside self.now.script.now wanted.now) }
        ensures refused { IfErr result (λ refusal. (refusal ≡ Memory) ⊎ NamesNoFile depth wanted.now) }
    {
        if wanted.is_empty() || wanted.contains(&b' ') {
            return Err(self.refused_line(alloc, NO_FILE));
        }
        let Ok(path) = str::from_utf8(wanted) else {
            return Err(self.refused_line(alloc, "a path is text in UTF-8"));
        };
        let path = path_beside(alloc, self.script, path)?;
        if depth == 0 {
            return Err(self.refused(alloc, path.as_str(), TOO_DEEP));
        }
        Ok(path)
    }

    fn text_at<D: ScriptFiles>(
        &self,
        alloc: Global,
        files: &D,
        path: &str,
    ) -> Result<Vec<u8>, IncludeRefusal>
        ensures text { IfOk result (λ t. IfSome (D.text_of files.now path.now) (λ known. t.items ≡ known)) }
        ensures refused { OnErr result (D.is_refused files.now path.now) }
    {
        match files.read_text(alloc, path) {
            Ok(text) => Ok(text),
            Err(FileFault::Memory) => Err(IncludeRefusal::Memory),
            Err(FileFault::Reason(reason)) => Err(self.refused(alloc, path, reason.as_str())),
        }
    }

    // The file of that path isn't included.
    fn refused(&self, alloc: Global, path: &str, reason: &str) -> IncludeRefusal {
        match format!(in alloc; "INCLUDE {path:?}: {reason}") {
            Ok(reason) => self.refused_line(alloc, reason.as_str()),
            Err(_) => IncludeRefusal::Memory,
        }
    }

    fn refused_line(&self, alloc: Global, reason: &str) -> IncludeRefusal {
        let number = self.number;
        let text = match self.script {
            "" => format!(in alloc; "standard input line {number}: {reason}"),
            script => format!(in alloc; "{script:?} line {number}: {reason}"),
        };
        match text {
            Ok(text) => IncludeRefusal::Line(text),
            Err(_) => IncludeRefusal::Memory,
        }
    }
}
