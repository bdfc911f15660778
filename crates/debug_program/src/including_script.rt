//! A source that gives a script with the lines of the files that it includes.

ghost use Rattle.std.specs.Prelude.{◌≡◌, true, IfErr, OnErr, OnOk};

use crate::including::{DEPTH, FileFault, GivenText, IncludeRefusal, ScriptFiles};
use crate::whole_lines::WholeLines;
use debug_session::{DebugSession, RunError};
use profile::images::Images;
use profile::memory_map::MOST_BYTES;
use profile::{ReadFault, Source};
use std::alloc::Global;

// Why a script with a line SAVE isn't read whole before its first line is answered.
const NOT_SAVED: &str = "SAVE isn't read with --transcript and --json";

// The most bytes that are read at once.
const PIECE: usize = 4096;

/// A script with the lines of the files that it includes.
#[derive(Drop)]
pub struct IncludingScript<'a, D, S> {
    alloc: Global,
    files: &'a D,
    // The path of the script's file, from whose folder paths count; none of standard input.
    script: &'a str,
    inner: S,
    // What was read last, and how many bytes of it were taken.
    piece: [u8; PIECE],
    length: usize,
    taken: usize,
    // What is given, of which so many bytes were pulled.
    given: GivenText,
    pulled: usize,
    // A person is shown what can't be included, and types on.
    is_terminal: bool,
    refusal: Option<IncludeRefusal>,
}

impl<'a, D: ScriptFiles, S: Source> IncludingScript<'a, D, S> {
    ghost use Rattle.std.specs.Prelude.{◌≤◌, true, is_some, vec_len, [], IfOk, OnOk, OnErr};
    ghost use Rattle.debug_program.specs.Including.{PlainTextStays, file_given, given_none, script_left};
    ghost use Rattle.debug_program.specs.GoingOn.{known_unless};
    ghost use Rattle.debug_program.specs.IncludingScript.{IsAllGiven, IsStillLeft, given_left};

    /// What a source gives from here on: the script of that path, or of none, which a person may type.
    pub fn new(
        alloc: Global,
        files: &'a D,
        script: &'a str,
        inner: S,
        is_terminal: bool,
    ) -> IncludingScript<'a, D, S>
        ensures { given_left D.text_of S.remaining result ≡ known_unless is_terminal
            (script_left (file_given (D.text_of files.now) 8) script.now 0 (given_none 0) []
            (S.remaining inner)) }
    {
        IncludingScript {
            alloc,
            files,
            script,
            inner,
            piece: [0; PIECE],
            length: 0,
            taken: 0,
            given: GivenText::new(alloc, 0),
            pulled: 0,
            is_terminal,
            refusal: None,
        }
    }

    /// A script without lines INCLUDE gives its own text: where all of it is known though no file's bytes
    /// are, these are its bytes.
    pub fn plain_text_stays()
        ensures { PlainTextStays }
    {}

    /// Why it can't be read on, where it can't.
    pub fn take_refusal(&mut self) -> Option<IncludeRefusal> {
        self.refusal.take()
    }

    // Reads on: gives lines, if any, or keeps why not; and whether it is at the end.
    fn read_on(&mut self) -> Result<bool, ReadFault>
        requires { vec_len self.old.given.text ≤ self.old.pulled }
        ensures kept { IsStillLeft D.text_of S.remaining self.old self.new }
        ensures end { IfOk result (λ is_end. is_end ≡ true → IsAllGiven D.text_of S.remaining self.new) }
        ensures refusal { OnOk result (self.new.refusal ≡ self.old.refusal) }
        ensures refused { OnErr result (is_some self.new.refusal ≡ true) }
    {
        self.given.text.clear();
        self.pulled = 0;
        match self.take_lines() {
            Ok(is_end) => Ok(is_end),
            Err(IncludeRefusal::Line(_)) if !self.given.text.is_empty() => Ok(false),
            Err(IncludeRefusal::Line(message)) if self.is_terminal => {
                self.files.show(message.as_str());
                self.given.line.clear();
                Ok(false)
            }
            Err(refusal) => {
                self.refusal = Some(refusal);
                Err(ReadFault)
            }
        }
    }

    // Takes what was read byte by byte, as far as there is room for it, and where a line INCLUDE ends there
    // its file, or reads more; and answers whether it is at the end.
    fn take_lines(&mut self) -> Result<bool, IncludeRefusal>
        requires { self.old.pulled ≡ 0 }
        ensures kept { IsStillLeft D.text_of S.remaining self.old self.new }
        ensures end { IfOk result (λ is_end. is_end ≡ true → IsAllGiven D.text_of S.remaining self.new) }
        ensures same { (self.new.refusal ≡ self.old.refusal) × (self.new.is_terminal ≡ self.old.is_terminal) }
    {
        if self.taken >= self.length {
            return self.read_piece();
        }
        while self.taken < self.length
            && self.given.text.len() < PIECE
            && self.given.save.is_none()
        {
            let Some(byte) = self.piece.get(self.taken) else {
                return Err(IncludeRefusal::ReadFault);
            };
            let wanted = self.given.take_byte(self.alloc, *byte)?;
            self.given
                .include(self.alloc, self.files, self.script, DEPTH, wanted)?;
            self.taken += 1;
        }
        Ok(false)
    }

    // Reads the next piece, or takes the last line where there is none.
    fn read_piece(&mut self) -> Result<bool, IncludeRefusal>
        requires read { self.old.length ≤ self.old.taken }
        requires none { self.old.pulled ≡ 0 }
        ensures kept { IsStillLeft D.text_of S.remaining self.old self.new }
        ensures end { IfOk result (λ is_end. is_end ≡ true → IsAllGiven D.text_of S.remaining self.new) }
        ensures same { (self.new.refusal ≡ self.old.refusal) × (self.new.is_terminal ≡ self.old.is_terminal) }
    {
        if self.given.line.len() > MOST_BYTES {
            return Err(IncludeRefusal::TooLong);
        }
        let Ok(count) = self.inner.pull(&mut self.piece) else {
            return Err(IncludeRefusal::ReadFault);
        };
        self.taken = 0;
        self.length = count;
        if count > 0 {
            return Ok(false);
        }
        let wanted = self.given.take_last(self.alloc, b"")?;
        self.given
            .include(self.alloc, self.files, self.script, DEPTH, wanted)?;
        Ok(self.given.text.is_empty())
    }
}

impl<D: ScriptFiles, S: Source> Source for IncludingScript<'_, D, S> {
    ghost use Rattle.std.specs.Prelude.{is_some};
    ghost use Rattle.debug_program.specs.IncludingScript.{given_left};

    ghost remaining = { λ r. given_left D.text_of S.remaining r };

    ghost has_failed = { λ r. is_some r.refusal };

    fn pull(&mut self, buffer: &mut [u8]) -> Result<usize, ReadFault> {
        if self.refusal.is_some() {
            return Err(ReadFault);
        }
        for _pulls in 0..u64::MAX {
            if self.pulled < self.given.text.len() {
                let left = &self.given.text[self.pulled..];
                let count = left.len().min(buffer.len());
                buffer[..count].copy_from_slice(&left[..count]);
                self.pulled += count;
                return Ok(count);
            }
            if self.given.save.is_some() {
                self.refusal = Some(self.given.refused_save(self.alloc, self.script, NOT_SAVED));
                return Err(ReadFault);
            }
            let Ok(is_end) = self.read_on() else {
                return Err(ReadFault);
            };
            if is_end {
                return Ok(0);
            }
        }
        self.refusal = Some(IncludeRefusal::TooLong);
        Err(ReadFault)
    }
}

/// A source of a script that may ask for files to be written.
pub trait SavingSource: Source {
    /// Writes the file that the line asks for that was the last to be pulled, if it asks for one, as a session
    /// and its images stand behind that line. What was pulled is to be answered before.
    ///
    /// # Errors
    ///
    /// `ReadFault` where it can't be written, and nothing can be pulled any more.
    fn save_here(&mut self, session: &DebugSession, images: &Images) -> Result<(), RunError>
        ensures kept { Self.remaining self.new ≡ Self.remaining self.old }
        ensures errors { IfErr result (λ error. error ≡ RunError.ReadFault) }
        ensures failed { OnErr result (Self.has_failed self.new ≡ true) }
        ensures same_flag { OnOk result (Self.has_failed self.new ≡ Self.has_failed self.old) };
}

impl<D: ScriptFiles, S: Source> SavingSource for IncludingScript<'_, D, S> {
    fn save_here(&mut self, session: &DebugSession, images: &Images) -> Result<(), RunError> {
        if self.pulled < self.given.text.len() || session.has_quit() {
            return Ok(());
        }
        let Some(words) = self.given.save.take() else {
            return Ok(());
        };
        let (alloc, files, script) = (self.alloc, self.files, self.script);
        let refusal = match files.write_saved(alloc, session, images, script, &words) {
            Ok(line) => {
                files.show(line.as_str());
                return Ok(());
            }
            Err(FileFault::Memory) => IncludeRefusal::Memory,
            Err(FileFault::Reason(reason)) => self.given.refused_save(alloc, script, &reason),
        };
        match refusal {
            IncludeRefusal::Line(line) if self.is_terminal => {
                files.show(line.as_str());
                Ok(())
            }
            refusal => {
                self.refusal = Some(refusal);
                Err(RunError::ReadFault)
            }
        }
    }
}

impl<S: SavingSource> SavingSource for WholeLines<'_, S> {
    fn save_here(&mut self, session: &DebugSession, images: &Images) -> Result<(), RunError> {
        self.inner.save_here(session, images)
    }
}
