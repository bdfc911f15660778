//! A debugging script as it is typed: bytes that come in pieces, and each line answered as soon as it
//! is whole.

ghost use Rattle.std.specs.Prelude.{◌≡◌, ◌++◌, ◌+◌, ◌<◌, ◌≤◌, ◌^◌, ◌⊎◌, List, [], Err, IfOk, IfErr, OnOk, drop, length, min};
ghost use Rattle.debug_lines.specs.WholeDebugRequests.{AreWholeDebugRequests};
ghost use Rattle.debug_session.specs.DebugState.{IsDebugTypingError};
ghost use Rattle.debug_session.specs.Error.{IsLineError};
ghost use Rattle.profile.specs.Output.{AddsFront};

use debug_lines::{missing_ends, read_requests};
use debug_session::{DebugSession, DebugSettings, RunError};
use profile::Sink;
use profile::images::Images;
use profile::text_lines::{Lines, cut_line};
use std::alloc::{AllocError, Global};

// The most bytes that may wait for the end of a request, as many as a script may have.
const MOST_BYTES: usize = 1_048_576;

/// A debugging session whose lines are typed.
#[derive(Drop)]
pub struct DebugTyping {
    alloc: Global,
    session: DebugSession,
    // The bytes of a request that isn't whole.
    pending: Vec<u8>,
    // How many lines came before those that wait.
    number: usize,
    ghost numbered: { number + length pending.items < 2 ^ 64 },
}

/// What waits of a session that is typed, and a piece behind it, as they were read.
#[derive(Drop)]
pub struct TypedPiece {
    text: Vec<u8>,
    // How many of its bytes are requests that are whole.
    whole: usize,
    /// The lines at which blocks begin that turn out to lack their END in the piece.
    pub missing_ends: Vec<usize>,
    ghost requests: { AreWholeDebugRequests text.items whole },
}

impl DebugTyping {
    ghost use Rattle.profile.specs.images.Entries.{Entry};
    ghost use Rattle.debug_session.specs.DebugState.{IsDebugged, debug_start_state};
    ghost use Rattle.debug_session.specs.Failing.{ReportsWriteFault};
    ghost use Rattle.debug_session.specs.Session.{debug_state};
    ghost use Rattle.debug_program.specs.Typing.{HasTooLong, IsTaken, IsTakenInPart, missing_ends_at_end, waiting_answer, missing_ends_typed, TypedPieceThenRest, TypedPiecesJoin, TypedTextTakenOneWay};

    /// A session on a fresh machine, before anything is typed.
    ///
    /// # Errors
    ///
    /// Memory ran out.
    pub fn new(alloc: Global, setting: DebugSettings) -> Result<DebugTyping, AllocError>
        ensures state { IfOk result (λ typing. (images : List Entry)
            → debug_state typing.session images ≡ debug_start_state setting images) }
        ensures setting { IfOk result (λ typing. typing.session.setting ≡ setting) }
        ensures pending { IfOk result (λ typing. typing.pending.items ≡ []) }
        ensures number { IfOk result (λ typing. typing.number ≡ 0) }
    {
        Ok(DebugTyping {
            alloc,
            session: DebugSession::new(alloc, setting)?,
            pending: Vec::new(alloc),
            number: 0,
        })
    }

    /// The session, as the requests that were whole left it.
    pub fn session(&self) -> &DebugSession
        ensures { result.now ≡ self.now.session }
    {
        &self.session
    }

    /// Whether a block is open before the next line.
    pub fn is_in_block(&self) -> bool {
        cut_line(self.pending.as_slice()).is_some()
    }

    /// Reads a piece that is typed next, behind what waits.
    ///
    /// # Errors
    ///
    /// Memory ran out.
    pub fn read(&self, piece: &[u8]) -> Result<TypedPiece, AllocError>
        ensures text { IfOk result (λ read. read.text.items ≡ self.now.pending.items ++ piece.now) }
        ensures missing { IfOk result
            (λ read. read.missing_ends.items ≡ missing_ends_typed self.now piece.now) }
    {
        let waiting = self.pending.as_slice();
        let known = missing_ends(self.alloc, waiting, self.number, false)?.len();
        let text = joined(self.alloc, waiting, piece)?;
        let reading = read_requests(self.alloc, text.as_slice(), self.number)?;
        let missing_ends = shown_beyond(self.alloc, known, reading.missing_ends.as_slice())?;
        Ok(TypedPiece {
            whole: reading.whole,
            missing_ends,
            text,
        })
    }

    /// The line at which a block begins that turns out to lack its END where nothing more is typed.
    ///
    /// # Errors
    ///
    /// Memory ran out.
    pub fn missing_ends_at_end(&self) -> Result<Vec<usize>, AllocError>
        ensures { IfOk result (λ begins. begins.items ≡ missing_ends_at_end self.now) }
    {
        let waiting = self.pending.as_slice();
        let known = missing_ends(self.alloc, waiting, self.number, false)?.len();
        let all = missing_ends(self.alloc, waiting, self.number, true)?;
        shown_beyond(self.alloc, known, all.as_slice())
    }

    /// Takes a piece of what is typed, and answers each request that is whole then, one after
    /// another: a line, or a line that opens a block with its block. The rest waits for the next
    /// piece.
    ///
    /// # Errors
    ///
    /// As [`answer`].
    ///
    /// [`answer`]: DebugTyping::answer
    pub fn take<W: Sink>(
        &mut self,
        images: &mut Images,
        sink: &mut W,
        piece: &[u8],
    ) -> Result<(), RunError>
        ensures taken { OnOk result (IsTaken self.old self.new images.old images.new
            (W.contents sink.old) (W.contents sink.new) (self.old.pending.items ++ piece.now)) }
        ensures setting { self.new.session.setting ≡ self.old.session.setting }
        ensures waiting { OnOk result (length self.new.pending.items ≤ 1048576) }
        ensures memory { result ≡ Err RunError.Memory → (sink.new ≡ sink.old) ⊎ IsTakenInPart self.old
            images.old (W.contents sink.old) (W.contents sink.new) (self.old.pending.items ++ piece.now) }
        ensures too_long { result ≡ Err RunError.ScriptTooLong
            → HasTooLong self.old.number (self.old.pending.items ++ piece.now) }
        ensures nothing { result ≡ Err RunError.ScriptTooLong
            → (sink.new ≡ sink.old) × (self.new ≡ self.old) × (images.new ≡ images.old) }
        ensures write_fault { ReportsWriteFault W.has_failed sink.old sink.new result }
        ensures errors { IfErr result IsDebugTypingError }
        ensures same_flag { OnOk result (W.has_failed sink.new ≡ W.has_failed sink.old) }
    {
        let read = self.read(piece)?;
        self.answer(images, sink, &read)
    }

    /// Answers each request that is whole in what was read. The rest waits for the next piece.
    ///
    /// # Errors
    ///
    /// `ScriptTooLong` where what waits would have more than 1,048,576 bytes, and nothing is
    /// answered then; `Memory` and `WriteFault`, when a part of the answers may stand written, and
    /// the session ends there.
    pub fn answer<W: Sink>(
        &mut self,
        images: &mut Images,
        sink: &mut W,
        read: &TypedPiece,
    ) -> Result<(), RunError>
        ensures taken { OnOk result (IsTaken self.old self.new images.old images.new
            (W.contents sink.old) (W.contents sink.new) read.now.text.items) }
        ensures setting { self.new.session.setting ≡ self.old.session.setting }
        ensures waiting { OnOk result (length self.new.pending.items ≤ 1048576) }
        ensures memory { result ≡ Err RunError.Memory → (sink.new ≡ sink.old) ⊎ IsTakenInPart self.old
            images.old (W.contents sink.old) (W.contents sink.new) read.now.text.items }
        ensures too_long { result ≡ Err RunError.ScriptTooLong
            → HasTooLong self.old.number read.now.text.items }
        ensures nothing { result ≡ Err RunError.ScriptTooLong
            → (sink.new ≡ sink.old) × (self.new ≡ self.old) × (images.new ≡ images.old) }
        ensures write_fault { ReportsWriteFault W.has_failed sink.old sink.new result }
        ensures errors { IfErr result IsDebugTypingError }
        ensures same_flag { OnOk result (W.has_failed sink.new ≡ W.has_failed sink.old) }
    {
        let all = read.text.as_slice();
        let (requests, waiting) = all.split_at(read.whole);
        if waiting.len() > MOST_BYTES {
            return Err(RunError::ScriptTooLong);
        }
        if self.number > usize::MAX - all.len() {
            return Err(RunError::ScriptTooLong);
        }
        let waiting = Vec::from_slice(self.alloc, waiting)?;
        let mut lines = Lines::after(requests, self.number);
        self.session.answer_lines(images, sink, &mut lines)?;
        self.number = lines.number() + lines.count();
        self.pending = waiting;
        Ok(())
    }

    /// Nothing more is typed: answers what waits, a line without its end or a block without its
    /// last line, and gives the session back.
    ///
    /// # Errors
    ///
    /// `Memory` and `WriteFault`, when a part of the answer may stand written.
    pub fn end<W: Sink>(
        mut self,
        images: &mut Images,
        sink: &mut W,
    ) -> Result<DebugSession, RunError>
        ensures reported { IfOk result (λ session. IsDebugged (W.contents sink.old) (W.contents sink.new)
            (debug_state session images.new) (waiting_answer self images.old)) }
        ensures setting { IfOk result (λ session. session.setting ≡ self.session.setting) }
        ensures memory { result ≡ Err RunError.Memory → AddsFront (W.contents sink.old) (W.contents sink.new)
            (waiting_answer self images.old).text }
        ensures write_fault { ReportsWriteFault W.has_failed sink.old sink.new result }
        ensures errors { IfErr result IsLineError }
        ensures same_flag { OnOk result (W.has_failed sink.new ≡ W.has_failed sink.old) }
    {
        match self.answer_waiting(images, sink) {
            Ok(()) => Ok(self.session),
            Err(error) => Err(error),
        }
    }

    // Answers what waits, as `end` does, and keeps the session.
    pub(crate) fn answer_waiting<W: Sink>(
        &mut self,
        images: &mut Images,
        sink: &mut W,
    ) -> Result<(), RunError>
        ensures reported { OnOk result (IsDebugged (W.contents sink.old) (W.contents sink.new)
            (debug_state self.new.session images.new) (waiting_answer self.old images.old)) }
        ensures setting { self.new.session.setting ≡ self.old.session.setting }
        ensures memory { result ≡ Err RunError.Memory → AddsFront (W.contents sink.old) (W.contents sink.new)
            (waiting_answer self.old images.old).text }
        ensures write_fault { ReportsWriteFault W.has_failed sink.old sink.new result }
        ensures errors { IfErr result IsLineError }
        ensures same_flag { OnOk result (W.has_failed sink.new ≡ W.has_failed sink.old) }
    {
        let mut lines = Lines::after(self.pending.as_slice(), self.number);
        self.session.answer_lines(images, sink, &mut lines)
    }

    /// What is typed in two pieces is taken as the two in one are.
    pub fn pieces_join()
        ensures { TypedPiecesJoin }
    {}

    /// What a piece is answered, and then what follows it up to the end, is what all of it is
    /// answered: so all pieces of a script are answered as the whole script.
    pub fn piece_then_rest()
        ensures { TypedPieceThenRest }
    {}

    /// A text is taken in one way: the pieces of a text leave the session where the text in one piece
    /// leaves it, and the same stands written.
    pub fn taken_one_way()
        ensures { TypedTextTakenOneWay }
    {}
}

// Two texts, one behind the other.
pub(crate) fn joined(alloc: Global, front: &[u8], rest: &[u8]) -> Result<Vec<u8>, AllocError>
    ensures { IfOk result (λ all. all.items ≡ front.now ++ rest.now) }
{
    let mut all = Vec::from_slice(alloc, front)?;
    all.extend_from_slice(rest)?;
    Ok(all)
}

// What a longer reading shows beyond a shorter one, which shows so many.
fn shown_beyond(alloc: Global, known: usize, all: &[usize]) -> Result<Vec<usize>, AllocError>
    ensures { IfOk result (λ beyond. beyond.items ≡ drop (min known (length all.now)) all.now) }
{
    Vec::from_slice(alloc, &all[known.min(all.len())..])
}
