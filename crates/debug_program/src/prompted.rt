//! What is typed at a prompt: an empty line takes the steps of the line before it again.

ghost use Rattle.std.specs.Prelude.{◌≡◌};
ghost use Rattle.debug_lines.specs.DebugRequests.{debug_request_of_command, simple_request};
ghost use Rattle.debug_program.specs.GoingOn.{is_step_request};

use command_shell_lines::ScriptCommand;
use debug_lines::{DebugCommand, SteppingCommand, simple_command};
use profile::text_lines::cut;
use profile::{ReadFault, Source};

// The most bytes of a line that is typed again.
const LONGEST: usize = 64;

/// What is typed: at a terminal, which gives it line by line, an empty line behind a line STEP stands
/// for that line. What comes from elsewhere is given as it is.
#[derive(Drop)]
pub struct PromptedLines<S> {
    inner: S,
    is_terminal: bool,
    // The line STEP that was typed last, with its end.
    again: [u8; LONGEST],
    // How many bytes it has; none where something else was typed behind it.
    length: usize,
}

impl<S: Source> PromptedLines<S> {
    /// What a source gives from here on, which may be a terminal.
    pub fn new(inner: S, is_terminal: bool) -> PromptedLines<S>
        ensures inner { result.inner ≡ inner }
        ensures terminal { result.is_terminal ≡ is_terminal }
    {
        PromptedLines {
            inner,
            is_terminal,
            again: [0; LONGEST],
            length: 0,
        }
    }

    // Keeps a line, where it may be typed again: a tidy one with its end that asks for steps by their number.
    fn keep(&mut self, line: &[u8])
        ensures inner { self.new.inner ≡ self.old.inner }
        ensures terminal { self.new.is_terminal ≡ self.old.is_terminal }
    {
        self.length = 0;
        let (tidy, Some([])) = cut(line, b'\n') else {
            return;
        };
        if !is_step(tidy) {
            return;
        }
        if let Some(room) = self.again.get_mut(..line.len()) {
            room.copy_from_slice(line);
            self.length = line.len();
        }
    }
}

impl<S: Source> Source for PromptedLines<S> {
    ghost use Rattle.debug_program.specs.GoingOn.{known_unless};

    // What a terminal gives isn't known before it is typed.
    ghost remaining = { λ p. known_unless p.is_terminal (S.remaining p.inner) };

    ghost has_failed = { λ p. S.has_failed p.inner };

    fn pull(&mut self, buffer: &mut [u8]) -> Result<usize, ReadFault> {
        let count = self.inner.pull(buffer)?;
        if !self.is_terminal {
            return Ok(count);
        }
        if count != 1 || buffer[0] != b'\n' {
            self.keep(&buffer[..count]);
            return Ok(count);
        }
        // An empty line stands for the line STEP that was typed last, where one was.
        match (self.again.get(..self.length), buffer.get_mut(..self.length)) {
            (Some(line), Some(room)) if self.length > 0 => {
                room.copy_from_slice(line);
                Ok(self.length)
            }
            _ => Ok(count),
        }
    }
}

// Whether a tidy line asks for steps by their number: `STEP n`, or `TRACE STEP n`, or `TRACE n`.
fn is_step(line: &[u8]) -> bool
    ensures { result ≡ is_step_request (simple_request line.now) }
{
    match simple_command(line) {
        DebugCommand::Script(ScriptCommand::Step(_)) => true,
        DebugCommand::Stepping(_, SteppingCommand::Step(_)) => true,
        _ => false,
    }
}
