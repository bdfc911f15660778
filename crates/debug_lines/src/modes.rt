//! What a line asks for that changes how later lines are answered.

ghost use Rattle.std.specs.Prelude.{◌≡◌, option_map};
ghost use Rattle.command_shell_lines.specs.Operands.{origin_of};
ghost use Rattle.debug_lines.specs.ModeRequests.{mode_of_two, mode_request_of, stub_request, is_on_word};

use crate::few_words::has_letters;
use command_shell_lines::WordAddress;
use command_shell_lines::debug_words::{Stub, stub_of_line, swi_shown};
use profile::memory_map::ADDRESS_LIMIT;

/// What a line asks for that changes how later lines are answered.
#[derive(Drop)]
pub enum ModeCommand {
    /// `TRACE ON` or `TRACE OFF`.
    Trace(bool),
    /// `TRACE LIMIT n`.
    TraceLimit(u32),
    /// `STUB n ..`: what a SWI does that the machine doesn't have.
    Stub(Stub),
    /// `UNSTUB n`.
    Unstub(u32),
    /// `WATCH a`, with a multiple of 4 below 2^26.
    Watch(WordAddress),
    /// `UNWATCH a`.
    Unwatch(WordAddress),
    /// `COUNT ON` or `COUNT OFF`.
    Count(bool),
}

/// What a line of two words asks for, where it changes a mode.
pub(crate) fn mode_of_two(word: &[u8], other: &[u8]) -> Option<ModeCommand>
    ensures { option_map mode_request_of result ≡ mode_of_two word.now other.now }
{
    if has_letters(word, b"UNSTUB") {
        Some(ModeCommand::Unstub(swi_shown(other)?))
    } else if has_letters(word, b"WATCH") {
        Some(ModeCommand::Watch(watch_address(other)?))
    } else if has_letters(word, b"UNWATCH") {
        Some(ModeCommand::Unwatch(watch_address(other)?))
    } else if has_letters(word, b"COUNT") {
        Some(ModeCommand::Count(is_on_word(other)?))
    } else {
        None
    }
}

// What a word ON or OFF stands for.
fn is_on_word(word: &[u8]) -> Option<bool>
    ensures { result ≡ is_on_word word.now }
{
    if has_letters(word, b"ON") {
        Some(true)
    } else if has_letters(word, b"OFF") {
        Some(false)
    } else {
        None
    }
}

// The address of a word that can be watched: a multiple of 4 below 2^26.
fn watch_address(word: &[u8]) -> Option<WordAddress>
    ensures { result ≡ origin_of word.now }
{
    let address = WordAddress::spelled(word)?;
    if address.address() < ADDRESS_LIMIT {
        Some(address)
    } else {
        None
    }
}

/// The stub that a line asks for, by what stands behind the word STUB.
pub(crate) fn stub_command(text: &[u8]) -> Option<ModeCommand>
    ensures { option_map mode_request_of result ≡ stub_request text.now }
{
    Some(ModeCommand::Stub(stub_of_line(text)?))
}
