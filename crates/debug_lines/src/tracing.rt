//! What a line asks for behind the word TRACE, and without it.

ghost use Rattle.std.specs.Prelude.{◌≡◌, option_map};
ghost use Rattle.command_shell_lines.specs.Requests.{words};
ghost use Rattle.debug_lines.specs.DebugRequests.{debug_request_of_command, simple_request, trace_of_two, trace_of_word, trace_of_words, trace_request, traced_request};

use crate::few_words::{FewWords, few_words, has_letters};
use crate::modes::ModeCommand;
use crate::requests::{DebugCommand, untraced_command};
use crate::stepping::{SteppingCommand, stepping_in};
use command_shell_lines::debug_words::text_behind;
use command_shell_lines::{count_up_to, number_of};

/// The most of a run's last steps that a line shows.
const MAX_LAST_STEPS: u32 = 64;

/// What a tidy line asks for that is no REPEAT.
#[tactic(auto, unfolding(crate::specs::DebugRequests::simple_request))]
pub fn simple_command(tidied: &[u8]) -> DebugCommand<'_>
    ensures { debug_request_of_command result ≡ simple_request tidied.now }
{
    match text_behind(b"TRACE ", tidied) {
        Some(text) => trace_command(text),
        None => untraced_command(tidied),
    }
}

// What a line asks for by what stands behind the word TRACE.
fn trace_command(text: &[u8]) -> DebugCommand<'_>
    ensures { debug_request_of_command result ≡ trace_request text.now }
{
    match own_trace(text) {
        Some(command) => command,
        None => traced(untraced_command(text)),
    }
}

// What TRACE asks for without another line behind it.
fn own_trace(text: &[u8]) -> Option<DebugCommand<'static>>
    ensures { option_map debug_request_of_command result ≡ trace_of_words (words text.now) }
{
    match few_words(text) {
        FewWords::One(word) => trace_of_word(word),
        FewWords::Two(word, count) => trace_of_two(word, count),
        _ => None,
    }
}

fn trace_of_word(word: &[u8]) -> Option<DebugCommand<'static>>
    ensures { option_map debug_request_of_command result ≡ trace_of_word word.now }
{
    if has_letters(word, b"ON") {
        Some(DebugCommand::Mode(ModeCommand::Trace(true)))
    } else if has_letters(word, b"OFF") {
        Some(DebugCommand::Mode(ModeCommand::Trace(false)))
    } else {
        let count = number_of(word)?;
        Some(DebugCommand::Stepping(true, SteppingCommand::Step(count)))
    }
}

fn trace_of_two(word: &[u8], count: &[u8]) -> Option<DebugCommand<'static>>
    ensures { option_map debug_request_of_command result ≡ trace_of_two word.now count.now }
{
    if has_letters(word, b"LIMIT") {
        let limit = number_of(count)?;
        Some(DebugCommand::Mode(ModeCommand::TraceLimit(limit)))
    } else if has_letters(word, b"LAST") {
        let count = count_up_to(MAX_LAST_STEPS, count)?;
        Some(DebugCommand::Stepping(true, SteppingCommand::RunLast(count)))
    } else {
        None
    }
}

// What a line asks for with TRACE before it: its steps are shown, if it takes any.
fn traced(command: DebugCommand<'_>) -> DebugCommand<'_>
    ensures { debug_request_of_command result ≡ traced_request (debug_request_of_command command.entry) }
{
    match command {
        DebugCommand::Stepping(_, steps) => DebugCommand::Stepping(true, steps),
        DebugCommand::Script(line) => match stepping_in(&line) {
            Some(steps) => DebugCommand::Stepping(true, steps),
            None if line.opens_block() => DebugCommand::Unknown,
            None => DebugCommand::Script(line),
        },
        DebugCommand::Remark => DebugCommand::Unknown,
        other => other,
    }
}
