//! What a line SET asks for.

ghost use Rattle.std.specs.Prelude.{◌≡◌};
ghost use Rattle.command_shell_lines.specs.Requests.{Set};
ghost use Rattle.debug_lines.specs.DebugRequests.{debug_request_of_command, script_of_two, set_psr_to, set_request};
ghost use Rattle.debug_lines.specs.Registers.{register_of_name};
ghost use Rattle.command_shell_lines.specs.debug_words.Values.{value_shown};

use crate::few_words::has_letters;
use crate::registers::register_of_name;
use crate::requests::DebugCommand;
use crate::status::StatusPattern;
use command_shell_lines::debug_words::value_shown;
use command_shell_lines::{Origin, ScriptCommand};

/// What SET asks for behind its word.
pub(crate) fn set_command(what: &[u8], value: &[u8]) -> DebugCommand<'static>
    ensures { debug_request_of_command result ≡ set_request what.now value.now }
{
    if has_letters(what, b"PC") {
        match Origin::spelled(value) {
            Some(address) => DebugCommand::SetPc(address),
            None => DebugCommand::Unknown,
        }
    } else if has_letters(what, b"PSR") {
        set_psr_command(StatusPattern::of_word(value))
    } else {
        set_register_command(what, value)
    }
}

fn set_register_command(register: &[u8], value: &[u8]) -> DebugCommand<'static>
    ensures { debug_request_of_command result
        ≡ script_of_two (register_of_name register.now) (value_shown value.now) Set }
{
    match (register_of_name(register), value_shown(value)) {
        (Some(register), Some(value)) => {
            DebugCommand::Script(ScriptCommand::Set(register, value))
        }
        _ => DebugCommand::Unknown,
    }
}

/// SET PSR, where its words are a status.
pub(crate) fn set_psr_command(pattern: Option<StatusPattern>) -> DebugCommand<'static>
    ensures { debug_request_of_command result ≡ set_psr_to pattern }
{
    match pattern {
        Some(pattern) => DebugCommand::SetPsr(pattern),
        None => DebugCommand::Unknown,
    }
}
