//! What a line asks for that takes steps.

ghost use Rattle.std.specs.Prelude.{◌≡◌, option_map};
ghost use Rattle.command_shell_lines.specs.Requests.{request_of_command};
ghost use Rattle.debug_lines.specs.SteppingRequests.{stepping_in, stepping_request_of};

use command_shell_lines::{Origin, ScriptCommand};

/// What a line asks for that takes steps.
#[derive(Clone, Copy)]
pub enum SteppingCommand<'a> {
    /// `RUN`.
    Run,
    /// `STEP n`.
    Step(u32),
    /// `CALL n`.
    Call(u32),
    /// `LOAD text`.
    Load(&'a [u8]),
    /// `FINISH`.
    Finish,
    /// `GOSUB a`, with a multiple of 4 below 2^26.
    Gosub(Origin),
    /// `TRACE LAST n`: RUN, of which the last steps are shown, 1 to 64 of them.
    RunLast(u32),
}

/// What a line of a script asks for, where it takes steps: RUN, STEP, CALL and LOAD do.
pub fn stepping_in<'a>(command: &ScriptCommand<'a>) -> Option<SteppingCommand<'a>>
    ensures { option_map stepping_request_of result ≡ stepping_in (request_of_command command.now) }
{
    match *command {
        ScriptCommand::Run => Some(SteppingCommand::Run),
        ScriptCommand::Step(count) => Some(SteppingCommand::Step(count)),
        ScriptCommand::Call(number) => Some(SteppingCommand::Call(number)),
        ScriptCommand::Load(text) => Some(SteppingCommand::Load(text)),
        _ => None,
    }
}
