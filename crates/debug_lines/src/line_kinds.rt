//! What a line of a script is: whether it asks for nothing, takes steps, or opens a block that is refused.

ghost use Rattle.std.specs.Prelude.{◌≡◌, ◌&&◌, ◌||◌, not};
ghost use Rattle.command_shell_lines.specs.Requests.{opens_block, request_of_command};
ghost use Rattle.debug_lines.specs.LineKinds.{asks_nothing, is_named_image, takes_steps};

use command_shell_lines::ScriptCommand;
use profile::images::Images;

/// Whether a line asks for nothing.
pub fn asks_nothing(command: &ScriptCommand) -> bool
    ensures { result ≡ asks_nothing (request_of_command command.now) }
{
    matches!(command, ScriptCommand::Nothing)
}

/// Whether a line takes steps.
pub fn takes_steps(command: &ScriptCommand) -> bool
    ensures { result ≡ takes_steps (request_of_command command.now) }
{
    matches!(
        command,
        ScriptCommand::Run
            | ScriptCommand::Step(_)
            | ScriptCommand::Call(_)
            | ScriptCommand::Load(_)
    )
}

/// Whether a line opens a block that is refused, by whether its image was there before.
pub fn is_refused_block(was_there: bool, images: &Images, command: &ScriptCommand) -> bool
    ensures { result ≡ (opens_block (request_of_command command.now)
        && (was_there || not (is_named_image images.now (request_of_command command.now)))) }
{
    command.opens_block() && (was_there || !is_named_image(images, command))
}

/// Whether the image of a line that opens a block is there.
pub fn is_named_image(images: &Images, command: &ScriptCommand) -> bool
    ensures { result ≡ is_named_image images.now (request_of_command command.now) }
{
    match *command {
        ScriptCommand::Hex(name) | ScriptCommand::Asm(name, _) => images.get(name).is_some(),
        _ => false,
    }
}
