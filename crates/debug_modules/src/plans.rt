//! What a line COMMAND is to do, before anything is done.

ghost use Rattle.std.specs.Prelude.{◌≡◌, ◌≤◌, length, IfOk};
ghost use Rattle.address_map.specs.Memory.{bytes_of};
ghost use Rattle.debug_modes.specs.Answers.{refused_text};
ghost use Rattle.debug_modes.specs.GuestState.{state_of};
ghost use Rattle.debug_modules.specs.Plans.{command_plan, found_plan, command_plan_of, tail_bytes};

use crate::entering::ModuleEntry;
use address_map::AddressMap;
use debug_history::Machine;
use debug_listing::{
    CommandSearch, FoundCommand, code_place, command_found, syntax_line, text_of_image, word_count,
};
use debug_modes::refused_line;
use std::alloc::{AllocError, Global};

/// Where the tail of a command stands: behind the private words of the modules, in pages of the system.
pub(crate) const TAIL: u32 = 0x01C0_2300;

/// A tail has so many bytes at most, without the one that ends it.
const MOST_TAIL: usize = 255;

/// What ends a tail.
const TAIL_END: u8 = 13;

/// What a line is to do that enters a command.
#[derive(Drop)]
pub(crate) enum CommandPlan {
    /// Nothing: that is why.
    Refused(Vec<u8>),
    /// To enter code.
    Ready(ModuleEntry),
}

/// What a line COMMAND is to do.
///
/// # Errors
///
/// Memory ran out.
pub(crate) fn command_plan(
    alloc: Global,
    machine: &Machine,
    name: &[u8],
    tail: &[u8],
) -> Result<CommandPlan, AllocError>
    ensures { IfOk result (λ plan. command_plan_of plan
        ≡ command_plan (state_of machine.now.guest) name.now tail.now) }
{
    if machine.stop().is_some() {
        return refused(alloc, b"Halted");
    }
    if tail.len() > MOST_TAIL {
        return refused(alloc, b"TailTooLong");
    }
    match command_found(alloc, machine.memory(), machine.instances(), name)? {
        Some(CommandSearch::Found(found)) => found_plan(alloc, machine.memory(), &found, tail),
        Some(CommandSearch::Outside) => refused(alloc, b"BadTable"),
        None => refused(alloc, b"NoCommand"),
    }
}

fn refused(alloc: Global, reason: &[u8]) -> Result<CommandPlan, AllocError>
    ensures { IfOk result (λ plan. command_plan_of plan ≡ Err (refused_text reason.now)) }
{
    Ok(CommandPlan::Refused(refused_line(alloc, reason)?))
}

// The same of a command that was found.
fn found_plan(
    alloc: Global,
    memory: &AddressMap,
    found: &FoundCommand,
    tail: &[u8],
) -> Result<CommandPlan, AllocError>
    requires { length tail.now ≤ 255 }
    ensures { IfOk result (λ plan. command_plan_of plan
        ≡ found_plan (bytes_of memory.now) found.now tail.now) }
{
    let count = word_count(tail);
    let least = found.entry.limits % 256;
    let most = found.entry.limits / 65536 % 256;
    if count < least || count > most {
        let text = text_of_image(memory, found.image, found.len, found.entry.syntax);
        return Ok(CommandPlan::Refused(syntax_line(alloc, text.as_slice())?));
    }
    match code_place(found.image, found.len, found.entry.code) {
        Some(code) => Ok(CommandPlan::Ready(ModuleEntry {
            code,
            r0: TAIL,
            r1: count,
            r12: found.word,
        })),
        None => refused(alloc, b"BadTable"),
    }
}

/// A tail with what ends it.
///
/// # Errors
///
/// Memory ran out.
pub(crate) fn tail_bytes(alloc: Global, tail: &[u8]) -> Result<Vec<u8>, AllocError>
    ensures { IfOk result (λ bytes. bytes.items ≡ tail_bytes tail.now) }
{
    let mut bytes = Vec::from_slice(alloc, tail)?;
    bytes.push(TAIL_END)?;
    Ok(bytes)
}
