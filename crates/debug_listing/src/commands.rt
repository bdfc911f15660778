//! Commands of loaded modules by their names.

ghost use Rattle.std.specs.Prelude.{◌≡◌, IfOk, slice_get};
ghost use Rattle.std.specs.Option.{option_and_then};
ghost use Rattle.address_map.specs.Memory.{bytes_of};
ghost use Rattle.instances_table.specs.Lookup.{shown_of_module};
ghost use Rattle.profile.specs.Firsts.{first_of};
ghost use Rattle.debug_listing.specs.Commands.{command_found, command_if, found_in, found_with, is_command, is_command_name};

use crate::tables::{CommandEntry, commands_of};
use address_map::AddressMap;
use debug_labels::{Instances, MAX_TEXT, ModuleInfo, TextEnd, text_at};
use profile::memory_map::PRIVATE_WORDS;
use std::alloc::{AllocError, Global};

/// A command: its entry, its module's image, and the private word of the module's preferred instance.
#[derive(Clone, Copy)]
pub struct FoundCommand {
    pub entry: CommandEntry,
    pub image: u32,
    pub len: u32,
    pub word: u32,
}

/// What the search for a command came to.
#[derive(Clone, Copy)]
pub enum CommandSearch {
    /// A table that leads outside its image.
    Outside,
    /// A command of that name.
    Found(FoundCommand),
}

/// The command of a name, of the oldest module that has one; or a table before it that leads outside its
/// image.
///
/// # Errors
///
/// Memory ran out.
#[tactic(auto, using(debug_labels::proofs::WalkLemmas::first_steps))]
pub fn command_found(
    alloc: Global,
    memory: &AddressMap,
    modules: &Instances,
    name: &[u8],
) -> Result<Option<CommandSearch>, AllocError>
    ensures { IfOk result (λ found. found ≡ command_found (bytes_of memory.now) modules.now name.now) }
{
    for number in 0..modules.count() {
        let found = found_numbered(alloc, memory, modules, name, number)?;
        if found.is_some() {
            return Ok(found);
        }
    }
    Ok(None)
}

// By the module of a number.
fn found_numbered(
    alloc: Global,
    memory: &AddressMap,
    modules: &Instances,
    name: &[u8],
    number: u32,
) -> Result<Option<CommandSearch>, AllocError>
    ensures { IfOk result (λ found. found ≡ option_and_then
        (λ m. found_in (bytes_of memory.now) modules.now name.now (shown_of_module m))
        (slice_get modules.now number)) }
{
    match modules.module(number) {
        Some(module) => found_in(alloc, memory, modules, name, &module),
        None => Ok(None),
    }
}

fn found_in(
    alloc: Global,
    memory: &AddressMap,
    modules: &Instances,
    name: &[u8],
    module: &ModuleInfo,
) -> Result<Option<CommandSearch>, AllocError>
    ensures { IfOk result (λ found. found ≡ found_in (bytes_of memory.now) modules.now name.now module.now) }
{
    let table = commands_of(alloc, memory, module)?;
    match command_named(memory, name, table.entries.as_slice()) {
        Some(entry) => Ok(found_with(modules, module, entry)),
        None if table.is_whole => Ok(None),
        None => Ok(Some(CommandSearch::Outside)),
    }
}

// A command of a module, for its preferred instance.
fn found_with(
    modules: &Instances,
    module: &ModuleInfo,
    entry: CommandEntry,
) -> Option<CommandSearch>
    ensures { result ≡ found_with modules.now module.now entry }
{
    match modules.slot(module.title.as_slice()) {
        Ok(slot) => Some(CommandSearch::Found(FoundCommand {
            entry,
            image: module.image,
            len: module.len,
            word: PRIVATE_WORDS + 4 * slot,
        })),
        Err(_) => None,
    }
}

// The first command of that name.
#[tactic(auto, using(debug_labels::proofs::WalkLemmas::first_steps))]
fn command_named(memory: &AddressMap, name: &[u8], entries: &[CommandEntry]) -> Option<CommandEntry>
    ensures { result ≡ first_of (command_if (bytes_of memory.now) name.now) entries.now }
{
    for entry in entries {
        if is_command(memory, name, *entry) {
            return Some(*entry);
        }
    }
    None
}

fn is_command(memory: &AddressMap, name: &[u8], entry: CommandEntry) -> bool
    ensures { result ≡ is_command (bytes_of memory.now) name.now entry }
{
    entry.code != 0 && entry.limits < 0x4000_0000 && is_command_name(memory, name, entry.name)
}

// Whether a text at an address is a name, in any case of its letters.
fn is_command_name(memory: &AddressMap, name: &[u8], at: u32) -> bool
    ensures { result ≡ is_command_name (bytes_of memory.now) name.now at }
{
    match text_at::<MAX_TEXT>(memory, at, TextEnd::Zero) {
        Some(text) => text.as_slice().eq_ignore_ascii_case(name),
        None => false,
    }
}
