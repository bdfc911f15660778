//! The commands of loaded modules as a text.

ghost use Rattle.std.specs.Prelude.{◌≡◌, ◌++◌, map, OnOk, IfOk, slice_get};
ghost use Rattle.std.specs.List.{flat_map};
ghost use Rattle.address_map.specs.Memory.{bytes_of};
ghost use Rattle.debug_tables.specs.GuestState.{state_of};
ghost use Rattle.debug_listing.specs.Listing.{command_line, commands_numbered, commands_text, commands_text_of, table_end_text, table_lines, text_shown_at, command_use_text, command_words_text};
ghost use Rattle.debug_listing.specs.ImageParts.{shown_character};

use crate::image_parts::{push_shown, push_texts};
use crate::tables::{CommandEntry, commands_of};
use address_map::AddressMap;
use debug_labels::{Instances, MAX_TEXT, ModuleInfo, TextEnd, text_at};
use debug_tables::Machine;
use itoa::Buffer;
use std::alloc::{AllocError, Global};

/// The commands of all modules, the oldest first.
///
/// # Errors
///
/// Memory ran out.
#[tactic(auto, using(crate::proofs::ListingLemmas::module_steps))]
pub fn commands_text(alloc: Global, machine: &Machine) -> Result<Vec<u8>, AllocError>
    ensures { IfOk result (λ text. text.items ≡ commands_text (state_of machine.now.guest)) }
{
    let memory = machine.memory();
    let modules = machine.instances();
    let mut text = Vec::new(alloc);
    for number in 0..modules.count() {
        push_numbered(alloc, memory, modules, number, &mut text)?;
    }
    if text.is_empty() {
        return Vec::from_slice(alloc, b"no commands\n");
    }
    Ok(text)
}

// Those of the module of a number.
fn push_numbered(
    alloc: Global,
    memory: &AddressMap,
    modules: &Instances,
    number: u32,
    text: &mut Vec<u8>,
) -> Result<(), AllocError>
    ensures { OnOk result (text.new.items ≡ text.old.items
        ++ commands_numbered (bytes_of memory.now) (slice_get modules.now number)) }
{
    match modules.module(number) {
        Some(module) => push_commands(alloc, memory, &module, text),
        None => Ok(()),
    }
}

// Those of a module, if it has any.
fn push_commands(
    alloc: Global,
    memory: &AddressMap,
    module: &ModuleInfo,
    text: &mut Vec<u8>,
) -> Result<(), AllocError>
    ensures { OnOk result (text.new.items
        ≡ text.old.items ++ commands_text_of (bytes_of memory.now) module.now) }
{
    let table = commands_of(alloc, memory, module)?;
    let entries = table.entries.as_slice();
    match entries {
        [] if table.is_whole => Ok(()),
        _ => push_table(
            memory,
            module.title.as_slice(),
            entries,
            table.is_whole,
            text,
        ),
    }
}

// The entries of a table, below its module's title.
fn push_table(
    memory: &AddressMap,
    title: &[u8],
    entries: &[CommandEntry],
    is_whole: bool,
    text: &mut Vec<u8>,
) -> Result<(), AllocError>
    ensures { OnOk result (text.new.items ≡ text.old.items
        ++ table_lines (bytes_of memory.now) title.now entries.now is_whole) }
{
    push_shown(text, title)?;
    text.extend_from_slice(b"\n")?;
    push_entries(memory, entries, text)?;
    text.extend_from_slice(table_end_text(is_whole))
}

/// What stands below the entries of a table.
pub(crate) fn table_end_text(is_whole: bool) -> &'static [u8]
    ensures { result.now ≡ table_end_text is_whole }
{
    if is_whole {
        b""
    } else {
        b"  the table leads outside its image\n"
    }
}

/// A line for each entry.
///
/// # Errors
///
/// Memory ran out.
#[tactic(auto, using(crate::proofs::ListingLemmas::next_entry))]
pub(crate) fn push_entries(
    memory: &AddressMap,
    entries: &[CommandEntry],
    text: &mut Vec<u8>,
) -> Result<(), AllocError>
    ensures { OnOk result (text.new.items
        ≡ text.old.items ++ flat_map (command_line (bytes_of memory.now)) entries.now) }
{
    for entry in entries {
        push_entry(memory, *entry, text)?;
    }
    Ok(())
}

// `  PotSet 2 to 2 words`
fn push_entry(
    memory: &AddressMap,
    entry: CommandEntry,
    text: &mut Vec<u8>,
) -> Result<(), AllocError>
    ensures { OnOk result (text.new.items ≡ text.old.items ++ command_line (bytes_of memory.now) entry) }
{
    text.extend_from_slice(b"  ")?;
    push_text_at(memory, entry.name, text)?;
    text.extend_from_slice(b" ")?;
    push_use(entry, text)?;
    text.extend_from_slice(b"\n")
}

// The text at an address, up to a zero byte, as characters.
fn push_text_at(memory: &AddressMap, at: u32, text: &mut Vec<u8>) -> Result<(), AllocError>
    ensures { OnOk result (text.new.items ≡ text.old.items ++ text_shown_at (bytes_of memory.now) at) }
{
    match text_at::<MAX_TEXT>(memory, at, TextEnd::Zero) {
        Some(found) => push_shown(text, found.as_slice()),
        None => Ok(()),
    }
}

// Who can use an entry, and how.
fn push_use(entry: CommandEntry, text: &mut Vec<u8>) -> Result<(), AllocError>
    ensures { OnOk result (text.new.items ≡ text.old.items ++ command_use_text entry) }
{
    if entry.code == 0 {
        text.extend_from_slice(b"has help only")
    } else if entry.limits >= 0x8000_0000 {
        text.extend_from_slice(b"of a filing system")
    } else if entry.limits >= 0x4000_0000 {
        text.extend_from_slice(b"for Configure and Status")
    } else {
        push_words(entry.limits, text)
    }
}

// `2 to 2 words`
fn push_words(limits: u32, text: &mut Vec<u8>) -> Result<(), AllocError>
    ensures { OnOk result (text.new.items ≡ text.old.items ++ command_words_text limits) }
{
    let (mut least, mut most) = (Buffer::new(), Buffer::new());
    let least = least.format(limits % 256).as_bytes();
    let most = most.format(limits / 65536 % 256).as_bytes();
    push_texts(
        text,
        &[least, b" to ".as_slice(), most, b" words".as_slice()],
    )
}
