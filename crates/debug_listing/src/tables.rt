//! The command tables of loaded modules.

ghost use Rattle.std.specs.Prelude.{◌≡◌, ◌≤◌, ◌^◌, IfOk};
ghost use Rattle.address_map.specs.Memory.{bytes_of};
ghost use Rattle.debug_listing.specs.Tables.{commands_of, command_entry_at, entry_of_words, header_word, loaded_word, table_from};

use address_map::AddressMap;
use debug_labels::{MAX_TEXT, ModuleInfo, TextEnd, next_word, text_at};
use std::alloc::{AllocError, Global};

// Where the header has the offset of the table.
const TABLE_WORD: u32 = 0x18;

// A table has so many entries at most.
const MOST_ENTRIES: u32 = 256;

/// An entry of a table: where its name is, and its four words.
#[derive(Clone, Copy)]
pub struct CommandEntry {
    pub name: u32,
    pub code: u32,
    pub limits: u32,
    pub syntax: u32,
    pub help: u32,
}

/// The entries of a table, and whether it ends within its image.
#[derive(Drop)]
pub(crate) struct CommandTable {
    pub entries: Vec<CommandEntry>,
    pub is_whole: bool,
}

/// What stands in a table at an address.
#[derive(Clone, Copy)]
pub(crate) enum EntryRead {
    /// The table's end.
    End,
    /// Nothing that is an entry within the image.
    Outside,
    /// An entry, and where the next one begins.
    Entry(CommandEntry, u32),
}

/// A module's commands.
///
/// # Errors
///
/// Memory ran out.
pub(crate) fn commands_of(
    alloc: Global,
    memory: &AddressMap,
    module: &ModuleInfo,
) -> Result<CommandTable, AllocError>
    ensures entries { IfOk result (λ t. t.entries.items
        ≡ (commands_of (bytes_of memory.now) module.now).entries) }
    ensures whole { IfOk result (λ t. t.is_whole ≡ (commands_of (bytes_of memory.now) module.now).is_whole) }
{
    let offset = header_word(memory, module, TABLE_WORD);
    if offset == 0 || offset >= module.len {
        return Ok(CommandTable {
            entries: Vec::new(alloc),
            is_whole: offset == 0,
        });
    }
    let limit = module.image.wrapping_add(module.len);
    table_from(alloc, memory, limit, module.image.wrapping_add(offset))
}

/// A word of a module's header by its place, 0 where the image is too short for it.
pub(crate) fn header_word(memory: &AddressMap, module: &ModuleInfo, place: u32) -> u32
    requires { place ≤ 48 }
    ensures { result ≡ header_word (bytes_of memory.now) module.now place }
{
    if module.len < place + 4 {
        return 0;
    }
    loaded_word(memory, module.image.wrapping_add(place))
}

// The table at an address, of an image that ends at another.
fn table_from(
    alloc: Global,
    memory: &AddressMap,
    limit: u32,
    at: u32,
) -> Result<CommandTable, AllocError>
    ensures entries { IfOk result (λ t. t.entries.items
        ≡ (table_from 256 (bytes_of memory.now) limit at).entries) }
    ensures whole { IfOk result (λ t. t.is_whole ≡ (table_from 256 (bytes_of memory.now) limit at).is_whole) }
{
    let mut entries = Vec::new(alloc);
    let mut place = at;
    for _number in 0..MOST_ENTRIES {
        match command_entry_at(memory, limit, place) {
            EntryRead::Entry(entry, next) => {
                entries.push(entry)?;
                place = next;
            }
            EntryRead::End => {
                return Ok(CommandTable {
                    entries,
                    is_whole: true,
                });
            }
            EntryRead::Outside => {
                return Ok(CommandTable {
                    entries,
                    is_whole: false,
                });
            }
        }
    }
    Ok(CommandTable {
        entries,
        is_whole: false,
    })
}

// What stands in a table at an address, of an image that ends at another.
fn command_entry_at(memory: &AddressMap, limit: u32, at: u32) -> EntryRead
    ensures { result ≡ command_entry_at (bytes_of memory.now) limit at }
{
    if at >= limit {
        return EntryRead::Outside;
    }
    let Some(name) = text_at::<MAX_TEXT>(memory, at, TextEnd::Zero) else {
        return EntryRead::Outside;
    };
    if name.is_empty() {
        return EntryRead::End;
    }
    let words = next_word(at + (name.len() as u32 + 1));
    if words + 16 > limit {
        return EntryRead::Outside;
    }
    EntryRead::Entry(entry_of_words(memory, at, words), words + 16)
}

// The entry whose name is at an address, and its four words at another.
fn entry_of_words(memory: &AddressMap, name: u32, words: u32) -> CommandEntry
    requires { words ≤ 2 ^ 28 }
    ensures { result ≡ entry_of_words (bytes_of memory.now) name words }
{
    CommandEntry {
        name,
        code: loaded_word(memory, words),
        limits: loaded_word(memory, words + 4),
        syntax: loaded_word(memory, words + 8),
        help: loaded_word(memory, words + 12),
    }
}

/// The word at an address, 0 where no memory is mapped.
pub fn loaded_word(memory: &AddressMap, at: u32) -> u32
    ensures { result ≡ loaded_word (bytes_of memory.now) at }
{
    match memory.load_word(at) {
        Ok(word) => word,
        Err(_) => 0,
    }
}
