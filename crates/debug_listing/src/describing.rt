//! What a loaded module says of itself.

ghost use Rattle.std.specs.Prelude.{◌≡◌, ◌++◌, IfOk, OnOk, slice_get};
ghost use Rattle.std.specs.Option.{option_and_then};
ghost use Rattle.address_map.specs.Memory.{bytes_of};
ghost use Rattle.debug_tables.specs.GuestState.{state_of};
ghost use Rattle.instances_table.specs.Lookup.{shown_of_module};
ghost use Rattle.debug_listing.specs.Describing.{header_text, if_titled, module_described, module_meant, module_of_title};

use crate::image_parts::{push_shown, push_texts, text_of_image};
use crate::listing::{push_entries, table_end_text};
use crate::tables::{commands_of, header_word};
use address_map::AddressMap;
use command_shell_lines::debug_words::text_behind;
use debug_labels::{Instances, ModuleInfo};
use debug_tables::Machine;
use profile::HexText;
use std::alloc::{AllocError, Global};

// Where the header has the offset of the text that helps.
const HELP_WORD: u32 = 0x14;

/// The module that a line `HELP Title` means, if there is one.
pub fn module_meant(machine: &Machine, line: &[u8]) -> Option<ModuleInfo>
    ensures { result ≡ module_meant (state_of machine.now.guest) line.now }
{
    let title = text_behind(b"HELP ", line)?;
    module_of_title(machine.instances(), title)
}

// The oldest module of a title.
#[tactic(auto, using(debug_labels::proofs::WalkLemmas::first_steps))]
fn module_of_title(modules: &Instances, title: &[u8]) -> Option<ModuleInfo>
    ensures { result ≡ module_of_title modules.now title.now }
{
    for number in 0..modules.count() {
        let found = if_titled(modules, title, number);
        if found.is_some() {
            return found;
        }
    }
    None
}

// The module of a number, if that is its title, in any case of its letters.
fn if_titled(modules: &Instances, title: &[u8], number: u32) -> Option<ModuleInfo>
    ensures { result ≡ option_and_then (λ m. if_titled title.now (shown_of_module m))
        (slice_get modules.now number) }
{
    match modules.module(number) {
        Some(info) if info.title.as_slice().eq_ignore_ascii_case(title) => Some(info),
        _ => None,
    }
}

/// What a module says of itself.
///
/// # Errors
///
/// Memory ran out.
pub fn module_described(
    alloc: Global,
    memory: &AddressMap,
    info: &ModuleInfo,
) -> Result<Vec<u8>, AllocError>
    ensures { IfOk result (λ text. text.items ≡ module_described (bytes_of memory.now) info.now) }
{
    let table = commands_of(alloc, memory, info)?;
    let mut text = Vec::new(alloc);
    push_header(memory, info, &mut text)?;
    push_entries(memory, table.entries.as_slice(), &mut text)?;
    text.extend_from_slice(table_end_text(table.is_whole))?;
    Ok(text)
}

// What stands before its commands.
fn push_header(memory: &AddressMap, info: &ModuleInfo, text: &mut Vec<u8>) -> Result<(), AllocError>
    ensures { OnOk result (text.new.items ≡ text.old.items ++ header_text (bytes_of memory.now) info.now) }
{
    let offset = header_word(memory, info, HELP_WORD);
    let help = text_of_image(memory, info.image, info.len, offset);
    text.extend_from_slice(b"module ")?;
    push_shown(text, info.title.as_slice())?;
    text.extend_from_slice(b"\nhelp \"")?;
    push_shown(text, help.as_slice())?;
    let chunk = HexText::number(info.chunk);
    push_texts(
        text,
        &[
            b"\"\nchunk &".as_slice(),
            chunk.as_slice(),
            b"\n".as_slice(),
        ],
    )
}
