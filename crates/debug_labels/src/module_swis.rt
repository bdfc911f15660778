//! SWIs by the names that loaded modules have for them.

ghost use Rattle.std.specs.Prelude.{◌≡◌, ◌≤◌, ◌<◌, ◌+◌, ◌^◌, length, IfSome, slice_get};
ghost use Rattle.std.specs.Option.{option_map, option_and_then};
ghost use Rattle.debugger.specs.AddressMapMemory.{bytes_of};
ghost use Rattle.debugger.specs.Lookup.{shown_of_module};
ghost use Rattle.debug_labels.specs.ModuleSwis.{number_from, number_in_table, own_name, swi_of_module, swi_of_modules, table_of, table_text};

use arrayvec::ArrayVec;
use debugger::{AddressMap, Instances, MAX_TEXT, ModuleInfo, TextEnd, text_at};

// A chunk's SWIs.
const MOST_SWIS: u32 = 64;

// Where the header has the offset of the table, and how long an image is that has it.
const TABLE_WORD: u32 = 0x24;

const LEAST_BYTES: u32 = 0x28;

/// The number of the SWI of that name, by the oldest module that names one so.
#[tactic(auto, using(crate::proofs::WalkLemmas::first_steps))]
pub(crate) fn swi_of_modules(memory: &AddressMap, modules: &Instances, name: &[u8]) -> Option<u32>
    ensures { result ≡ swi_of_modules (bytes_of memory.now) modules.now name.now }
{
    for number in 0..modules.count() {
        if let Some(swi) = swi_of_numbered(memory, modules, name, number) {
            return Some(swi);
        }
    }
    None
}

// By the module of a number.
fn swi_of_numbered(
    memory: &AddressMap,
    modules: &Instances,
    name: &[u8],
    number: u32,
) -> Option<u32>
    ensures { result ≡ option_and_then (λ m. swi_of_module (bytes_of memory.now) name.now (shown_of_module m))
        (slice_get modules.now number) }
{
    swi_of_module(memory, name, &modules.module(number)?)
}

fn swi_of_module(memory: &AddressMap, name: &[u8], module: &ModuleInfo) -> Option<u32>
    ensures { result ≡ swi_of_module (bytes_of memory.now) name.now module.now }
{
    if module.chunk == 0 {
        return None;
    }
    let table = table_of(memory, module)?;
    let number = number_in_table(memory, name, table)?;
    Some(module.chunk.wrapping_add(number))
}

// Where a module's table is.
fn table_of(memory: &AddressMap, module: &ModuleInfo) -> Option<u32>
    ensures { result ≡ table_of (bytes_of memory.now) module.now }
{
    if module.len < LEAST_BYTES {
        return None;
    }
    match memory.load_word(module.image.wrapping_add(TABLE_WORD)) {
        Ok(offset) if 0 < offset && offset < module.len => Some(module.image.wrapping_add(offset)),
        _ => None,
    }
}

// The number of a name in the table at an address.
fn number_in_table(memory: &AddressMap, name: &[u8], at: u32) -> Option<u32>
    ensures { result ≡ number_in_table (bytes_of memory.now) name.now at }
{
    let chunk = table_text(memory, at)?;
    let own = own_name(chunk.as_slice(), name)?;
    number_from(memory, own, at + (chunk.len() as u32 + 1))
}

// What stands in a name behind the chunk's and `_`.
fn own_name<'a>(chunk: &[u8], name: &'a [u8]) -> Option<&'a [u8]>
    ensures { option_map (λ own. own.now) result ≡ own_name chunk.now name.now }
{
    if name.len() > chunk.len() && &name[..chunk.len()] == chunk && name[chunk.len()] == b'_' {
        Some(&name[chunk.len() + 1..])
    } else {
        None
    }
}

// The number of the first text of that name from an address on.
#[tactic(auto, using(crate::proofs::ModuleSwiLemmas::number_steps))]
fn number_from(memory: &AddressMap, name: &[u8], at: u32) -> Option<u32>
    requires { at ≤ 2 ^ 27 }
    ensures { result ≡ number_from 64 (bytes_of memory.now) name.now 0 at }
{
    let mut place = at;
    for number in 0..MOST_SWIS {
        let text = table_text(memory, place)?;
        if text.as_slice() == name {
            return Some(number);
        }
        place += text.len() as u32 + 1;
    }
    None
}

// The text of a table at an address, if there is one.
fn table_text(memory: &AddressMap, at: u32) -> Option<ArrayVec<u8, MAX_TEXT>>
    ensures text { option_map (λ text. text.items) result ≡ table_text (bytes_of memory.now) at }
    ensures end { IfSome result (λ text. at + length text.items < 2 ^ 27) }
{
    let text = text_at::<MAX_TEXT>(memory, at, TextEnd::Zero)?;
    if text.is_empty() { None } else { Some(text) }
}
