//! The modules that are there, as GDB's list of libraries.

ghost use Rattle.std.specs.Prelude.{◌≡◌, ◌++◌, IfOk, slice_get};
ghost use Rattle.debugger.specs.Modules.{one_text};
ghost use Rattle.profile.specs.Digits.{hex_word};
ghost use Rattle.profile.specs.Output.{Writes};
ghost use Rattle.gdb_machine.specs.Libraries.{libraries_part, libraries_text, library_ending, library_line, library_lines, library_opening, module_library};

use crate::description::part;
use crate::escape::push_escaped;
use debugger::{Instances, ModuleInfo};
use gdb_packets::ByteRange;
use profile::text_sink::TextSink;
use profile::{HexText, Sink, WriteFault, push_all};
use std::alloc::{AllocError, Global};

/// The lines of the list: of each module the name of the file that has its symbols, `Title.elf`, in a folder
/// named by the address of its image, and that address. There are none where no module is there.
///
/// # Errors
///
/// Memory ran out.
pub fn library_lines(alloc: Global, modules: &Instances) -> Result<Vec<u8>, AllocError>
    ensures { IfOk result (λ text. text.items ≡ library_lines modules.now) }
{
    let mut text = TextSink::new(alloc);
    match push_all_modules(&mut text, modules) {
        Ok(()) => Ok(text.into_bytes()),
        Err(_) => Err(AllocError),
    }
}

/// Bytes of the list, behind `l` where they are its last and behind `m` where they aren't.
///
/// # Errors
///
/// Memory ran out.
pub fn libraries_part(
    alloc: Global,
    modules: &Instances,
    range: ByteRange,
) -> Result<Vec<u8>, AllocError>
    ensures { IfOk result (λ reported. reported.items ≡ libraries_part modules.now range) }
{
    let text = libraries_text(alloc, modules)?;
    part(alloc, text.as_slice(), range)
}

// The whole list.
#[tactic(auto, unfolding(crate::specs::Libraries::libraries_text))]
fn libraries_text(alloc: Global, modules: &Instances) -> Result<Vec<u8>, AllocError>
    ensures { IfOk result (λ text. text.items ≡ libraries_text modules.now) }
{
    let lines = library_lines(alloc, modules)?;
    let mut text = Vec::from_slice(alloc, b"<library-list version=\"1.0\">\n")?;
    text.extend_from_slice(lines.as_slice())?;
    text.extend_from_slice(b"</library-list>\n")?;
    Ok(text)
}

fn push_all_modules<W: Sink>(sink: &mut W, modules: &Instances) -> Result<(), WriteFault>
    ensures { Writes W.contents W.has_failed sink.old sink.new result (library_lines modules.now) }
{
    for number in 0..modules.count() {
        push_module(sink, modules, number)?;
    }
    Ok(())
}

// The line of the module of a number, if there is one.
fn push_module<W: Sink>(sink: &mut W, modules: &Instances, number: u32) -> Result<(), WriteFault>
    ensures { Writes W.contents W.has_failed sink.old sink.new result
        (one_text module_library (slice_get modules.now number)) }
{
    match modules.module(number) {
        Some(info) => push_library(sink, &info),
        None => Ok(()),
    }
}

fn push_library<W: Sink>(sink: &mut W, info: &ModuleInfo) -> Result<(), WriteFault>
    ensures { Writes W.contents W.has_failed sink.old sink.new result (library_line info.now) }
{
    push_name(sink, info.image, info.title.as_slice())?;
    push_address(sink, info.image)
}

#[tactic(auto, unfolding(crate::specs::Libraries::library_opening))]
fn push_name<W: Sink>(sink: &mut W, image: u32, title: &[u8]) -> Result<(), WriteFault>
    ensures { Writes W.contents W.has_failed sink.old sink.new result (library_opening image title.now) }
{
    push_word_between(sink, b"<library name=\"", image, b"/")?;
    push_escaped(sink, title)
}

#[tactic(auto, unfolding(crate::specs::Libraries::library_ending))]
fn push_address<W: Sink>(sink: &mut W, image: u32) -> Result<(), WriteFault>
    ensures { Writes W.contents W.has_failed sink.old sink.new result (library_ending image) }
{
    push_word_between(
        sink,
        b".elf\"><segment address=\"0x",
        image,
        b"\"/></library>\n",
    )
}

// A word between two texts.
fn push_word_between<W: Sink>(
    sink: &mut W,
    before: &[u8],
    word: u32,
    after: &[u8],
) -> Result<(), WriteFault>
    ensures { Writes W.contents W.has_failed sink.old sink.new result
        (before.now ++ (hex_word word ++ after.now)) }
{
    push_all(sink, before)?;
    push_all(sink, HexText::word(word).as_slice())?;
    push_all(sink, after)
}
