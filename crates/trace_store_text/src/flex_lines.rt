//! What a store call changes in the flex store.

ghost use Rattle.std.specs.Prelude.{◌≡◌, Some, None};
ghost use Rattle.std.specs.List.{flat_map};
ghost use Rattle.address_map.specs.Memory.{bytes_of};
ghost use Rattle.profile.specs.Output.{Writes};
ghost use Rattle.store_copies.specs.Listed.{all_listed};
ghost use Rattle.store_copies.specs.State.{IsFlex, flex_in};
ghost use Rattle.trace_store_text.specs.flex.Changes.{gone_block_by, kept_block_by};
ghost use Rattle.trace_store_text.specs.FlexLines.{block_change_line, flex_lines, gone_block_line, gone_block_lines, kept_block_lines, new_block_line, new_store_line, other_block_line, store_line};

use crate::flex::{find_block, is_same_block};
use address_map::AddressMap;
use itoa::Buffer;
use profile::{HexText, Sink, WriteFault, push_parts};
use store_copies::{Flex, FlexBlock};

/// Writes a line for a flex store that is new, and for each block of it that is gone, new, or not what
/// it was.
pub fn push_flex<W: Sink>(
    sink: &mut W,
    before: &AddressMap,
    old: &Flex,
    after: &AddressMap,
    new: &Flex,
) -> Result<(), WriteFault>
    requires old { IsFlex before.now old.now }
    requires new { IsFlex after.now new.now }
    ensures writes { Writes W.contents W.has_failed sink.old sink.new result
        (flex_lines (bytes_of before.now) old.now (bytes_of after.now) new.now) }
{
    push_store(sink, old, new)?;
    push_gone_blocks(sink, before, old, after, new)?;
    push_kept_blocks(sink, before, old, after, new)
}

fn push_store<W: Sink>(sink: &mut W, old: &Flex, new: &Flex) -> Result<(), WriteFault>
    ensures { Writes W.contents W.has_failed sink.old sink.new result
        (store_line old.now.extent new.now.extent) }
{
    match old.range() {
        Some(_) => Ok(()),
        None => match new.range() {
            Some((start, end, _)) => push_new_store(sink, start, end),
            None => Ok(()),
        },
    }
}

#[tactic(auto, unfolding(crate::specs::FlexLines::new_store_line))]
fn push_new_store<W: Sink>(sink: &mut W, start: u32, end: u32) -> Result<(), WriteFault>
    ensures { Writes W.contents W.has_failed sink.old sink.new result (new_store_line start end) }
{
    push_parts(
        sink,
        &[
            b"                  flex ".as_slice(),
            HexText::word(start).as_slice(),
            b" ".as_slice(),
            HexText::word(end).as_slice(),
            b" new\n".as_slice(),
        ],
    )
}

fn push_gone_blocks<W: Sink>(
    sink: &mut W,
    before: &AddressMap,
    old: &Flex,
    after: &AddressMap,
    new: &Flex,
) -> Result<(), WriteFault>
    requires old { IsFlex before.now old.now }
    requires new { IsFlex after.now new.now }
    ensures { Writes W.contents W.has_failed sink.old sink.new result
        (flat_map (gone_block_lines (all_listed (flex_in after.now new.now.extent)))
        (all_listed (flex_in before.now old.now.extent))) }
{
    let mut rest = old.blocks(before);
    while let Some(block) = rest.next() {
        let found = find_block(new.blocks(after), block.anchor);
        push_gone_block(sink, &block, found)?;
    }
    Ok(())
}

fn push_kept_blocks<W: Sink>(
    sink: &mut W,
    before: &AddressMap,
    old: &Flex,
    after: &AddressMap,
    new: &Flex,
) -> Result<(), WriteFault>
    requires old { IsFlex before.now old.now }
    requires new { IsFlex after.now new.now }
    ensures { Writes W.contents W.has_failed sink.old sink.new result
        (flat_map (kept_block_lines (all_listed (flex_in before.now old.now.extent)))
        (all_listed (flex_in after.now new.now.extent))) }
{
    let mut rest = new.blocks(after);
    while let Some(block) = rest.next() {
        let found = find_block(old.blocks(before), block.anchor);
        push_kept_block(sink, &block, found)?;
    }
    Ok(())
}

fn push_gone_block<W: Sink>(
    sink: &mut W,
    block: &FlexBlock,
    found: Option<FlexBlock>,
) -> Result<(), WriteFault>
    ensures { Writes W.contents W.has_failed sink.old sink.new result
        (flat_map block_change_line (gone_block_by block.now found)) }
{
    match found {
        Some(_) => Ok(()),
        None => push_gone_line(sink, block),
    }
}

fn push_kept_block<W: Sink>(
    sink: &mut W,
    block: &FlexBlock,
    found: Option<FlexBlock>,
) -> Result<(), WriteFault>
    ensures { Writes W.contents W.has_failed sink.old sink.new result
        (flat_map block_change_line (kept_block_by block.now found)) }
{
    match found {
        None => push_new_line(sink, block),
        Some(old) if is_same_block(&old, block) => Ok(()),
        Some(old) => push_other_line(sink, &old, block),
    }
}

#[tactic(auto, unfolding(crate::specs::FlexLines::gone_block_line))]
fn push_gone_line<W: Sink>(sink: &mut W, block: &FlexBlock) -> Result<(), WriteFault>
    ensures { Writes W.contents W.has_failed sink.old sink.new result (gone_block_line block.now) }
{
    push_parts(
        sink,
        &[
            b"                  block anchor ".as_slice(),
            HexText::word(block.anchor).as_slice(),
            b" gone\n".as_slice(),
        ],
    )
}

#[tactic(auto, unfolding(crate::specs::FlexLines::new_block_line))]
fn push_new_line<W: Sink>(sink: &mut W, block: &FlexBlock) -> Result<(), WriteFault>
    ensures { Writes W.contents W.has_failed sink.old sink.new result (new_block_line block.now) }
{
    let mut size = Buffer::new();
    push_parts(
        sink,
        &[
            b"                  block anchor ".as_slice(),
            HexText::word(block.anchor).as_slice(),
            b" at ".as_slice(),
            HexText::word(block.at).as_slice(),
            b" size ".as_slice(),
            size.format(block.size).as_bytes(),
            b" new\n".as_slice(),
        ],
    )
}

#[tactic(auto, unfolding(crate::specs::FlexLines::other_block_line))]
fn push_other_line<W: Sink>(
    sink: &mut W,
    old: &FlexBlock,
    block: &FlexBlock,
) -> Result<(), WriteFault>
    ensures { Writes W.contents W.has_failed sink.old sink.new result
        (other_block_line old.now block.now) }
{
    let mut size = Buffer::new();
    let mut was = Buffer::new();
    push_parts(
        sink,
        &[
            b"                  block anchor ".as_slice(),
            HexText::word(block.anchor).as_slice(),
            b" at ".as_slice(),
            HexText::word(block.at).as_slice(),
            b" size ".as_slice(),
            size.format(block.size).as_bytes(),
            b" was ".as_slice(),
            HexText::word(old.at).as_slice(),
            b" ".as_slice(),
            was.format(old.size).as_bytes(),
            b"\n".as_slice(),
        ],
    )
}
