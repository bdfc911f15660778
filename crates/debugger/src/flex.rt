//! The view FLEX: the flex store, its blocks, and the anchors that lie in blocks.

ghost use Rattle.std.specs.Prelude.{◌≡◌, ◌+◌, ◌&&◌, nat_le, ◌++◌, [], IfOk, is_some, unwrap_or};
ghost use Rattle.swi_dispatch_guest.specs.AddressMapMemory.{bytes_of};
ghost use Rattle.swi_dispatch_guest.specs.Listed.{all_listed};
ghost use Rattle.swi_dispatch_guest.specs.State.{flex_in, IsFlex};
ghost use Rattle.swi_dispatch_guest.specs.Output.{Writes};
ghost use Rattle.debugger.specs.Flex.{flex_blocks_text, flex_text, holder_in, flex_holder_text, own_text, range_text};
ghost use Rattle.swi_dispatch_guest.specs.GuestState.{state_of};

use assembler_text::HexText;
use itoa::Buffer;
use swi_dispatch_guest::{
    AddressMap, Flex, FlexBlock, FlexBlocks, Machine, Sink, WriteFault, push_parts,
};

/// Writes the flex store, `flex 0000A000 0000A400 used 48`, and its blocks by address, as `block
/// anchor 00009000 at 0000A008 size 10`, and ` in 0000A008 offset 8` at the end where the anchor
/// lies in the bytes of a block. Answers whether there is a store; nothing is written where there
/// is none.
pub fn show_flex<W: Sink>(machine: &Machine, sink: &mut W) -> Result<bool, WriteFault>
    ensures found { let s = state_of machine.now.guest in
        IfOk result (λ is_there. is_there ≡ is_some (flex_text s.store.bytes s.tables.flex)) }
    ensures writes { let s = state_of machine.now.guest in
        Writes W.contents W.has_failed sink.old sink.new result
        (unwrap_or (flex_text s.store.bytes s.tables.flex) []) }
{
    show_store(machine.flex(), machine.memory(), sink)
}

fn show_store<W: Sink>(flex: &Flex, memory: &AddressMap, sink: &mut W) -> Result<bool, WriteFault>
    requires { IsFlex memory.now flex.now }
    ensures found { IfOk result (λ is_there. is_there ≡ is_some (flex_text (bytes_of memory.now) flex.now)) }
    ensures writes { Writes W.contents W.has_failed sink.old sink.new result
        (unwrap_or (flex_text (bytes_of memory.now) flex.now) []) }
{
    let Some((start, end, used)) = flex.range() else {
        return Ok(false);
    };
    show_range(start, end, used, sink)?;
    show_all(flex, memory, sink)?;
    Ok(true)
}

// The line of the store itself.
fn show_range<W: Sink>(start: u32, end: u32, used: u32, sink: &mut W) -> Result<(), WriteFault>
    ensures { Writes W.contents W.has_failed sink.old sink.new result (range_text start end used) }
{
    let mut taken = Buffer::new();
    push_parts(
        sink,
        &[
            b"flex ".as_slice(),
            HexText::word(start).as_slice(),
            b" ".as_slice(),
            HexText::word(end).as_slice(),
            b" used ".as_slice(),
            taken.format(used).as_bytes(),
            b"\n".as_slice(),
        ],
    )
}

// A line for each block.
fn show_all<W: Sink>(flex: &Flex, memory: &AddressMap, sink: &mut W) -> Result<(), WriteFault>
    requires { IsFlex memory.now flex.now }
    ensures { Writes W.contents W.has_failed sink.old sink.new result
        (flex_blocks_text (all_listed (flex_in memory.now flex.now.extent))) }
{
    let mut rest = flex.blocks(memory);
    while let Some(block) = rest.next() {
        let holder = find_holder(flex.blocks(memory), block.anchor);
        show_block(&block, holder, sink)?;
    }
    Ok(())
}

// The block whose bytes hold the word at an address.
fn find_holder(blocks: FlexBlocks, address: u32) -> Option<FlexBlock>
    ensures { result ≡ holder_in address blocks.entry }
{
    let mut rest = blocks;
    while let Some(block) = rest.next() {
        if holds(&block, address) {
            return Some(block);
        }
    }
    None
}

fn holds(block: &FlexBlock, address: u32) -> bool
    ensures { result ≡ (nat_le block.now.at address
        && nat_le (address + 4) (block.now.at + block.now.size)) }
{
    let end = u64::from(block.at) + u64::from(block.size);
    block.at <= address && u64::from(address) + 4 <= end
}

fn show_block<W: Sink>(
    block: &FlexBlock,
    holder: Option<FlexBlock>,
    sink: &mut W,
) -> Result<(), WriteFault>
    ensures { Writes W.contents W.has_failed sink.old sink.new result
        (own_text block.now ++ flex_holder_text block.now.anchor holder) }
{
    show_own(block, sink)?;
    show_holder(block.anchor, holder, sink)
}

fn show_own<W: Sink>(block: &FlexBlock, sink: &mut W) -> Result<(), WriteFault>
    ensures { Writes W.contents W.has_failed sink.old sink.new result (own_text block.now) }
{
    let mut size = Buffer::new();
    push_parts(
        sink,
        &[
            b"block anchor ".as_slice(),
            HexText::word(block.anchor).as_slice(),
            b" at ".as_slice(),
            HexText::word(block.at).as_slice(),
            b" size ".as_slice(),
            size.format(block.size).as_bytes(),
        ],
    )
}

// Where the anchor is, and the end of the line.
fn show_holder<W: Sink>(
    anchor: u32,
    holder: Option<FlexBlock>,
    sink: &mut W,
) -> Result<(), WriteFault>
    ensures { Writes W.contents W.has_failed sink.old sink.new result (flex_holder_text anchor holder) }
{
    let Some(block) = holder else {
        return push_parts(sink, &[b"\n".as_slice()]);
    };
    let mut offset = Buffer::new();
    push_parts(
        sink,
        &[
            b" in ".as_slice(),
            HexText::word(block.at).as_slice(),
            b" offset ".as_slice(),
            offset.format(anchor.saturating_sub(block.at)).as_bytes(),
            b"\n".as_slice(),
        ],
    )
}
