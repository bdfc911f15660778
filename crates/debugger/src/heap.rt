//! The view HEAP: a heap's limits and its items.

ghost use Rattle.std.specs.Prelude.{◌≡◌, ◌≤◌, ◌+◌, ◌^◌, true, [], IsSome, IfOk, IfSome, OnOk, OnErr, is_some, unwrap_or};
ghost use Rattle.std.specs.Io.KnownBytes.{Appends};
ghost use Rattle.swi_dispatch_guest.specs.Output.{Writes};
ghost use Rattle.swi_dispatch_guest.specs.Items.{size_of};
ghost use Rattle.swi_dispatch_guest.specs.HeapCalls.{items_of};
ghost use Rattle.swi_dispatch_guest.specs.Store.{store_of, find_heap, IsSound};
ghost use Rattle.debugger.specs.Heap.{use_text, limits_text, heap_item_text, heap_items_text, heap_text, heap_blocks_text};
ghost use Rattle.swi_dispatch_guest.specs.GuestState.{state_of};

use assembler_text::HexText;
use itoa::Buffer;
use swi_dispatch_guest::{
    AddressMap, Blocks, HEAP_DESCRIPTOR, Item, Machine, Sink, WriteFault, push_parts,
};

/// Where the words of a heap's descriptor stand that show its base and its end.
const BASE: u32 = 8;

const END: u32 = 12;

/// Writes the heap that starts at an address, `heap 00009000 base 40 end 256`, and its items by
/// address, as `live 00009010 24`. Answers whether a heap starts there; nothing is written where
/// none does.
pub fn show_blocks<W: Sink>(machine: &Machine, heap: u32, sink: &mut W) -> Result<bool, WriteFault>
    ensures found { IfOk result (λ is_there. is_there ≡ is_some
        (heap_blocks_text (state_of machine.now.guest).store heap)) }
    ensures writes { Writes W.contents W.has_failed sink.old sink.new result
        (unwrap_or (heap_blocks_text (state_of machine.now.guest).store heap) []) }
{
    let memory = machine.memory();
    let Some(blocks) = machine.heaps().blocks(memory, heap) else {
        return Ok(false);
    };
    show_limits(memory, heap, sink)?;
    show_items(heap + HEAP_DESCRIPTOR, blocks, sink)?;
    Ok(true)
}

// The line of the heap itself.
fn show_limits<W: Sink>(memory: &AddressMap, heap: u32, sink: &mut W) -> Result<(), WriteFault>
    requires sound { IsSound (store_of memory.now) }
    requires there { IsSome (find_heap heap (store_of memory.now).heaps) }
    ensures text { OnOk result (IfSome (find_heap heap (store_of memory.now).heaps)
        (λ h. Appends (W.contents sink.old) (W.contents sink.new)
        (limits_text heap (16 + size_of h.items) h.end))) }
    ensures flag { OnErr result (W.has_failed sink.new ≡ true) }
    ensures same_flag { OnOk result (W.has_failed sink.new ≡ W.has_failed sink.old) }
{
    let mut base = Buffer::new();
    let mut end = Buffer::new();
    push_parts(
        sink,
        &[
            b"heap ".as_slice(),
            HexText::word(heap).as_slice(),
            b" base ".as_slice(),
            base.format(base_of(memory, heap)).as_bytes(),
            b" end ".as_slice(),
            end.format(end_of(memory, heap)).as_bytes(),
            b"\n".as_slice(),
        ],
    )
}

// The base of a heap, in bytes from its start.
fn base_of(memory: &AddressMap, heap: u32) -> u32
    requires sound { IsSound (store_of memory.now) }
    requires there { IsSome (find_heap heap (store_of memory.now).heaps) }
    ensures { IfSome (find_heap heap (store_of memory.now).heaps) (λ h. result ≡ 16 + size_of h.items) }
{
    memory.load_word(heap + BASE).unwrap_or(0)
}

// The end of a heap, in bytes from its start.
fn end_of(memory: &AddressMap, heap: u32) -> u32
    requires sound { IsSound (store_of memory.now) }
    requires there { IsSome (find_heap heap (store_of memory.now).heaps) }
    ensures { IfSome (find_heap heap (store_of memory.now).heaps) (λ h. result ≡ h.end) }
{
    memory.load_word(heap + END).unwrap_or(0)
}

// A line for each item, the first of them at the address.
fn show_items<W: Sink>(start: u32, blocks: Blocks, sink: &mut W) -> Result<(), WriteFault>
    requires { start + size_of blocks ≤ 2 ^ 26 }
    ensures { Writes W.contents W.has_failed sink.old sink.new result (heap_items_text start blocks.entry) }
{
    let mut at = start;
    let mut rest = blocks;
    while let Some(item) = rest.next() {
        show_item(at, item, sink)?;
        at += item.total();
    }
    Ok(())
}

fn show_item<W: Sink>(address: u32, item: Item, sink: &mut W) -> Result<(), WriteFault>
    ensures { Writes W.contents W.has_failed sink.old sink.new result (heap_item_text address item) }
{
    let mut total = Buffer::new();
    push_parts(
        sink,
        &[
            use_of(item),
            HexText::word(address).as_slice(),
            b" ".as_slice(),
            total.format(item.total()).as_bytes(),
            b"\n".as_slice(),
        ],
    )
}

fn use_of(item: Item) -> &'static [u8]
    ensures { result.now ≡ use_text item }
{
    match item {
        Item::Live(_) => b"live ",
        Item::Free(_) => b"free ",
    }
}
