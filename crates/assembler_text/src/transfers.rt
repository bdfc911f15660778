//! Single and block data transfers.

ghost use Rattle.std.specs.Prelude.{◌≡◌, ◌≤◌, ◌<◌, ◌&&◌, true, not, IfOk};
ghost use Rattle.arm_decode.specs.Output.{Writes};
ghost use Rattle.arm_decode.specs.Word.{bit_of};
ghost use Rattle.assembler_text.specs.Transfers.{operand_address_text, after_text, base_text, before_text, block_head, block_transfer_text, braces_text, close_text, is_nothing, listed_piece, listed_text, offset_text, sign_text, transfer_head, transfer_text, is_user};

use crate::names::{RegisterName, block_mode_text, choose_text, condition_text, text_if};
use crate::operands::push_shifted;
use arm_decode::{
    Address, BlockTransfer, Condition, Direction, HexText, Indexing, Offset, Register,
    RegisterList, Sink, Transfer, WriteFault, push_all, push_parts,
};

/// Writes LDR or STR.
pub(crate) fn push_transfer<W: Sink>(
    condition: Condition,
    transfer: &Transfer,
    sink: &mut W,
) -> Result<(), WriteFault>
    ensures { Writes W.contents W.has_failed sink.old sink.new result
        (transfer_text condition transfer.now) }
{
    push_transfer_head(condition, transfer, sink)?;
    push_address(&transfer.address, sink)
}

// `LDRcBT Rd,`
fn push_transfer_head<W: Sink>(
    condition: Condition,
    transfer: &Transfer,
    sink: &mut W,
) -> Result<(), WriteFault>
    ensures { Writes W.contents W.has_failed sink.old sink.new result
        (transfer_head condition transfer.now) }
{
    push_parts(
        sink,
        &[
            choose_text(transfer.loads, b"LDR", b"STR"),
            condition_text(condition),
            text_if(transfer.is_byte, b"B"),
            text_if(is_user(transfer.address.indexing), b"T"),
            b" ".as_slice(),
            RegisterName::of(transfer.rd).as_slice(),
            b",".as_slice(),
        ],
    )
}

fn is_user(indexing: Indexing) -> bool
    ensures { result ≡ is_user indexing }
{
    match indexing {
        Indexing::Pre { .. } => false,
        Indexing::Post { translates } => translates,
    }
}

fn push_address<W: Sink>(address: &Address, sink: &mut W) -> Result<(), WriteFault>
    ensures { Writes W.contents W.has_failed sink.old sink.new result (operand_address_text address.now) }
{
    match address.indexing {
        Indexing::Pre { writes_back } => push_before(writes_back, address, sink),
        Indexing::Post { .. } => push_after(address, sink),
    }
}

// `[Rn]`, `[Rn,offset]`, `[Rn,offset]!`
fn push_before<W: Sink>(
    writes_back: bool,
    address: &Address,
    sink: &mut W,
) -> Result<(), WriteFault>
    ensures { Writes W.contents W.has_failed sink.old sink.new result
        (before_text writes_back address.now) }
{
    if !writes_back && is_nothing(address.direction, address.offset) {
        return push_base(address.rn, b"]", sink);
    }
    push_base(address.rn, b",", sink)?;
    push_offset(address.direction, address.offset, sink)?;
    push_close(writes_back, sink)
}

// `[Rn],offset`
fn push_after<W: Sink>(address: &Address, sink: &mut W) -> Result<(), WriteFault>
    ensures { Writes W.contents W.has_failed sink.old sink.new result (after_text address.now) }
{
    push_base(address.rn, b"],", sink)?;
    push_offset(address.direction, address.offset, sink)
}

// `[Rn` and what follows it
fn push_base<W: Sink>(rn: Register, after: &[u8], sink: &mut W) -> Result<(), WriteFault>
    ensures { Writes W.contents W.has_failed sink.old sink.new result (base_text rn after.now) }
{
    push_parts(
        sink,
        &[b"[".as_slice(), RegisterName::of(rn).as_slice(), after],
    )
}

fn push_close<W: Sink>(writes_back: bool, sink: &mut W) -> Result<(), WriteFault>
    ensures { Writes W.contents W.has_failed sink.old sink.new result (close_text writes_back) }
{
    push_parts(sink, &[b"]".as_slice(), text_if(writes_back, b"!")])
}

// An offset of +0, which isn't written before `]`.
fn is_nothing(direction: Direction, offset: Offset) -> bool
    ensures { result ≡ is_nothing direction offset }
{
    match offset {
        Offset::Immediate(number) => direction == Direction::Up && number.number() == 0,
        Offset::Shifted(_) => false,
    }
}

// `#v`, `#-v`, `Rm`, `-Rm`
fn push_offset<W: Sink>(
    direction: Direction,
    offset: Offset,
    sink: &mut W,
) -> Result<(), WriteFault>
    ensures { Writes W.contents W.has_failed sink.old sink.new result (offset_text direction offset) }
{
    match offset {
        Offset::Immediate(number) => {
            push_parts(
                sink,
                &[
                    b"#".as_slice(),
                    sign_text(direction),
                    b"&".as_slice(),
                    HexText::number(number.number()).as_slice(),
                ],
            )
        }
        Offset::Shifted(shifted) => {
            push_all(sink, sign_text(direction))?;
            push_shifted(shifted, sink)
        }
    }
}

fn sign_text(direction: Direction) -> &'static [u8]
    ensures { result.now ≡ sign_text direction }
{
    match direction {
        Direction::Up => b"",
        Direction::Down => b"-",
    }
}

/// Writes LDM or STM.
pub(crate) fn push_block<W: Sink>(
    condition: Condition,
    block: &BlockTransfer,
    sink: &mut W,
) -> Result<(), WriteFault>
    ensures { Writes W.contents W.has_failed sink.old sink.new result
        (block_transfer_text condition block.now) }
{
    push_block_head(condition, block, sink)?;
    push_braces(block, sink)
}

// `LDMcIA Rn!,`
fn push_block_head<W: Sink>(
    condition: Condition,
    block: &BlockTransfer,
    sink: &mut W,
) -> Result<(), WriteFault>
    ensures { Writes W.contents W.has_failed sink.old sink.new result (block_head condition block.now) }
{
    push_parts(
        sink,
        &[
            choose_text(block.loads, b"LDM", b"STM"),
            condition_text(condition),
            block_mode_text(block.mode),
            b" ".as_slice(),
            RegisterName::of(block.rn).as_slice(),
            text_if(block.writes_back, b"!"),
            b",".as_slice(),
        ],
    )
}

// `{R0,R1}^`
fn push_braces<W: Sink>(block: &BlockTransfer, sink: &mut W) -> Result<(), WriteFault>
    ensures { Writes W.contents W.has_failed sink.old sink.new result (braces_text block.now) }
{
    push_all(sink, b"{")?;
    push_listed(block.list, sink)?;
    push_parts(sink, &[b"}".as_slice(), text_if(block.psr_or_user, b"^")])
}

// The registers of a list, with commas between them.
fn push_listed<W: Sink>(list: RegisterList, sink: &mut W) -> Result<(), WriteFault>
    ensures { Writes W.contents W.has_failed sink.old sink.new result (listed_text list) }
{
    let mut is_first = true;
    for number in 0..16u8 {
        is_first = push_register(list, number, is_first, sink)?;
    }
    Ok(())
}

// A register if it is in the list, with a comma before it if it isn't the first. Answers whether
// the first is still to come.
fn push_register<W: Sink>(
    list: RegisterList,
    number: u8,
    is_first: bool,
    sink: &mut W,
) -> Result<bool, WriteFault>
    requires { number < 16 }
    ensures writes { Writes W.contents W.has_failed sink.old sink.new result
        (listed_piece list number is_first) }
    ensures is_first { IfOk result (λ b. b ≡ (is_first && not (bit_of list number))) }
{
    let register = Register::new(number);
    if !list.contains(register) {
        return Ok(is_first);
    }
    push_parts(
        sink,
        &[
            text_if(!is_first, b","),
            RegisterName::of(register).as_slice(),
        ],
    )?;
    Ok(false)
}
