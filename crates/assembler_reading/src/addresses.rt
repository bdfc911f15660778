//! The addresses of LDR and STR.

ghost use Rattle.std.specs.Prelude.{◌≡◌, ◌<◌, ◌^◌, false};
ghost use Rattle.assembler_text.specs.naming.Labels.{address_of};
ghost use Rattle.assembler_text.specs.naming.Words.{byte, comma, read_of};
ghost use Rattle.assembler_reading.specs.Addresses.{address_at, as_offset, address_in_brackets, before_bracket, address_after_bracket, address_after_base, address_of_offset, address_at_label, number_offset, offset_in, offset_of_value, operand_offset, address_with_offset, address_from_pc, reached_from, shifted_offset, signed_direction, transfer_text_at, transfer_action};

use crate::operands::{ReadOutcome, shifted};
use arm_decode::{Action, Address, Bits, Direction, Indexing, Offset, Operand, Register, Transfer};
use assembler_text::naming::names::register;
use assembler_text::naming::words::{byte, comma, mark};
use assembler_text::naming::{Labels, Read, Reason, Value, expression};

/// An offset and which way it counts.
pub type SignedOffset = (Direction, Offset);

/// The operands of LDR or STR at an address: `Rd,` and an address in brackets, or a label.
pub fn transfer_at<'t>(
    labels: &Labels,
    address: u32,
    loads: bool,
    is_byte: bool,
    translates: bool,
    text: &'t [u8],
) -> Read<'t, ReadOutcome<Action>>
    ensures { read_of result
        ≡ transfer_text_at (address_of labels.now) address loads is_byte translates text.now }
{
    let Some((rd, rest)) = register(text) else {
        return None;
    };
    let Some((place, rest)) = address_at(labels, address, translates, comma(rest)?) else {
        return None;
    };
    Some((transferred(loads, is_byte, rd, place), rest))
}

fn transferred(
    loads: bool,
    is_byte: bool,
    rd: Register,
    place: ReadOutcome<Address>,
) -> ReadOutcome<Action>
    ensures { result ≡ transfer_action loads is_byte rd place }
{
    match place {
        Ok(address) => Ok(Action::Transfer(Transfer {
            loads,
            is_byte,
            rd,
            address,
        })),
        Err(reason) => Err(reason),
    }
}

// An address in brackets, or a label or any other expression, which T forbids.
fn address_at<'t>(
    labels: &Labels,
    address: u32,
    translates: bool,
    text: &'t [u8],
) -> Read<'t, ReadOutcome<Address>>
    ensures { read_of result
        ≡ address_at (address_of labels.now) address translates text.now (byte 91 text.now) }
{
    match byte(b'[', text) {
        Some(after) => bracketed(labels, translates, after),
        None if translates => None,
        None => labelled(labels, address, text),
    }
}

fn labelled<'t>(labels: &Labels, address: u32, text: &'t [u8]) -> Read<'t, ReadOutcome<Address>>
    ensures { read_of result ≡ address_at_label (address_of labels.now) address text.now }
{
    let (target, rest) = expression(labels, text)?;
    Some((reached_from(address, target), rest))
}

fn reached_from(address: u32, target: Value) -> ReadOutcome<Address>
    ensures { result ≡ reached_from address target }
{
    match target {
        Some(target) => reached(u64::from(address) + 8, u64::from(target)),
        None => Err(Reason::UnknownLabel),
    }
}

// An address as an offset from the PC.
fn reached(pc: u64, target: u64) -> ReadOutcome<Address>
    requires pc_low { pc < 2 ^ 33 }
    requires target_low { target < 2 ^ 33 }
    ensures { result ≡ address_from_pc pc target }
{
    if pc <= target && target <= pc + 4095 {
        Ok(from_pc(Direction::Up, (target - pc) as u32))
    } else if target < pc && pc <= target + 4095 {
        Ok(from_pc(Direction::Down, (pc - target) as u32))
    } else {
        Err(Reason::OutOfReach)
    }
}

fn from_pc(direction: Direction, number: u32) -> Address
    requires { number < 4096 }
    ensures { result ≡ address_with_offset (Indexing.Pre false) direction 15 (Offset.Immediate number) }
{
    Address {
        indexing: Indexing::Pre { writes_back: false },
        direction,
        rn: Register::new(15),
        offset: Offset::Immediate(Bits::new(number)),
    }
}

// After `[`.
fn bracketed<'t>(
    labels: &Labels,
    translates: bool,
    text: &'t [u8],
) -> Read<'t, ReadOutcome<Address>>
    ensures { read_of result ≡ address_after_bracket (address_of labels.now) translates text.now }
{
    let Some((rn, rest)) = register(text) else {
        return None;
    };
    based(labels, translates, rn, rest)
}

// After `[Rn`.
fn based<'t>(
    labels: &Labels,
    translates: bool,
    rn: Register,
    text: &'t [u8],
) -> Read<'t, ReadOutcome<Address>>
    ensures { read_of result
        ≡ address_in_brackets (address_of labels.now) translates rn text.now (byte 93 text.now) }
{
    match byte(b']', text) {
        Some(after) => closed(labels, translates, rn, after),
        None if translates => None,
        None => before_bracket(labels, rn, text),
    }
}

// After `[Rn]`: a comma and the offset, or nothing, which T forbids.
fn closed<'t>(
    labels: &Labels,
    translates: bool,
    rn: Register,
    text: &'t [u8],
) -> Read<'t, ReadOutcome<Address>>
    ensures { read_of result
        ≡ address_after_base (address_of labels.now) translates rn text.now (comma text.now) }
{
    match comma(text) {
        Some(after) => {
            let Some((by, rest)) = offset_in(labels, after) else {
                return None;
            };
            Some((indexed(Indexing::Post { translates }, rn, by), rest))
        }
        None if translates => None,
        None => Some((Ok(at_base(rn)), text)),
    }
}

fn at_base(rn: Register) -> Address
    ensures { result ≡ address_with_offset (Indexing.Pre false) Direction.Up rn (Offset.Immediate 0) }
{
    Address {
        indexing: Indexing::Pre { writes_back: false },
        direction: Direction::Up,
        rn,
        offset: Offset::Immediate(Bits::new(0)),
    }
}

// After `[Rn`: a comma, the offset, `]`, and `!` where the address is written back.
fn before_bracket<'t>(
    labels: &Labels,
    rn: Register,
    text: &'t [u8],
) -> Read<'t, ReadOutcome<Address>>
    ensures { read_of result ≡ before_bracket (address_of labels.now) rn text.now }
{
    let Some((by, rest)) = offset_in(labels, comma(text)?) else {
        return None;
    };
    let (writes_back, rest) = mark(b'!', byte(b']', rest)?);
    Some((indexed(Indexing::Pre { writes_back }, rn, by), rest))
}

fn indexed(indexing: Indexing, rn: Register, by: ReadOutcome<SignedOffset>) -> ReadOutcome<Address>
    ensures { result ≡ address_of_offset indexing rn by }
{
    match by {
        Ok((direction, offset)) => Ok(Address {
            indexing,
            direction,
            rn,
            offset,
        }),
        Err(reason) => Err(reason),
    }
}

// `#n`, `#-n`, or a register with its shift, with a minus or without.
fn offset_in<'t>(labels: &Labels, text: &'t [u8]) -> Read<'t, ReadOutcome<SignedOffset>>
    ensures { read_of result ≡ offset_in (address_of labels.now) text.now }
{
    match byte(b'#', text) {
        Some(after) => {
            let (is_minus, number) = mark(b'-', after);
            number_offset(labels, signed_direction(is_minus), number)
        }
        None => {
            let (is_minus, rest) = mark(b'-', text);
            shifted_offset(labels, signed_direction(is_minus), rest)
        }
    }
}

fn signed_direction(is_minus: bool) -> Direction
    ensures { result ≡ signed_direction is_minus }
{
    if is_minus {
        Direction::Down
    } else {
        Direction::Up
    }
}

fn number_offset<'t>(
    labels: &Labels,
    direction: Direction,
    text: &'t [u8],
) -> Read<'t, ReadOutcome<SignedOffset>>
    ensures { read_of result ≡ number_offset (address_of labels.now) direction text.now }
{
    let (number, rest) = expression(labels, text)?;
    Some((offset_of(direction, number), rest))
}

// A number of 12 bits.
fn offset_of(direction: Direction, number: Value) -> ReadOutcome<SignedOffset>
    ensures { result ≡ offset_of_value direction number }
{
    let Some(number) = number else {
        return Err(Reason::UnknownLabel);
    };
    if number < 4096 {
        Ok((direction, Offset::Immediate(Bits::new(number))))
    } else {
        Err(Reason::BadImmediate)
    }
}

fn shifted_offset<'t>(
    labels: &Labels,
    direction: Direction,
    text: &'t [u8],
) -> Read<'t, ReadOutcome<SignedOffset>>
    ensures { read_of result ≡ shifted_offset (address_of labels.now) direction text.now }
{
    let Some((operand, rest)) = shifted(labels, text) else {
        return None;
    };
    let Some(offset) = as_offset(direction, operand) else {
        return None;
    };
    Some((offset, rest))
}

fn as_offset(
    direction: Direction,
    operand: ReadOutcome<Operand>,
) -> Option<ReadOutcome<SignedOffset>>
    ensures { result ≡ as_offset direction operand }
{
    match operand {
        Ok(operand) => operand_offset(direction, operand),
        Err(reason) => Some(Err(reason)),
    }
}

// An offset can't be shifted by a register.
fn operand_offset(direction: Direction, operand: Operand) -> Option<ReadOutcome<SignedOffset>>
    ensures { result ≡ operand_offset direction operand }
{
    match operand {
        Operand::Shifted(shifted) => Some(Ok((direction, Offset::Shifted(shifted)))),
        _ => None,
    }
}
