//! The second operand of data processing.

ghost use Rattle.std.specs.Prelude.{◌≡◌, ◌<◌};
ghost use Rattle.assembler_text.specs.naming.Labels.{address_of};
ghost use Rattle.assembler_text.specs.naming.Words.{byte, comma, read_of};
ghost use Rattle.assembler_reading.specs.Operands.{amount_at, immediate_operand, immediate_of, is_rotated_byte, most_places, named_shift, places_of, rotated_of, rotation_at, second_operand, shift_at, shifted_operand, register_shifted_by};

use arm_decode::shifted::rotate_right;
use arm_decode::{Bits, Operand, Register, Shift, ShiftedRegister};
use assembler_text::naming::names::{register, shift_named};
use assembler_text::naming::words::{after_word, byte, comma, is_name, spaces, word};
use assembler_text::naming::{Labels, Read, Reason, Value, expression};
use assembler_text::numbers::least_rotation;

/// What a piece of the operands stands for, or why there is none.
pub type ReadOutcome<A> = Result<A, Reason>;

/// The second operand of data processing: `#v`, `#b,r`, or a register with its shift.
pub fn second_operand<'t>(labels: &Labels, text: &'t [u8]) -> Read<'t, ReadOutcome<Operand>>
    ensures { read_of result ≡ second_operand (address_of labels.now) text.now }
{
    match byte(b'#', text) {
        Some(after) => immediate(labels, after),
        None => shifted(labels, text),
    }
}

// What follows `#`.
fn immediate<'t>(labels: &Labels, text: &'t [u8]) -> Read<'t, ReadOutcome<Operand>>
    ensures { read_of result ≡ immediate_operand (address_of labels.now) text.now }
{
    let (value, rest) = expression(labels, text)?;
    rotation_at(labels, value, rest)
}

// What stands after a value: a comma and the rotation, or nothing.
fn rotation_at<'t>(labels: &Labels, value: Value, text: &'t [u8]) -> Read<'t, ReadOutcome<Operand>>
    ensures { read_of result ≡ rotation_at (address_of labels.now) value text.now (comma text.now) }
{
    match comma(text) {
        Some(after) => {
            let (turns, rest) = expression(labels, after)?;
            Some((rotated_of(value, turns), rest))
        }
        None => Some((immediate_of(value), text)),
    }
}

// `#v` by its least rotation.
fn immediate_of(value: Value) -> ReadOutcome<Operand>
    ensures { result ≡ immediate_of value }
{
    let Some(value) = value else {
        return Err(Reason::UnknownLabel);
    };
    let Some(rotation) = least_rotation(value) else {
        return Err(Reason::BadImmediate);
    };
    Ok(Operand::Immediate {
        rotation: Bits::new(rotation),
        byte: rotate_right(value, 32 - 2 * rotation) as u8,
    })
}

// `#b,r` as it stands.
fn rotated_of(byte: Value, turns: Value) -> ReadOutcome<Operand>
    ensures { result ≡ rotated_of byte turns }
{
    let Some(byte) = byte else {
        return Err(Reason::UnknownLabel);
    };
    let Some(turns) = turns else {
        return Err(Reason::UnknownLabel);
    };
    if byte <= 255 && turns <= 30 && turns % 2 == 0 {
        Ok(Operand::Immediate {
            rotation: Bits::new(turns / 2),
            byte: byte as u8,
        })
    } else {
        Err(Reason::BadImmediate)
    }
}

/// A register: `Rm`, `Rm,LSL #n`, `Rm,LSL Rs` or `Rm,RRX`.
pub fn shifted<'t>(labels: &Labels, text: &'t [u8]) -> Read<'t, ReadOutcome<Operand>>
    ensures { read_of result ≡ shifted_operand (address_of labels.now) text.now }
{
    let Some((rm, rest)) = register(text) else {
        return None;
    };
    shift_at(labels, rm, rest)
}

// What follows `Rm`: nothing, or a comma and RRX or a shift.
fn shift_at<'t>(labels: &Labels, rm: Register, text: &'t [u8]) -> Read<'t, ReadOutcome<Operand>>
    ensures { read_of result ≡ shift_at (address_of labels.now) rm text.now (comma text.now) }
{
    let Some(after) = comma(text) else {
        return Some((Ok(shifted_by(rm, Shift::LogicalLeft, 0)), text));
    };
    if is_name(word(after), b"RRX") {
        return Some((Ok(shifted_by(rm, Shift::RotateRight, 0)), after_word(after)));
    }
    named_shift(labels, rm, after)
}

// A shift and its amount.
fn named_shift<'t>(labels: &Labels, rm: Register, text: &'t [u8]) -> Read<'t, ReadOutcome<Operand>>
    ensures { read_of result ≡ named_shift (address_of labels.now) rm text.now }
{
    let shift = shift_named(word(text))?;
    let amount = spaces(after_word(text))?;
    amount_at(labels, rm, shift, amount)
}

// `#n` or a register, after `Rm,LSL `.
fn amount_at<'t>(
    labels: &Labels,
    rm: Register,
    shift: Shift,
    text: &'t [u8],
) -> Read<'t, ReadOutcome<Operand>>
    ensures { read_of result
        ≡ amount_at (address_of labels.now) rm shift text.now (byte 35 text.now) }
{
    match byte(b'#', text) {
        Some(after) => {
            let (places, rest) = expression(labels, after)?;
            Some((places_of(rm, shift, places), rest))
        }
        None => {
            let Some((rs, rest)) = register(text) else {
                return None;
            };
            Some((Ok(Operand::ShiftedByRegister { rm, shift, rs }), rest))
        }
    }
}

// A shift by a number of places.
fn places_of(rm: Register, shift: Shift, places: Value) -> ReadOutcome<Operand>
    ensures { result ≡ places_of rm shift places }
{
    let Some(places) = places else {
        return Err(Reason::UnknownLabel);
    };
    if 1 <= places && places <= most_places(shift) {
        Ok(shifted_by(rm, shift, places % 32))
    } else {
        Err(Reason::BadImmediate)
    }
}

fn most_places(shift: Shift) -> u32
    ensures { result ≡ most_places shift }
{
    match shift {
        Shift::LogicalLeft | Shift::RotateRight => 31,
        Shift::LogicalRight | Shift::ArithmeticRight => 32,
    }
}

fn shifted_by(rm: Register, shift: Shift, amount: u32) -> Operand
    requires { amount < 32 }
    ensures { result ≡ Operand.Shifted (register_shifted_by rm shift amount) }
{
    Operand::Shifted(ShiftedRegister {
        rm,
        shift,
        amount: Bits::new(amount),
    })
}
