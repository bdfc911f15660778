//! An instruction as it is written: a mnemonic, spaces and operands.

ghost use Rattle.std.specs.Prelude.{◌≡◌};
ghost use Rattle.assembler_text.specs.naming.Labels.{address_of};
ghost use Rattle.assembler_text.specs.naming.Words.{byte, read_of};
ghost use Rattle.assembler_reading.specs.Instructions.{action_at, branch_at, branch_to, call_or_number, instruction, swi_at, swi_number, swi_action, plain_call, quoted_call, word_for};

use crate::addresses::transfer_at;
use crate::operands::ReadOutcome;
use crate::operating::{multiply_at, operate_at};
use crate::register_lists::block_at;
use arm_decode::{Action, Bits, Condition, Instr, encode};
use assembler_text::naming::expressions::sign;
use assembler_text::naming::words::{after_word, byte, spaces, word};
use assembler_text::naming::{
    Command, Labels, Read, Reason, Value, expression, mnemonic_named, swi_named,
};

/// Reads the instruction at the front of a text, which stands at an address.
///
/// Answers its word, or the first reason why it has none, in this order: UnknownLabel,
/// BadImmediate, OutOfReach, Forbidden; and what follows it. `None` where no instruction is
/// written so.
pub fn instruction<'t>(labels: &Labels, address: u32, text: &'t [u8]) -> Read<'t, ReadOutcome<u32>>
    ensures { read_of result ≡ instruction (address_of labels.now) address text.now }
{
    let mnemonic = mnemonic_named(word(text))?;
    let operands = spaces(after_word(text))?;
    let Some((action, rest)) = action_at(labels, address, mnemonic.command, operands) else {
        return None;
    };
    Some((word_for(mnemonic.condition, action), rest))
}

// The word of what was read, if the instruction table has it.
fn word_for(condition: Condition, action: ReadOutcome<Action>) -> ReadOutcome<u32>
    ensures { result ≡ word_for condition action }
{
    match action {
        Ok(action) => match Instr::new(condition, action) {
            Ok(instr) => Ok(encode(instr)),
            Err(_) => Err(Reason::Forbidden),
        },
        Err(reason) => Err(reason),
    }
}

// The operands that a mnemonic asks for.
fn action_at<'t>(
    labels: &Labels,
    address: u32,
    command: Command,
    text: &'t [u8],
) -> Read<'t, ReadOutcome<Action>>
    ensures { read_of result ≡ action_at (address_of labels.now) address command text.now }
{
    match command {
        Command::Operate { operation, flag } => operate_at(labels, operation, flag, text),
        Command::Multiply {
            accumulates,
            sets_flags,
        } => multiply_at(accumulates, sets_flags, text),
        Command::Transfer {
            loads,
            is_byte,
            translates,
        } => transfer_at(labels, address, loads, is_byte, translates, text),
        Command::BlockTransfer { loads, mode } => block_at(loads, mode, text),
        Command::Branch { links } => branch_at(labels, address, links, text),
        Command::SoftwareInterrupt => swi_at(labels, text),
    }
}

fn branch_at<'t>(
    labels: &Labels,
    address: u32,
    links: bool,
    text: &'t [u8],
) -> Read<'t, ReadOutcome<Action>>
    ensures { read_of result ≡ branch_at (address_of labels.now) address links text.now }
{
    let (target, rest) = expression(labels, text)?;
    Some((branch_to(address, links, target), rest))
}

// A branch to a multiple of 4 below 2^26.
fn branch_to(address: u32, links: bool, target: Value) -> ReadOutcome<Action>
    ensures { result ≡ branch_to address links target }
{
    let Some(target) = target else {
        return Err(Reason::UnknownLabel);
    };
    if target % 4 != 0 || target >= 1 << 26 {
        return Err(Reason::OutOfReach);
    }
    let bytes = (1 << 33) + u64::from(target) - (u64::from(address) + 8);
    let distance = Bits::new((bytes / 4 % (1 << 24)) as u32);
    Ok(Action::Branch { links, distance })
}

fn swi_at<'t>(labels: &Labels, text: &'t [u8]) -> Read<'t, ReadOutcome<Action>>
    ensures { read_of result ≡ swi_at (address_of labels.now) text.now }
{
    let (number, rest) = swi_number(labels, text)?;
    Some((swi_action(number), rest))
}

// A number of 24 bits.
fn swi_action(number: Value) -> ReadOutcome<Action>
    ensures { result ≡ swi_action number }
{
    let Some(number) = number else {
        return Err(Reason::UnknownLabel);
    };
    if number < 1 << 24 {
        Ok(Action::SoftwareInterrupt(Bits::new(number)))
    } else {
        Err(Reason::BadImmediate)
    }
}

// A call by its name, which wins over a label of that name, or an expression.
fn swi_number<'t>(labels: &Labels, text: &'t [u8]) -> Read<'t, Value>
    ensures { read_of result ≡ swi_number (address_of labels.now) text.now (byte 34 text.now) }
{
    match byte(b'"', text) {
        Some(after) => quoted_call(after),
        None => call_or_number(labels, text),
    }
}

fn call_or_number<'t>(labels: &Labels, text: &'t [u8]) -> Read<'t, Value>
    ensures { read_of result
        ≡ call_or_number (address_of labels.now) text.now (plain_call text.now) }
{
    match plain_call(text) {
        Some(number) => Some((Some(number), after_word(text))),
        None => expression(labels, text),
    }
}

// The name of a call after a double quote, with another after it.
fn quoted_call(text: &[u8]) -> Read<'_, Value>
    ensures { read_of result ≡ quoted_call text.now }
{
    let number = swi_named(word(text))?;
    Some((Some(number), byte(b'"', after_word(text))?))
}

// A word that names a call, unless `+` or `-` stands after it.
fn plain_call(text: &[u8]) -> Option<u32>
    ensures { result ≡ plain_call text.now }
{
    match sign(after_word(text)) {
        Some(_) => None,
        None => swi_named(word(text)),
    }
}
