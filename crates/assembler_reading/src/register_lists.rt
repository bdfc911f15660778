//! The register lists of LDM and STM.

ghost use Rattle.std.specs.Prelude.{◌≡◌, ◌<◌};
ghost use Rattle.assembler_text.specs.naming.Words.{byte, read_of};
ghost use Rattle.assembler_reading.specs.RegisterLists.{block_transfer_text_at, last_register, more_registers, register_list, register_range, with_range, list_with_register};

use crate::operands::ReadOutcome;
use arm_decode::{Action, BlockMode, BlockTransfer, Register, RegisterList};
use assembler_text::naming::Read;
use assembler_text::naming::names::register;
use assembler_text::naming::words::{byte, comma, mark};

/// The operands of LDM or STM: `Rn!,{R0,R4-R6}^`.
pub fn block_at(loads: bool, mode: BlockMode, text: &[u8]) -> Read<'_, ReadOutcome<Action>>
    ensures { read_of result ≡ block_transfer_text_at loads mode text.now }
{
    let Some((rn, rest)) = register(text) else {
        return None;
    };
    let (writes_back, rest) = mark(b'!', rest);
    let Some((list, rest)) = register_list(comma(rest)?) else {
        return None;
    };
    let (psr_or_user, rest) = mark(b'^', rest);
    let block = BlockTransfer {
        loads,
        mode,
        psr_or_user,
        writes_back,
        rn,
        list,
    };
    Some((Ok(Action::BlockTransfer(block)), rest))
}

// `{R0,R4-R6}`.
fn register_list(text: &[u8]) -> Read<'_, RegisterList>
    ensures { read_of result ≡ register_list text.now }
{
    let rest = byte(b'{', text)?;
    more_registers(rest.len(), rest)
}

// The registers and ranges up to the closing brace, at most `count`.
fn more_registers(count: usize, text: &[u8]) -> Read<'_, RegisterList>
    ensures { read_of result ≡ more_registers count 0 text.now }
{
    let mut list = RegisterList::new(0);
    let mut rest = text;
    for _ranges in 0..count {
        let Some(((first, last), behind)) = register_range(rest) else {
            return None;
        };
        list = with_range(list, first, last);
        let Some(after) = comma(behind) else {
            return Some((list, byte(b'}', behind)?));
        };
        rest = after;
    }
    None
}

// `R0` or `R0-R3`, as its first and its last register.
fn register_range(text: &[u8]) -> Read<'_, (Register, Register)>
    ensures { read_of result ≡ register_range text.now }
{
    let Some((first, rest)) = register(text) else {
        return None;
    };
    let Some((last, rest)) = last_register(first, rest) else {
        return None;
    };
    Some(((first, last), rest))
}

// After a register a minus and one that is no lower, or else the register itself.
fn last_register(first: Register, text: &[u8]) -> Read<'_, Register>
    ensures { read_of result ≡ last_register first text.now (byte 45 text.now) }
{
    let Some(after) = byte(b'-', text) else {
        return Some((first, text));
    };
    let Some((last, rest)) = register(after) else {
        return None;
    };
    if first.number() <= last.number() {
        Some((last, rest))
    } else {
        None
    }
}

// The list with the registers of a range.
fn with_range(list: RegisterList, first: Register, last: Register) -> RegisterList
    ensures { result ≡ with_range list first last }
{
    let mut all = list;
    for number in first.number()..last.number() + 1 {
        all = with_register(all, Register::new(number as u8));
    }
    all
}

// The list with one more register, which may be there already.
fn with_register(list: RegisterList, register: Register) -> RegisterList
    ensures { result ≡ list_with_register list register }
{
    if list.contains(register) {
        list
    } else {
        RegisterList::new((list.bits() + (1 << register.number())) as u16)
    }
}
