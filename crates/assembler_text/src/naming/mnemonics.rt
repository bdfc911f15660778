//! The words that name an instruction: a name, a condition or none, and suffixes.

ghost use Rattle.std.specs.Prelude.{◌≡◌, drop, take};
ghost use Rattle.assembler_text.specs.naming.Mnemonics.{block_mnemonic, condition_and_rest, first_name, flag_text, swi_mnemonic, linked_branch, mnemonic_named, multiply_mnemonic, operate_mnemonic, plain_branch, suffix, transfer_mnemonic, transfer_suffix};

use crate::naming::names::{block_mode_named, condition_named, operation_named};
use crate::naming::words::is_name;
use arm_decode::{BlockMode, Condition, Operation};

/// What the operands of an instruction are read for.
#[derive(Clone, Copy)]
pub enum Command {
    /// AND to MVN. The flag is S, or of a test P.
    Operate {
        operation: Operation,
        flag: bool,
    },
    /// MUL, MLA.
    Multiply {
        accumulates: bool,
        sets_flags: bool,
    },
    /// LDR, STR, with B for a byte and T for a transfer of user mode.
    Transfer {
        loads: bool,
        is_byte: bool,
        translates: bool,
    },
    /// LDM, STM.
    BlockTransfer {
        loads: bool,
        mode: BlockMode,
    },
    /// B, BL.
    Branch {
        links: bool,
    },
    /// SWI.
    SoftwareInterrupt,
}

/// The first word of an instruction.
#[derive(Clone, Copy)]
pub struct Mnemonic {
    /// When the instruction is carried out.
    pub condition: Condition,
    /// What it does.
    pub command: Command,
}

/// The mnemonic that a word is, in letters of either case.
pub fn mnemonic_named(name: &[u8]) -> Option<Mnemonic>
    ensures { result ≡ mnemonic_named name.now }
{
    operate_mnemonic(name)
        .or(multiply_mnemonic(name))
        .or(transfer_mnemonic(name))
        .or(block_mnemonic(name))
        .or(swi_mnemonic(name))
        .or(linked_branch(name))
        .or(plain_branch(name))
}

fn operate_mnemonic(name: &[u8]) -> Option<Mnemonic>
    ensures { result ≡ operate_mnemonic name.now }
{
    let operation = operation_named(front(name, 3))?;
    let (condition, letters) = conditioned(behind(name, 3));
    let flag = suffix(flag_text(operation), letters)?;
    Some(Mnemonic {
        condition,
        command: Command::Operate { operation, flag },
    })
}

fn multiply_mnemonic(name: &[u8]) -> Option<Mnemonic>
    ensures { result ≡ multiply_mnemonic name.now }
{
    let accumulates = first_name(b"MLA", b"MUL", front(name, 3))?;
    let (condition, letters) = conditioned(behind(name, 3));
    let sets_flags = suffix(b"S", letters)?;
    Some(Mnemonic {
        condition,
        command: Command::Multiply {
            accumulates,
            sets_flags,
        },
    })
}

fn transfer_mnemonic(name: &[u8]) -> Option<Mnemonic>
    ensures { result ≡ transfer_mnemonic name.now }
{
    let loads = first_name(b"LDR", b"STR", front(name, 3))?;
    let (condition, letters) = conditioned(behind(name, 3));
    let (is_byte, translates) = transfer_suffix(letters)?;
    Some(Mnemonic {
        condition,
        command: Command::Transfer {
            loads,
            is_byte,
            translates,
        },
    })
}

fn block_mnemonic(name: &[u8]) -> Option<Mnemonic>
    ensures { result ≡ block_mnemonic name.now }
{
    let loads = first_name(b"LDM", b"STM", front(name, 3))?;
    let (condition, letters) = conditioned(behind(name, 3));
    let mode = block_mode_named(loads, letters)?;
    Some(Mnemonic {
        condition,
        command: Command::BlockTransfer { loads, mode },
    })
}

fn swi_mnemonic(name: &[u8]) -> Option<Mnemonic>
    ensures { result ≡ swi_mnemonic name.now }
{
    if !is_name(front(name, 3), b"SWI") {
        return None;
    }
    let condition = condition_named(behind(name, 3))?;
    Some(Mnemonic {
        condition,
        command: Command::SoftwareInterrupt,
    })
}

fn linked_branch(name: &[u8]) -> Option<Mnemonic>
    ensures { result ≡ linked_branch name.now }
{
    if !is_name(front(name, 2), b"BL") {
        return None;
    }
    let condition = condition_named(behind(name, 2))?;
    Some(Mnemonic {
        condition,
        command: Command::Branch { links: true },
    })
}

fn plain_branch(name: &[u8]) -> Option<Mnemonic>
    ensures { result ≡ plain_branch name.now }
{
    if !is_name(front(name, 1), b"B") {
        return None;
    }
    let condition = condition_named(behind(name, 1))?;
    Some(Mnemonic {
        condition,
        command: Command::Branch { links: false },
    })
}

// The condition at the front, and the letters that follow it.
fn conditioned(letters: &[u8]) -> (Condition, &[u8])
    ensures { (result.0, result.1.now) ≡ condition_and_rest letters.now }
{
    match condition_named(front(letters, 2)) {
        Some(condition) => (condition, behind(letters, 2)),
        None => (Condition::Always, letters),
    }
}

// Whether a suffix is there, with nothing after it.
fn suffix(name: &[u8], letters: &[u8]) -> Option<bool>
    ensures { result ≡ suffix name.now letters.now }
{
    if letters.is_empty() {
        Some(false)
    } else if is_name(letters, name) {
        Some(true)
    } else {
        None
    }
}

// Whether it is the first of two names.
fn first_name(first: &[u8], second: &[u8], name: &[u8]) -> Option<bool>
    ensures { result ≡ first_name first.now second.now name.now }
{
    if is_name(name, first) {
        Some(true)
    } else if is_name(name, second) {
        Some(false)
    } else {
        None
    }
}

fn flag_text(operation: Operation) -> &'static [u8]
    ensures { result.now ≡ flag_text operation }
{
    if operation.is_test() { b"P" } else { b"S" }
}

fn transfer_suffix(letters: &[u8]) -> Option<(bool, bool)>
    ensures { result ≡ transfer_suffix letters.now }
{
    if is_name(letters, b"") {
        Some((false, false))
    } else if is_name(letters, b"B") {
        Some((true, false))
    } else if is_name(letters, b"T") {
        Some((false, true))
    } else if is_name(letters, b"BT") {
        Some((true, true))
    } else {
        None
    }
}

// The first letters of a word, or all of it.
fn front(name: &[u8], count: usize) -> &[u8]
    ensures { result.now ≡ take count name.now }
{
    &name[..count.min(name.len())]
}

// The letters after the first.
fn behind(name: &[u8], count: usize) -> &[u8]
    ensures { result.now ≡ drop count name.now }
{
    &name[count.min(name.len())..]
}
