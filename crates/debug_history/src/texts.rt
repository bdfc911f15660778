//! The texts of what lines are answered that have to do with the past.

ghost use Rattle.std.specs.Prelude.{◌≡◌, ◌++◌, codes, IfOk, IfSome, OnOk};
ghost use Rattle.debug_history.specs.Texts.{bank_text, found_text, last_seen_text, looked_text, never_text, value_text, when_found_text};
ghost use Rattle.profile.specs.Digits.{hex_word};
ghost use Rattle.std.specs.Fmt.{decimal};
ghost use Rattle.std.specs.List.{flat_map};

use crate::search::{PastFound, Sought};
use arm_core::Mode;
use command_shell_lines::debug_words::push_address;
use itoa::Buffer;
use profile::HexText;
use std::alloc::{AllocError, Global};

/// What changed a part of the machine last, where so many steps were counted in all.
///
/// # Errors
///
/// Memory ran out.
pub(crate) fn last_seen_line(
    alloc: Global,
    sought: &Sought,
    steps: u64,
    found: Option<PastFound>,
) -> Result<Vec<u8>, AllocError>
    ensures { IfOk result (λ text. text.items ≡ last_seen_text sought.now steps found) }
{
    let Some(found) = found else {
        return Vec::from_slice(alloc, never_text(sought));
    };
    let mut text = Vec::new(alloc);
    push_found(&mut text, steps, sought, &found)?;
    Ok(text)
}

fn push_found(
    text: &mut Vec<u8>,
    steps: u64,
    sought: &Sought,
    found: &PastFound,
) -> Result<(), AllocError>
    ensures { OnOk result (text.new.items ≡ text.old.items ++ found_text sought.now steps found.now) }
{
    push_when(text, steps, found)?;
    push_looked(text, sought)?;
    let after = HexText::word(found.after.unwrap_or(0));
    let before = HexText::word(found.before.unwrap_or(0));
    let after = shown(sought, found.after, &after);
    let before = shown(sought, found.before, &before);
    let (was, end) = (b" was ".as_slice(), b"\n".as_slice());
    push_parts(text, &[after, was, before, end])
}

fn push_when(text: &mut Vec<u8>, steps: u64, found: &PastFound) -> Result<(), AllocError>
    ensures { OnOk result (text.new.items
        ≡ text.old.items ++ (when_found_text found.now.is_step steps found.now ++ codes ": ")) }
{
    if found.is_step {
        text.extend_from_slice(b"step ")?;
    } else {
        let mut line = Buffer::new();
        let line = line.format(found.line).as_bytes();
        push_parts(text, &[b"line ".as_slice(), line, b" at step ".as_slice()])?;
    }
    let (mut step, mut back) = (Buffer::new(), Buffer::new());
    let step = step.format(found.step).as_bytes();
    let back = back.format(steps.saturating_sub(found.step)).as_bytes();
    push_parts(text, &[step, b", ".as_slice(), back, b" back: ".as_slice()])
}

fn push_looked(text: &mut Vec<u8>, sought: &Sought) -> Result<(), AllocError>
    ensures { OnOk result (text.new.items ≡ text.old.items ++ looked_text sought.now) }
{
    match sought {
        Sought::Word(address) => push_address(text, address.address()),
        Sought::Byte(address) => push_address(text, *address),
        Sought::Register(_, number) => push_register(text, number.number(), b"="),
        Sought::Banked(mode, number) => push_register(text, number.number(), bank_text(*mode)),
        Sought::Status => text.extend_from_slice(b"FLAGS="),
        Sought::Stood(_) => text.extend_from_slice(b"PC="),
        _ => text.extend_from_slice(b"block "),
    }
}

fn push_register(text: &mut Vec<u8>, number: u32, behind: &[u8]) -> Result<(), AllocError>
    ensures { OnOk result (text.new.items
        ≡ text.old.items ++ (codes "R" ++ (decimal number ++ behind.now))) }
{
    let mut digits = Buffer::new();
    let number = digits.format(number).as_bytes();
    push_parts(text, &[b"R".as_slice(), number, behind])
}

// Puts parts behind a text, one after another.
fn push_parts(text: &mut Vec<u8>, parts: &[&[u8]]) -> Result<(), AllocError>
    ensures { OnOk result (text.new.items ≡ text.old.items ++ flat_map (λ part. part.now) parts.now) }
{
    for part in parts {
        text.extend_from_slice(part)?;
    }
    Ok(())
}

// What stands behind the name of a register of a bank.
fn bank_text(mode: Mode) -> &'static [u8]
    ensures { result.now ≡ bank_text mode }
{
    match mode {
        Mode::User => b"_usr=",
        Mode::FastInterrupt => b"_fiq=",
        Mode::Interrupt => b"_irq=",
        Mode::Supervisor => b"_svc=",
    }
}

// What is answered where it never was so.
fn never_text(sought: &Sought) -> &'static [u8]
    ensures { result.now ≡ never_text sought.now }
{
    match sought {
        Sought::Claimed(_) => b"no claim since step 0\n",
        Sought::Freed(_) => b"no free since step 0\n",
        _ => b"no change since step 0\n",
    }
}

// A value, of which these are the digits where there is one, or what stands in its place.
fn shown<'a>(sought: &Sought, value: Option<u32>, digits: &'a HexText) -> &'a [u8]
    requires { IfSome value (λ value. digits.now ≡ hex_word value) }
    ensures { result.now ≡ value_text sought.now value }
{
    match (value, sought) {
        (None, Sought::Byte(_)) => b"--",
        (None, Sought::Block(_) | Sought::Claimed(_) | Sought::Freed(_)) => b"none",
        (None, _) => b"--------",
        (Some(_), Sought::Byte(_)) => digits.as_slice().get(6..).unwrap_or(b""),
        (Some(_), _) => digits.as_slice(),
    }
}
