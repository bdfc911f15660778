//! The registers that differ between two cores.

ghost use Rattle.std.specs.Prelude.{◌≡◌, ◌<◌, ◌≤◌, max};
ghost use Rattle.arm_core.specs.State.{slot_of};
ghost use Rattle.trace_effects.specs.changes.Registers.{IsBank, IsNextChange, IsNextIn, home_of};

use arm_core::{Cpu, Mode};

/// How many registers a core has: those of all banks.
pub const REGISTERS: usize = 26;

/// A register that differs: its place in the file of all banks, its old value and its new one.
#[derive(Clone, Copy, Default)]
pub struct RegisterChange {
    /// R0 to R14 of USR are 0 to 14, R8 to R14 of FIQ 15 to 21, R13 and R14 of IRQ 22 and 23, and of
    /// SVC 24 and 25.
    pub place: u32,
    pub old: u32,
    pub new: u32,
}

/// The first register from a place on that differs, by the places of the registers of all banks. Most code
/// runs in user mode, and there each register lies at a place that is known where this is compiled.
pub fn next_change(before: &Cpu, after: &Cpu, from: u32) -> Option<RegisterChange>
    requires { from ≤ 26 }
    ensures { IsNextChange before.now after.now from result }
{
    match (before.psr().mode, after.psr().mode) {
        (Mode::User, Mode::User) => next_by_banks(before, after, from),
        _ => next_of_all(before, after, from),
    }
}

#[inline(always)]
fn next_by_banks(before: &Cpu, after: &Cpu, from: u32) -> Option<RegisterChange>
    requires { from ≤ 26 }
    ensures { IsNextChange before.now after.now from result }
{
    let users = next_in_bank(before, after, Mode::User, 0, from, 0, 15);
    if users.is_some() {
        return users;
    }
    let fast = next_in_bank(before, after, Mode::FastInterrupt, 7, from, 15, 22);
    if fast.is_some() {
        return fast;
    }
    let interrupts = next_in_bank(before, after, Mode::Interrupt, 9, from, 22, 24);
    if interrupts.is_some() {
        return interrupts;
    }
    next_in_bank(before, after, Mode::Supervisor, 11, from, 24, 26)
}

// That of the places from `first` up to `end`, where a mode's registers lie so many places behind their
// numbers. The mode is known where this is called, so that no look-up of a register asks for it.
#[inline(always)]
fn next_in_bank(
    before: &Cpu,
    after: &Cpu,
    mode: Mode,
    behind: u32,
    from: u32,
    first: u32,
    end: u32,
) -> Option<RegisterChange>
    requires bank { IsBank mode behind first end }
    requires range { first ≤ end }
    requires inside { end ≤ 26 }
    ensures { IsNextIn before.now.file after.now.file (max from first) (max from end) result }
{
    for place in from.max(first)..end {
        let old = before.register_in(mode, place - behind);
        let new = after.register_in(mode, place - behind);
        if old != new {
            return Some(RegisterChange { place, old, new });
        }
    }
    None
}

// The same, whatever the modes are.
fn next_of_all(before: &Cpu, after: &Cpu, from: u32) -> Option<RegisterChange>
    requires { from ≤ 26 }
    ensures { IsNextChange before.now after.now from result }
{
    for place in from..REGISTERS as u32 {
        let (mode, number) = home_of(place);
        let old = before.register_in(mode, number);
        let new = after.register_in(mode, number);
        if old != new {
            return Some(RegisterChange { place, old, new });
        }
    }
    None
}

/// The bank and the number of the register at a place.
pub fn home_of(place: u32) -> (Mode, u32)
    ensures value { result ≡ home_of place }
    ensures number { place < 26 → result.1 < 15 }
    ensures home { place < 26 → slot_of result.0 result.1 ≡ place }
{
    if place < 15 {
        (Mode::User, place)
    } else if place < 22 {
        (Mode::FastInterrupt, place - 7)
    } else if place < 24 {
        (Mode::Interrupt, place - 9)
    } else {
        (Mode::Supervisor, place - 11)
    }
}
