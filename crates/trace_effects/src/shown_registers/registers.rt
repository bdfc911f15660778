//! The registers that a step writes, and those that differ after it.

ghost use Rattle.std.specs.Prelude.{◌≡◌, ◌<◌, false};
ghost use Rattle.trace_effects.specs.changes.Laws.{registers_after};

use crate::changes::{REGISTERS, RegisterChange, home_of};
use arm_core::{Cpu, Mode};
use arrayvec::ArrayVec;

/// Registers that are written, though their values may stay the same.
#[derive(Clone, Copy)]
pub struct WrittenRegisters {
    marks: [bool; REGISTERS],
}

impl WrittenRegisters {
    /// None.
    pub fn new() -> WrittenRegisters {
        WrittenRegisters {
            marks: [false; REGISTERS],
        }
    }

    /// One more: the register of a number in a mode. R15 is none of them.
    pub fn add(&mut self, mode: Mode, number: u32) {
        if number < 15 {
            self.marks[place_of(mode, number)] = true;
        }
    }

    /// One more: R14 of supervisor mode, which a SWI writes.
    pub fn add_link(&mut self) {
        self.add(Mode::Supervisor, 14);
    }

    /// Whether the register at a place is one.
    pub fn has(&self, place: u32) -> bool {
        match self.marks.get(place as usize) {
            Some(mark) => *mark,
            None => false,
        }
    }
}

// The place of a register in the file of all banks.
fn place_of(mode: Mode, number: u32) -> usize
    requires { number < 15 }
    ensures { result < 26 }
{
    let shared = number as usize;
    match mode {
        Mode::FastInterrupt if shared >= 8 => shared + 7,
        Mode::Interrupt if shared >= 13 => shared + 9,
        Mode::Supervisor if shared >= 13 => shared + 11,
        _ => shared,
    }
}

/// The registers of all banks that are written or differ, in the order of their places, each with its
/// old value and its new one. Whoever has the registers before, and gives each of these its new value,
/// has the registers after.
#[tactic(auto, using(crate::proofs::ShownRegistersLemmas::ShownLemmas::shown_steps))]
pub fn shown_registers(
    before: &Cpu,
    after: &Cpu,
    written: &WrittenRegisters,
) -> ArrayVec<RegisterChange, REGISTERS>
    ensures replays { registers_after before.now.file result.items ≡ after.now.file }
{
    before.known();
    after.known();
    let mut reported = ArrayVec::new();
    for place in 0..REGISTERS as u32 {
        let (mode, number) = home_of(place);
        let old = before.register_in(mode, number);
        let new = after.register_in(mode, number);
        if is_shown(old, new, written.has(place)) {
            reported.push(RegisterChange { place, old, new });
        }
    }
    reported
}

fn is_shown(old: u32, new: u32, is_written: bool) -> bool
    ensures { result ≡ false → old ≡ new }
{
    is_written || old != new
}
