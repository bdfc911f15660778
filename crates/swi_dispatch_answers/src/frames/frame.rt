//! A frame: what was saved as module code was entered.

ghost use Rattle.std.specs.Prelude.{◌≡◌, ◌==◌};
ghost use Rattle.arm_core.specs.State.{register_in};
ghost use Rattle.arm_core.specs.declared.psr.Mode.TheVariants.{Supervisor};
ghost use Rattle.swi_dispatch_answers.specs.frames.Frames.{frame_of, shared_registers};

use crate::frames::call::Call;
use arm_core::{Cpu, Mode};
use instances_table::plans::CodeKind;

/// How many registers a frame can restore: R0 to R12.
pub const SAVED_REGISTERS: usize = 13;

/// What module code a frame was opened for.
#[derive(Clone, Copy)]
pub enum FrameKind {
    /// A SWI of the module, by its number without the X bit.
    Swi(u32),
    /// An entry of the module that a call on modules runs.
    Entry(CodeKind),
}

/// A frame: module code was entered.
#[derive(Clone, Copy)]
pub struct Frame {
    /// The call that the code was entered for.
    pub call: Call,
    pub kind: FrameKind,
    /// The slot of the instance whose code it is.
    pub slot: u32,
    /// R0 to R12 of the shared bank as they were before.
    pub saved: [u32; SAVED_REGISTERS],
    /// R13 of supervisor mode on entry.
    pub stack: u32,
}

impl Default for Frame {
    fn default() -> Frame {
        Frame {
            call: Call::default(),
            kind: FrameKind::Swi(0),
            slot: 0,
            saved: [0; SAVED_REGISTERS],
            stack: 0,
        }
    }
}

impl Frame {
    /// The frame of code that the core is about to enter.
    pub fn of(cpu: &Cpu, call: Call, kind: FrameKind, slot: u32) -> Frame
        ensures { result ≡ frame_of cpu.now call kind slot }
    {
        Frame {
            call,
            kind,
            slot,
            saved: shared_registers(cpu),
            stack: cpu.register_in(Mode::Supervisor, 13),
        }
    }

    /// Whether the code has left the stack of supervisor mode as it was on entry.
    pub fn has_its_stack(&self, cpu: &Cpu) -> bool
        ensures { result ≡ (register_in Supervisor cpu.now 13 == self.now.stack) }
    {
        cpu.register_in(Mode::Supervisor, 13) == self.stack
    }
}

// R0 to R12 of the shared bank.
fn shared_registers(cpu: &Cpu) -> [u32; SAVED_REGISTERS]
    ensures { result ≡ shared_registers cpu.now }
{
    cpu.known();
    let mut saved = [0; SAVED_REGISTERS];
    for number in 0..SAVED_REGISTERS {
        saved[number] = cpu.register_in(Mode::User, number as u32);
    }
    saved
}
