//! The core on its way out of module code.

ghost use Rattle.std.specs.Prelude.{◌≡◌, ◌≤◌, ◌-◌, length};
ghost use Rattle.swi_dispatch_answers.specs.frames.Leaving.{first_restored, left, state_with_saved_words, status_left};

use crate::frames::frame::{Frame, FrameKind, SAVED_REGISTERS};
use arm_core::{Cpu, Mode, Psr};

impl Frame {
    /// The core comes back from module code to where the call goes on. After a SWI, R0 to R9 and
    /// the flags N, Z, C and V stay as the code left them; after another entry nothing does, and
    /// whether it refused is for the caller to read before.
    pub fn leave(&self, cpu: &mut Cpu)
        ensures { cpu.new ≡ left cpu.old self.now }
    {
        let status = status_left(self.kind, cpu.psr(), self.call.caller);
        restore(cpu, &self.saved, first_restored(self.kind));
        cpu.set_psr(status);
        cpu.set_pc(self.call.next);
    }
}

fn first_restored(kind: FrameKind) -> usize
    ensures value { result ≡ first_restored kind }
    ensures most { result ≤ 13 }
{
    match kind {
        FrameKind::Swi(_) => 10,
        FrameKind::Entry(_) => 0,
    }
}

// After a SWI the flags are as the code left them, the mode and the masks as the caller had them.
fn status_left(kind: FrameKind, now: Psr, caller: Psr) -> Psr
    ensures { result ≡ status_left kind now caller }
{
    match kind {
        FrameKind::Swi(_) => Psr {
            negative: now.negative,
            zero: now.zero,
            carry: now.carry,
            overflow: now.overflow,
            ..caller
        },
        FrameKind::Entry(_) => caller,
    }
}

// The registers of the shared bank, from one on to R12, get their old words.
fn restore(cpu: &mut Cpu, saved: &[u32; SAVED_REGISTERS], first: usize)
    requires { first ≤ 13 }
    ensures { cpu.new ≡ state_with_saved_words first (13 - first) saved.now cpu.old }
{
    for number in first..SAVED_REGISTERS {
        cpu.set_register_in(Mode::User, number as u32, saved[number]);
    }
}
