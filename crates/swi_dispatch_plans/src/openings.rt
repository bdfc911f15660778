//! OS_Module 2, enter: what it is given, what it refuses, and the core as a module is started (RISC
//! OS 3 Programmer's Reference Manual, "OS_Module", reason 2).

ghost use Rattle.std.specs.Prelude.{◌≡◌, ◌<◌, IfOk};
ghost use Rattle.swi_dispatch_plans.specs.Openings.{as_user, opening_asked};
ghost use Rattle.swi_dispatch_plans.specs.PlannerInput.{setting_in};

use crate::planner::Planner;
use arrayvec::ArrayVec;
use instances::Start;
use profile::ErrorNumber;
use profile::memory_map::ENVIRONMENT_TEXT;
use swi_dispatch_answers::{Cpu, MAX_TEXT, Mode, Psr, private_word};

/// A user's program finds all flags clear.
const USER: Psr = Psr {
    negative: false,
    zero: false,
    carry: false,
    overflow: false,
    interrupts_off: false,
    fast_interrupts_off: false,
    mode: Mode::User,
};

/// A module that is to be started, and the text that it finds.
#[derive(Drop)]
pub struct Opening {
    pub start: Start,
    pub text: ArrayVec<u8, MAX_TEXT>,
}

impl<'a> Planner<'a> {
    /// OS_Module 2: R1 points to the name of an instance, R2 to a text.
    ///
    /// # Errors
    ///
    /// The first of these: `BadString` where a string can't be read; `ModuleNotFound` where there
    /// is no instance of the name; `ModuleBusy` while a frame is open.
    pub fn opening(&self) -> Result<Opening, ErrorNumber>
        ensures value { result ≡ opening_asked (setting_in self.now) }
        ensures below { IfOk result (λ o. o.start.slot < 64) }
    {
        let name = self.string(1)?;
        let text = self.string(2)?;
        let start = self.instances.start(name.as_slice())?;
        if self.frames.len() > 0 {
            return Err(ErrorNumber::ModuleBusy);
        }
        Ok(Opening { start, text })
    }
}

/// The core goes to the start of a module.
pub fn enter_as_user(cpu: &mut Cpu, at: u32, slot: u32)
    requires { slot < 64 }
    ensures { cpu.new ≡ as_user cpu.old at slot }
{
    cpu.set_psr(USER);
    cpu.set_register_in(Mode::User, 10, ENVIRONMENT_TEXT);
    cpu.set_register_in(Mode::User, 12, private_word(slot));
    cpu.set_pc(at);
}
