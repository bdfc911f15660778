//! What is kept of a line of a script.

ghost use Rattle.std.specs.Prelude.{◌≡◌, List, OnOk};
ghost use Rattle.debug_tables.specs.Session.{script_state};
ghost use Rattle.command_shell_lines.specs.Requests.{request_of_command};
ghost use Rattle.debug_lines.specs.SteppingRequests.{stepping_request_of};
ghost use Rattle.debug_history.specs.Noted.{has_returned, is_faulted, past_after_request, past_after_stepping, past_with_call, past_with_deed, past_with_gosub, past_with_steps, past_with_stubbed, steps_before};
ghost use Rattle.profile.specs.images.Entries.{Entry};

use crate::act::{Act, PastDeed};
use crate::kept_stubs::KeptStubs;
use crate::past::Past;
use arm_core::Psr;
use command_shell_lines::{KeptText, Origin, RegisterNumber, ScriptCommand};
use debug_lines::SteppingCommand;
use debug_tables::routines::ROUTINE_END;
use debug_tables::{Session, Stubs};
use profile::Stop;
use std::alloc::{AllocError, Global};

/// How a machine stands before a line that takes steps.
#[derive(Clone, Copy)]
pub struct StepsBefore {
    /// Whether it is halted.
    pub is_halted: bool,
    /// Its status.
    pub status: Psr,
    /// R14 of its mode.
    pub link: u32,
    /// Its program counter.
    pub place: Origin,
}

impl StepsBefore {
    /// How the session's machine stands.
    pub fn of(session: &Session) -> StepsBefore
        ensures { (images : List Entry) → result ≡ steps_before (script_state session.now images).machine }
    {
        let machine = session.machine();
        let cpu = machine.cpu();
        StepsBefore {
            is_halted: machine.stop().is_some(),
            status: cpu.psr(),
            link: cpu.register(14),
            place: Origin::new(cpu.pc()),
        }
    }
}

/// What is known of a line that took steps in modes.
#[derive(Clone, Copy)]
pub struct SteppingNote {
    /// How the machine stood before it.
    pub before: StepsBefore,
    /// How many steps were counted.
    pub taken: u64,
    /// Whether the machine is halted by a fault after it.
    pub has_faulted: bool,
    /// Whether a routine that it called has come back.
    pub has_returned: bool,
}

impl Past {
    /// A line of a script was answered, by which so many steps were counted, and after which the machine is
    /// halted by a fault or not.
    ///
    /// # Errors
    ///
    /// Memory ran out.
    pub fn note(
        &mut self,
        alloc: Global,
        line: u64,
        command: &ScriptCommand<'_>,
        taken: u64,
        has_faulted: bool,
    ) -> Result<(), AllocError>
        ensures { OnOk result (self.new ≡ past_after_request self.old line
            (request_of_command command.now) taken has_faulted) }
    {
        match *command {
            ScriptCommand::Set(register, value) => self.put(
                line,
                PastDeed::Register(register, value),
            ),
            ScriptCommand::Poke(address, value) => self.put(line, PastDeed::Word(address, value)),
            ScriptCommand::Boot(name) => self.put(line, PastDeed::Boot(KeptText::of(alloc, name)?)),
            ScriptCommand::Run | ScriptCommand::Step(_) => {
                self.put_steps(line, taken, has_faulted)
            }
            ScriptCommand::Call(number) => {
                let call = PastDeed::Call(number, taken > 0);
                self.put_call(line, call, KeptStubs::none(), taken, has_faulted)
            }
            ScriptCommand::Load(text) => {
                let call = PastDeed::Load(KeptText::of(alloc, text)?, taken > 0);
                self.put_call(line, call, KeptStubs::none(), taken, has_faulted)
            }
            ScriptCommand::Hex(_) | ScriptCommand::Asm(_, _) => {
                self.change_images_if(true);
                Ok(())
            }
            _ => Ok(()),
        }
    }

    /// A line took steps in modes, with these stubs.
    ///
    /// # Errors
    ///
    /// Memory ran out.
    pub fn note_stepping(
        &mut self,
        alloc: Global,
        line: u64,
        command: &SteppingCommand<'_>,
        stubs: &Stubs,
        note: SteppingNote,
    ) -> Result<(), AllocError>
        ensures { OnOk result (self.new ≡ past_after_stepping self.old line stubs.now note
            (stepping_request_of command.now)) }
    {
        let taken = note.taken;
        let has_faulted = note.has_faulted;
        let is_idle = note.before.is_halted || (taken == 0 && !has_faulted);
        let kept = KeptStubs::of(alloc, stubs)?;
        match *command {
            SteppingCommand::Call(number) => {
                let call = PastDeed::Call(number, taken > 0);
                self.put_call(line, call, kept, taken, has_faulted)
            }
            SteppingCommand::Load(text) => {
                let call = PastDeed::Load(KeptText::of(alloc, text)?, taken > 0);
                self.put_call(line, call, kept, taken, has_faulted)
            }
            SteppingCommand::Gosub(address) if !is_idle => {
                self.put_gosub(line, address, kept, note)
            }
            _ => self.put_stubbed(line, kept, taken, has_faulted),
        }
    }

    /// A line did this.
    ///
    /// # Errors
    ///
    /// Memory ran out.
    pub fn put(&mut self, line: u64, deed: PastDeed) -> Result<(), AllocError>
        ensures { OnOk result (self.new ≡ past_with_deed self.old line deed) }
    {
        self.add(Act { line, deed })
    }

    /// A line took so many steps that were counted, and then one that ended in a fault, if the machine is
    /// halted by one.
    ///
    /// # Errors
    ///
    /// Memory ran out.
    pub fn put_steps(&mut self, line: u64, taken: u64, has_faulted: bool) -> Result<(), AllocError>
        ensures { OnOk result (self.new ≡ past_with_steps self.old line taken has_faulted) }
    {
        self.put_stubbed(line, KeptStubs::none(), taken, has_faulted)
    }

    // The same, with stubs.
    fn put_stubbed(
        &mut self,
        line: u64,
        stubs: KeptStubs,
        taken: u64,
        has_faulted: bool,
    ) -> Result<(), AllocError>
        ensures { OnOk result (self.new ≡ past_with_stubbed self.old line stubs taken has_faulted) }
    {
        self.put(line, PastDeed::Steps(stubs, taken))?;
        if has_faulted {
            return self.put(line, PastDeed::FaultingStep);
        }
        Ok(())
    }

    // A line made a call from outside, if it could.
    fn put_call(
        &mut self,
        line: u64,
        call: PastDeed,
        stubs: KeptStubs,
        taken: u64,
        has_faulted: bool,
    ) -> Result<(), AllocError>
        ensures { OnOk result (self.new ≡ past_with_call self.old line call stubs taken has_faulted) }
    {
        if taken > 0 {
            self.put(line, call)?;
            self.put_stubbed(line, stubs, taken - 1, has_faulted)
        } else if has_faulted {
            self.put(line, call)
        } else {
            Ok(())
        }
    }

    // A line called a routine.
    fn put_gosub(
        &mut self,
        line: u64,
        address: Origin,
        stubs: KeptStubs,
        note: SteppingNote,
    ) -> Result<(), AllocError>
        ensures { OnOk result (self.new ≡ past_with_gosub self.old line address stubs note) }
    {
        let before = note.before;
        let back = before.status.bits() + ROUTINE_END;
        self.put(line, PastDeed::Routine(address, back))?;
        self.put_stubbed(line, stubs, note.taken, note.has_faulted)?;
        if note.has_returned {
            let mode = before.status.mode;
            let link = RegisterNumber::new(14);
            self.put(line, PastDeed::Banked(mode, link, before.link))?;
            return self.put(line, PastDeed::Place(before.place));
        }
        Ok(())
    }
}

/// Whether the session's machine is halted by a fault.
pub fn is_faulted(session: &Session) -> bool
    ensures { (images : List Entry) → result ≡ is_faulted (script_state session.now images).machine.halt }
{
    matches!(session.machine().stop(), Some(Stop::Fault(_)))
}

/// Whether a routine has come back, by how the steps of the line ended that called it.
pub fn has_returned(ending: &[u8]) -> bool
    ensures { result ≡ has_returned ending.now }
{
    matches!(ending, [b'r', ..])
}
