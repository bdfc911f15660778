//! Calls that enter module code at once: OS_Module 2, by which a module is started as a program (RISC
//! OS 3 Programmer's Reference Manual, "OS_Module", reason 2), and SWIs of modules, which the module
//! whose chunk has the number handles in a frame.

ghost use Rattle.std.specs.Prelude.{◌≡◌, ◌<◌, ◌≤◌, ◌^◌, false, true, length};
ghost use Rattle.swi_dispatch_plans.specs.Doable.{is_used};

use crate::guest::Guest;
use profile::ErrorNumber;
use swi_dispatch_plans::{
    Call, Frame, FrameKind, Handler, MOST_FRAMES, Opening, Refusal, Start, enter_as_user,
    enter_swi, put_text,
};

impl Guest {
    ghost use Rattle.swi_dispatch_guest.specs.GuestState.{state_of};
    ghost use Rattle.swi_dispatch_guest.specs.MachineState.{silent, setting_of};
    ghost use Rattle.swi_dispatch_guest.specs.ModuleStart.{opened_at};
    ghost use Rattle.swi_dispatch_guest.specs.Step.{call_of, call_refused, handler_entered, module_entered, outcome_of_module_swi};
    ghost use Rattle.swi_dispatch_plans.specs.Openings.{opening_asked};
    ghost use Rattle.swi_dispatch_plans.specs.Lookup.{handler_of};
    ghost use Rattle.swi_dispatch_plans.specs.InstancesTableModules.{slots_of};

    /// OS_Module 2: R1 points to the name of an instance, R2 to a text. The call goes back, but the
    /// module is entered, if it has a start.
    pub(crate) fn enter_module(&mut self, call: Call)
        requires made { call ≡ call_of (state_of self.old) call.is_x call.next false }
        requires next { call.next < 2 ^ 26 }
        ensures { silent (state_of self.new) ≡ module_entered (state_of self.old) call.is_x call.next
            (opening_asked (setting_of (state_of self.old))) }
    {
        let opening = self.planner().opening();
        match opening {
            Ok(opening) => {
                self.go_back(call.caller, false, call.next);
                self.open_module(opening.start, opening.text.as_slice());
            }
            Err(error) => self.refuse_call(call, error),
        }
    }

    /// A module is entered with a text, if it has a start.
    pub(crate) fn open_module(&mut self, start: Start, text: &[u8])
        requires slot { start.slot < 64 }
        requires short { length text.now ≤ 255 }
        ensures { state_of self.new ≡ opened_at (state_of self.old) text.now start.slot start.at }
    {
        if let Some(at) = start.at {
            put_text(&mut self.memory, text);
            enter_as_user(&mut self.cpu, at, start.slot);
        }
    }

    /// A call that isn't the system's own.
    #[inline(never)]
    pub(crate) fn call_module(&mut self, call: Call, number: u32)
        requires made { call ≡ call_of (state_of self.old) call.is_x call.next false }
        requires next { call.next < 2 ^ 26 }
        ensures { silent (state_of self.new)
            ≡ outcome_of_module_swi (state_of self.old) call.is_x call.next number
            (handler_of number (state_of self.old).tables.modules) }
    {
        let Some(handler) = self.instances.handler_of(number) else {
            return self.refuse_call(call, ErrorNumber::SwiUnknown);
        };
        if self.frames.len() == MOST_FRAMES {
            return self.refuse_call(call, ErrorNumber::FrameLimit);
        }
        self.enter_handler(call, number, handler);
    }

    /// A call that is refused before it did anything.
    pub(crate) fn refuse_call(&mut self, call: Call, error: ErrorNumber)
        requires made { call ≡ call_of (state_of self.old) call.is_x call.next call.enters }
        ensures { silent (state_of self.new) ≡ call_refused (state_of self.old) call.is_x call.next error }
    {
        self.end_with_error(call, Refusal::System(error));
    }

    // The handler of a module is entered.
    fn enter_handler(&mut self, call: Call, number: u32, handler: Handler)
        requires room { length (state_of self.old).tables.frames < 32 }
        requires slot { handler.slot < 64 }
        requires held { is_used handler.slot (slots_of (state_of self.old).tables.modules) ≡ true }
        ensures { state_of self.new ≡ handler_entered (state_of self.old) call number handler }
    {
        self.frames.open(Frame::of(&self.cpu, call, FrameKind::Swi(number), handler.slot));
        enter_swi(&mut self.cpu, handler.at, number, handler.slot);
    }
}
