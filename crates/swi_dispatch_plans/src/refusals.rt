//! What refuses a call on modules while module code is under way.

ghost use Rattle.std.specs.Prelude.{◌≡◌, [], false, IfOk};
ghost use Rattle.swi_dispatch_answers.specs.frames.Busy.{has_swi_of};
ghost use Rattle.swi_dispatch_plans.specs.Beginning.{IsFree, SparesTitled};
ghost use Rattle.swi_dispatch_plans.specs.ImagePlans.{may_load, may_replace};
ghost use Rattle.swi_dispatch_plans.specs.ModulePlans.{may_begin_alone, may_finalise};
ghost use Rattle.swi_dispatch_plans.specs.PlannerInput.{setting_in};

use crate::planner::Planner;
use profile::ErrorNumber;
use swi_dispatch_answers::frames::MOST_FRAMES;

impl<'a> Planner<'a> {
    // Whether a call that finalises these instances may begin.
    pub(crate) fn may_finalise(&self, slots: &[u32]) -> Result<(), ErrorNumber>
        ensures value { result ≡ may_finalise slots.now (setting_in self.now) }
        ensures free { IfOk result (λ _. IsFree (setting_in self.now)) }
        ensures spared { IfOk result (λ _. has_swi_of slots.now (setting_in self.now).frames ≡ false) }
    {
        if self.plan.is_some() || self.frames.has_swi_of(slots) {
            return Err(ErrorNumber::ModuleBusy);
        }
        if self.frames.len() == MOST_FRAMES {
            return Err(ErrorNumber::FrameLimit);
        }
        Ok(())
    }

    // Whether a call may begin that no module code under way allows.
    pub(crate) fn may_begin_alone(&self) -> Result<(), ErrorNumber>
        ensures value { result ≡ may_begin_alone (setting_in self.now) }
        ensures free { IfOk result (λ _. IsFree (setting_in self.now)) }
        ensures alone { IfOk result (λ _. (setting_in self.now).frames ≡ []) }
    {
        if self.plan.is_some() || self.frames.len() > 0 {
            return Err(ErrorNumber::ModuleBusy);
        }
        Ok(())
    }

    // Whether a load of a module of a title may begin.
    pub(crate) fn may_load(&self, must_be_alone: bool, title: &[u8]) -> Result<(), ErrorNumber>
        ensures value { result ≡ may_load must_be_alone title.now (setting_in self.now) }
        ensures free { IfOk result (λ _. IsFree (setting_in self.now)) }
        ensures spared { IfOk result (λ _. SparesTitled (setting_in self.now) title.now) }
    {
        if must_be_alone {
            return self.may_begin_alone();
        }
        self.may_replace(title)
    }

    // Whether a call may begin that takes an older module of a title away.
    pub(crate) fn may_replace(&self, title: &[u8]) -> Result<(), ErrorNumber>
        ensures value { result ≡ may_replace title.now (setting_in self.now) }
        ensures free { IfOk result (λ _. IsFree (setting_in self.now)) }
        ensures spared { IfOk result (λ _. SparesTitled (setting_in self.now) title.now) }
    {
        let older = self.instances.slots_of_title(title);
        self.may_finalise(older.as_slice())
    }
}
