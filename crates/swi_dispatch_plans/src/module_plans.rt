//! OS_Module, the reasons that may run module code of instances that are there (RISC OS 3
//! Programmer's Reference Manual, "OS_Module", reasons 3, 4, 8 and 9).

ghost use Rattle.std.specs.Prelude.{◌≡◌, IfOk};
ghost use Rattle.swi_dispatch_plans.specs.Beginning.{CanBegin};
ghost use Rattle.swi_dispatch_plans.specs.ModulePlans.{clear_planned, delete_planned, reinit_planned, tidy_planned};
ghost use Rattle.swi_dispatch_plans.specs.PlannerInput.{setting_in};

use crate::planner::Planner;
use instances::Plan;
use profile::ErrorNumber;
use swi_dispatch_answers::words::{name_part, text_part};

impl<'a> Planner<'a> {
    /// OS_Module 3: R1 points to a name and a text.
    ///
    /// # Errors
    ///
    /// The first of these: `BadString` where the string can't be read; `ModuleNotFound` where there
    /// is no instance of the name; `ModuleBusy` while an initialisation or a finalisation is under
    /// way, or a SWI of the instance; `FrameLimit` where no frame more can be opened.
    pub fn reinit(&self) -> Result<Plan, ErrorNumber>
        ensures value { result ≡ reinit_planned (setting_in self.now) }
        ensures begins { IfOk result (CanBegin (setting_in self.now)) }
    {
        let words = self.string(1)?;
        let name = name_part(words.as_slice());
        let slot = self.instances.slot(name)?;
        self.may_finalise(&[slot])?;
        self.instances
            .plan_reinit(name, text_part(words.as_slice()))
    }

    /// OS_Module 4: R1 points to a name.
    ///
    /// # Errors
    ///
    /// As `reinit`.
    pub fn delete(&self) -> Result<Plan, ErrorNumber>
        ensures value { result ≡ delete_planned (setting_in self.now) }
        ensures begins { IfOk result (CanBegin (setting_in self.now)) }
    {
        let name = self.string(1)?;
        let slot = self.instances.slot(name.as_slice())?;
        self.may_finalise(&[slot])?;
        self.instances.plan_delete(name.as_slice())
    }

    /// OS_Module 8: the caller goes on at `next`.
    ///
    /// # Errors
    ///
    /// `ModuleBusy` while an initialisation or a finalisation is under way, or a frame is open.
    pub fn tidy(&self, next: u32) -> Result<Plan, ErrorNumber>
        ensures value { result ≡ tidy_planned (setting_in self.now) next }
        ensures begins { IfOk result (CanBegin (setting_in self.now)) }
    {
        self.may_begin_alone()?;
        Ok(self.instances.plan_tidy(next))
    }

    /// OS_Module 9.
    ///
    /// # Errors
    ///
    /// As `tidy`.
    pub fn clear(&self) -> Result<Plan, ErrorNumber>
        ensures value { result ≡ clear_planned (setting_in self.now) }
        ensures begins { IfOk result (CanBegin (setting_in self.now)) }
    {
        self.may_begin_alone()?;
        Ok(self.instances.plan_clear())
    }
}
