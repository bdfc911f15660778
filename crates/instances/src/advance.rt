//! What is left of a call is done, action by action, up to the next entry of module code.
#![tactic(auto, using(crate::proofs::Keeping::keeps_same))]

ghost use Rattle.std.specs.Prelude.{◌≡◌, [], None, Some, IfSome};
ghost use Rattle.instances_table.specs.plans.Carrying.{advance_of_plan, carry_of_plan};
ghost use Rattle.instances_table.specs.plans.Plans.{plan_after_action, first_action, plan_after_code};
ghost use Rattle.instances.specs.module_state.Records.{CarriesRecords, MayTurnRecords, TurnsRecords};
ghost use Rattle.instances.specs.module_state.Sound.{IsModuleState};
ghost use Rattle.instances.specs.module_state.ModuleState.{module_state_of};
ghost use Rattle.instances.specs.actions.Actions.{module_state_after_action};
ghost use Rattle.instances.specs.actions.Pending.{pending_of};
ghost use Rattle.instances.specs.tidying.Slid.{module_state_slid};
ghost use Rattle.instances.specs.Naming.{KeepsOtherInstances};
ghost use Rattle.instances.specs.Turns.{code_called, module_doing, IsMapUnderWay, KeepsUnderWay};
ghost use Rattle.instances.specs.module_state.Kept.{KeepsState};

use crate::actions::{act, code_of};
use crate::instances::Instances;
use crate::tidying::slide;
use instances_table::plans::{Advance, Code, Outcome, Plan, PlanAction};
use rma::{AddressMap, Areas};

impl Instances {
    /// Carries a call on: the code that was under way, if any was, has come back with this outcome;
    /// then actions are done up to the next whose code is to be entered, which is the answer, or to
    /// the end of the call, where there is none.
    ///
    /// RISC OS 3 Programmer's Reference Manual, "Modules"; the order of actions is that of
    /// "OS_Module".
    pub fn carry(
        &mut self,
        map: &mut AddressMap,
        areas: &Areas,
        plan: &mut Plan,
        outcome: Outcome,
    ) -> Option<Code>
        requires state { IsMapUnderWay map.old areas.now self.old plan.old }
        ensures carried { carry_of_plan module_doing (module_state_of map.old areas.now self.old)
            (plan_after_code plan.old outcome)
            ≡ record {
              module_state = module_state_of map.new areas.now self.new;
              rest = plan.new;
              code =
                  result;
            } }
        ensures code { IfSome result (λ code. code_called self.new (first_action plan.new.actions) ≡ Some
            code) }
        ensures ended { result ≡ None → IsModuleState (module_state_of map.new areas.now self.new) [] }
        ensures others { KeepsOtherInstances self.old self.new plan.old plan.new result }
        ensures kept { KeepsUnderWay map.old map.new areas.now self.new plan.new
            (CarriesRecords (plan_after_code plan.old outcome).actions) }
    {
        let mut outcome = outcome;
        loop {
            match self.advance(map, areas, plan, outcome) {
                Advance::Next => outcome = Outcome::Well,
                Advance::Code(code) => return Some(code),
                Advance::End(_) => return None,
            }
        }
    }

    /// One turn of a call: the code that was under way, if any was, has come back; then one action
    /// is done, or its own part is, and its code is to be entered.
    pub fn advance(
        &mut self,
        map: &mut AddressMap,
        areas: &Areas,
        plan: &mut Plan,
        outcome: Outcome,
    ) -> Advance
        requires state { IsMapUnderWay map.old areas.now self.old plan.old }
        ensures advanced { advance_of_plan module_doing (module_state_of map.old areas.now self.old)
            plan.old outcome
            ≡ record {
              module_state = module_state_of map.new areas.now self.new;
              rest = plan.new;
              step =
                  result;
            } }
        ensures kept { KeepsUnderWay map.old map.new areas.now self.new plan.new
            (MayTurnRecords (first_action (plan_after_code plan.old outcome).actions)) }
    {
        self.table.known();
        plan.settle(outcome);
        let Some(action) = plan.next() else {
            return Advance::End(plan.end());
        };
        let code = code_of(&self.table, action);
        self.act(map, areas, plan, action);
        match code {
            Some(code) => {
                plan.start();
                Advance::Code(code)
            }
            None => {
                plan.finish(action);
                Advance::Next
            }
        }
    }

    /// An action's own part.
    fn act(&mut self, map: &mut AddressMap, areas: &Areas, plan: &Plan, action: PlanAction)
        requires first { first_action plan.now.actions ≡ Some action }
        requires state { IsMapUnderWay map.old areas.now self.old plan.now }
        ensures module_state { module_state_of map.new areas.now self.new
            ≡ module_state_after_action module_state_slid plan.now.given
            (module_state_of map.old areas.now self.old) action }
        ensures kept { KeepsState map.old map.new areas.now self.new
            (pending_of (plan_after_action plan.now action)) (TurnsRecords action) }
    {
        self.table.known();
        let given = plan.given();
        match action {
            PlanAction::Slide => slide(map, areas, &mut self.table, given.return_address),
            other => act(map, &mut self.table, given, other),
        }
    }
}
