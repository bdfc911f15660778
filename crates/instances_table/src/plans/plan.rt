//! The plan of a module call: which actions are left, and what has been met so far.

ghost use Rattle.std.specs.Prelude.{◌≡◌, Some};
ghost use Rattle.instances_table.specs.plans.Plans.{end_by, plan_after_action, first_action, plan_after_refusal, plan_after_code, plan_with_code_entered};

use crate::plans::action::PlanAction;
use crate::plans::code::{Ended, Outcome};
use crate::plans::given::Given;
use arrayvec::ArrayVec;
use std::marker::Model;
use std::mem::swap;

/// The most actions of a plan: two for each of 64 instances, and those of the new module.
pub(crate) const MOST_ACTIONS: usize = 132;

/// The rest of a module call: what is left to do, in order, and what has been met so far. While
/// module code runs, the action that it belongs to stays the first one.
#[derive(Drop)]
pub struct Plan {
    pub(crate) given: Given,
    pub(crate) actions: ArrayVec<PlanAction, MOST_ACTIONS>,
    /// What is done in place of the rest where a finalisation refuses.
    pub(crate) instead: ArrayVec<PlanAction, MOST_ACTIONS>,
    /// Whether the code of the first action is under way.
    pub(crate) runs: bool,
    /// The R0 of the first error met.
    pub(crate) first: Option<u32>,
}

impl Model for Plan {
    ghost use Rattle.std.specs.Prelude.{◌+◌, ◌≤◌, length};
    ghost use Rattle.instances_table.specs.plans.Plans.{Plan};

    ghost Value = { Plan };

    ghost view = { λ p. record {
      given = p.given;
      actions = p.actions.items;
      instead = p.instead.items;
      runs = p.runs;
      first = p.first;
    } };

    ghost invariant = { λ p. length p.actions.items + length p.instead.items ≤ 132 };
}

impl Plan {
    /// What the call was given.
    pub fn given(&self) -> &Given
        ensures { result.now ≡ self.now.given }
    {
        &self.given
    }

    /// The next action, if one is left.
    pub fn next(&self) -> Option<PlanAction>
        ensures { result ≡ first_action self.now.actions }
    {
        self.actions.as_slice().first().copied()
    }

    /// How the call ends, once nothing is left to do.
    pub fn end(&self) -> Ended
        ensures { result ≡ end_by self.now.first }
    {
        match self.first {
            None => Ended::Well,
            Some(r0) => Ended::Own(r0),
        }
    }

    /// The code of the next action is entered.
    pub fn start(&mut self)
        ensures { self.new ≡ plan_with_code_entered self.old }
    {
        self.runs = true;
    }

    /// The next action is done.
    pub fn finish(&mut self, action: PlanAction)
        requires { first_action self.old.actions ≡ Some action }
        ensures { self.new ≡ plan_after_action self.old action }
    {
        self.actions.remove(0);
        if let PlanAction::Finalise(slot, false) = action {
            self.instead.push(PlanAction::Initialise(slot));
        }
        self.runs = false;
    }

    /// The code of the next action refused. The first error of a call stays.
    pub fn refuse(&mut self, action: PlanAction, r0: u32)
        requires { first_action self.old.actions ≡ Some action }
        ensures { self.new ≡ plan_after_refusal self.old action r0 }
    {
        match action {
            PlanAction::Finalise(..) => {
                self.actions.clear();
                swap(&mut self.actions, &mut self.instead);
            }
            PlanAction::Initialise(slot) => {
                self.actions.remove(0);
                self.actions.insert(0, PlanAction::Remove(slot));
            }
            _ => return,
        }
        self.runs = false;
        self.first = self.first.or(Some(r0));
    }

    /// The code that was under way, if any was, has come back.
    #[tactic(auto, unfolding(crate::specs::plans::Plans::plan_after_code))]
    pub fn settle(&mut self, outcome: Outcome)
        ensures { self.new ≡ plan_after_code self.old outcome }
    {
        if !self.runs {
            return;
        }
        let Some(action) = self.next() else {
            return;
        };
        match outcome {
            Outcome::Well => self.finish(action),
            Outcome::Refused(r0) => self.refuse(action, r0),
        }
    }
}
