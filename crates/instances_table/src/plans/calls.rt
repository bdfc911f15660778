//! The plans of the module calls, as they are when the call is made. Instances are named by slots,
//! oldest first.

ghost use Rattle.std.specs.Prelude.{◌≡◌, ◌≤◌, ◌+◌, ◌*◌, [], ◌++◌, length};
ghost use Rattle.instances_table.specs.plans.Calls.{clear_actions, clear_plan, delete_plan, finalise_all, initialise_all, instantiate_plan, load_plan, reinit_plan, tidy_plan};
ghost use Rattle.instances_table.specs.plans.Plans.{plan_of};

use crate::plans::action::PlanAction;
use crate::plans::given::Given;
use crate::plans::plan::{MOST_ACTIONS, Plan};
use arrayvec::ArrayVec;

type Actions = ArrayVec<PlanAction, MOST_ACTIONS>;

impl Plan {
    /// A load, an insertion or a copy: the instances of an older module of the title go, then the
    /// new module is added with its first instance in `slot`. Where a finalisation refuses, the new
    /// image is given up.
    pub fn load(given: Given, old: &[u32], slot: u32) -> Plan
        requires { length old.now ≤ 64 }
        ensures { result ≡ load_plan given old.now slot }
    {
        let mut plan = Plan::of(given);
        push_clear(&mut plan.actions, old);
        plan.actions.push(PlanAction::Insert(slot));
        plan.actions.push(PlanAction::Initialise(slot));
        plan.instead.push(PlanAction::GiveUp);
        plan
    }

    /// An instance is finalised for good and removed.
    pub fn delete(given: Given, slot: u32) -> Plan
        ensures { result ≡ delete_plan given slot }
    {
        Plan::clear(given, &[slot])
    }

    /// Each instance is finalised for good and removed, up to the first that refuses.
    pub fn clear(given: Given, slots: &[u32]) -> Plan
        requires { length slots.now ≤ 64 }
        ensures { result ≡ clear_plan given slots.now }
    {
        let mut plan = Plan::of(given);
        push_clear(&mut plan.actions, slots);
        plan
    }

    /// An instance is finalised for good, the block of its private word is freed, and it is
    /// initialised.
    pub fn reinit(given: Given, slot: u32) -> Plan
        ensures { result ≡ reinit_plan given slot }
    {
        let mut plan = Plan::of(given);
        plan.actions.push(PlanAction::Finalise(slot, true));
        plan.actions.push(PlanAction::FreePrivate(slot));
        plan.actions.push(PlanAction::Initialise(slot));
        plan
    }

    /// An instance is added in a slot, and initialised.
    pub fn instantiate(given: Given, slot: u32) -> Plan
        ensures { result ≡ instantiate_plan given slot }
    {
        let mut plan = Plan::of(given);
        plan.actions.push(PlanAction::Instantiate(slot));
        plan.actions.push(PlanAction::Initialise(slot));
        plan
    }

    /// All instances are finalised, the module area is tidied, and all are initialised. Where a
    /// finalisation refuses, those finalised before it are initialised again, and nothing slides.
    pub fn tidy(given: Given, slots: &[u32]) -> Plan
        requires { length slots.now ≤ 64 }
        ensures { result ≡ tidy_plan given slots.now }
    {
        let mut plan = Plan::of(given);
        push_finalise_all(&mut plan.actions, slots);
        plan.actions.push(PlanAction::Slide);
        push_initialise_all(&mut plan.actions, slots);
        plan
    }

    // A plan without an action.
    fn of(given: Given) -> Plan
        ensures { result ≡ plan_of given [] [] }
    {
        Plan {
            given,
            actions: ArrayVec::new(),
            instead: ArrayVec::new(),
            runs: false,
            first: None,
        }
    }
}

fn push_clear(actions: &mut Actions, slots: &[u32])
    requires { length actions.old.items + 2 * length slots.now ≤ 132 }
    ensures items { actions.new.items ≡ actions.old.items ++ clear_actions slots.now }
    ensures len { length actions.new.items ≡ length actions.old.items + 2 * length slots.now }
{
    for slot in slots {
        actions.push(PlanAction::Finalise(*slot, true));
        actions.push(PlanAction::Remove(*slot));
    }
}

fn push_finalise_all(actions: &mut Actions, slots: &[u32])
    requires { length actions.old.items + length slots.now ≤ 132 }
    ensures items { actions.new.items ≡ actions.old.items ++ finalise_all slots.now }
    ensures len { length actions.new.items ≡ length actions.old.items + length slots.now }
{
    for slot in slots {
        actions.push(PlanAction::Finalise(*slot, false));
    }
}

fn push_initialise_all(actions: &mut Actions, slots: &[u32])
    requires { length actions.old.items + length slots.now ≤ 132 }
    ensures items { actions.new.items ≡ actions.old.items ++ initialise_all slots.now }
    ensures len { length actions.new.items ≡ length actions.old.items + length slots.now }
{
    for slot in slots {
        actions.push(PlanAction::Initialise(*slot));
    }
}
