//! Laws of plans: which actions are done, and what a refusal leaves to do. Each is the contract of
//! a function that does nothing.

ghost use Rattle.instances_table.specs.plans.Laws.{CarriesByTurns, ClearIsDoable, ClearStops, DoesAll, InstantiateIsDoable, LoadIsDoable, ReinitIsDoable, StaysDoable, StaysDoableRefused, TidyGivesUp, TidyIsDoable};

/// A plan that is carried on takes turns until code is to be entered or nothing is left.
#[tactic(auto, using(crate::proofs::PlansLemmas::Carrying::carries_by_turns))]
pub fn plans_are_carried_by_turns<W>()
    ensures { CarriesByTurns W }
{}

/// A plan whose code never refuses does its list of actions, each once, in order, and nothing else.
#[tactic(auto, using(crate::proofs::PlansLemmas::Carrying::does_all))]
pub fn plans_do_all_their_actions<W>()
    ensures { DoesAll W }
{}

/// A tidy whose finalisation refuses initialises again what it has finalised, and a clearing stops
/// there.
#[tactic(auto, using(crate::proofs::PlansLemmas::Refusing::refusing))]
pub fn refused_plans_give_up()
    ensures tidy { TidyGivesUp }
    ensures clear { ClearStops }
{}

/// Each action of a call's plan finds the instance that it names, or a free slot for one that it
/// adds, whatever module code answers.
#[tactic(auto, using(crate::proofs::PlansLemmas::Doable::reinit_is_doable))]
pub fn plans_find_their_instances()
    ensures load { LoadIsDoable }
    ensures clear { ClearIsDoable }
    ensures reinit { ReinitIsDoable }
    ensures instantiate { InstantiateIsDoable }
    ensures tidy { TidyIsDoable }
{}

/// And so it stays, as the plan is carried on.
#[tactic(auto, using(crate::proofs::PlansLemmas::Doable::staying))]
pub fn plans_go_on_finding_them()
    ensures well { StaysDoable }
    ensures refused { StaysDoableRefused }
{}
