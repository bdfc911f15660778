//! Laws of instructions that go another way than their definitions: conditions, sums, rotations,
//! LDM and STM. Each is the contract of a function that does nothing.

ghost use Rattle.std.specs.Prelude.{ℕ, Bool};
ghost use Rattle.arm_step.specs.Back.{ComesBack};
ghost use Rattle.arm_step.specs.BlockOrder.{BlocksLieByBase, LoadsInOrder, StoresInOrder};
ghost use Rattle.arm_step.specs.OwnedBytes.{StepKeeps};
ghost use Rattle.arm_core.specs.State.{State};
ghost use Rattle.address_map.specs.Bytes.{Bytes};

/// A step keeps every byte that the store calls keep records in, if these are whole words.
#[tactic(auto, using(crate::proofs::Framing::step_keeps))]
pub fn step_keeps_owned_bytes()
    ensures { (owned : ℕ → Bool) (s : State) (b : Bytes) → StepKeeps owned s b }
{}

/// What STM with write-back puts away, LDM by the opposite way of counting brings back.
#[tactic(auto, using(crate::proofs::Back::comes_back))]
pub fn store_then_load_comes_back()
    ensures { ComesBack }
{}

/// LDM and STM begin at the base or 4 above it, or end there or 4 below it.
pub fn blocks_lie_by_their_base()
    ensures { BlocksLieByBase }
{}

/// LDM and STM have one word for each listed register, the lowest register's first.
#[tactic(auto, using(crate::proofs::InOrder::in_order))]
pub fn blocks_are_in_order()
    ensures loads { LoadsInOrder }
    ensures stores { StoresInOrder }
{}
