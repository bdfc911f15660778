//! Laws over the definitions of the core, each the contract of a function that does nothing.

ghost use Rattle.arm_core.specs.Laws.{PairsDiffer, CompareShows, SubtractsByAdding, SubtractsCarryByAdding, RotatesByShifting, TurnsRound};

/// Of the conditions 2k and 2k + 1 exactly one holds.
#[tactic(auto, using(crate::proofs::Comparing::pairs))]
pub fn conditions_in_pairs()
    ensures { PairsDiffer }
{}

/// After CMP the conditions show the order of its operands, as numbers and as signed numbers.
pub fn compare_shows_order()
    ensures { CompareShows }
{}

/// SUB and SBC are ADC with the second operand complemented.
pub fn difference_is_sum()
    ensures set { SubtractsByAdding }
    ensures kept { SubtractsCarryByAdding }
{}

/// ROR is LSR plus LSL.
#[tactic(auto, using(crate::proofs::Turning::rotation_parts))]
pub fn rotation_is_two_shifts()
    ensures { RotatesByShifting }
{}

/// 33 turns of RRX give value and C back.
#[tactic(auto, using(crate::proofs::Turning::turns_round))]
pub fn rotation_through_carry_turns_round()
    ensures { TurnsRound }
{}
