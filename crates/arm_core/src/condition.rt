//! When an instruction is carried out.

ghost use Rattle.std.specs.Prelude.{◌≡◌};
ghost use Rattle.arm_core.specs.Conditions.{condition_holds};

use crate::psr::Psr;
use arm_decode::Condition;

/// Whether a condition holds by the flags of a status (ARM2 data sheet, "The condition field").
#[inline(always)]
pub fn is_met(condition: Condition, psr: Psr) -> bool
    ensures { result ≡ condition_holds condition psr }
{
    // Nearly all instructions are carried out always.
    if condition == Condition::Always {
        return true;
    }
    match condition {
        Condition::Equal => psr.zero,
        Condition::NotEqual => !psr.zero,
        Condition::CarrySet => psr.carry,
        Condition::CarryClear => !psr.carry,
        Condition::Minus => psr.negative,
        Condition::Plus => !psr.negative,
        Condition::OverflowSet => psr.overflow,
        Condition::OverflowClear => !psr.overflow,
        Condition::Higher => psr.carry && !psr.zero,
        Condition::LowerOrSame => !psr.carry || psr.zero,
        Condition::GreaterOrEqual => psr.negative == psr.overflow,
        Condition::LessThan => psr.negative != psr.overflow,
        Condition::GreaterThan => !psr.zero && psr.negative == psr.overflow,
        Condition::LessOrEqual => psr.zero || psr.negative != psr.overflow,
        Condition::Always => true,
        Condition::Never => false,
    }
}
