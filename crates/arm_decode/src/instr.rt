//! An instruction that the table allows: a condition and an action.

ghost use Rattle.std.specs.Prelude.{◌≡◌, None};
ghost use Rattle.arm_decode.specs.Decoded.{instruction_unless_refused};
ghost use Rattle.arm_decode.specs.Refusals.{refusal};

use crate::action::Action;
use crate::condition::Condition;
use profile::Fault;
use std::marker::Model;

/// An instruction of the ARM2: a condition, and what is done when it holds.
///
/// Contracts see it as that pair. One that the table refuses doesn't exist.
#[derive(Clone, Copy)]
pub struct Instr {
    condition: Condition,
    action: Action,
}

impl Model for Instr {
    ghost use Rattle.std.specs.Prelude.{◌≡◌, None};
    ghost use Rattle.arm_decode.specs.declared.condition.Condition.{Condition};
    ghost use Rattle.arm_decode.specs.declared.action.Action.{Action};
    ghost use Rattle.arm_decode.specs.Refusals.{refusal};

    ghost Value = { Condition × Action };

    ghost view = { λ i. (i.condition, i.action) };

    ghost invariant = { λ i. refusal i.action ≡ None };

    ghost inverse = { λ v. record { condition = v.0; action = v.1 } };
}

impl Instr {
    /// The instruction of a condition and an action.
    ///
    /// # Errors
    ///
    /// The fault by which the table refuses it, as `Action::refusal` has it.
    pub fn new(condition: Condition, action: Action) -> Result<Instr, Fault>
        ensures { result ≡ instruction_unless_refused (condition, action) }
    {
        match action.refusal() {
            Some(fault) => Err(fault),
            None => Ok(Instr { condition, action }),
        }
    }

    /// When the instruction is carried out.
    pub fn condition(self) -> Condition
        ensures { result ≡ self.0 }
    {
        self.condition
    }

    /// What the instruction does.
    pub fn action(self) -> Action
        ensures value { result ≡ self.1 }
        ensures allowed { refusal result ≡ None }
    {
        self.action
    }
}
