//! Why a store call is refused: an error of the system, or one of the guest's own.

ghost use Rattle.std.specs.Prelude.{◌≡◌};

use address_map::ErrorNumber;

/// Why a store call was refused.
#[derive(Clone, Copy)]
pub enum Refusal {
    /// An error of the system, which goes to the error block with its text.
    System(ErrorNumber),
    /// The guest's own error: R0 points to its block already.
    Own,
}

impl From<ErrorNumber> for Refusal {
    ghost use Rattle.swi_dispatch_answers.specs.declared.refusal.Refusal.TheVariants.{System};

    ghost from_gives = { λ error refusal. refusal ≡ System error };

    fn from(error: ErrorNumber) -> Refusal {
        Refusal::System(error)
    }
}
