//! The breaks that GDB sets. They are beside the machine's own table, which lines of a script fill.

ghost use Rattle.std.specs.Prelude.{◌≡◌, ◌==◌, []};
ghost use Rattle.profile.specs.Outcome.{Leaves};
ghost use Rattle.std.specs.List.{position};

use arm_core::breaks::BreakError;
use arrayvec::ArrayVec;
use std::marker::Model;

/// How many there can be.
const MOST_BREAKS: usize = 256;

/// Addresses at which runs stop, at most 256.
#[derive(Drop)]
pub struct GdbBreaks {
    places: ArrayVec<u32, MOST_BREAKS>,
}

impl Model for GdbBreaks {
    ghost use Rattle.std.specs.Prelude.{ℕ, List};

    ghost Value = { List ℕ };

    ghost view = { λ b. b.places.items };
}

impl GdbBreaks {
    ghost use Rattle.gdb_machine.specs.GdbBreaks.{is_among, with_gdb_break, without_gdb_break};

    /// No break.
    pub fn new() -> GdbBreaks
        ensures { result ≡ [] }
    {
        GdbBreaks {
            places: ArrayVec::new(),
        }
    }

    /// One more. An address that is there already is there once.
    ///
    /// # Errors
    ///
    /// `Unaligned` where the address is no multiple of 4, else `BreakTableFull` where 256 others are
    /// there.
    pub fn add(&mut self, address: u32) -> Result<(), BreakError>
        ensures { Leaves self.old (with_gdb_break self.old address) result self.new }
    {
        if address % 4 != 0 {
            return Err(BreakError::Unaligned);
        }
        if self.has(address) {
            return Ok(());
        }
        if self.places.len() == MOST_BREAKS {
            return Err(BreakError::BreakTableFull);
        }
        self.places.push(address);
        Ok(())
    }

    /// One less, where it is there.
    pub fn remove(&mut self, address: u32)
        ensures { self.new ≡ without_gdb_break self.old address }
    {
        if let Some(place) = self.place_of(address) {
            self.places.remove(place);
        }
    }

    fn place_of(&self, address: u32) -> Option<usize>
        ensures { result ≡ position (λ b. b == address) self.now }
    {
        self.places.iter().position(|at| *at == address)
    }

    /// The addresses, in the order in which they were set.
    pub fn places(&self) -> &[u32]
        ensures { result.now ≡ self.now }
    {
        self.places.as_slice()
    }

    /// Whether runs stop at the address.
    #[tactic(auto, unfolding(arm_core::specs::breaks::Breaks::is_among))]
    pub fn has(&self, address: u32) -> bool
        ensures { result ≡ is_among self.now address }
    {
        self.places.iter().any(|at| *at == address)
    }
}
