//! The table of breaks: set, taken away, and asked at each step.

ghost use Rattle.std.specs.Prelude.{◌≡◌, ◌==◌, ◌↔◌, ◌<◌, ℕ, [], List, IsTrue};
ghost use Rattle.std.specs.List.{position};
ghost use Rattle.arm_decode.specs.Outcome.{Leaves};
ghost use Rattle.arm_core.specs.breaks.Breaks.{mark_place_of};

use arrayvec::ArrayVec;
use std::error::Error;
use std::fmt;
use std::marker::Model;

/// Why a break was not set or not taken away.
#[derive(Clone, Copy, Debug)]
pub enum BreakError {
    /// The address is no multiple of 4.
    Unaligned,
    /// There are as many breaks as the table holds.
    BreakTableFull,
    /// There is no break at the address.
    NoBreak,
}

/// The refusal's name.
impl fmt::Display for BreakError {
    ghost use Rattle.std.specs.Prelude.{Some};
    ghost use Rattle.arm_core.specs.breaks.BreakErrors.{break_error_name};

    ghost output = { λ error. Some (break_error_name error) };

    fn fmt<W: fmt::Write>(&self, f: &mut fmt::Formatter<W>) -> fmt::Result {
        match self {
            BreakError::Unaligned => f.write_str("Unaligned"),
            BreakError::BreakTableFull => f.write_str("BreakTableFull"),
            BreakError::NoBreak => f.write_str("NoBreak"),
        }
    }
}

impl Error for BreakError {}

const MOST_BREAKS: usize = 16;

/// How many marks there are.
const MARKS: usize = 64;

/// The addresses at which a run stops, at most 16.
#[derive(Drop)]
pub struct Breaks {
    addresses: ArrayVec<u32, MOST_BREAKS>,
    /// Set for each address that is there, so that most that aren't are known by one look. A mark
    /// stays when its address is taken away.
    marks: [bool; MARKS],
}

impl Model for Breaks {
    ghost use Rattle.std.specs.Prelude.{ℕ, List};
    ghost use Rattle.arm_core.specs.breaks.Breaks.{AreBreaksMarked};

    ghost Value = { List ℕ };

    ghost view = { λ b. b.addresses.items };

    ghost invariant = { λ b. AreBreaksMarked b.marks b.addresses.items };
}

impl Breaks {
    ghost use Rattle.arm_core.specs.breaks.Breaks.{is_among, with_break, without_break};

    /// No break.
    pub fn new() -> Breaks
        ensures { result ≡ [] }
    {
        Breaks {
            addresses: ArrayVec::new(),
            marks: [false; MARKS],
        }
    }

    /// One more. An address that is there already is there once.
    ///
    /// # Errors
    ///
    /// `Unaligned` where the address is no multiple of 4, else `BreakTableFull` where 16 others are
    /// there.
    pub fn add(&mut self, address: u32) -> Result<(), BreakError>
        ensures { Leaves self.old (with_break self.old address) result self.new }
    {
        if !address.is_multiple_of(4) {
            return Err(BreakError::Unaligned);
        }
        if self.has(address) {
            return Ok(());
        }
        if self.addresses.is_full() {
            return Err(BreakError::BreakTableFull);
        }
        self.addresses.push(address);
        self.marks[mark_of(address)] = true;
        Ok(())
    }

    /// One less.
    ///
    /// # Errors
    ///
    /// `NoBreak` where none is at the address.
    pub fn remove(&mut self, address: u32) -> Result<(), BreakError>
        ensures { Leaves self.old (without_break self.old address) result self.new }
    {
        let place = self.place_of(address).ok_or(BreakError::NoBreak)?;
        self.addresses.remove(place);
        Ok(())
    }

    fn place_of(&self, address: u32) -> Option<usize>
        ensures { result ≡ position (λ b. b == address) self.now }
    {
        self.addresses.iter().position(|at| *at == address)
    }

    /// Whether there is no break.
    pub fn is_empty(&self) -> bool
        ensures { IsTrue result ↔ (self.now ≡ []) }
    {
        self.addresses.is_empty()
    }

    /// Whether a run stops at the address.
    #[inline(always)]
    pub fn has(&self, address: u32) -> bool
        ensures { result ≡ is_among self.now address }
    {
        // Not written with &&: the compiler would test its answer a second time.
        if !self.marks[mark_of(address)] {
            return false;
        }
        self.is_listed(address)
    }

    #[tactic(auto, unfolding(crate::specs::breaks::Breaks::is_among))]
    #[inline(never)]
    fn is_listed(&self, address: u32) -> bool
        ensures { result ≡ is_among self.now address }
    {
        self.addresses.iter().any(|at| *at == address)
    }
}

// Which mark an address has; others may have the same.
#[inline(always)]
fn mark_of(address: u32) -> usize
    ensures value { result ≡ mark_place_of address }
    ensures inside { result < 64 }
{
    (address / 4 % 64) as usize
}
