//! Stubs, for SWIs that the machine doesn't have: registers are set and the guest goes on, or code of its
//! own is entered.

ghost use Rattle.std.specs.Prelude.{◌≡◌, ◌↔◌, ◌<◌, [], IsTrue, IfSome, length};
ghost use Rattle.std.specs.Option.{option_copied};
ghost use Rattle.profile.specs.Outcome.{Leaves};
ghost use Rattle.debug_tables.specs.StubNames.{stub_error_name};
ghost use Rattle.command_shell.specs.GuestState.{state_of};

use crate::ahead::{is_known_swi, swi_next};
use crate::byte_writes::fits;
use crate::stub_deeds::{STUB_END, StubDeed, deed_of_stub, deed_unless_fetched};
use arrayvec::ArrayVec;
use command_shell::{Machine, Stub, without_x_bit};
use std::marker::Model;

/// How many stubs there can be.
pub const MOST_STUBS: usize = 64;

/// Why a stub is not taken, or not taken away. Where several reasons hold, the first of this list is
/// given.
#[derive(Clone, Copy)]
pub enum StubError {
    /// The machine has the call, of its own or of a module's.
    Known,
    /// There are 64 other stubs already.
    StubTableFull,
    /// There is no stub of that number.
    NoStub,
}

impl StubError {
    /// The refusal's name, as a script prints it.
    pub fn name(self) -> &'static [u8]
        ensures { result.now ≡ stub_error_name self }
    {
        match self {
            StubError::Known => b"Known",
            StubError::StubTableFull => b"StubTableFull",
            StubError::NoStub => b"NoStub",
        }
    }
}

/// The stubs of a debugger, at most 64.
#[derive(Drop)]
pub struct Stubs {
    table: ArrayVec<Stub, MOST_STUBS>,
}

impl Model for Stubs {
    ghost use Rattle.std.specs.Prelude.{List, ◌≤◌, length};
    ghost use Rattle.command_shell.specs.Stub.{Stub};

    ghost Value = { List Stub };

    ghost view = { λ s. s.table.items };

    ghost invariant = { λ s. length s.table.items ≤ 64 };
}

impl Stubs {
    ghost use Rattle.debug_tables.specs.Stubs.{deed_ahead, deed_next, stub_numbered, stub_place, with_stub, without_stub};

    /// No stub.
    pub fn new() -> Stubs
        ensures { result ≡ [] }
    {
        Stubs {
            table: ArrayVec::new(),
        }
    }

    /// Whether there is none.
    pub fn is_empty(&self) -> bool
        ensures { IsTrue result ↔ (self.now ≡ []) }
    {
        self.table.is_empty()
    }

    /// A stub for its SWI, in place of the one that is there.
    ///
    /// # Errors
    ///
    /// `Known` where the machine has the call, else `StubTableFull` where 64 others are there; the
    /// stubs stay then.
    pub fn add(&mut self, machine: &Machine, stub: Stub) -> Result<(), StubError>
        ensures { Leaves self.old (with_stub (state_of machine.now.guest) self.old stub) result self.new }
    {
        if is_known_swi(machine, stub.number) {
            return Err(StubError::Known);
        }
        match self.place_of(stub.number) {
            Some(place) => {
                self.table.remove(place);
                self.table.push(stub);
                Ok(())
            }
            None if self.table.is_full() => Err(StubError::StubTableFull),
            None => {
                self.table.push(stub);
                Ok(())
            }
        }
    }

    /// Takes the stub of a SWI away, by its number without the X bit.
    ///
    /// # Errors
    ///
    /// `NoStub` where there is none; the stubs stay then.
    pub fn remove(&mut self, number: u32) -> Result<(), StubError>
        ensures { Leaves self.old (without_stub self.old number) result self.new }
    {
        match self.place_of(number) {
            Some(place) => {
                self.table.remove(place);
                Ok(())
            }
            None => Err(StubError::NoStub),
        }
    }

    /// The same stubs once more.
    pub fn copied(&self) -> Stubs
        ensures { result ≡ self.now }
    {
        let mut table = ArrayVec::new();
        for stub in self.table.as_slice() {
            table.push(stub.copied());
        }
        Stubs { table }
    }

    fn place_of(&self, number: u32) -> Option<usize>
        ensures place { result ≡ stub_place number self.now }
        ensures within { IfSome result (λ i. i < length self.now) }
    {
        self.table.iter().position(|stub| stub.number == number)
    }

    fn numbered(&self, number: u32) -> Option<&Stub>
        ensures { option_copied result ≡ stub_numbered number self.now }
    {
        let place = self.place_of(number)?;
        self.table.as_slice().get(place)
    }

    /// What a stub does in place of the next step, if one does: that calls a SWI which the machine doesn't
    /// have, or the code of a stub has come back.
    #[tactic(auto, using(crate::proofs::StubLemmas::none_met))]
    pub fn ahead(&self, machine: &Machine) -> Option<StubDeed>
        ensures { result ≡ deed_ahead self.now (state_of machine.now.guest) }
    {
        if self.table.is_empty() {
            return None;
        }
        if machine.stop().is_some() {
            return None;
        }
        let deed = self.deed_next(machine)?;
        fits(machine, deed.at, deed.bytes.as_slice()).then_some(deed)
    }

    fn deed_next(&self, machine: &Machine) -> Option<StubDeed>
        ensures { result ≡ deed_next self.now (state_of machine.now.guest) }
    {
        let cpu = machine.cpu();
        let memory = machine.memory();
        if cpu.pc() == STUB_END {
            return deed_unless_fetched(cpu, memory);
        }
        let swi = swi_next(cpu, memory)?;
        let number = without_x_bit(swi);
        if is_known_swi(machine, number) {
            return None;
        }
        let stub = self.numbered(number)?;
        Some(deed_of_stub(stub, cpu, swi))
    }
}
