//! The core: registers of all banks, status and program counter.

ghost use Rattle.std.specs.Prelude.{◌≡◌, ◌<◌, ◌≤◌, ◌+◌, ◌^◌, ◌%◌, ℕ, slice_index};
ghost use Rattle.arm_core.specs.Banks.{exchanged_file, exchanged_place, first_own, own_ahead};
ghost use Rattle.arm_core.specs.State.{IsCore, slot_of, register_in, with_register_in, register_of, with_register, r15_of, with_psr, with_pc, with_flags, with_overflow, with_mode, cpu_start_state};

use crate::psr::{Mode, Psr};
use crate::register_file::{changed_place, exchange};
use arm_decode::{ADDRESS_LIMIT, APPLICATION_START, SVC_STACK_END};
use std::marker::Model;

/// The core: the registers of all four modes, the status and the program counter, which is a
/// multiple of 4 below 2^26.
///
/// The first 15 places of the file are R0 to R14 of the present mode. Those of them that the mode
/// has for itself stand there in place of the ones of user mode, which stand where they would.
#[derive(Clone, Copy)]
pub struct Cpu {
    file: [u32; 26],
    psr: Psr,
    /// The program counter, in words.
    at: u32,
}

impl Model for Cpu {
    ghost use Rattle.std.specs.Prelude.{◌≡◌, ◌<◌, ◌*◌, ◌/◌, ◌^◌, length};
    ghost use Rattle.arm_core.specs.register_file.Exchanging.{quarter};
    ghost use Rattle.arm_core.specs.Banks.{exchanged_file, file_comes_back};
    ghost use Rattle.arm_core.specs.State.{State};

    ghost Value = { State };

    ghost view = { λ c. record { file = exchanged_file c.psr.mode c.file; psr = c.psr; pc = 4 * c.at } };

    ghost invariant = { λ c. (c.at < 2 ^ 24) × (length c.file ≡ 26) };

    ghost inverse = { λ s. record { file = exchanged_file s.psr.mode s.file; psr = s.psr; at = s.pc / 4 } };

    ghost inverse_ok = { λ c h i. record {
      file = file_comes_back c.psr.mode c.file h.1 i;
      psr = c.psr;
      at = quarter c.at i;
    } };
}

/// Where R0 to R14 of a mode lie while user mode is the present one.
fn slot(mode: Mode, number: u32) -> usize
    requires { number < 15 }
    ensures place { result ≡ slot_of mode number }
    ensures bound { result < 26 }
{
    let shared = number as usize;
    match mode {
        Mode::FastInterrupt if shared >= 8 => shared + 7,
        Mode::Interrupt if shared >= 13 => shared + 9,
        Mode::Supervisor if shared >= 13 => shared + 11,
        _ => shared,
    }
}

/// The first register, up to R14, that a mode has for itself.
#[inline(always)]
fn first_own(mode: Mode) -> usize
    ensures { result ≡ first_own mode }
{
    match mode {
        Mode::User => 15,
        Mode::FastInterrupt => 8,
        Mode::Interrupt | Mode::Supervisor => 13,
    }
}

/// How far ahead of those of user mode the registers lie that a mode has for itself.
#[inline(always)]
fn own_ahead(mode: Mode) -> usize
    ensures { result ≡ own_ahead mode }
{
    match mode {
        Mode::User => 0,
        Mode::FastInterrupt => 7,
        Mode::Interrupt => 9,
        Mode::Supervisor => 11,
    }
}

/// Where R0 to R14 of a mode lie in the file while another, or the same, is the present one.
#[tactic(auto, using(crate::proofs::Exchanging::present_place, crate::specs::Banks::own_bank))]
#[inline(always)]
fn place_of(present: Mode, mode: Mode, number: u32) -> usize
    requires { number < 15 }
    ensures place { result ≡ exchanged_place present (slot_of mode number) }
    ensures bound { result < 26 }
{
    if mode == present {
        return number as usize;
    }
    changed_place(first_own(present), own_ahead(present), slot(mode, number))
}

// Registers are words.
fn are_words(file: &[u32; 26])
    ensures { (k : ℕ) → slice_index file.now k < 2 ^ 32 }
{
    for number in 0..26 {
        let _word = file[number];
    }
}

impl Cpu {
    /// The core as the machine starts: USR mode, all flags clear, the program counter at the start
    /// of the application space, every register 0 but R13 of SVC mode.
    pub fn new() -> Cpu
        ensures { result ≡ cpu_start_state }
    {
        let mut file = [0; 26];
        file[24] = SVC_STACK_END;
        Cpu {
            file,
            psr: Psr {
                negative: false,
                zero: false,
                carry: false,
                overflow: false,
                interrupts_off: false,
                fast_interrupts_off: false,
                mode: Mode::User,
            },
            at: APPLICATION_START / 4,
        }
    }

    /// Every core has 26 registers, those of all banks, each of them a word, and its program
    /// counter is a multiple of 4 below 2^26. The call does nothing but to say so.
    pub fn known(&self)
        ensures { IsCore self.now }
    {
        are_words(&self.file);
    }

    /// R0 to R14 of a mode, whatever the present one.
    #[inline(always)]
    pub fn register_in(&self, mode: Mode, number: u32) -> u32
        requires { number < 15 }
        ensures { result ≡ register_in mode self.now number }
    {
        self.file[place_of(self.psr.mode, mode, number)]
    }

    /// R0 to R14 of the present mode.
    #[inline(always)]
    pub fn current(&self, number: u8) -> u32
        requires { number < 15 }
        ensures { result ≡ register_in self.now.psr.mode self.now number }
    {
        self.file[number as usize]
    }

    /// R0 to R15 of the present mode; R15 is the program counter with the status.
    #[inline(always)]
    pub fn register(&self, number: u32) -> u32
        requires { number ≤ 15 }
        ensures { result ≡ register_of self.now number }
    {
        if number == 15 {
            self.r15()
        } else {
            self.register_in(self.psr.mode, number)
        }
    }

    /// The program counter with the status.
    #[inline(always)]
    pub(crate) fn r15(&self) -> u32
        ensures { result ≡ r15_of self.now }
    {
        self.psr.bits() + 4 * self.at
    }

    /// The program counter.
    #[inline(always)]
    pub fn pc(&self) -> u32
        ensures value { result ≡ self.now.pc }
        ensures below { result < 2 ^ 26 }
        ensures aligned { result % 4 ≡ 0 }
    {
        4 * self.at
    }

    /// The status.
    #[inline(always)]
    pub fn psr(&self) -> Psr
        ensures { result ≡ self.now.psr }
    {
        self.psr
    }

    /// Sets one of R0 to R14 of a mode, whatever the present one.
    #[inline(always)]
    pub fn set_register_in(&mut self, mode: Mode, number: u32, value: u32)
        requires { number < 15 }
        ensures { self.new ≡ with_register_in mode self.old number value }
    {
        self.file[place_of(self.psr.mode, mode, number)] = value;
    }

    /// Sets one of R0 to R14 of the present mode.
    #[inline(always)]
    pub fn set_current(&mut self, number: u8, value: u32)
        requires { number < 15 }
        ensures { self.new ≡ with_register self.old number value }
    {
        self.file[number as usize] = value;
    }

    /// Sets one of R0 to R14 of the present mode.
    #[inline(always)]
    pub fn set_register(&mut self, number: u32, value: u32)
        requires { number ≤ 14 }
        ensures { self.new ≡ with_register self.old number value }
    {
        self.set_register_in(self.psr.mode, number, value);
    }

    /// Sets the program counter to bits 25 to 2 of an address; the other bits are left out.
    #[tactic(auto, using(crate::proofs::Exchanging::counter))]
    #[inline(always)]
    pub fn set_pc(&mut self, address: u32)
        ensures { self.new ≡ with_pc self.old address }
    {
        self.at = address % ADDRESS_LIMIT / 4;
    }

    /// Sets the whole status, the mode too.
    #[inline(always)]
    pub fn set_psr(&mut self, psr: Psr)
        ensures { self.new ≡ with_psr self.old psr }
    {
        self.set_mode(psr.mode);
        self.psr = psr;
    }

    /// Sets the flags N, Z, C and V.
    #[inline(always)]
    pub(crate) fn set_flags(&mut self, negative: bool, zero: bool, carry: bool, overflow: bool)
        ensures { self.new ≡ with_flags self.old negative zero carry overflow }
    {
        self.psr.negative = negative;
        self.psr.zero = zero;
        self.psr.carry = carry;
        self.psr.overflow = overflow;
    }

    /// Sets the flag V.
    #[inline(always)]
    pub fn set_overflow(&mut self, overflow: bool)
        ensures { self.new ≡ with_overflow self.old overflow }
    {
        self.psr.overflow = overflow;
    }

    /// Sets the mode.
    #[tactic(auto, using(crate::proofs::Exchanging::same_mode))]
    #[inline(always)]
    pub fn set_mode(&mut self, mode: Mode)
        ensures { self.new ≡ with_mode self.old mode }
    {
        if mode == self.psr.mode {
            return;
        }
        self.change_banks(mode);
    }

    // The registers of another mode take the first places.
    #[inline(never)]
    fn change_banks(&mut self, mode: Mode)
        ensures { self.new ≡ with_mode self.old mode }
    {
        exchange_bank(&mut self.file, self.psr.mode);
        exchange_bank(&mut self.file, mode);
        self.psr.mode = mode;
    }
}

// The registers that a mode has for itself change places with those of user mode.
#[tactic(auto, using(crate::specs::Banks::own_bank))]
fn exchange_bank(file: &mut [u32; 26], mode: Mode)
    ensures { file.new ≡ exchanged_file mode file.old }
{
    exchange(file, first_own(mode), own_ahead(mode));
}
