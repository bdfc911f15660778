//! What instructions have in common: R15 as an operand and as a destination, the flags of a result.

ghost use Rattle.std.specs.Prelude.{◌≡◌, ◌≤◌, ◌^◌, ◌-◌};
ghost use Rattle.arm_core.specs.Effect.{ahead, with_next_pc, plain_operand, status_operand, with_result_in, with_result, with_status, with_result_flags};
ghost use Rattle.arm_core.specs.State.{with_flags};

use crate::cpu::Cpu;
use crate::psr::{Mode, Psr};
use arm_decode::{ADDRESS_LIMIT, Register, Sum, is_bit_set};

impl Cpu {
    /// The program counter some words ahead of the instruction, at most 3, in the 26-bit address
    /// space.
    #[inline(always)]
    pub(crate) fn ahead(&self, words: u32) -> u32
        requires { words ≤ 3 }
        ensures value { result ≡ ahead self.now words }
        ensures most { result ≤ 2 ^ 26 - 4 }
    {
        (self.pc() + 4 * words) % ADDRESS_LIMIT
    }

    /// Goes on to the next word.
    #[inline(always)]
    pub fn advance(&mut self)
        ensures { self.new ≡ with_next_pc self.old }
    {
        let next = self.pc() + 4;
        self.set_pc(next);
    }

    /// A register as an operand, R15 being read ahead of the instruction and without the status.
    #[inline(always)]
    pub fn plain_operand(&self, register: Register, words: u32) -> u32
        requires { words ≤ 3 }
        ensures { result ≡ plain_operand self.now register words }
    {
        if register.is_pc() {
            self.ahead(words)
        } else {
            self.register_in(self.psr().mode, register.number())
        }
    }

    /// A register of a mode as an operand, R15 being read ahead of the instruction and with the
    /// status.
    #[inline(always)]
    pub fn status_operand(&self, mode: Mode, register: Register, words: u32) -> u32
        requires { words ≤ 3 }
        ensures { result ≡ status_operand mode self.now register words }
    {
        if register.is_pc() {
            self.psr().bits() + self.ahead(words)
        } else {
            self.register_in(mode, register.number())
        }
    }

    /// Sets a register of a mode; R15 takes bits 25 to 2 as the program counter.
    #[inline(always)]
    pub fn set_result_in(&mut self, mode: Mode, register: Register, value: u32)
        ensures { self.new ≡ with_result_in mode self.old register value }
    {
        if register.is_pc() {
            self.set_pc(value);
        } else {
            self.set_register_in(mode, register.number(), value);
        }
    }

    /// Sets a register of the present mode, likewise.
    #[inline(always)]
    pub fn set_result(&mut self, register: Register, value: u32)
        ensures { self.new ≡ with_result self.old register value }
    {
        self.set_result_in(self.psr().mode, register, value);
    }

    /// Sets the status from a word; in user mode N, Z, C and V alone.
    #[inline(always)]
    pub fn set_status(&mut self, word: u32)
        ensures { self.new ≡ with_status self.old word }
    {
        let psr = self.psr().taking(Psr::of(word));
        self.set_psr(psr);
    }

    /// Sets N and Z by a result, and C and V as they come with it.
    #[inline(always)]
    pub fn set_flags_of(&mut self, result_of: Sum)
        ensures { self.new ≡ with_result_flags self.old result_of }
    {
        self.set_flags(
            is_bit_set(result_of.value, 31),
            result_of.value == 0,
            result_of.carry,
            result_of.overflow,
        );
    }
}
