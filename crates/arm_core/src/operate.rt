//! Data processing, multiplication and branches.

ghost use Rattle.std.specs.Prelude.{◌≡◌, ◌<◌, ◌≤◌, ◌^◌, ◌%◌};
ghost use Rattle.arm_core.specs.Operate.{sum_of_operation, state_after_test, state_with_result, state_after_result, state_after_operate, product, state_after_multiply, state_after_branch};

use crate::cpu::Cpu;
use crate::operand::words_ahead;
use crate::psr::Psr;
use arm_decode::{Multiply, Operate, Operation, Shifted, Sum, add, subtract};

/// The result of an operation with the flags C and V that come with it; a logical one takes C from
/// the shifter and keeps V.
#[inline(always)]
fn compute(operation: Operation, first: u32, second: Shifted, psr: Psr) -> Sum
    ensures { result ≡ sum_of_operation operation first second psr }
{
    let logical = match operation {
        Operation::And | Operation::Test => first & second.value,
        Operation::ExclusiveOr | Operation::TestEquivalence => first ^ second.value,
        Operation::Or => first | second.value,
        Operation::Move => second.value,
        Operation::BitClear => first & !second.value,
        Operation::MoveNot => !second.value,
        Operation::Subtract | Operation::Compare => return subtract(first, second.value, true),
        Operation::ReverseSubtract => return subtract(second.value, first, true),
        Operation::Add | Operation::CompareNegated => return add(first, second.value, false),
        Operation::AddWithCarry => return add(first, second.value, psr.carry),
        Operation::SubtractWithCarry => return subtract(first, second.value, psr.carry),
        Operation::ReverseSubtractWithCarry => return subtract(second.value, first, psr.carry),
    };
    Sum {
        value: logical,
        carry: second.carry,
        overflow: psr.overflow,
    }
}

impl Cpu {
    /// Data processing: AND to MVN.
    #[tactic(auto, unfolding(crate::specs::Operate::state_after_operate))]
    #[inline(always)]
    pub fn operate(&mut self, operate: &Operate)
        ensures { self.new ≡ state_after_operate self.old operate.now }
    {
        let second = self.operand(&operate.operand);
        let first = self.plain_operand(operate.rn, words_ahead(&operate.operand));
        let computed = compute(operate.operation, first, second, self.psr());
        self.advance();
        self.finish(operate, computed);
    }

    /// What data processing does with its result.
    #[inline(always)]
    fn finish(&mut self, operate: &Operate, computed: Sum)
        ensures { self.new ≡ state_after_result self.old operate.now computed }
    {
        if operate.operation.is_test() {
            self.test(operate, computed);
        } else {
            self.place(operate, computed);
        }
    }

    /// A test sets the flags, or in its form P the status.
    #[inline(always)]
    fn test(&mut self, operate: &Operate, computed: Sum)
        ensures { self.new ≡ state_after_test self.old operate.now computed }
    {
        if operate.rd.is_pc() {
            self.set_status(computed.value);
        } else {
            self.set_flags_of(computed);
        }
    }

    /// All others set Rd, and with S the flags or, where Rd is R15, the status.
    #[inline(always)]
    fn place(&mut self, operate: &Operate, computed: Sum)
        ensures { self.new ≡ state_with_result self.old operate.now computed }
    {
        if !operate.sets_flags {
            self.set_result(operate.rd, computed.value);
        } else if operate.rd.is_pc() {
            self.set_pc(computed.value);
            self.set_status(computed.value);
        } else {
            self.set_register(operate.rd.number(), computed.value);
            self.set_flags_of(computed);
        }
    }

    /// What MUL and MLA compute.
    #[inline(always)]
    fn product(&self, multiply: &Multiply) -> u32
        ensures { result ≡ product self.now multiply.now }
    {
        let left = self.plain_operand(multiply.rm, 2);
        let right = self.plain_operand(multiply.rs, 2);
        let product = left.wrapping_mul(right);
        if multiply.accumulates {
            product.wrapping_add(self.plain_operand(multiply.rn, 2))
        } else {
            product
        }
    }

    /// MUL and MLA.
    #[inline(always)]
    pub fn multiply(&mut self, multiply: &Multiply)
        ensures { self.new ≡ state_after_multiply self.old multiply.now }
    {
        let value = self.product(multiply);
        self.advance();
        self.set_result(multiply.rd, value);
        if multiply.sets_flags {
            let psr = self.psr();
            self.set_flags_of(Sum {
                value,
                carry: psr.carry,
                overflow: psr.overflow,
            });
        }
    }

    /// B, and with `links` BL: the distance counts words.
    #[inline(always)]
    pub fn branch(&mut self, links: bool, distance: u32)
        requires { distance < 2 ^ 24 }
        ensures { self.new ≡ state_after_branch self.old links distance }
    {
        let target = self.pc() + 8 + 4 * distance;
        if links {
            self.set_register(14, self.psr().bits() + self.ahead(1));
        }
        self.set_pc(target);
    }
}
