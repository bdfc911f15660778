//! A word with its parts.

ghost use Rattle.std.specs.Prelude.{◌≡◌};

use crate::kind::OpKind;
use arm_core::{Condition, Form, Shift, is_bit_set, row_of};
use std::marker::Model;

/// A word with its parts. What its kind says of them holds.
#[derive(Clone, Copy)]
pub struct Op {
    /// The word.
    pub word: u32,
    /// An operand, the amount of a shift, an offset, a distance, or a list.
    pub value: u32,
    /// How it is carried out, its condition included.
    pub kind: OpKind,
    /// The register of bits 15 to 12.
    pub rd: u8,
    /// The register of bits 19 to 16.
    pub rn: u8,
    /// The register of bits 3 to 0, or how far above the lowest word of its reach a block begins.
    pub rm: u8,
    /// The register of bits 11 to 8, or how many bytes a block has.
    pub rs: u8,
    /// How a register is shifted.
    pub shift: Shift,
    /// Whether an immediate operand is rotated.
    pub is_rotated: bool,
}

impl Model for Op {
    ghost use Rattle.arm_predecode.specs.Kinds.{KindMeans};
    ghost use Rattle.arm_predecode.specs.OpValue.{OpValue};

    ghost Value = { OpValue };

    ghost view = { λ r. record {
      word = r.word;
      value = r.value;
      kind = r.kind;
      rd = r.rd;
      rn = r.rn;
      rm = r.rm;
      rs = r.rs;
      shift = r.shift;
      is_rotated = r.is_rotated;
    } };

    ghost invariant = { λ r. KindMeans r.kind (record {
      word = r.word;
      value = r.value;
      kind = r.kind;
      rd = r.rd;
      rn = r.rn;
      rm = r.rm;
      rs = r.rs;
      shift = r.shift;
      is_rotated = r.is_rotated;
    }) };

    ghost inverse = { λ r. record {
      word = r.word;
      value = r.value;
      kind = r.kind;
      rd = r.rd;
      rn = r.rn;
      rm = r.rm;
      rs = r.rs;
      shift = r.shift;
      is_rotated = r.is_rotated;
    } };
}

impl Op {
    ghost use Rattle.arm_predecode.specs.Kinds.{Means};

    /// A word with its parts.
    pub fn of(word: u32) -> Op
        ensures { result.word ≡ word }
    {
        let condition = Condition::in_word(word);
        match row_of(word) {
            Ok(Form::Branch) if is_bit_set(word, 24) => Op::link(condition, word),
            Ok(Form::Branch) => Op::branch(condition, word),
            _ if condition != Condition::Always => Op::conditional(word),
            Ok(Form::Multiply) => Op::multiply(word),
            Ok(Form::Immediate) => Op::immediate(word),
            Ok(Form::ShiftByNumber) => Op::shifted(word),
            Ok(Form::OffsetByNumber) => Op::transfer(word),
            Ok(Form::OffsetByRegister) => Op::transfer_by(word),
            Ok(Form::BlockTransfer) => Op::block(word),
            Ok(Form::SoftwareInterrupt) => Op::interrupt(word),
            _ => Op::slow(word),
        }
    }

    /// A word that is carried out by its fields.
    pub fn slow(word: u32) -> Op
        ensures { result.word ≡ word }
    {
        Op {
            word,
            value: 0,
            kind: OpKind::Slow,
            rd: 0,
            rn: 0,
            rm: 0,
            rs: 0,
            shift: Shift::LogicalLeft,
            is_rotated: false,
        }
    }

    /// A word with a condition.
    pub(crate) fn conditional(word: u32) -> Op
        ensures { result.word ≡ word }
    {
        let mut op = Op::slow(word);
        op.kind = OpKind::Conditional;
        op
    }

    /// What is known of its parts. The call does nothing but say so.
    pub fn known(&self)
        ensures { Means self.now }
    {
        let _kind = self.kind;
    }
}
