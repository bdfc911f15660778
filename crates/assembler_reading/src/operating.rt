//! The operands of data processing and of multiplication.

ghost use Rattle.std.specs.Prelude.{◌≡◌};
ghost use Rattle.assembler_text.specs.naming.Labels.{address_of};
ghost use Rattle.assembler_reading.specs.Operating.{added_register, multiply_at, operate_at, operate_behind, operate_on, operate_with, operate_action};
ghost use Rattle.assembler_text.specs.naming.Words.{read_of};

use crate::operands::{ReadOutcome, second_operand};
use arm_decode::{Action, Multiply, Operand, Operate, Operation, Register};
use assembler_text::naming::names::register;
use assembler_text::naming::words::comma;
use assembler_text::naming::{Labels, Read};

/// The operands of AND to MVN. The flag is S, or of a test P.
pub fn operate_at<'t>(
    labels: &Labels,
    operation: Operation,
    flag: bool,
    text: &'t [u8],
) -> Read<'t, ReadOutcome<Action>>
    ensures { read_of result ≡ operate_at (address_of labels.now) operation flag text.now }
{
    let Some((first, rest)) = register(text) else {
        return None;
    };
    operate_behind(labels, operation, flag, first, comma(rest)?)
}

// After the first register, which of a test is Rn.
fn operate_behind<'t>(
    labels: &Labels,
    operation: Operation,
    flag: bool,
    first: Register,
    text: &'t [u8],
) -> Read<'t, ReadOutcome<Action>>
    ensures { read_of result
        ≡ operate_behind (address_of labels.now) operation flag first text.now }
{
    if operation.is_test() {
        let rd = Register::new(if flag { 15 } else { 0 });
        operate_with(labels, operation, true, first, rd, text)
    } else if operation.is_move() {
        operate_with(labels, operation, flag, Register::new(0), first, text)
    } else {
        operate_on(labels, operation, flag, first, text)
    }
}

// `Rn,` and the second operand.
fn operate_on<'t>(
    labels: &Labels,
    operation: Operation,
    sets_flags: bool,
    rd: Register,
    text: &'t [u8],
) -> Read<'t, ReadOutcome<Action>>
    ensures { read_of result ≡ operate_on (address_of labels.now) operation sets_flags rd text.now }
{
    let Some((rn, rest)) = register(text) else {
        return None;
    };
    operate_with(labels, operation, sets_flags, rn, rd, comma(rest)?)
}

// The second operand.
fn operate_with<'t>(
    labels: &Labels,
    operation: Operation,
    sets_flags: bool,
    rn: Register,
    rd: Register,
    text: &'t [u8],
) -> Read<'t, ReadOutcome<Action>>
    ensures { read_of result
        ≡ operate_with (address_of labels.now) operation sets_flags rn rd text.now }
{
    let Some((operand, rest)) = second_operand(labels, text) else {
        return None;
    };
    Some((operated(operation, sets_flags, rn, rd, operand), rest))
}

fn operated(
    operation: Operation,
    sets_flags: bool,
    rn: Register,
    rd: Register,
    operand: ReadOutcome<Operand>,
) -> ReadOutcome<Action>
    ensures { result ≡ operate_action operation sets_flags rn rd operand }
{
    match operand {
        Ok(operand) => Ok(Action::Operate(Operate {
            operation,
            sets_flags,
            rn,
            rd,
            operand,
        })),
        Err(reason) => Err(reason),
    }
}

/// The operands of MUL, and of MLA, which accumulates.
pub fn multiply_at(
    accumulates: bool,
    sets_flags: bool,
    text: &[u8],
) -> Read<'_, ReadOutcome<Action>>
    ensures { read_of result ≡ multiply_at accumulates sets_flags text.now }
{
    let Some((rd, behind_rd)) = register(text) else {
        return None;
    };
    let Some((rm, behind_rm)) = register(comma(behind_rd)?) else {
        return None;
    };
    let Some((rs, behind_rs)) = register(comma(behind_rm)?) else {
        return None;
    };
    let Some((rn, rest)) = added_register(accumulates, behind_rs) else {
        return None;
    };
    let multiply = Multiply {
        accumulates,
        sets_flags,
        rd,
        rn,
        rs,
        rm,
    };
    Some((Ok(Action::Multiply(multiply)), rest))
}

// `,Rn` of MLA; MUL has no Rn.
fn added_register(accumulates: bool, text: &[u8]) -> Read<'_, Register>
    ensures { read_of result ≡ added_register accumulates text.now }
{
    if accumulates {
        register(comma(text)?)
    } else {
        Some((Register::new(0), text))
    }
}
