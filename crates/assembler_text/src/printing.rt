//! The one text of each word.

ghost use Rattle.std.specs.Prelude.{◌≡◌, ◌<◌, ◌^◌, true};
ghost use Rattle.arm_decode.specs.Output.{Writes};
ghost use Rattle.assembler_text.specs.Printing.{action_text, branch_target, branch_text, data_text, flags_text, swi_text, multiply_head, multiply_operands, multiply_text, operate_head, operate_text, print, operate_registers_text};

use crate::names::{RegisterName, choose_text, condition_text, operation_text, text_if};
use crate::operands::push_operand;
use crate::transfers::{push_block, push_transfer};
use arm_decode::{
    Action, Condition, HexText, Multiply, Operate, Operation, Sink, WriteFault, decode, push_parts,
};

/// Writes the text of a word at its address: its instruction, or, where it is no instruction,
/// `DCD &` and eight digits.
pub fn disassemble<W: Sink>(word: u32, address: u32, sink: &mut W) -> Result<(), WriteFault>
    ensures { Writes W.contents W.has_failed sink.old sink.new result (print word address) }
{
    match decode(word) {
        Ok(instr) => push_action(address, instr.condition(), instr.action(), sink),
        Err(_) => push_data(word, sink),
    }
}

fn push_data<W: Sink>(word: u32, sink: &mut W) -> Result<(), WriteFault>
    ensures { Writes W.contents W.has_failed sink.old sink.new result (data_text word) }
{
    push_parts(sink, &[b"DCD &".as_slice(), HexText::word(word).as_slice()])
}

fn push_action<W: Sink>(
    address: u32,
    condition: Condition,
    action: Action,
    sink: &mut W,
) -> Result<(), WriteFault>
    ensures { Writes W.contents W.has_failed sink.old sink.new result
        (action_text address condition action) }
{
    match action {
        Action::Operate(operate) => push_operate(condition, &operate, sink),
        Action::Multiply(multiply) => push_multiply(condition, &multiply, sink),
        Action::Transfer(transfer) => push_transfer(condition, &transfer, sink),
        Action::BlockTransfer(block) => push_block(condition, &block, sink),
        Action::Branch { links, distance } => {
            let target = branch_target(address, distance.number());
            push_branch(condition, links, target, sink)
        }
        Action::SoftwareInterrupt(number) => push_swi(condition, number.number(), sink),
    }
}

fn push_operate<W: Sink>(
    condition: Condition,
    operate: &Operate,
    sink: &mut W,
) -> Result<(), WriteFault>
    ensures { Writes W.contents W.has_failed sink.old sink.new result (operate_text condition operate.now) }
{
    push_operate_head(condition, operate, sink)?;
    push_registers(operate, sink)?;
    push_operand(operate.operand, sink)
}

// `ADDcS `
fn push_operate_head<W: Sink>(
    condition: Condition,
    operate: &Operate,
    sink: &mut W,
) -> Result<(), WriteFault>
    ensures { Writes W.contents W.has_failed sink.old sink.new result (operate_head condition operate.now) }
{
    push_parts(
        sink,
        &[
            operation_text(operate.operation),
            condition_text(condition),
            flags_text(operate),
            b" ".as_slice(),
        ],
    )
}

fn flags_text(operate: &Operate) -> &'static [u8]
    ensures { result.now ≡ flags_text operate.now }
{
    if operate.operation.is_test() {
        text_if(operate.rd.is_pc(), b"P")
    } else {
        text_if(operate.sets_flags, b"S")
    }
}

// `Rn,` of a test, `Rd,` of MOV and MVN, else `Rd,Rn,`
fn push_registers<W: Sink>(operate: &Operate, sink: &mut W) -> Result<(), WriteFault>
    ensures { Writes W.contents W.has_failed sink.old sink.new result (operate_registers_text operate.now) }
{
    let rd = RegisterName::of(operate.rd);
    let rn = RegisterName::of(operate.rn);
    if operate.operation.is_test() {
        push_parts(sink, &[rn.as_slice(), b",".as_slice()])
    } else if operate.operation.is_move() {
        push_parts(sink, &[rd.as_slice(), b",".as_slice()])
    } else {
        push_parts(
            sink,
            &[
                rd.as_slice(),
                b",".as_slice(),
                rn.as_slice(),
                b",".as_slice(),
            ],
        )
    }
}

fn push_multiply<W: Sink>(
    condition: Condition,
    multiply: &Multiply,
    sink: &mut W,
) -> Result<(), WriteFault>
    ensures { Writes W.contents W.has_failed sink.old sink.new result
        (multiply_text condition multiply.now) }
{
    push_multiply_head(condition, multiply, sink)?;
    push_multiply_operands(multiply, sink)
}

// `MULcS ` or `MLAcS `
fn push_multiply_head<W: Sink>(
    condition: Condition,
    multiply: &Multiply,
    sink: &mut W,
) -> Result<(), WriteFault>
    ensures { Writes W.contents W.has_failed sink.old sink.new result
        (multiply_head condition multiply.now) }
{
    push_parts(
        sink,
        &[
            choose_text(multiply.accumulates, b"MLA", b"MUL"),
            condition_text(condition),
            text_if(multiply.sets_flags, b"S"),
            b" ".as_slice(),
        ],
    )
}

// `Rd,Rm,Rs`, and of MLA `,Rn`
fn push_multiply_operands<W: Sink>(multiply: &Multiply, sink: &mut W) -> Result<(), WriteFault>
    ensures { Writes W.contents W.has_failed sink.old sink.new result (multiply_operands multiply.now) }
{
    let rn = RegisterName::of(multiply.rn);
    push_parts(
        sink,
        &[
            RegisterName::of(multiply.rd).as_slice(),
            b",".as_slice(),
            RegisterName::of(multiply.rm).as_slice(),
            b",".as_slice(),
            RegisterName::of(multiply.rs).as_slice(),
            text_if(multiply.accumulates, b","),
            text_if(multiply.accumulates, rn.as_slice()),
        ],
    )
}

fn push_branch<W: Sink>(
    condition: Condition,
    links: bool,
    target: u32,
    sink: &mut W,
) -> Result<(), WriteFault>
    ensures { Writes W.contents W.has_failed sink.old sink.new result (branch_text condition links target) }
{
    push_parts(
        sink,
        &[
            choose_text(links, b"BL", b"B"),
            condition_text(condition),
            b" &".as_slice(),
            HexText::number(target).as_slice(),
        ],
    )
}

// The address plus 8 and the distance, modulo 2^26.
fn branch_target(address: u32, distance: u32) -> u32
    requires { distance < 2 ^ 24 }
    ensures { result ≡ branch_target address distance }
{
    address.wrapping_add(8).wrapping_add(4 * distance) % (1 << 26)
}

fn push_swi<W: Sink>(condition: Condition, number: u32, sink: &mut W) -> Result<(), WriteFault>
    ensures { Writes W.contents W.has_failed sink.old sink.new result (swi_text condition number) }
{
    push_parts(
        sink,
        &[
            b"SWI".as_slice(),
            condition_text(condition),
            b" &".as_slice(),
            HexText::number(number).as_slice(),
        ],
    )
}
