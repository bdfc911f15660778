//! One step of the core over memory.

ghost use Rattle.std.specs.Prelude.{◌≡◌, ◌≢◌, ◌<◌, ◌≤◌, ◌^◌, ◌%◌};
ghost use Rattle.address_map.specs.Memory.{bytes_of, is_owned, layout, class_of};
ghost use Rattle.arm_step.specs.Turns.{Turns};
ghost use Rattle.arm_decode.specs.Decoded.{instruction_of_word};
ghost use Rattle.arm_decode.specs.Fields.{operate_in, multiply_in};
ghost use Rattle.arm_step.specs.Step.{or_fault, acted_if_decoded, Operates, Multiplies, acted_at, acted_on_block, result_of_word, result_of_step};
ghost use Rattle.address_map.specs.Outcome.{Leaves};

use crate::block::transfer_block;
use crate::transfer::transfer_one;
use address_map::{AddressMap, RETURN_GATE};
use arm_core::condition::is_met;
use arm_core::{Cpu, StepEnd, is_bit_set};
use arm_decode::{
    Address, Bits, BlockTransfer, Condition, Fault, Form, Multiply, Offset, Operand, Operate,
    ShiftedRegister, Transfer, row_of,
};

/// Takes one step: fetches the word at the program counter and carries it out.
///
/// The turn is the first of these that applies: the gate; a fetch where nothing is mapped; nothing
/// done, where the condition fails; a word that is refused; a software interrupt;
/// `AddressException`, `DataUnmapped`, `OwnedWord`, each over all words of the transfer. All but
/// `Done` leave core and memory as they were.
#[tactic(auto, unfolding(crate::specs::Step::result_of_step))]
#[inline(always)]
pub fn step(cpu: &mut Cpu, memory: &mut AddressMap) -> StepEnd
    ensures turn { Turns (cpu.old, bytes_of memory.old)
        (result_of_step (is_owned memory.old) cpu.old (bytes_of memory.old)) result
        (cpu.new, bytes_of memory.new) }
    ensures layout { layout memory.new ≡ layout memory.old }
    ensures marks { class_of memory.new ≡ class_of memory.old }
    ensures unchanged { result ≢ StepEnd.Done →
        (cpu.new ≡ cpu.old) × (bytes_of memory.new ≡ bytes_of memory.old) }
{
    let pc = cpu.pc();
    if pc == RETURN_GATE {
        return StepEnd::Gate;
    }
    match memory.fetch_word(pc) {
        Ok(word) => execute(cpu, memory, word),
        Err(_) => StepEnd::Fault(Fault::FetchUnmapped),
    }
}

/// Carries out a word where its condition holds, and else goes on to the next.
#[inline(always)]
fn execute(cpu: &mut Cpu, memory: &mut AddressMap, word: u32) -> StepEnd
    ensures turn { let executed = result_of_word (is_owned memory.old) cpu.old (bytes_of memory.old) word in
        Turns (cpu.old, bytes_of memory.old) executed result (cpu.new, bytes_of memory.new) }
    ensures layout { layout memory.new ≡ layout memory.old }
    ensures marks { class_of memory.new ≡ class_of memory.old }
{
    if !is_met(Condition::in_word(word), cpu.psr()) {
        cpu.advance();
        return StepEnd::Done;
    }
    match execute_always(cpu, memory, word) {
        Ok(()) => StepEnd::Done,
        Err(turn) => turn,
    }
}

/// Carries out a word whose condition holds. Each form reads the fields that it needs from
/// the word; no instruction is built and copied.
#[tactic(auto, unfolding(crate::specs::Step::result_of_action, arm_decode::specs::Decoded::instruction_of_word))]
#[inline(always)]
fn execute_always(cpu: &mut Cpu, memory: &mut AddressMap, word: u32) -> Result<(), StepEnd>
    ensures state { let acted = acted_if_decoded (is_owned memory.old) cpu.old (bytes_of memory.old)
        (instruction_of_word word) in
        Leaves (cpu.old, bytes_of memory.old) acted result (cpu.new, bytes_of memory.new) }
    ensures layout { layout memory.new ≡ layout memory.old }
    ensures marks { class_of memory.new ≡ class_of memory.old }
{
    match row_of(word)? {
        Form::Multiply => multiply_word(cpu, word)?,
        Form::ShiftByNumber => {
            let second = Operand::Shifted(ShiftedRegister::in_word(word));
            operate_word(cpu, second, word)?;
        }
        Form::ShiftByRegister => operate_word(cpu, Operand::by_register_in(word), word)?,
        Form::Immediate => operate_word(cpu, Operand::immediate_in(word), word)?,
        Form::OffsetByNumber => {
            let offset = Offset::Immediate(Bits::in_word(word, 0));
            transfer_word(cpu, memory, Address::in_word(offset, word), word)?;
        }
        Form::OffsetByRegister => {
            let offset = Offset::Shifted(ShiftedRegister::in_word(word));
            transfer_word(cpu, memory, Address::in_word(offset, word), word)?;
        }
        Form::BlockTransfer => transfer_block_word(cpu, memory, word)?,
        Form::Branch => {
            let distance: Bits<24> = Bits::in_word(word, 0);
            cpu.branch(is_bit_set(word, 24), distance.number());
        }
        Form::SoftwareInterrupt => {
            let number: Bits<24> = Bits::in_word(word, 0);
            return Err(StepEnd::Swi(number.number()));
        }
    }
    Ok(())
}

/// Data processing, by the fields of a word and this second operand.
///
/// # Errors
///
/// The fault by which the table refuses the word. The core is then as before.
#[inline(always)]
fn operate_word(cpu: &mut Cpu, second: Operand, word: u32) -> Result<(), Fault>
    ensures { Operates cpu.old (operate_in second word) result cpu.new }
{
    let operate = Operate::in_word(second, word);
    if let Some(fault) = operate.refusal() {
        return Err(fault);
    }
    cpu.operate(&operate);
    Ok(())
}

/// MUL and MLA, by the fields of a word.
///
/// # Errors
///
/// The fault by which the table refuses the word. The core is then as before.
#[inline(always)]
fn multiply_word(cpu: &mut Cpu, word: u32) -> Result<(), Fault>
    ensures { Multiplies cpu.old (multiply_in word) result cpu.new }
{
    let multiply = Multiply::in_word(word);
    if let Some(fault) = multiply.refusal() {
        return Err(fault);
    }
    cpu.multiply(&multiply);
    Ok(())
}

/// LDR and STR at this address, by the fields of a word.
///
/// # Errors
///
/// The fault by which the table refuses the word, or else that of the transfer. Core and
/// memory are then as before.
#[tactic(auto, unfolding(crate::specs::Step::result_of_action))]
#[inline(always)]
fn transfer_word(
    cpu: &mut Cpu,
    memory: &mut AddressMap,
    address: Address,
    word: u32,
) -> Result<(), Fault>
    ensures state { let acted = acted_at (is_owned memory.old) cpu.old (bytes_of memory.old) address word in
        Leaves (cpu.old, bytes_of memory.old) acted (or_fault result) (cpu.new, bytes_of memory.new) }
    ensures layout { layout memory.new ≡ layout memory.old }
    ensures marks { class_of memory.new ≡ class_of memory.old }
{
    let transfer = Transfer::in_word(address, word);
    match transfer.refusal() {
        Some(fault) => Err(fault),
        None => transfer_one(cpu, memory, &transfer),
    }
}

/// LDM and STM, by the fields of a word.
///
/// # Errors
///
/// The fault by which the table refuses the word, or else that of the transfer. Core and
/// memory are then as before.
#[tactic(auto, unfolding(crate::specs::Step::result_of_action))]
#[inline(always)]
fn transfer_block_word(cpu: &mut Cpu, memory: &mut AddressMap, word: u32) -> Result<(), Fault>
    ensures state { let acted = acted_on_block (is_owned memory.old) cpu.old (bytes_of memory.old) word in
        Leaves (cpu.old, bytes_of memory.old) acted (or_fault result) (cpu.new, bytes_of memory.new) }
    ensures layout { layout memory.new ≡ layout memory.old }
    ensures marks { class_of memory.new ≡ class_of memory.old }
{
    let block = BlockTransfer::in_word(word);
    match block.refusal() {
        Some(fault) => Err(fault),
        None => transfer_block(cpu, memory, word, &block),
    }
}
