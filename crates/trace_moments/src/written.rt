//! Which registers an instruction and a store call write.

use arm_core::{Cpu, Mode, Psr};
use arm_decode::{Action, BlockTransfer, Operate, Register, Transfer, decode};
use profile::{AreaReason, HeapReason, ModuleReason, SwiName};
use trace_effects::Cause;
use trace_effects::shown_registers::WrittenRegisters;

/// The number of the link register.
const LINK: u32 = 14;

/// The registers that the instruction at a core's program counter writes, if its condition is met.
pub fn written_by_instruction(cause: Cause, psr: Psr) -> WrittenRegisters {
    let mut written = WrittenRegisters::new();
    if let Cause::Word(word) = cause {
        if let Ok(instr) = decode(word) {
            add_action(&mut written, psr.mode, instr.action());
        }
    }
    written
}

fn add_action(written: &mut WrittenRegisters, mode: Mode, action: Action) {
    match action {
        Action::Operate(operate) => add_operate(written, mode, &operate),
        Action::Multiply(multiply) => written.add(mode, multiply.rd.number()),
        Action::Transfer(transfer) => add_transfer(written, mode, &transfer),
        Action::BlockTransfer(block) => add_block(written, mode, &block),
        Action::Branch { links, .. } => {
            if links {
                written.add(mode, LINK);
            }
        }
        Action::SoftwareInterrupt(_) => {}
    }
}

fn add_operate(written: &mut WrittenRegisters, mode: Mode, operate: &Operate) {
    if !operate.operation.is_test() {
        written.add(mode, operate.rd.number());
    }
}

fn add_transfer(written: &mut WrittenRegisters, mode: Mode, transfer: &Transfer) {
    if transfer.loads {
        written.add(mode, transfer.rd.number());
    }
    if transfer.address.indexing.writes_base() {
        written.add(mode, transfer.address.rn.number());
    }
}

// LDM with S and no R15 loads registers of user mode.
fn add_block(written: &mut WrittenRegisters, mode: Mode, block: &BlockTransfer) {
    if block.writes_back {
        written.add(mode, block.rn.number());
    }
    if !block.loads {
        return;
    }
    let is_of_user = block.psr_or_user && !block.list.contains_pc();
    let bank = if is_of_user { Mode::User } else { mode };
    for number in 0..15u8 {
        if block.list.contains(Register::new(number)) {
            written.add(bank, u32::from(number));
        }
    }
}

/// The registers that a store call answers in, by its number without the X bit and the core before it.
/// R14 of supervisor mode is written by each.
pub fn written_by_call(number: u32, before: &Cpu) -> WrittenRegisters {
    let mut written = WrittenRegisters::new();
    for register in results_of(number, before.register(0)) {
        written.add(Mode::User, *register);
    }
    written
}

fn results_of(number: u32, reason: u32) -> &'static [u32] {
    match SwiName::of(number) {
        Some(SwiName::Heap) => heap_results(HeapReason::of(reason)),
        Some(SwiName::Module) => module_results(ModuleReason::of(reason)),
        Some(SwiName::DynamicArea) => area_results(AreaReason::of(reason)),
        Some(SwiName::ReadDynamicArea) => &[0, 1],
        Some(SwiName::ChangeDynamicArea) => &[1],
        Some(SwiName::FlexAlloc)
        | Some(SwiName::FlexSize)
        | Some(SwiName::FlexExtend)
        | Some(SwiName::FlexMidExtend) => &[0],
        _ => &[],
    }
}

fn heap_results(reason: Option<HeapReason>) -> &'static [u32] {
    match reason {
        Some(HeapReason::Describe) => &[2, 3],
        Some(HeapReason::Get) | Some(HeapReason::Resize) => &[2],
        Some(HeapReason::BlockSize) => &[3],
        _ => &[],
    }
}

fn module_results(reason: Option<ModuleReason>) -> &'static [u32] {
    match reason {
        Some(ModuleReason::DescribeArea) => &[2, 3],
        Some(ModuleReason::Claim) | Some(ModuleReason::Extend) => &[2],
        Some(ModuleReason::Info) => &[1, 2, 3, 4, 5],
        Some(ModuleReason::Lookup) => &[1, 2, 3, 4],
        _ => &[],
    }
}

fn area_results(reason: Option<AreaReason>) -> &'static [u32] {
    match reason {
        Some(AreaReason::Create) => &[1, 3, 5],
        Some(AreaReason::Info) => &[2, 3, 4, 5, 6, 7],
        Some(AreaReason::Enumerate) => &[1],
        _ => &[],
    }
}
