//! Calls that take no host memory: many of them on a machine, and then takings of memory. Where
//! these are refused from says how many were taken before.

use crate::outcome::{CallOutcome, take_and_give_back};
use debugger::{
    show_areas, show_blocks, show_code, show_flex, show_memory, show_modules, show_regs,
};
use profile::images::Images;
use profile::{Config, MemorySink, WriteFault};
use std::alloc::Global;
use swi_dispatch_guest::Machine;

/// What is done many times before memory is taken.
#[derive(Clone, Copy)]
pub enum Done {
    Nothing,
    Steps,
    StoreCalls,
    Views,
}

const TIMES: u32 = 16;

/// A loop of five instructions after the first: it counts in R0, stores that and loads it, and
/// stores four registers.
static PROGRAM: [u8; 24] = [
    0x09, 0x1A, 0xA0, 0xE3, // MOV R1,#&9000
    0x01, 0x00, 0x80, 0xE2, // ADD R0,R0,#1
    0x00, 0x00, 0x81, 0xE5, // STR R0,[R1]
    0x00, 0x20, 0x91, 0xE5, // LDR R2,[R1]
    0x0F, 0x00, 0x81, 0xE8, // STMIA R1,{R0-R3}
    0xFA, 0xFF, 0xFF, 0xEA, // B to the ADD
];

/// A module without entries, whose title is `W`.
static MODULE: [u8; 30] = [
    0, 0, 0, 0, 0, 0, 0, 0, 0, 0, 0, 0, 0, 0, 0, 0, 0x1C, 0, 0, 0, 0, 0, 0, 0, 0, 0, 0, 0, 0x57, 0,
];

const HEAP: u32 = 0xA000;

/// Takes host memory so many times, after all that is done on a machine before.
pub fn taken_after(alloc: Global, done: Done, takings: u32) -> CallOutcome {
    let mut images = Images::new();
    let Some(config) = Config::new(64, 4, 16) else {
        return CallOutcome::Wrong;
    };
    let Ok(mut machine) = Machine::new(alloc, config) else {
        return CallOutcome::Before;
    };
    if images.add(alloc, b"w", &MODULE).is_err() {
        return CallOutcome::Before;
    }
    let is_right = machine.boot(&PROGRAM).is_ok()
        && match done {
            Done::Nothing => true,
            Done::Steps => steps(&mut machine, &images),
            Done::StoreCalls => store_calls(&mut machine, &images),
            Done::Views => views(&mut machine, &images),
        };
    match take_and_give_back(alloc, takings) {
        Ok(()) => CallOutcome::answered(is_right),
        Err(_) => CallOutcome::refused(is_right),
    }
}

/// The first instruction, and so many rounds of the loop.
fn steps(machine: &mut Machine, images: &Images) -> bool {
    for _ in 0..1 + 5 * TIMES {
        if machine.step(images).is_some() {
            return false;
        }
    }
    machine.cpu().register(2) == TIMES && machine.cpu().register(15) == 0x8004
}

/// A call with these words in R0 to R3, done without an error.
fn call(machine: &mut Machine, images: &Images, number: u32, words: [u32; 4]) -> bool {
    let [r0, r1, r2, r3] = words;
    machine.set_register(0, r0);
    machine.set_register(1, r1);
    machine.set_register(2, r2);
    machine.set_register(3, r3);
    machine.store_call(images, number).is_none() && !machine.cpu().psr().overflow
}

/// A heap, and in each round a block of it and one of the module area, both given back; a page of
/// the module area more and one less; a module loaded and taken away.
fn store_calls(machine: &mut Machine, images: &Images) -> bool {
    if !call(machine, images, 0x1D, [0, HEAP, 0, 4096]) {
        return false;
    }
    for _ in 0..TIMES {
        if !blocks(machine, images) || !pages(machine, images) || !module(machine, images) {
            return false;
        }
    }
    true
}

fn blocks(machine: &mut Machine, images: &Images) -> bool {
    if !call(machine, images, 0x1D, [2, HEAP, 0, 20]) {
        return false;
    }
    let block = machine.cpu().register(2);
    if !call(machine, images, 0x1E, [6, 0, 0, 20]) {
        return false;
    }
    let other = machine.cpu().register(2);
    call(machine, images, 0x1D, [3, HEAP, block, 0])
        && call(machine, images, 0x1E, [7, 0, other, 0])
}

fn pages(machine: &mut Machine, images: &Images) -> bool {
    call(machine, images, 0x2A, [1, 4096, 0, 0])
        && call(machine, images, 0x2A, [1, 0_u32.wrapping_sub(4096), 0, 0])
}

fn module(machine: &mut Machine, images: &Images) -> bool {
    machine.load_module(images, b"w").is_none()
        && !machine.cpu().psr().overflow
        && call(machine, images, 0x1E, [12, 0, 0, 0])
}

/// A heap and a module, and so many times all that the shell shows of a machine.
fn views(machine: &mut Machine, images: &Images) -> bool {
    if !call(machine, images, 0x1D, [0, HEAP, 0, 4096])
        || machine.load_module(images, b"w").is_some()
    {
        return false;
    }
    for _ in 0..TIMES {
        if !matches!(all_shown(machine), Ok(count) if count > 0) {
            return false;
        }
    }
    true
}

/// How many bytes show all that is shown.
fn all_shown(machine: &Machine) -> Result<usize, WriteFault> {
    let mut room = [0u8; 4096];
    let mut writer = MemorySink::new(&mut room, 4096, u64::MAX);
    show_regs(machine, &mut writer)?;
    show_memory(machine, 0x8000, 64, &mut writer)?;
    show_code(machine, 0x8000, 6, &mut writer)?;
    show_blocks(machine, HEAP, &mut writer)?;
    show_areas(machine, &mut writer)?;
    show_modules(machine, &mut writer)?;
    show_flex(machine, &mut writer)?;
    Ok(writer.written().len())
}
