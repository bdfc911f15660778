//! Steps in the last page of the address space, where no machine has memory. Worked out by hand
//! from the rules of the ARM2 data sheet.

use address_map::AddressMap;
use arm_step::{Cpu, StepEnd, step};
use std::alloc::{AllocError, Global};
use std::test::Fail;

const LAST_WORD: u32 = 0x03FF_FFFC;

const LAST_TWO: u32 = 0x03FF_FFF8;

const LAST_BYTE: u32 = 0x03FF_FFFF;

/// Where the program counter is, R1, and the word there; the program counter, R0, R1, R14 and the
/// last word of the address space after its step. Before it R0 is 7, R2 2, R3 3 and R14 9.
static ROWS: [(u32, u32, u32, u32, u32, u32, u32, u32); 6] = [
    // MOV R0,PC at the last word: two words ahead is 4. BL there: the link is 0
    (LAST_WORD, 0, 0xE1A0_000F, 0, 4, 0, 9, 0xE1A0_000F),
    (LAST_WORD, 0, 0xEB00_0000, 4, 7, 0, 0, 0xEB00_0000),
    // B two words ahead of the last but one
    (LAST_TWO, 0, 0xEA00_0000, 0, 7, 0, 9, 0),
    // LDR R0,[R1] of the last word, and LDRB R0,[R1] of the last byte
    (0x8000, LAST_WORD, 0xE591_0000, 0x8004, 0, LAST_WORD, 9, 0),
    (0x8000, LAST_BYTE, 0xE5D1_0000, 0x8004, 0, LAST_BYTE, 9, 0),
    // STMIA R1!,{R2,R3} to the last words: the base goes past them
    (0x8000, LAST_TWO, 0xE8A1_000C, 0x8004, 7, 0x0400_0000, 9, 3),
];

/// Whether a row's step ends as the row has it.
fn is_stepped(
    alloc: Global,
    row: &(u32, u32, u32, u32, u32, u32, u32, u32),
) -> Result<bool, AllocError> {
    let (from, base, word, pc, r0, r1, r14, last) = *row;
    let mut memory = AddressMap::new(alloc, 2)?;
    memory.map_pages(0x8000, 1);
    memory.map_pages(0x03FF_F000, 1);
    let mut cpu = Cpu::new();
    cpu.set_pc(from);
    cpu.set_register(0, 7);
    cpu.set_register(1, base);
    cpu.set_register(2, 2);
    cpu.set_register(3, 3);
    cpu.set_register(14, 9);
    let is_put = memory.store_word(from, word).is_ok();
    let turn = step(&mut cpu, &mut memory);
    Ok(
        is_put
            && turn == StepEnd::Done
            && cpu.pc() == pc
            && cpu.register(0) == r0
            && cpu.register(1) == r1
            && cpu.register(14) == r14
            && memory.load_word(LAST_WORD) == Ok(last),
    )
}

#[test]
fn steps_in_the_last_page(rt: HostRuntime) -> Result<(), Fail> {
    for row in &ROWS {
        assert!(rt; is_stepped(rt.alloc(), row)?, "{:08X}", row.2);
    }
    Ok(())
}
