//! What a stub does in place of a step: what is written to memory and to registers.

ghost use Rattle.std.specs.Prelude.{◌≡◌, ◌<◌, ◌%◌, ◌/◌, ◌^◌, ◌≤◌, length};
ghost use Rattle.address_map.specs.Bytes.{word_loaded};
ghost use Rattle.address_map.specs.Memory.{bytes_of};
ghost use Rattle.debug_tables.specs.Stubs.{bank_setting, bytes_of_stub_words, deed_back, deed_of_answer, deed_of_entry, deed_of_error, deed_of_return, deed_of_stub, deed_unless_fetched, kept_at, words_kept, next_address, stub_settings_in, status_back, status_with_flags, word_back, words_found};

use address_map::AddressMap;
use arrayvec::ArrayVec;
use command_shell::watches::mapped_word;
use command_shell::{Cpu, Mode, Psr, RegisterNumber, Stub, StubFlags, StubRegister};
use profile::memory_map::ADDRESS_LIMIT;
use profile::word::is_bit_set;
use std::marker::Model;

/// Where the code of a stub returns to: nothing is fetched there.
pub const STUB_END: u32 = ADDRESS_LIMIT - 8;

/// So many bytes are kept on the stack for its return.
const KEPT: u32 = 24;

/// An instruction SWI OS_GenerateError.
const GENERATE_ERROR: u32 = 0xEF00_002B;

/// A register of a mode's bank, and its value.
#[derive(Clone, Copy)]
pub struct BankSetting {
    pub mode: Mode,
    pub register: RegisterNumber,
    pub value: u32,
}

impl Default for BankSetting {
    fn default() -> BankSetting {
        bank_setting(Mode::User, 0, 0)
    }
}

/// What a stub does in place of a step.
#[derive(Drop)]
pub struct StubDeed {
    /// Where bytes are written.
    pub(crate) at: u32,
    /// The bytes.
    pub(crate) bytes: ArrayVec<u8, 32>,
    /// The registers that are set, one after another.
    pub(crate) settings: ArrayVec<BankSetting, 12>,
    /// The status then.
    pub(crate) status: Psr,
    /// Where the guest goes on.
    pub(crate) next: u32,
}

impl Model for StubDeed {
    ghost use Rattle.std.specs.Prelude.{◌≡◌, ◌<◌, ◌%◌, ◌^◌};
    ghost use Rattle.debug_tables.specs.Stubs.{StubDeedState};

    ghost Value = { StubDeedState };

    ghost view = { λ d. record {
      at = d.at;
      bytes = d.bytes.items;
      settings = d.settings.items;
      status = d.status;
      next = d.next;
    } };

    ghost invariant = { λ d. (d.next % 4 ≡ 0) × (d.next < 2 ^ 26) };
}

impl StubDeed {
    /// Where words are stored.
    pub fn stored_at(&self) -> u32
        ensures { result ≡ self.now.at }
    {
        self.at
    }

    /// How many words are stored.
    pub fn stored_words(&self) -> u32
        ensures value { result ≡ length self.now.bytes / 4 }
        ensures few { result ≤ 8 }
    {
        (self.bytes.as_slice().len() / 4) as u32
    }

    /// The registers that are set, one after another.
    pub fn settings(&self) -> &[BankSetting]
        ensures { result.now ≡ self.now.settings }
    {
        self.settings.as_slice()
    }
}

/// What a stub does at a SWI that the core calls.
pub(crate) fn deed_of_stub(stub: &Stub, cpu: &Cpu, swi: u32) -> StubDeed
    ensures { result ≡ deed_of_stub stub.now cpu.now swi }
{
    match stub.entry {
        Some(entry) => deed_of_entry(stub, cpu, swi, entry.address()),
        None => deed_of_answer(stub, cpu),
    }
}

fn deed_of_answer(stub: &Stub, cpu: &Cpu) -> StubDeed
    ensures { result ≡ deed_of_answer stub.now cpu.now }
{
    let mut settings = stub_settings_in(cpu.psr().mode, stub.registers.as_slice());
    settings.push(bank_setting(Mode::Supervisor, 14, word_back(cpu)));
    StubDeed {
        at: stub.at,
        bytes: bytes_of_stub_words(stub.words.as_slice()),
        settings,
        status: status_with_flags(stub.flags, cpu.psr()),
        next: next_address(cpu),
    }
}

fn deed_of_entry(stub: &Stub, cpu: &Cpu, swi: u32, entry: u32) -> StubDeed
    requires whole { entry % 4 ≡ 0 }
    requires inside { entry < 2 ^ 26 }
    ensures { result ≡ deed_of_entry stub.now cpu.now swi entry }
{
    let at = kept_at(cpu);
    let status = Psr {
        mode: Mode::Supervisor,
        ..status_with_flags(stub.flags, cpu.psr())
    };
    let mut settings = stub_settings_in(cpu.psr().mode, stub.registers.as_slice());
    settings.push(bank_setting(Mode::User, 11, swi % 64));
    settings.push(bank_setting(Mode::Supervisor, 13, at));
    settings.push(bank_setting(Mode::Supervisor, 14, status.bits() + STUB_END));
    StubDeed {
        at,
        bytes: bytes_of_stub_words(&words_kept(cpu, swi)),
        settings,
        status,
        next: entry,
    }
}

// Where the words are kept for the return.
fn kept_at(cpu: &Cpu) -> u32
    ensures { result ≡ kept_at cpu.now }
{
    cpu.register_in(Mode::Supervisor, 13).wrapping_sub(KEPT)
}

fn words_kept(cpu: &Cpu, swi: u32) -> [u32; 6]
    ensures { result ≡ words_kept cpu.now swi }
{
    let own = kept_at(cpu).wrapping_add(u32::from(is_bit_set(swi, 17)));
    [
        cpu.register_in(Mode::User, 10),
        cpu.register_in(Mode::User, 11),
        cpu.register_in(Mode::User, 12),
        word_back(cpu),
        own,
        GENERATE_ERROR,
    ]
}

// Where a SWI goes back to, with the caller's status.
fn word_back(cpu: &Cpu) -> u32
    ensures { result ≡ word_back cpu.now }
{
    cpu.psr().bits() + next_address(cpu)
}

fn next_address(cpu: &Cpu) -> u32
    ensures value { result ≡ next_address cpu.now }
    ensures whole { result % 4 ≡ 0 }
    ensures inside { result < 2 ^ 26 }
{
    (cpu.pc() + 4) % ADDRESS_LIMIT
}

fn bank_setting(mode: Mode, register: u32, value: u32) -> BankSetting
    requires { register ≤ 14 }
    ensures { result ≡ bank_setting mode register value }
{
    BankSetting {
        mode,
        register: RegisterNumber::new(register),
        value,
    }
}

// The registers that a line names, of the caller's mode.
fn stub_settings_in(mode: Mode, registers: &[StubRegister]) -> ArrayVec<BankSetting, 12>
    requires { length registers.now ≤ 8 }
    ensures items { result.items ≡ stub_settings_in mode registers.now }
    ensures room { length result.items ≤ 8 }
{
    let mut settings = ArrayVec::new();
    for set in registers {
        settings.push(BankSetting {
            mode,
            register: set.register,
            value: set.value,
        });
    }
    settings
}

fn bytes_of_stub_words(words: &[u32]) -> ArrayVec<u8, 32>
    requires { length words.now ≤ 8 }
    ensures { result.items ≡ bytes_of_stub_words words.now }
{
    let mut bytes = ArrayVec::new();
    for word in words {
        let _fits = bytes.try_extend_from_slice(&word.to_le_bytes());
    }
    bytes
}

fn status_with_flags(flags: StubFlags, status: Psr) -> Psr
    ensures { result ≡ status_with_flags flags status }
{
    Psr {
        negative: flags.negative.unwrap_or(status.negative),
        zero: flags.zero.unwrap_or(status.zero),
        carry: flags.carry.unwrap_or(status.carry),
        overflow: flags.overflow.unwrap_or(false),
        ..status
    }
}

/// The same at the address to which code returns: nothing may stand there.
pub(crate) fn deed_unless_fetched(cpu: &Cpu, memory: &AddressMap) -> Option<StubDeed>
    ensures { result ≡ deed_unless_fetched cpu.now (bytes_of memory.now)
        (word_loaded (bytes_of memory.now) cpu.now.pc) }
{
    match memory.load_word(cpu.pc()) {
        Ok(_) => None,
        Err(_) => deed_back(cpu, memory),
    }
}

// What stands in place of a step where the code of a stub has come back, if it has: the words that were
// kept say where they are.
fn deed_back(cpu: &Cpu, memory: &AddressMap) -> Option<StubDeed>
    ensures { result ≡ deed_back cpu.now (bytes_of memory.now) }
{
    let at = cpu.register_in(Mode::Supervisor, 13);
    let Some(words) = words_found(memory, at) else {
        return None;
    };
    let [r10, r11, r12, back, own] = words;
    if own - own % 2 != at {
        return None;
    }
    if cpu.psr().overflow && own % 2 == 0 {
        Some(deed_of_error(cpu, at))
    } else {
        Some(deed_of_return(cpu, at, [r10, r11, r12], back))
    }
}

// Five words, where all of them are mapped.
fn words_found(memory: &AddressMap, at: u32) -> Option<[u32; 5]>
    ensures { result ≡ words_found (bytes_of memory.now) at }
{
    match (
        mapped_word(memory, at),
        mapped_word(memory, at.wrapping_add(4)),
        mapped_word(memory, at.wrapping_add(8)),
        mapped_word(memory, at.wrapping_add(12)),
        mapped_word(memory, at.wrapping_add(16)),
    ) {
        (Some(r10), Some(r11), Some(r12), Some(back), Some(own)) => {
            Some([r10, r11, r12, back, own])
        }
        _ => None,
    }
}

// An error goes on at the instruction that generates it.
fn deed_of_error(cpu: &Cpu, at: u32) -> StubDeed
    ensures { result ≡ deed_of_error cpu.now at }
{
    StubDeed {
        at: 0,
        bytes: ArrayVec::new(),
        settings: ArrayVec::new(),
        status: cpu.psr(),
        next: at.wrapping_add(20) % ADDRESS_LIMIT / 4 * 4,
    }
}

// The caller goes on, with R10 to R12, the stack and R14 as after a SWI of a module.
fn deed_of_return(cpu: &Cpu, at: u32, saved: [u32; 3], back: u32) -> StubDeed
    ensures { result ≡ deed_of_return cpu.now at saved back }
{
    let mut settings = ArrayVec::new();
    settings.push(bank_setting(Mode::User, 10, saved[0]));
    settings.push(bank_setting(Mode::User, 11, saved[1]));
    settings.push(bank_setting(Mode::User, 12, saved[2]));
    settings.push(bank_setting(Mode::Supervisor, 13, at.wrapping_add(KEPT)));
    settings.push(bank_setting(Mode::Supervisor, 14, back));
    StubDeed {
        at: 0,
        bytes: ArrayVec::new(),
        settings,
        status: status_back(cpu.psr(), back),
        next: back % ADDRESS_LIMIT / 4 * 4,
    }
}

fn status_back(now: Psr, back: u32) -> Psr
    ensures { result ≡ status_back now back }
{
    let mode = match back % 4 {
        0 => Mode::User,
        1 => Mode::FastInterrupt,
        2 => Mode::Interrupt,
        _ => Mode::Supervisor,
    };
    Psr {
        interrupts_off: is_bit_set(back, 27),
        fast_interrupts_off: is_bit_set(back, 26),
        mode,
        ..now
    }
}
