//! One step as a record: what is done, and what it leaves.

ghost use Rattle.std.specs.Prelude.{◌≡◌, ◌||◌, true, codes, is_some, not, IfOk, OnOk};
ghost use Rattle.trace_text.specs.GuestState.{state_of};
ghost use Rattle.trace_text.specs.MachineState.{MachineState};
ghost use Rattle.trace_effects.specs.Cause.{cause_of};
ghost use Rattle.trace_json.specs.Moments.{ChangesKept, IsKeptBefore, KeepsMemory, KeepsWords, ShowsChanges, changes_all, expected_at, is_copied, step_place, words_of};
ghost use Rattle.trace_moments.specs.WordFields.{ShowsWords};
ghost use Rattle.trace_moments.specs.law_trace.Laws.{is_plain};

use crate::before::{MemoryBefore, StepKind, kind_of, push_stored};
use crate::calls::{push_call, push_load};
use crate::changes::{MachineCopy, push_changed_words, push_store_changes};
use crate::frames::push_frames;
use crate::heaps::BlockFate;
use crate::stops::{push_error, push_stop, stop_reason};
use arm_core::Cpu;
use assembler_text::disassemble;
use profile::text_sink::TextSink;
use profile::word::is_bit_set;
use profile::{HexText, Stop, SwiName};
use std::alloc::{AllocError, Global};
use trace_effects::changes::following_word;
use trace_effects::record_text::RecordText;
use trace_effects::shown_registers::WrittenRegisters;
use trace_effects::shown_words::ShownWord;
use trace_effects::{Cause, called_swi};
use trace_moments::{
    loaded_words, push_core_changes, push_reads, words_at, written_by_call, written_by_instruction,
};
use trace_text::{Machine, without_x_bit};

/// What is kept of a machine before a step.
pub struct StepBefore {
    kind: StepKind,
    cause: Cause,
    cpu: Cpu,
    loaded: Vec<ShownWord>,
    memory: MemoryBefore,
}

impl Drop for StepBefore {
    fn drop(self) {
        let StepBefore {
            kind: _kind,
            cause: _cause,
            cpu: _cpu,
            loaded: _loaded,
            memory: _memory,
        } = self;
    }
}

impl StepBefore {
    /// Begins the fields of the step that comes next, behind its address, and keeps what it may change.
    ///
    /// # Errors
    ///
    /// Memory ran out.
    pub fn step(
        alloc: Global,
        text: &mut RecordText,
        machine: &Machine,
        is_stubbed: bool,
    ) -> Result<StepBefore, AllocError>
        ensures before { IfOk result (λ before. IsKeptBefore before (state_of machine.now.guest)) }
        ensures copied { let s = state_of machine.now.guest in IfOk result (λ before. is_copied before.memory
            ≡ (is_stubbed || not (is_plain (cause_of s.cpu s.store.bytes)))) }
        ensures inside { IfOk result (λ before. is_some (step_place before) ≡ true) }
    {
        let cpu = machine.cpu();
        let cause = Cause::of(cpu, machine.memory());
        let kind = kind_of(cause, is_stubbed);
        push_place(alloc, text, cpu.pc(), cause)?;
        push_kind(text, machine, kind, cause)?;
        StepBefore::keeping(alloc, machine, kind, cause)
    }

    /// Begins those of a store call from outside.
    ///
    /// # Errors
    ///
    /// Memory ran out.
    pub fn call(
        alloc: Global,
        text: &mut RecordText,
        machine: &Machine,
        swi: u32,
    ) -> Result<StepBefore, AllocError>
        ensures before { IfOk result (λ before. IsKeptBefore before (state_of machine.now.guest)) }
        ensures copied { IfOk result (λ before. is_copied before.memory ≡ true) }
    {
        let called = without_x_bit(swi % (1 << 24));
        push_directive(text, b"CALL &", HexText::number(swi).as_slice())?;
        push_call(text, machine.cpu(), machine.memory(), true, called)?;
        StepBefore::keeping(alloc, machine, StepKind::Outside(called), Cause::Unmapped)
    }

    /// Begins those of a module that is loaded from outside.
    ///
    /// # Errors
    ///
    /// Memory ran out.
    pub fn load(
        alloc: Global,
        text: &mut RecordText,
        machine: &Machine,
        words: &[u8],
    ) -> Result<StepBefore, AllocError>
        ensures before { IfOk result (λ before. IsKeptBefore before (state_of machine.now.guest)) }
        ensures copied { IfOk result (λ before. is_copied before.memory ≡ true) }
    {
        push_directive(text, b"LOAD ", words)?;
        push_load(text)?;
        StepBefore::keeping(alloc, machine, StepKind::Outside(0), Cause::Unmapped)
    }

    fn keeping(
        alloc: Global,
        machine: &Machine,
        kind: StepKind,
        cause: Cause,
    ) -> Result<StepBefore, AllocError>
        ensures kind { IfOk result (λ before. before.kind ≡ kind) }
        ensures core { IfOk result (λ before. before.cpu ≡ (state_of machine.now.guest).cpu) }
        ensures memory { let s = state_of machine.now.guest in IfOk result
            (λ before. KeepsWords before.memory cause s) }
        ensures copied { IfOk result (λ before. is_copied before.memory ≡ changes_all kind) }
    {
        let memory = machine.memory();
        let loaded = match loaded_words(cause, machine.cpu()) {
            Some(words) => words_at(alloc, memory, words)?,
            None => Vec::new(alloc),
        };
        Ok(StepBefore {
            kind,
            cause,
            cpu: *machine.cpu(),
            loaded,
            memory: MemoryBefore::of(alloc, machine, kind, cause)?,
        })
    }

    /// The address at which the step is made; a call from outside is made nowhere.
    pub fn place(&self) -> Option<u32>
        ensures { result ≡ step_place self.now }
    {
        match self.kind {
            StepKind::Outside(_) => None,
            _ => Some(self.cpu.pc()),
        }
    }

    /// Ends these fields: with the words that were read.
    ///
    /// # Errors
    ///
    /// Memory ran out.
    pub fn push_reads(&self, text: &mut RecordText, machine: &Machine) -> Result<(), AllocError> {
        if machine.stop().is_some() {
            return Ok(());
        }
        push_reads(text, self.loaded.as_slice())
    }

    /// Writes what differs after the step of the core, by the registers that were shown so far, and of
    /// words; and registers and words that were written. A stub has written these registers.
    ///
    /// # Errors
    ///
    /// Memory ran out.
    pub fn push_changes(
        &self,
        alloc: Global,
        text: &mut RecordText,
        reported: &Cpu,
        machine: &Machine,
        stub: &WrittenRegisters,
    ) -> Result<(), AllocError>
        ensures { (s e : MachineState) → let t = state_of machine.now.guest in reported.now ≡ s.cpu
            → words_of e ≡ words_of s → IsKeptBefore self.now e → ChangesKept self.now.memory e t
            → OnOk result (ShowsChanges (codes "next")
            (expected_at (step_place self.now) e.cpu.pc (is_some t.halt)) s t text.old text.new) }
    {
        let stop = machine.stop();
        let kept = self.frames_kept(machine);
        let is_cut_off = self.has_error(machine, kept) || kept < machine.frames();
        let written = self.written(stop, is_cut_off, stub);
        let expected = self.expected(stop);
        push_core_changes(text, reported, machine.cpu(), &written, b"next", expected)?;
        self.push_memory(alloc, text, machine)?;
        Ok(())
    }

    fn push_memory(
        &self,
        alloc: Global,
        text: &mut RecordText,
        machine: &Machine,
    ) -> Result<(), AllocError>
        ensures { (e : MachineState) → let t = state_of machine.now.guest in
            KeepsMemory self.now.memory e → ChangesKept self.now.memory e t
            → OnOk result (ShowsWords (words_of e) (words_of t) text.old text.new) }
    {
        match &self.memory {
            MemoryBefore::Stored(words) => push_stored(alloc, text, words.as_slice(), machine),
            MemoryBefore::Copied(copy) => push_changed_words(alloc, text, copy, machine),
        }
    }

    /// Writes what else the step left, and what it printed; but for where images stand.
    ///
    /// # Errors
    ///
    /// Memory ran out.
    pub fn push_rest(
        &self,
        alloc: Global,
        text: &mut RecordText,
        machine: &Machine,
        printed: &[u8],
    ) -> Result<(), AllocError> {
        let kept = self.frames_kept(machine);
        if self.has_error(machine, kept) {
            push_error(alloc, text, machine.error_number())?;
        }
        if let MemoryBefore::Copied(copy) = &self.memory {
            push_frames(text, copy.frames, kept, machine, self.place())?;
            push_store_changes(alloc, text, copy, machine, self.fate(machine))?;
        }
        push_out(text, printed)?;
        match machine.stop() {
            Some(stop) => push_stop(
                alloc,
                text,
                stop_reason(stop),
                Some(stop),
                machine.cpu().pc(),
            ),
            None => Ok(()),
        }
    }

    /// Whether the step may have moved an image.
    pub fn may_move_images(&self) -> bool {
        self.is_copied() && self.kind != StepKind::Stub
    }

    fn is_copied(&self) -> bool {
        matches!(&self.memory, MemoryBefore::Copied(_))
    }

    // How many of the frames that were open are open still.
    fn frames_kept(&self, machine: &Machine) -> usize {
        let MemoryBefore::Copied(copy) = &self.memory else {
            return machine.frames();
        };
        match self.kind {
            StepKind::Gate if machine.stop().is_none() => copy.frames.saturating_sub(1),
            _ => copy.frames.min(machine.frames()),
        }
    }

    // Whether an error goes back from a call.
    fn has_error(&self, machine: &Machine, kept: usize) -> bool {
        self.is_copied()
            && machine.stop().is_none()
            && machine.cpu().psr().overflow
            && machine.frames() == kept
    }

    // Where a core goes on that nothing is said of.
    fn expected(&self, stop: Option<Stop>) -> u32
        ensures { result ≡ expected_at (step_place self.now) self.now.cpu.pc (is_some stop) }
    {
        match self.kind {
            StepKind::Outside(_) => self.cpu.pc(),
            _ if stop.is_some() => self.cpu.pc(),
            _ => following_word(&self.cpu),
        }
    }

    // The registers that the step wrote; a call that fails or enters module code answers in none.
    fn written(
        &self,
        stop: Option<Stop>,
        is_cut_off: bool,
        stub: &WrittenRegisters,
    ) -> WrittenRegisters {
        if stop.is_some() {
            return WrittenRegisters::new();
        }
        match self.kind {
            StepKind::Instruction => written_by_instruction(self.cause, self.cpu.psr()),
            StepKind::Stub => *stub,
            StepKind::Gate => WrittenRegisters::new(),
            StepKind::Call(number) | StepKind::Outside(number) => {
                let mut written = if is_cut_off {
                    WrittenRegisters::new()
                } else {
                    written_by_call(number, &self.cpu)
                };
                written.add_link();
                written
            }
        }
    }

    // A call that resizes a block takes it in R2, and answers in R2 where it is.
    fn fate(&self, machine: &Machine) -> BlockFate {
        let resizes = match self.kind {
            StepKind::Call(number) | StepKind::Outside(number) => match SwiName::of(number) {
                Some(SwiName::Heap) => self.cpu.register(0) == 4,
                Some(SwiName::Module) => self.cpu.register(0) == 13,
                _ => false,
            },
            _ => false,
        };
        if resizes {
            let from = self.cpu.register(2).wrapping_sub(4);
            let to = machine.cpu().register(2).wrapping_sub(4);
            BlockFate::Resized(from, to)
        } else {
            BlockFate::Slid
        }
    }
}

// What stands where a step is made.
fn push_place(
    alloc: Global,
    text: &mut RecordText,
    pc: u32,
    cause: Cause,
) -> Result<(), AllocError> {
    match cause {
        Cause::Gate => text.string_field(b"asm", b"return gate"),
        Cause::Unmapped => text.string_field(b"asm", b"unmapped"),
        Cause::Skipped(word) | Cause::Word(word) => {
            text.number_field(b"word", u64::from(word))?;
            push_instruction(alloc, text, word, pc)
        }
    }
}

fn push_instruction(
    alloc: Global,
    text: &mut RecordText,
    word: u32,
    pc: u32,
) -> Result<(), AllocError> {
    let mut words = TextSink::new(alloc);
    if disassemble(word, pc, &mut words).is_err() {
        return Err(AllocError);
    }
    text.string_field(b"asm", words.bytes())
}

// That a condition isn't met, that a stub answers, or which call is made.
fn push_kind(
    text: &mut RecordText,
    machine: &Machine,
    kind: StepKind,
    cause: Cause,
) -> Result<(), AllocError> {
    if let Cause::Skipped(_) = cause {
        return text.truth_field(b"skipped");
    }
    if kind == StepKind::Stub {
        text.truth_field(b"stub")?;
    }
    let Some(number) = called_swi(cause) else {
        return Ok(());
    };
    let is_x = is_bit_set(number, 17);
    let called = without_x_bit(number);
    push_call(text, machine.cpu(), machine.memory(), is_x, called)
}

fn push_directive(text: &mut RecordText, directive: &[u8], rest: &[u8]) -> Result<(), AllocError> {
    text.name(b"call")?;
    text.open_string()?;
    push_characters(text, directive)?;
    push_characters(text, rest)?;
    text.close_string()
}

fn push_characters(text: &mut RecordText, bytes: &[u8]) -> Result<(), AllocError> {
    for byte in bytes {
        text.character(*byte)?;
    }
    Ok(())
}

pub(crate) fn push_out(text: &mut RecordText, printed: &[u8]) -> Result<(), AllocError> {
    if printed.is_empty() {
        return Ok(());
    }
    text.string_field(b"out", printed)
}
