//! What a trace reports a step before it is taken, and what it keeps of the machine.

ghost use Rattle.std.specs.Prelude.{◌≡◌, ◌≤◌, length, option_map, true, Some, IfOk, OnOk};
ghost use Rattle.std.specs.Io.KnownBytes.{Appends};
ghost use Rattle.trace_effects.specs.Memory.{bytes_of};
ghost use Rattle.arm_core.specs.State.{register_of};
ghost use Rattle.trace_store_text.specs.Frames.{innermost_frame};
ghost use Rattle.trace_store_text.specs.GuestState.{state_of};
ghost use Rattle.trace_effects.specs.Cause.{cause_of, swi_of_cause};
ghost use Rattle.trace_text.specs.Start.{store_kept};
ghost use Rattle.trace_text.specs.Step.{areas_before, start_text, store_before, taking_of, taking_text};
ghost use Rattle.trace_text.specs.Instruction.{named_text};
ghost use Rattle.trace_store_text.specs.Copies.{kept_in, kept_of};

use crate::areas::{AreaMark, area_marks};
use crate::calls::push_call;
use crate::instruction::{named_text, push_front};
use arm_core::Cpu;
use arrayvec::ArrayVec;
use profile::text_sink::TextSink;
use profile::word::is_bit_set;
use profile::{Sink, WriteFault, push_all};
use std::alloc::Global;
use trace_effects::changes::following_word;
use trace_effects::columns::{LineRooms, line_sink, push_behind};
use trace_effects::outside::{calling_text, loading_text, push_outside};
use trace_effects::word_text::{MOST_STORED, old_words};
use trace_effects::{AddressMap, Cause, Effects, StoredWords, call_leaves, effects_of};
use trace_store_text::frame_words::innermost;
use trace_store_text::{Frame, Machine, StoreCopy, without_x_bit};

/// How a step is shown.
#[derive(Clone, Copy)]
pub enum Taking {
    /// An instruction that is carried out or skipped, or can't be.
    Instruction,
    /// A store call: whether errors go back from it, and its number.
    Call { is_x: bool, number: u32 },
    /// The return gate.
    Gate,
}

// How a step is shown at whose program counter this stands, which calls this software interrupt.
fn taking_of(cause: Cause, swi: Option<u32>) -> Taking
    requires { swi ≡ swi_of_cause cause }
    ensures { result ≡ taking_of cause }
{
    match cause {
        Cause::Gate => Taking::Gate,
        Cause::Word(_) => match swi {
            Some(number) => Taking::Call {
                is_x: is_bit_set(number, 17),
                number: without_x_bit(number),
            },
            None => Taking::Instruction,
        },
        Cause::Skipped(_) | Cause::Unmapped => Taking::Instruction,
    }
}

/// What a trace knows of the machine before a step.
#[derive(Drop)]
pub struct StepStart {
    pub(crate) cpu: Cpu,
    pub(crate) taking: Taking,
    pub(crate) expected: u32,
    pub(crate) is_skipped: bool,
    pub(crate) text_length: usize,
    pub(crate) stored_at: u32,
    pub(crate) old_words: ArrayVec<u32, MOST_STORED>,
    pub(crate) loaded: StoredWords,
    pub(crate) target: Option<u32>,
    pub(crate) frames: usize,
    pub(crate) innermost: Option<Frame>,
    pub(crate) areas: Vec<AreaMark>,
    /// The store as it was; an instruction's own words are stated without it, and a call that leaves
    /// the store as it is needs none.
    pub(crate) before: Option<Box<StoreCopy>>,
    /// Host memory that a later copy can use.
    pub(crate) scratch: Option<Box<StoreCopy>>,
}

impl StepStart {
    ghost use Rattle.trace_text.specs.Start.{known_in};
    ghost use Rattle.trace_text.specs.Step.{call_start_text, known_by, known_of, known_outside, load_start_text, start_text};
    ghost use Rattle.trace_effects.specs.Loaded.{loaded_register, loaded_words};
    ghost use Rattle.trace_effects.specs.Stored.{stored_words};

    /// Writes what stands at the program counter, with the label to which a branch goes, and of a
    /// store call what it reads; and keeps what the step may change, in host memory that an earlier
    /// step left, if it did.
    ///
    /// # Errors
    ///
    /// Where the sink failed, or memory ran out.
    pub fn print_step<W: Sink>(
        machine: &Machine,
        label: Option<&[u8]>,
        scratch: Option<Box<StoreCopy>>,
        rooms: &mut LineRooms,
        sink: &mut W,
    ) -> Result<StepStart, WriteFault>
        ensures text { let s = state_of machine.now.guest in OnOk result
            (Appends (W.contents sink.old) (W.contents sink.new)
            (start_text (option_map (λ l. l.now) label.entry) s.cpu s.store.bytes)) }
        ensures known { IfOk result (λ start. known_in start
            ≡ known_of (option_map (λ l. l.now) label.entry) (state_of machine.now.guest)) }
    {
        let cause = Cause::of(machine.cpu(), machine.memory());
        let effects = effects_of(cause, machine.cpu());
        let taking = taking_of(cause, effects.swi);
        let text_length = push_start(machine, cause, taking, label, rooms, sink)?;
        let areas = areas_before(rooms.alloc, machine, taking)?;
        let (before, rest) = store_before(rooms.alloc, machine, taking, scratch)?;
        Ok(StepStart::keeping(machine, cause, &effects, text_length, areas, before, rest))
    }

    // What is kept of a machine where this stands at the program counter.
    fn keeping(
        machine: &Machine,
        cause: Cause,
        effects: &Effects,
        text_length: usize,
        areas: Vec<AreaMark>,
        before: Option<Box<StoreCopy>>,
        scratch: Option<Box<StoreCopy>>,
    ) -> StepStart
        requires swi { effects.now.swi ≡ swi_of_cause cause }
        requires stored { effects.now.stored
            ≡ stored_words cause (state_of machine.now.guest).cpu }
        requires loaded { effects.now.loaded
            ≡ loaded_words cause (state_of machine.now.guest).cpu }
        requires target { effects.now.target ≡ loaded_register cause }
        requires few { effects.now.stored.count ≤ 16 }
        requires areas { areas.items
            ≡ areas_before (taking_of cause) (state_of machine.now.guest).tables.area_table.areas }
        requires before { let s = state_of machine.now.guest in store_kept before
            ≡ store_before (taking_of cause) (register_of s.cpu 0) (kept_of s) }
        ensures { let s = state_of machine.now.guest in
            known_in result
            ≡ known_by text_length s cause (stored_words cause s.cpu) (loaded_words cause s.cpu) }
    {
        let cpu = machine.cpu();
        let stored = effects.stored;
        StepStart {
            cpu: *cpu,
            taking: taking_of(cause, effects.swi),
            expected: following_word(cpu),
            is_skipped: matches!(cause, Cause::Skipped(_)),
            text_length,
            stored_at: stored.at,
            old_words: old_words(machine.memory(), stored),
            loaded: effects.loaded,
            target: effects.target,
            frames: machine.frames(),
            innermost: innermost(machine.open_frames()),
            areas,
            before,
            scratch,
        }
    }

    /// The host memory in which the store was kept, if it was.
    pub fn into_scratch(self) -> Option<Box<StoreCopy>> {
        self.before.or(self.scratch)
    }

    /// Writes a store call that is made from outside, and what it reads; and keeps what it may
    /// change.
    ///
    /// # Errors
    ///
    /// Where the sink failed, or memory ran out.
    pub fn print_call<W: Sink>(
        alloc: Global,
        machine: &Machine,
        number: u32,
        sink: &mut W,
    ) -> Result<StepStart, WriteFault>
        ensures text { let s = state_of machine.now.guest in OnOk result
            (Appends (W.contents sink.old) (W.contents sink.new)
            (call_start_text s.cpu s.store.bytes number)) }
        ensures known { IfOk result
            (λ start. known_in start ≡ known_outside (state_of machine.now.guest)) }
    {
        let text = calling_text(alloc, number)?;
        let called = without_x_bit(number % (1 << 24));
        let mut words = TextSink::new(alloc);
        push_call(&mut words, machine.cpu(), machine.memory(), true, called)?;
        push_outside(sink, text.bytes(), words.bytes())?;
        StepStart::outside(alloc, machine)
    }

    /// Writes that a module is loaded from outside; keeps and fails as `print_call` does.
    pub fn print_load<W: Sink>(
        alloc: Global,
        machine: &Machine,
        words: &[u8],
        sink: &mut W,
    ) -> Result<StepStart, WriteFault>
        ensures text { OnOk result (Appends (W.contents sink.old) (W.contents sink.new)
            (load_start_text words.now)) }
        ensures known { IfOk result
            (λ start. known_in start ≡ known_outside (state_of machine.now.guest)) }
    {
        let text = loading_text(alloc, words)?;
        push_outside(sink, text.bytes(), b" XOS_Module 1 Load")?;
        StepStart::outside(alloc, machine)
    }

    // What is kept of a machine that is called from outside.
    fn outside(alloc: Global, machine: &Machine) -> Result<StepStart, WriteFault>
        ensures { IfOk result (λ start. known_in start ≡ known_outside (state_of machine.now.guest)) }
    {
        let cpu = machine.cpu();
        let taking = Taking::Call {
            is_x: true,
            number: 0,
        };
        let areas = areas_before(alloc, machine, taking)?;
        Ok(StepStart {
            cpu: *cpu,
            taking,
            expected: cpu.pc(),
            is_skipped: false,
            text_length: 0,
            stored_at: 0,
            old_words: ArrayVec::new(),
            loaded: StoredWords { at: 0, count: 0 },
            target: None,
            frames: machine.frames(),
            innermost: innermost(machine.open_frames()),
            areas,
            before: Some(kept_store(alloc, machine, None)?),
            scratch: None,
        })
    }
}

// The areas, where the step is no instruction.
fn areas_before(
    alloc: Global,
    machine: &Machine,
    taking: Taking,
) -> Result<Vec<AreaMark>, WriteFault>
    ensures { IfOk result (λ marks. marks.items
        ≡ areas_before taking (state_of machine.now.guest).tables.area_table.areas) }
{
    match taking {
        Taking::Instruction => Ok(Vec::new(alloc)),
        Taking::Call { .. } | Taking::Gate => area_marks(alloc, machine.areas().list()),
    }
}

// A copy of the store, unless the step leaves it as it is; and the scratch one, where it isn't used.
fn store_before(
    alloc: Global,
    machine: &Machine,
    taking: Taking,
    scratch: Option<Box<StoreCopy>>,
) -> Result<(Option<Box<StoreCopy>>, Option<Box<StoreCopy>>), WriteFault>
    ensures { let s = state_of machine.now.guest in IfOk result (λ kept. store_kept kept.0
        ≡ store_before taking (register_of s.cpu 0) (kept_of s)) }
{
    match taking {
        Taking::Instruction => Ok((None, scratch)),
        Taking::Call { number, .. } if call_leaves(machine.cpu().register(0), number) => {
            Ok((None, scratch))
        }
        Taking::Call { .. } | Taking::Gate => Ok((
            Some(kept_store(alloc, machine, scratch)?),
            None,
        )),
    }
}

fn kept_store(
    alloc: Global,
    machine: &Machine,
    scratch: Option<Box<StoreCopy>>,
) -> Result<Box<StoreCopy>, WriteFault>
    ensures { IfOk result (λ copy. kept_in copy.value ≡ kept_of (state_of machine.now.guest)) }
{
    match StoreCopy::over(scratch, alloc, machine) {
        Ok(copy) => Ok(copy),
        Err(_) => Err(WriteFault),
    }
}

// Writes what stands at a program counter, and answers how long its text is.
#[tactic(auto, unfolding(crate::specs::Step::start_text))]
fn push_start<W: Sink>(
    machine: &Machine,
    cause: Cause,
    taking: Taking,
    label: Option<&[u8]>,
    rooms: &mut LineRooms,
    sink: &mut W,
) -> Result<usize, WriteFault>
    requires cause { let s = state_of machine.now.guest in cause ≡ cause_of s.cpu s.store.bytes }
    requires taking { taking ≡ taking_of cause }
    ensures text { let s = state_of machine.now.guest in OnOk result
        (Appends (W.contents sink.old) (W.contents sink.new)
        (start_text (option_map (λ l. l.now) label.entry) s.cpu s.store.bytes)) }
    ensures length { IfOk result
        (λ len. len ≡ length (named_text (state_of machine.now.guest).cpu.pc cause
        (option_map (λ l. l.now) label.entry))) }
{
    let cpu = machine.cpu();
    let text = named_text(rooms, cpu.pc(), cause, label)?;
    let len = text.bytes().len();
    push_front(sink, cpu.pc(), cause)?;
    push_all(sink, text.bytes())?;
    rooms.text = text.into_bytes();
    push_taking(rooms.alloc, cpu, machine.memory(), len, taking, sink)?;
    Ok(len)
}

// Writes what follows on an instruction's text before it is carried out.
fn push_taking<W: Sink>(
    alloc: Global,
    cpu: &Cpu,
    memory: &AddressMap,
    len: usize,
    taking: Taking,
    sink: &mut W,
) -> Result<(), WriteFault>
    ensures { OnOk result (Appends (W.contents sink.old) (W.contents sink.new)
        (taking_text cpu.now (bytes_of memory.now) len taking)) }
{
    match taking {
        Taking::Instruction => Ok(()),
        Taking::Call { is_x, number } => {
            let mut words = line_sink(alloc)?;
            push_call(&mut words, cpu, memory, is_x, number)?;
            push_behind(sink, len, words.bytes())?;
            push_all(sink, b"\n")
        }
        Taking::Gate => push_all(sink, b"\n"),
    }
}
