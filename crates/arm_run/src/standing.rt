//! The core while its position is kept beside it: any word by the way that is right for all, and
//! the registers of the present mode.

ghost use Rattle.std.specs.Prelude.{◌≡◌, ◌≢◌, ◌<◌, ◌≤◌, ◌+◌, ◌%◌, ◌^◌, ℕ, Bool, ⊤, Err, IfSome, MatchOption};
ghost use Rattle.arm_step.specs.Memory.{bytes_of, is_owned, layout, place, class_of};
ghost use Rattle.arm_core.specs.State.{State, register_in, with_register};
ghost use Rattle.arm_core.specs.declared.turn.StepEnd.{StepEnd};
ghost use Rattle.arm_core.specs.declared.turn.StepEnd.TheVariants.{Done};
ghost use Rattle.arm_run.specs.Standing.{core_at, Acts, IsFetched, Refuses};
ghost use Rattle.arm_step.specs.fetch_page.FetchPages.{IsIn, IsOpen};
ghost use Rattle.arm_step.specs.Step.{result_of_step};
ghost use Rattle.arm_step.specs.Turns.{Turns};

use arm_core::{Cpu, StepEnd};
use arm_predecode::{DecodeCache, OpKind};
use arm_step::fetch_page::FetchPage;
use arm_step::{AddressMap, step};

/// How many words the address space has.
pub(crate) const POSITIONS: usize = 1 << 24;

/// R0 to R14 of the present mode.
#[inline(always)]
pub(crate) fn current(cpu: &Cpu, number: u8) -> u32
    requires { number < 15 }
    ensures { result ≡ register_in cpu.now.psr.mode cpu.now number }
{
    cpu.current(number)
}

/// Sets one of R0 to R14 of the present mode.
#[inline(always)]
pub(crate) fn set_current(cpu: &mut Cpu, number: u8, value: u32)
    requires { number < 15 }
    ensures { cpu.new ≡ with_register cpu.old number value }
{
    cpu.set_current(number, value);
}

/// The core stands at a position.
#[tactic(auto, using(crate::proofs::Positions::stands))]
#[inline(always)]
pub(crate) fn stand(cpu: &mut Cpu, at: usize)
    ensures { cpu.new ≡ core_at cpu.old at }
{
    cpu.set_pc((at % POSITIONS) as u32 * 4);
}

/// The position that the core stands at.
#[tactic(auto, using(crate::proofs::Positions::stands_there))]
#[inline(always)]
pub(crate) fn position(cpu: &Cpu) -> usize
    ensures within { result < 2 ^ 24 }
    ensures there { core_at cpu.now result ≡ cpu.now }
{
    cpu.pc() as usize / 4
}

/// A step at a position, by the way that is right for every word. Where it isn't done, nothing is
/// changed but where the core stands.
#[tactic(auto, using(crate::proofs::Positions::done_slowly, crate::proofs::Positions::other_slowly))]
#[cold]
#[inline(never)]
pub(crate) fn slowly(cpu: &mut Cpu, at: usize, memory: &mut AddressMap) -> Option<usize>
    ensures state { Acts (is_owned memory.old) cpu.old at (bytes_of memory.old)
        result cpu.new (bytes_of memory.new) }
    ensures within { IfSome result (λ next. next ≤ 2 ^ 24) }
    ensures layout { layout memory.new ≡ layout memory.old }
    ensures marks { class_of memory.new ≡ class_of memory.old }
{
    stand(cpu, at);
    match step(cpu, memory) {
        StepEnd::Done => Some(position(cpu)),
        _ => None,
    }
}

/// The word at a position in a fetch page.
#[tactic(auto, using(crate::proofs::Fetching::fetched_by))]
#[inline(always)]
pub(crate) fn fetch(memory: &AddressMap, fetch_page: &FetchPage, at: usize) -> u32
    requires fetch_page { IsOpen (place memory.now) fetch_page.now }
    requires there { IsIn fetch_page.now at }
    requires below { at < 2 ^ 24 }
    ensures { IsFetched (bytes_of memory.now) at result }
{
    fetch_page.word(memory, at)
}

/// The number of the SWI at a position, if its word is predecoded as one.
#[tactic(auto, using(arm_step::proofs::FetchPageLemmas::Opened::in_limit, crate::proofs::Carried::interrupt_comes))]
#[inline(always)]
fn interrupt_at(
    memory: &AddressMap,
    op: &DecodeCache,
    fetch_page: &FetchPage,
    at: usize,
) -> Option<u32>
    requires fetch_page { IsOpen (place memory.now) fetch_page.now }
    requires at { at ≤ 2 ^ 24 }
    ensures { MatchOption result ⊤ (λ number. (owned : ℕ → Bool) (s : State) →
        result_of_step owned (core_at s at) (bytes_of memory.now) ≡ Err (StepEnd.Swi number)) }
{
    if !fetch_page.holds(at) {
        return None;
    }
    let word = fetch(memory, fetch_page, at);
    let entry = op.at(fetch_page.entry(at));
    entry.known();
    if entry.word != word || !matches!(entry.kind, OpKind::Interrupt) {
        return None;
    }
    Some(word % (1 << 24))
}

/// The turn at a position where no instruction is done. The core stands there then.
#[tactic(auto, using(crate::proofs::Carried::swis))]
#[cold]
#[inline(never)]
pub(crate) fn end_at(
    cpu: &mut Cpu,
    at: usize,
    memory: &mut AddressMap,
    op: &DecodeCache,
    fetch_page: &FetchPage,
) -> StepEnd
    requires refuses { Refuses (is_owned memory.old) (core_at cpu.old at) (bytes_of memory.old) }
    requires fetch_page { IsOpen (place memory.old) fetch_page.now }
    requires at { at ≤ 2 ^ 24 }
    ensures core { cpu.new ≡ core_at cpu.old at }
    ensures bytes { bytes_of memory.new ≡ bytes_of memory.old }
    ensures turn { Turns (cpu.new, bytes_of memory.new)
        (result_of_step (is_owned memory.old) cpu.new (bytes_of memory.new))
        result (cpu.new, bytes_of memory.new) }
    ensures other { result ≢ Done }
    ensures layout { layout memory.new ≡ layout memory.old }
    ensures marks { class_of memory.new ≡ class_of memory.old }
{
    stand(cpu, at);
    if let Some(number) = interrupt_at(memory, op, fetch_page, at) {
        return StepEnd::Swi(number);
    }
    step(cpu, memory)
}
