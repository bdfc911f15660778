//! Steps one after another, within a budget and up to a break.

ghost use Rattle.std.specs.Prelude.{◌≡◌, ◌≢◌, ◌<◌, ◌≤◌, ◌^◌, Err, IfOk, OnOk, IfSome};
ghost use Rattle.arm_step.specs.Memory.{bytes_of, is_owned, layout, place, class_of};
ghost use Rattle.arm_core.specs.declared.turn.StepEnd.TheVariants.{Done};
ghost use Rattle.arm_run.specs.Standing.{Acts};
ghost use Rattle.arm_run.specs.Runs.{AreDone, StopsBy};
ghost use Rattle.arm_step.specs.fetch_page.FetchPages.{IsOpen};
ghost use Rattle.arm_step.specs.Step.{result_of_step};
ghost use Rattle.arm_step.specs.Turns.{Turns};

use crate::act::act;
use crate::standing::{end_at, fetch, position, slowly, stand};
use arm_core::breaks::Breaks;
use arm_core::{Cpu, StepEnd};
use arm_predecode::DecodeCache;
use arm_step::fetch_page::FetchPage;
use arm_step::{AddressMap, Stop};

/// Takes up to so many steps, as long as each is an instruction that is done, and no further than
/// to a break. Answers how many, and the turn that comes next where that is another, or why a run
/// of these steps ends. One count says when to look up from it: after each step where there are
/// breaks, else after the last.
pub fn run(
    cpu: &mut Cpu,
    memory: &mut AddressMap,
    op: &mut DecodeCache,
    breaks: &Breaks,
    most: u64,
) -> (u64, Result<StepEnd, Stop>)
    requires some { 0 < most }
    ensures done { AreDone (is_owned memory.old) breaks.now result.0
        (cpu.old, bytes_of memory.old) (cpu.new, bytes_of memory.new) }
    ensures ends { StopsBy breaks.now result.0 cpu.new.pc result.1 }
    ensures next { IfOk result.1 (λ turn. Turns (cpu.new, bytes_of memory.new)
        (result_of_step (is_owned memory.old) cpu.new (bytes_of memory.new)) turn
        (cpu.new, bytes_of memory.new)) }
    ensures other { IfOk result.1 (λ turn. turn ≢ Done) }
    ensures fewer { OnOk result.1 (result.0 < most) }
    ensures all { result.1 ≡ Err Stop.Budget → result.0 ≡ most }
    ensures most { result.0 ≤ most }
    ensures layout { layout memory.new ≡ layout memory.old }
    ensures marks { class_of memory.new ≡ class_of memory.old }
{
    let stride = if breaks.is_empty() { most } else { 1 };
    let mut rest = most;
    let mut left = stride;
    let mut at = position(cpu);
    let mut fetch_page = FetchPage::closed();
    loop {
        match step_at(cpu, at, memory, op, &mut fetch_page) {
            Some(next) => at = next,
            None => return (
                most - rest + (stride - left),
                Ok(end_at(cpu, at, memory, op, &fetch_page)),
            ),
        }
        left -= 1;
        if left == 0 {
            stand(cpu, at);
            let pc = cpu.pc();
            if breaks.has(pc) {
                return (most - rest + stride, Err(Stop::Break(pc)));
            }
            rest -= stride;
            if rest == 0 {
                return (most, Err(Stop::Budget));
            }
            left = stride;
        }
    }
}

/// A step at a position. Answers where the program goes on, or `None` where another turn comes than
/// that of an instruction that is done; nothing is changed then.
#[tactic(auto, using(arm_step::proofs::FetchPageLemmas::Opened::stays_open))]
#[inline(always)]
fn step_at(
    cpu: &mut Cpu,
    at: usize,
    memory: &mut AddressMap,
    op: &mut DecodeCache,
    fetch_page: &mut FetchPage,
) -> Option<usize>
    requires at { at ≤ 2 ^ 24 }
    requires fetch_page { IsOpen (place memory.old) fetch_page.old }
    ensures state { Acts (is_owned memory.old) cpu.old at (bytes_of memory.old)
        result cpu.new (bytes_of memory.new) }
    ensures within { IfSome result (λ next. next ≤ 2 ^ 24) }
    ensures fetch_page { IsOpen (place memory.new) fetch_page.new }
    ensures layout { layout memory.new ≡ layout memory.old }
    ensures marks { class_of memory.new ≡ class_of memory.old }
{
    // Made anew: of an answer handed on as it is the compiler would ask at each step what it was.
    if !fetch_page.reach(memory, at) {
        let next = slowly(cpu, at, memory)?;
        return Some(next);
    }
    let word = fetch(memory, fetch_page, at);
    let place = fetch_page.entry(at);
    op.prepare(place, word);
    let entry = op.at(place);
    entry.known();
    act(cpu, at, memory, entry.kind, entry)
}
