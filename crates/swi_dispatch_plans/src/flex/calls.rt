//! The flex calls (Acorn C manual, "flex").

ghost use Rattle.std.specs.Prelude.{◌≡◌, Ok};
ghost use Rattle.profile.specs.Outcome.{Gives, Leaves, bind};
ghost use Rattle.flex_store.specs.Calls.{flex_after_alloc, flex_after_extend, mid_extended, flex_after_release, flex_block_size};
ghost use Rattle.swi_dispatch_plans.specs.flex.Calls.{flex_called, flex_in_range, memory_after_flex, memory_of, state_in, room_word_of};
ghost use Rattle.swi_dispatch_plans.specs.flex.Leaving.{CanCallFlex, LeavesFlex};
ghost use Rattle.swi_dispatch_answers.specs.Refusals.{or_error};
ghost use Rattle.swi_dispatch_answers.specs.State.{with_register};

use crate::answering::{done, in_register};
use flex_store::Flex;
use os_heap::AddressMap;
use profile::{ErrorNumber, SwiName};
use swi_dispatch_answers::{Cpu, Refusal};

/// A flex call by its name; any other is unknown. What it asks for is in R0 to R2; what it answers
/// goes to R0.
///
/// # Errors
///
/// As the call of `Flex` refuses it, or `SwiUnknown` where the name is no flex call's; nothing is
/// changed then.
#[tactic(auto, using(crate::proofs::AnswerLemmas::done_left, crate::proofs::AnswerLemmas::read_left, crate::proofs::FlexLemmas::Called::fit_left), unfolding(crate::specs::flex::Calls::flex_called))]
pub fn call_flex(
    cpu: &mut Cpu,
    memory: &mut AddressMap,
    flex: &mut Flex,
    name: Option<SwiName>,
) -> Result<(), Refusal>
    requires { CanCallFlex memory.old flex.old }
    ensures state { Leaves (cpu.old, memory_of memory.old flex.old)
        (flex_called cpu.old (memory_of memory.old flex.old) name) result
        (cpu.new, memory_of memory.new flex.new) }
    ensures leaves { LeavesFlex memory.old memory.new flex.new }
{
    match name {
        Some(SwiName::FlexInit) => {
            let start = cpu.register(0);
            let end = cpu.register(1);
            done(begin_flex(memory, flex, start, end))
        }
        Some(SwiName::FlexAlloc) => {
            let anchor = cpu.register(0);
            let size = cpu.register(1);
            room_in_register(cpu, alloc_block(memory, flex, anchor, size))
        }
        Some(SwiName::FlexFree) => done(release_block(memory, flex, cpu.register(0))),
        Some(SwiName::FlexSize) => {
            let anchor = cpu.register(0);
            in_register(cpu, 0, block_size(memory, flex, anchor))
        }
        Some(SwiName::FlexExtend) => {
            let anchor = cpu.register(0);
            let size = cpu.register(1);
            room_in_register(cpu, extend_block(memory, flex, anchor, size))
        }
        Some(SwiName::FlexMidExtend) => {
            let anchor = cpu.register(0);
            let at = cpu.register(1);
            let by = cpu.register(2);
            room_in_register(cpu, mid_extend_block(memory, flex, anchor, at, by))
        }
        _ => Err(Refusal::System(ErrorNumber::SwiUnknown)),
    }
}

// R0 reports whether a block fits.
fn room_in_register(cpu: &mut Cpu, fits: Result<bool, ErrorNumber>) -> Result<(), Refusal>
    ensures { Leaves cpu.old (bind (or_error fits) (λ b. Ok (with_register cpu.old 0 (room_word_of b))))
        result cpu.new }
{
    let word = word_of(fits?);
    cpu.set_register(0, word);
    Ok(())
}

fn begin_flex(
    memory: &mut AddressMap,
    flex: &mut Flex,
    start: u32,
    end: u32,
) -> Result<(), ErrorNumber>
    requires { CanCallFlex memory.old flex.old }
    ensures state { let s = memory_of memory.old flex.old in
        Gives s (flex_in_range s start end) result (memory_of memory.new flex.new) }
    ensures leaves { LeavesFlex memory.old memory.new flex.new }
{
    flex.init(memory, start, end)
}

fn alloc_block(
    memory: &mut AddressMap,
    flex: &mut Flex,
    anchor: u32,
    size: u32,
) -> Result<bool, ErrorNumber>
    requires { CanCallFlex memory.old flex.old }
    ensures state { let s = memory_of memory.old flex.old in
        Gives s (memory_after_flex s.store (flex_after_alloc s.store (state_in s) anchor size)) result
        (memory_of memory.new flex.new) }
    ensures leaves { LeavesFlex memory.old memory.new flex.new }
{
    flex.alloc(memory, anchor, size)
}

fn release_block(memory: &mut AddressMap, flex: &mut Flex, anchor: u32) -> Result<(), ErrorNumber>
    requires { CanCallFlex memory.old flex.old }
    ensures state { let s = memory_of memory.old flex.old in
        Gives s (memory_after_flex s.store (flex_after_release (state_in s) anchor)) result
        (memory_of memory.new flex.new) }
    ensures leaves { LeavesFlex memory.old memory.new flex.new }
{
    flex.release(memory, anchor)
}

fn block_size(memory: &AddressMap, flex: &Flex, anchor: u32) -> Result<u32, ErrorNumber>
    requires { CanCallFlex memory.now flex.now }
    ensures { result ≡ flex_block_size (state_in (memory_of memory.now flex.now)) anchor }
{
    flex.size(memory, anchor)
}

fn extend_block(
    memory: &mut AddressMap,
    flex: &mut Flex,
    anchor: u32,
    size: u32,
) -> Result<bool, ErrorNumber>
    requires { CanCallFlex memory.old flex.old }
    ensures state { let s = memory_of memory.old flex.old in
        Gives s (memory_after_flex s.store (flex_after_extend (state_in s) anchor size)) result
        (memory_of memory.new flex.new) }
    ensures leaves { LeavesFlex memory.old memory.new flex.new }
{
    flex.extend(memory, anchor, size)
}

fn mid_extend_block(
    memory: &mut AddressMap,
    flex: &mut Flex,
    anchor: u32,
    at: u32,
    by: u32,
) -> Result<bool, ErrorNumber>
    requires { CanCallFlex memory.old flex.old }
    ensures state { let s = memory_of memory.old flex.old in
        Gives s (memory_after_flex s.store (mid_extended (state_in s) anchor at by)) result
        (memory_of memory.new flex.new) }
    ensures leaves { LeavesFlex memory.old memory.new flex.new }
{
    flex.mid_extend(memory, anchor, at, by)
}

// What R0 reports whether a block fits.
fn word_of(fits: bool) -> u32
    ensures { result ≡ room_word_of fits }
{
    u32::from(fits)
}
