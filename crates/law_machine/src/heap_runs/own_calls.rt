//! Which store calls from outside are calls on a heap, and what they answer.

ghost use Rattle.swi_dispatch_guest.specs.Moves.{outside_name};
ghost use Rattle.std.specs.Prelude.{◌≡◌, ◌&&◌};
ghost use Rattle.swi_dispatch_guest.specs.Step.{without_x};
ghost use Rattle.law_machine.specs.heap_alone.Moves.{is_swi_to, is_for_heap, is_heap_swi, reply_of_machine};
ghost use Rattle.law_machine.specs.heap_runs.Moves.{written_reply_of};
ghost use Rattle.swi_dispatch_guest.specs.GuestState.{state_of};

use crate::heap_runs::moves::Reply;
use arm_core::Cpu;
use profile::word::is_bit_set;
use profile::{HeapReason, SwiName};
use swi_dispatch_guest::Machine;

/// The bit of a call's number that asks for errors to be returned.
const X_BIT: u32 = 1 << 17;

/// Whether the registers and the number of a call from outside make it one on the heap at `start`,
/// by a reason from 1 to 6.
pub(crate) fn is_own_call(cpu: &Cpu, number: u32, start: u32) -> bool
    ensures { result ≡ (is_heap_swi (outside_name number) && is_swi_to start cpu.now) }
{
    outside_name(number) == Some(SwiName::Heap)
        && (is_for_heap(HeapReason::of(cpu.register(0))) && cpu.register(1) == start)
}

fn outside_name(number: u32) -> Option<SwiName>
    ensures { result ≡ outside_name number }
{
    SwiName::of(without_x_bit(number % (1 << 24)))
}

fn without_x_bit(number: u32) -> u32
    ensures { result ≡ without_x number }
{
    if is_bit_set(number, 17) {
        number - X_BIT
    } else {
        number
    }
}

fn is_for_heap(reason: Option<HeapReason>) -> bool
    ensures { result ≡ is_for_heap reason }
{
    match reason {
        None | Some(HeapReason::Initialise) => false,
        Some(_) => true,
    }
}

/// What the machine's last call answers, if it was of OS_Heap.
pub(crate) fn reply_of(machine: &Machine) -> Reply
    ensures { result ≡ written_reply_of (reply_of_machine (state_of machine.now.guest)) }
{
    if machine.cpu().psr().overflow {
        Reply::Refused(machine.error_number())
    } else {
        Reply::Answered(machine.cpu().register(2), machine.cpu().register(3))
    }
}
