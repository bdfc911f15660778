//! OS_Heap (RISC OS 3 Programmer's Reference Manual, "OS_Heap").

ghost use Rattle.profile.specs.Outcome.{Leaves};
ghost use Rattle.os_heap.specs.Sound.{IsSoundMap};
ghost use Rattle.os_heap.specs.Store.{store_of};
ghost use Rattle.swi_dispatch_plans.specs.store.Heaps.{heap_called};
ghost use Rattle.swi_dispatch_plans.specs.store.Leaving.{LeavesAreas};

use crate::answering::{done, in_register, in_two_registers};
use os_heap::{AddressMap, Heaps};
use profile::{ErrorNumber, HeapReason};
use swi_dispatch_answers::{Cpu, Refusal};

/// A heap call by its reason in R0. The heap is in R1, a block in R2, a size or a change of one in
/// R3; what is answered goes to R2 and R3.
///
/// # Errors
///
/// `HeapBadReason` where there is no such reason, else as the call of `os_heap` refuses it; nothing
/// is changed then.
#[tactic(auto, using(crate::proofs::AnswerLemmas::done_left, crate::proofs::AnswerLemmas::read_left, crate::proofs::AnswerLemmas::register_left), unfolding(crate::specs::store::Heaps::heap_called))]
pub fn call_heap(cpu: &mut Cpu, memory: &mut AddressMap) -> Result<(), Refusal>
    requires state { IsSoundMap memory.old }
    ensures state { Leaves (cpu.old, store_of memory.old)
        (heap_called cpu.old (store_of memory.old)) result (cpu.new, store_of memory.new) }
    ensures leaves { LeavesAreas memory.old memory.new }
{
    let heaps = Heaps::new();
    let heap = cpu.register(1);
    let block = cpu.register(2);
    let size = cpu.register(3);
    match HeapReason::of(cpu.register(0)) {
        Some(HeapReason::Initialise) => done(heaps.init(memory, heap, size).answer),
        Some(HeapReason::Describe) => in_two_registers(cpu, heaps.describe(memory, heap).answer),
        Some(HeapReason::Get) => in_register(cpu, 2, heaps.get(memory, heap, size).answer),
        Some(HeapReason::Free) => done(heaps.free(memory, heap, block).answer),
        Some(HeapReason::Resize) => {
            in_register(cpu, 2, heaps.resize(memory, heap, block, size).answer)
        }
        Some(HeapReason::ChangeSize) => done(heaps.change_size(memory, heap, size).answer),
        Some(HeapReason::BlockSize) => {
            in_register(cpu, 3, heaps.block_size(memory, heap, block).answer)
        }
        None => Err(Refusal::System(ErrorNumber::HeapBadReason)),
    }
}
