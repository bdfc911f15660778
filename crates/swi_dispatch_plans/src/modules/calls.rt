//! OS_Module by its reason, where no module code is to run.

ghost use Rattle.std.specs.Prelude.{◌≡◌};
ghost use Rattle.profile.specs.Outcome.{Leaves};
ghost use Rattle.instances.specs.Kept.{IsAreaMap};
ghost use Rattle.instances.specs.module_state.ModuleState.{module_state_of};
ghost use Rattle.swi_dispatch_plans.specs.modules.Calls.{result_of_module_call};
ghost use Rattle.swi_dispatch_plans.specs.modules.Leaving.{LeavesModuleState};

use crate::answering::{done, in_register};
use crate::modules::area::describe_area;
use crate::modules::naming::{find_instance, print_instance};
use instances::{Areas, Instances, Rma};
use os_heap::AddressMap;
use profile::{ErrorNumber, ModuleReason};
use swi_dispatch_answers::strings::string_in;
use swi_dispatch_answers::{Cpu, Refusal};

/// OS_Module, by its reason in R0, where no module code is to run. A block is in R2, a size or a
/// change of one in R3; names are strings (RISC OS 3 Programmer's Reference Manual, "OS_Module").
///
/// # Errors
///
/// `ModuleBadReason` where it is none of these reasons, `BadString` where a string can't be read,
/// else as the call of `rma` or of `instances` refuses it; nothing is changed then.
#[tactic(auto, using(crate::proofs::AnswerLemmas::area_done_left, crate::proofs::AnswerLemmas::area_register_left), unfolding(crate::specs::modules::Calls::result_of_module_call, os_heap::specs::Store::store_of))]
pub fn call_module(
    cpu: &mut Cpu,
    memory: &mut AddressMap,
    areas: &mut Areas,
    instances: &mut Instances,
) -> Result<(), Refusal>
    requires state { IsAreaMap memory.old areas.old }
    ensures state { Leaves (cpu.old, module_state_of memory.old areas.old instances.old)
        (result_of_module_call cpu.old (module_state_of memory.old areas.old instances.old)) result
        (cpu.new, module_state_of memory.new areas.new instances.new) }
    ensures leaves { LeavesModuleState memory.old memory.new areas.old areas.new instances.old instances.new }
{
    let rma = Rma::new();
    let block = cpu.register(2);
    let size = cpu.register(3);
    match ModuleReason::of(cpu.register(0)) {
        Some(ModuleReason::DescribeArea) => describe_area(cpu, memory),
        Some(ModuleReason::Claim) => in_register(cpu, 2, rma.claim(memory, areas, size)),
        Some(ModuleReason::Free) => done(rma.free(memory, block)),
        Some(ModuleReason::Info) => print_instance(cpu, memory, instances),
        Some(ModuleReason::Extend) => in_register(cpu, 2, rma.extend(memory, areas, block, size)),
        Some(ModuleReason::Rename) => {
            let full = string_in(cpu, memory, 1)?;
            let new = string_in(cpu, memory, 2)?;
            done(instances.rename(full.as_slice(), new.as_slice()))
        }
        Some(ModuleReason::Prefer) => {
            let full = string_in(cpu, memory, 1)?;
            done(instances.prefer(full.as_slice()))
        }
        Some(ModuleReason::Lookup) => find_instance(cpu, memory, instances),
        _ => Err(Refusal::System(ErrorNumber::ModuleBadReason)),
    }
}
