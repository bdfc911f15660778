//! OS_Module, the reason that describes the relocatable module area (RISC OS 3 Programmer's Reference
//! Manual, "OS_Module").

ghost use Rattle.std.specs.Prelude.{◌≡◌, List};
ghost use Rattle.profile.specs.Outcome.{Leaves};
ghost use Rattle.os_heap.specs.Store.{IsSound, store_of};
ghost use Rattle.instances.specs.Areas.{AreaTable};
ghost use Rattle.instances.specs.Modules.{Module};
ghost use Rattle.instances.specs.module_state.ModuleState.{module_state_of};
ghost use Rattle.swi_dispatch_plans.specs.modules.Area.{area_described};

use instances::Rma;
use os_heap::AddressMap;
use swi_dispatch_answers::{Cpu, Refusal};

/// Reason 5: the largest free block and all that is free go to R2 and R3.
pub(crate) fn describe_area(cpu: &mut Cpu, memory: &AddressMap) -> Result<(), Refusal>
    requires { IsSound (store_of memory.now) }
    ensures { (l : AreaTable) (modules : List Module) → Leaves (cpu.old, module_state_of memory.now l modules)
        (area_described cpu.old (module_state_of memory.now l modules)) result
        (cpu.new, module_state_of memory.now l modules) }
{
    let (largest, free) = Rma::new().describe(memory)?;
    cpu.set_register(2, largest);
    cpu.set_register(3, free);
    Ok(())
}
