//! OS_Module, the reasons that look up an instance: 12 and 18 (RISC OS 3 Programmer's Reference
//! Manual, "OS_Module").
#![tactic(auto, unfolding(os_heap::specs::Store::store_of))]

ghost use Rattle.std.specs.Prelude.{◌≡◌};
ghost use Rattle.profile.specs.Outcome.{Leaves};
ghost use Rattle.os_heap.specs.Bytes.{AreMapped};
ghost use Rattle.os_heap.specs.Memory.{is_mapped};
ghost use Rattle.instances.specs.Areas.{AreaTable};
ghost use Rattle.instances.specs.module_state.ModuleState.{module_state_of};
ghost use Rattle.swi_dispatch_plans.specs.modules.Naming.{instance_found, instance_shown};

use instances::{Instances, Place};
use os_heap::AddressMap;
use swi_dispatch_answers::strings::string_in;
use swi_dispatch_answers::{Cpu, Refusal};

/// Reason 12: R1 and R2 have the numbers of a module and of an instance.
pub(crate) fn print_instance(
    cpu: &mut Cpu,
    memory: &AddressMap,
    instances: &Instances,
) -> Result<(), Refusal>
    requires { AreMapped (is_mapped memory.now) 0x01C02000 256 }
    ensures { (l : AreaTable) → Leaves (cpu.old, module_state_of memory.now l instances.now)
        (instance_shown cpu.old (module_state_of memory.now l instances.now)) result
        (cpu.new, module_state_of memory.now l instances.now) }
{
    let place = Place {
        number: cpu.register(1),
        instance: cpu.register(2),
    };
    let reported = instances.info(memory, place)?;
    cpu.set_register(1, reported.next.number);
    cpu.set_register(2, reported.next.instance);
    cpu.set_register(3, reported.image);
    cpu.set_register(4, reported.word);
    Ok(())
}

/// Reason 18: R1 points to a name.
pub(crate) fn find_instance(
    cpu: &mut Cpu,
    memory: &AddressMap,
    instances: &Instances,
) -> Result<(), Refusal>
    requires { AreMapped (is_mapped memory.now) 0x01C02000 256 }
    ensures { (l : AreaTable) → Leaves (cpu.old, module_state_of memory.now l instances.now)
        (instance_found cpu.old (module_state_of memory.now l instances.now)) result
        (cpu.new, module_state_of memory.now l instances.now) }
{
    let full = string_in(cpu, memory, 1)?;
    let found = instances.lookup(memory, full.as_slice())?;
    cpu.set_register(1, found.place.number);
    cpu.set_register(2, found.place.instance);
    cpu.set_register(3, found.image);
    cpu.set_register(4, found.word);
    Ok(())
}
