//! The calls on dynamic areas (RISC OS 3 Programmer's Reference Manual, "OS_ChangeDynamicArea",
//! "OS_ReadDynamicArea", and its supplement, "OS_DynamicArea").

ghost use Rattle.std.specs.Prelude.{◌≡◌, None, Err};
ghost use Rattle.profile.specs.Outcome.{Leaves};
ghost use Rattle.instances.specs.Ground.{IsAreaStore, area_store_of};
ghost use Rattle.instances.specs.Kept.{IsAreaMap};
ghost use Rattle.instances.specs.Rooms.{IsAreaTable};
ghost use Rattle.swi_dispatch_plans.specs.store.Areas.{area_called, area_changed, area_created, area_enumerated, area_named, area_read, area_shown, change_asked, wanted_of};
ghost use Rattle.swi_dispatch_plans.specs.store.Leaving.{LeavesSound};

use instances::{Areas, Wanted};
use os_heap::AddressMap;
use profile::memory_map::PAGE_SIZE;
use profile::{AreaReason, ErrorNumber};
use swi_dispatch_answers::strings::text_at;
use swi_dispatch_answers::{Cpu, MAX_TEXT, Refusal, TextEnd};

/// OS_ReadDynamicArea: where the area of the number in R0 lies.
///
/// # Errors
///
/// As `Areas::read` refuses it; nothing is changed then.
#[tactic(auto, unfolding(crate::specs::store::Areas::area_read))]
pub fn read_area(cpu: &mut Cpu, memory: &AddressMap, areas: &Areas) -> Result<(), Refusal>
    requires { IsAreaTable areas.now.areas }
    ensures { Leaves (cpu.old, area_store_of memory.now areas.now)
        (area_read cpu.old (area_store_of memory.now areas.now)) result
        (cpu.new, area_store_of memory.now areas.now) }
{
    let word = cpu.register(0);
    let extent = areas.read(word)?;
    cpu.set_register(0, extent.base);
    cpu.set_register(1, extent.size);
    if let Some(maximum) = extent.maximum {
        cpu.set_register(2, maximum);
    }
    Ok(())
}

/// OS_DynamicArea, by its reason in R0.
///
/// # Errors
///
/// `AreaBadReason` where there is no such reason, else as the call of `dynamic_areas` refuses it,
/// or `BadString` where a new area would be allowed but that its name can't be read; nothing is
/// changed then.
#[tactic(auto, unfolding(crate::specs::store::Areas::area_called))]
pub fn call_area(cpu: &mut Cpu, memory: &mut AddressMap, areas: &mut Areas) -> Result<(), Refusal>
    requires state { IsAreaMap memory.old areas.old }
    ensures state { Leaves (cpu.old, area_store_of memory.old areas.old)
        (area_called cpu.old (area_store_of memory.old areas.old)) result
        (cpu.new, area_store_of memory.new areas.new) }
    ensures leaves { LeavesSound memory.old memory.new areas.old areas.new }
{
    match AreaReason::of(cpu.register(0)) {
        Some(AreaReason::Create) => create_area(cpu, memory, areas),
        Some(AreaReason::Remove) => {
            let number = cpu.register(1);
            Ok(areas.remove(memory, number)?)
        }
        Some(AreaReason::Info) => print_area(cpu, memory, areas),
        Some(AreaReason::Enumerate) => next_area(cpu, memory, areas),
        Some(AreaReason::Renumber) => {
            let old = cpu.register(1);
            let new = cpu.register(2);
            Ok(areas.renumber(old, new)?)
        }
        None => Err(Refusal::System(ErrorNumber::AreaBadReason)),
    }
}

// R1 to R7 are the words of a new area, and R8 points to its name.
#[tactic(auto, unfolding(os_heap::specs::Store::store_of))]
fn create_area(cpu: &mut Cpu, memory: &mut AddressMap, areas: &mut Areas) -> Result<(), Refusal>
    requires state { IsAreaMap memory.old areas.old }
    ensures state { Leaves (cpu.old, area_store_of memory.old areas.old)
        (area_created cpu.old (area_store_of memory.old areas.old)) result
        (cpu.new, area_store_of memory.new areas.new) }
    ensures leaves { LeavesSound memory.old memory.new areas.old areas.new }
{
    let wanted = wanted_area(cpu);
    let name_at = cpu.register(8);
    let name = text_at::<MAX_TEXT>(memory, name_at, TextEnd::Control);
    let Some(name) = name else {
        return Err(unnamed_error(cpu, memory, areas, &wanted));
    };
    let made = areas.create(memory, &wanted, name.as_slice())?;
    cpu.set_register(1, made.number);
    cpu.set_register(3, made.base);
    cpu.set_register(5, made.maximum);
    Ok(())
}

fn wanted_area(cpu: &Cpu) -> Wanted
    ensures { result ≡ wanted_of cpu.now }
{
    Wanted {
        number: cpu.register(1),
        size: cpu.register(2),
        base: cpu.register(3),
        flags: cpu.register(4),
        maximum: cpu.register(5),
        handler: cpu.register(6),
        workspace: cpu.register(7),
    }
}

// A name that can't be read counts only where the area would be allowed otherwise.
fn unnamed_error(cpu: &Cpu, memory: &AddressMap, areas: &Areas, wanted: &Wanted) -> Refusal
    ensures { area_named cpu.now (area_store_of memory.now areas.now) wanted.now None ≡ Err result }
{
    match areas.area_wanted(memory.free_pages(), wanted, b"?") {
        Ok(_) => Refusal::System(ErrorNumber::BadString),
        Err(error) => Refusal::System(error),
    }
}

fn print_area(cpu: &mut Cpu, memory: &AddressMap, areas: &Areas) -> Result<(), Refusal>
    requires area_store { IsAreaStore (area_store_of memory.now areas.now) }
    ensures { Leaves (cpu.old, area_store_of memory.now areas.now)
        (area_shown cpu.old (area_store_of memory.now areas.now)) result
        (cpu.new, area_store_of memory.now areas.now) }
{
    let number = cpu.register(1);
    let area = areas.info(number)?;
    cpu.set_register(2, PAGE_SIZE * area.pages);
    cpu.set_register(3, area.base);
    cpu.set_register(4, area.flags);
    cpu.set_register(5, area.maximum);
    cpu.set_register(6, 0);
    cpu.set_register(7, area.workspace);
    Ok(())
}

fn next_area(cpu: &mut Cpu, memory: &AddressMap, areas: &Areas) -> Result<(), Refusal>
    ensures { Leaves (cpu.old, area_store_of memory.now areas.now)
        (area_enumerated cpu.old (area_store_of memory.now areas.now)) result
        (cpu.new, area_store_of memory.now areas.now) }
{
    let number = cpu.register(1);
    let next = areas.next(number)?;
    cpu.set_register(1, next);
    Ok(())
}

/// OS_ChangeDynamicArea: the area of the number in R0 changes by R1 bytes. Pages move even where
/// not all can, so the call may change something and err. Answers the error with which it ends, if
/// it does.
pub fn change_area(cpu: &mut Cpu, memory: &mut AddressMap, areas: &mut Areas) -> Option<ErrorNumber>
    requires state { IsAreaMap memory.old areas.old }
    ensures error { result ≡ (change_asked cpu.old (area_store_of memory.old areas.old)).error }
    ensures state { (cpu.new, area_store_of memory.new areas.new)
        ≡ area_changed cpu.old (area_store_of memory.old areas.old) }
    ensures leaves { LeavesSound memory.old memory.new areas.old areas.new }
{
    let number = cpu.register(0);
    let amount = cpu.register(1);
    if let Err(error) = areas.info(number) {
        return Some(error);
    }
    let changed = areas.change(memory, number, amount);
    cpu.set_register(1, changed.bytes);
    changed.error
}

/// The error with which OS_ChangeDynamicArea would end; nothing is changed.
pub fn change_error(cpu: &Cpu, memory: &AddressMap, areas: &Areas) -> Option<ErrorNumber>
    requires { IsAreaStore (area_store_of memory.now areas.now) }
    ensures { result ≡ (change_asked cpu.now (area_store_of memory.now areas.now)).error }
{
    let number = cpu.register(0);
    let amount = cpu.register(1);
    areas.measure(memory, number, amount).error
}
