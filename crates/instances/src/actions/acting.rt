//! One action of a plan.

ghost use Rattle.std.specs.Prelude.{ℕ, List, ◌≡◌, [], ◌∷◌, true, false};
ghost use Rattle.rma.specs.Areas.{AreaTable};
ghost use Rattle.instances_table.specs.declared.parts.Image.{Image};
ghost use Rattle.instances.specs.module_state.Sound.{IsModuleState};
ghost use Rattle.instances.specs.module_state.ModuleState.{ModuleState, module_state_of};
ghost use Rattle.instances.specs.actions.Actions.{module_state_after_action, image_given};
ghost use Rattle.instances.specs.actions.Asked.{CanAct};
ghost use Rattle.instances.specs.actions.Pending.{settles};
ghost use Rattle.instances.specs.module_state.Kept.{IsSystemMap, DropsRecords};

use crate::actions::adding::{give_up, insert, instantiate};
use crate::actions::removal::{free_private, remove};
use crate::module_state::put_text;
use instances_table::InstanceTable;
use instances_table::plans::{Given, PlanAction};
use rma::AddressMap;

/// Does an action's own part, before its code runs; a slide is done elsewhere. The image of a new
/// module is pending until an insertion adds it, or it is given up.
pub fn act(map: &mut AddressMap, table: &mut InstanceTable, given: &Given, action: PlanAction)
    requires can { CanAct given.now table.old action }
    requires state { IsSystemMap map.old }
    ensures module_state { (slide : ℕ → ModuleState → ModuleState) (l : AreaTable)
        → module_state_of map.new l table.new ≡ module_state_after_action slide given.now
        (module_state_of map.old l table.old)
        action }
    ensures settled { (l : AreaTable) → settles action ≡ true
        → IsModuleState (module_state_of map.old l table.old) (image_given given.now ∷ [])
        → IsModuleState (module_state_of map.new l table.new) [] }
    ensures kept { DropsRecords map.old map.new ((l : AreaTable) (pending : List Image)
        → settles action ≡ false → IsModuleState (module_state_of map.old l table.old) pending
        → IsModuleState (module_state_of map.new l table.new) pending) }
{
    match action {
        PlanAction::Finalise(..) | PlanAction::Slide => {}
        PlanAction::Remove(slot) => remove(map, table, slot),
        PlanAction::FreePrivate(slot) => free_private(map, slot),
        PlanAction::Insert(slot) => insert(map, table, given, slot),
        PlanAction::Instantiate(slot) => instantiate(map, table, given, slot),
        PlanAction::GiveUp => give_up(map, given),
        PlanAction::Initialise(_) => put_text(map, given.text.as_slice()),
    }
}
