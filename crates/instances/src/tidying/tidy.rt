//! The slide of the module area.
ghost use Rattle.std.specs.Prelude.{◌≡◌, []};
ghost use Rattle.instances_table.specs.declared.plans.action.PlanAction.TheVariants.{Slide};
ghost use Rattle.instances.specs.module_state.Records.{TurnsRecords};
ghost use Rattle.instances.specs.module_state.ModuleState.{module_state_of};
ghost use Rattle.instances.specs.tidying.Slid.{module_state_slid};
ghost use Rattle.instances.specs.module_state.Kept.{IsModuleMap, KeepsState};

use crate::tidying::follow::{move_images, move_words, private_words};
use crate::tidying::movable::movable_blocks;
use instances_table::InstanceTable;
use rma::{AddressMap, Areas, Rma};

/// Tidies the module area: slides its movable blocks together, so that the free room between them
/// becomes one. Movable are the images of modules, and each block that exactly one private word of
/// an instance names, if they hold neither an anchor of the flex store, nor a heap, nor the return
/// address of the call; all others stay. Private words that name blocks that moved follow them, and
/// so do the images of modules, wherever these are shown of.
///
/// RISC OS 3 Programmer's Reference Manual, "OS_Module", reason 8; which blocks can be moved is
/// this project's own.
pub fn slide(map: &mut AddressMap, areas: &Areas, table: &mut InstanceTable, return_address: u32)
    requires state { IsModuleMap map.old areas.now table.old }
    ensures module_state { module_state_of map.new areas.now table.new
        ≡ module_state_slid return_address (module_state_of map.old areas.now table.old) }
    ensures kept { KeepsState map.old map.new areas.now table.new [] (TurnsRecords Slide) }
{
    let slots = table.slots();
    let words = private_words(map, slots.as_slice());
    let movable = movable_blocks(map, table, words.as_slice(), return_address);
    let moves = Rma::new().slide(map, movable.as_slice());
    move_images(table, moves.as_slice());
    move_words(map, slots.as_slice(), moves.as_slice());
}
