//! The calls that add a module whose image is a copy of bytes in memory.
ghost use Rattle.std.specs.Prelude.{◌≡◌, false, true, IfOk, Ok};
ghost use Rattle.instances_table.specs.Outcome.{Gives};
ghost use Rattle.rma.specs.Bytes.{bytes_between};
ghost use Rattle.rma.specs.Ground.{area_store_of};
ghost use Rattle.rma.specs.Store.{store_of};
ghost use Rattle.rma.specs.Copies.{may_be_copied};
ghost use Rattle.instances_table.specs.plans.ModuleHeaderHeader.{header_of};
ghost use Rattle.instances.specs.actions.Ready.{IsReady};
ghost use Rattle.instances.specs.module_state.ModuleState.{module_state_of};
ghost use Rattle.instances.specs.Adding.{copying, AddsInBlock};
ghost use Rattle.instances.specs.module_state.Kept.{IsModuleMap};

use crate::adding::header_at;
use crate::instances::Instances;
use instances_table::Image;
use instances_table::plans::{Header, Plan};
use rma::{AddressMap, Areas, ErrorNumber, Rma};

impl Instances {
    /// Inserts a module whose image is a copy of the `len` bytes from an address on: it gets a
    /// block of the module area at once. All else is as in `load`, with an empty text.
    ///
    /// # Errors
    ///
    /// The first of these, and nothing is changed then: `BadPointer` where not all of the range is
    /// mapped, or it has a byte of the module area that no live block holds; `ModuleBadHeader`
    /// where the image has no good header; `InstanceTableFull` where there are 64 instances, and
    /// none of a module of the title; `RmaNoRoom` where the module area has no room for the image,
    /// and can't grow by as much.
    ///
    /// RISC OS 3 Programmer's Reference Manual, "OS_Module", reason 11.
    #[tactic(auto, unfolding(crate::specs::Adding::copying))]
    pub fn insert_copy(
        &self,
        map: &mut AddressMap,
        areas: &mut Areas,
        at: u32,
        len: u32,
    ) -> Result<Plan, ErrorNumber>
        requires state { IsModuleMap map.old areas.old self.now }
        ensures module_state { Gives (module_state_of map.old areas.old self.now)
            (copying (module_state_of map.old areas.old self.now) at len) result
            (module_state_of map.new areas.new self.now) }
        ensures kept { AddsInBlock map.old map.new areas.old areas.new self.now result }
        ensures ready { IfOk result (λ plan. IsReady self.now plan) }
        ensures rests { IfOk result (λ plan. plan.runs ≡ false) }
    {
        if !Rma::new().may_be_copied(map, areas, at, len) {
            return Err(ErrorNumber::BadPointer);
        }
        let header = header_at(map, at, len)?;
        self.insert_copy_found(map, areas, at, len, header)
    }

    /// Inserts a module as `insert_copy` does, for a caller that has asked: the bytes may be copied,
    /// and this is their header.
    ///
    /// # Errors
    ///
    /// The first of these, and nothing is changed then: `InstanceTableFull` where there are 64
    /// instances, and none of a module of the title; `RmaNoRoom` where the module area has no room
    /// for the image, and can't grow by as much.
    #[tactic(auto, unfolding(crate::specs::Adding::copying))]
    pub fn insert_copy_found(
        &self,
        map: &mut AddressMap,
        areas: &mut Areas,
        at: u32,
        len: u32,
        header: Header,
    ) -> Result<Plan, ErrorNumber>
        requires state { IsModuleMap map.old areas.old self.now }
        requires may { may_be_copied (area_store_of map.old areas.old) at len ≡ true }
        requires header { header_of (bytes_between (store_of map.old).bytes.at at len) ≡ Ok header }
        ensures module_state { Gives (module_state_of map.old areas.old self.now)
            (copying (module_state_of map.old areas.old self.now) at len) result
            (module_state_of map.new areas.new self.now) }
        ensures kept { AddsInBlock map.old map.new areas.old areas.new self.now result }
        ensures ready { IfOk result (λ plan. IsReady self.now plan) }
        ensures rests { IfOk result (λ plan. plan.runs ≡ false) }
    {
        let slot = self.slot_for(&header)?;
        let copy = Rma::new().copy_image(map, areas, at, len)?;
        let placed = Image { at: copy, len };
        Ok(self.adding_plan(header, placed, &[], slot))
    }
}
