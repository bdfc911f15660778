//! The calls that add a module whose image stays where it stands.
ghost use Rattle.std.specs.Prelude.{◌≡◌, false, true, IfOk, Ok};
ghost use Rattle.instances_table.specs.Outcome.{Gives};
ghost use Rattle.rma.specs.Bytes.{bytes_between};
ghost use Rattle.rma.specs.Store.{store_of};
ghost use Rattle.rma.specs.NewImages.{may_be_in_place};
ghost use Rattle.instances_table.specs.plans.ModuleHeaderHeader.{header_of};
ghost use Rattle.instances.specs.actions.Ready.{IsReady};
ghost use Rattle.instances.specs.module_state.ModuleState.{module_state_of};
ghost use Rattle.instances.specs.Adding.{inserting, AddsInPlace};
ghost use Rattle.instances.specs.module_state.Kept.{IsModuleMap};

use crate::adding::header_at;
use crate::instances::Instances;
use instances_table::Image;
use instances_table::plans::{Header, Plan};
use rma::{AddressMap, Areas, ErrorNumber, Rma};

impl Instances {
    /// Inserts a module whose image is the `len` bytes from an address on, which are recorded as an
    /// image at once. All else is as in `load`, with an empty text.
    ///
    /// # Errors
    ///
    /// The first of these, and nothing is changed then: `BadPointer` where the address is no
    /// multiple of 4, or not all of the range is mapped, or it meets a recorded range or an anchor;
    /// `ModuleBadHeader` where the image has no good header; `InstanceTableFull` where there are 64
    /// instances, and none of a module of the title.
    ///
    /// RISC OS 3 Programmer's Reference Manual, "OS_Module", reason 10.
    #[tactic(auto, unfolding(crate::specs::Adding::inserting))]
    pub fn insert_in_place(
        &self,
        map: &mut AddressMap,
        areas: &Areas,
        at: u32,
        len: u32,
    ) -> Result<Plan, ErrorNumber>
        requires state { IsModuleMap map.old areas.now self.now }
        ensures module_state { Gives (module_state_of map.old areas.now self.now)
            (inserting (module_state_of map.old areas.now self.now) at len) result
            (module_state_of map.new areas.now self.now) }
        ensures kept { AddsInPlace map.old map.new areas.now self.now result }
        ensures ready { IfOk result (λ plan. IsReady self.now plan) }
        ensures rests { IfOk result (λ plan. plan.runs ≡ false) }
    {
        if !Rma::new().may_be_in_place(map, at, len) {
            return Err(ErrorNumber::BadPointer);
        }
        let header = header_at(map, at, len)?;
        self.insert_found(map, areas, at, len, header)
    }

    /// Inserts a module as `insert_in_place` does, for a caller that has asked: the bytes may be an
    /// image in place, and this is their header.
    ///
    /// # Errors
    ///
    /// `InstanceTableFull` where there are 64 instances, and none of a module of the title; nothing
    /// is changed then.
    #[tactic(auto, unfolding(crate::specs::Adding::inserting))]
    pub fn insert_found(
        &self,
        map: &mut AddressMap,
        areas: &Areas,
        at: u32,
        len: u32,
        header: Header,
    ) -> Result<Plan, ErrorNumber>
        requires state { IsModuleMap map.old areas.now self.now }
        requires may { may_be_in_place (store_of map.old) at len ≡ true }
        requires header { header_of (bytes_between (store_of map.old).bytes.at at len) ≡ Ok header }
        ensures module_state { Gives (module_state_of map.old areas.now self.now)
            (inserting (module_state_of map.old areas.now self.now) at len) result
            (module_state_of map.new areas.now self.now) }
        ensures kept { AddsInPlace map.old map.new areas.now self.now result }
        ensures ready { IfOk result (λ plan. IsReady self.now plan) }
        ensures rests { IfOk result (λ plan. plan.runs ≡ false) }
    {
        let slot = self.slot_for(&header)?;
        Rma::new().record_in_place(map, at, len);
        let placed = Image { at, len };
        Ok(self.adding_plan(header, placed, &[], slot))
    }
}
