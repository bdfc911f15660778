//! The calls that add a module whose image gets a block of the module area.
ghost use Rattle.std.specs.Prelude.{◌≡◌, ◌≤◌, ◌<◌, ◌∷◌, [], false, length, IfOk, Ok};
ghost use Rattle.instances_table.specs.Outcome.{Gives};
ghost use Rattle.rma.specs.Bytes.{bytes_between, AreMapped};
ghost use Rattle.rma.specs.Memory.{is_mapped};
ghost use Rattle.rma.specs.Store.{store_of};
ghost use Rattle.instances_table.specs.plans.ModuleHeaderHeader.{header_of};
ghost use Rattle.instances.specs.actions.Pending.{pending_of};
ghost use Rattle.instances.specs.actions.Ready.{IsReady};
ghost use Rattle.instances_table.specs.Changes.{is_slot_held, titled_otherwise};
ghost use Rattle.instances.specs.module_state.ModuleState.{module_state_of};
ghost use Rattle.instances.specs.Adding.{adding_plan, good_header, loading, slot_for, AddsInBlock};
ghost use Rattle.instances.specs.module_state.Kept.{IsModuleMap};

use crate::given::{given_module, is_too_long};
use crate::instances::Instances;
use instances_table::Image;
use instances_table::plans::{Header, HeaderFault, Plan};
use rma::{AddressMap, Areas, ErrorNumber, Rma};

impl Instances {
    /// Loads a module: its image gets a block of the module area at once. Then the instances of an
    /// older module of its title are finalised and removed, and the new one is added, with its
    /// first instance, which is initialised with a text.
    ///
    /// # Errors
    ///
    /// The first of these, and nothing is changed then: `BadString` where the text is longer than
    /// 255 bytes; `ModuleBadHeader` where the image has no good header; `InstanceTableFull` where
    /// there are 64 instances, and none of a module of the title; `RmaNoRoom` where the module area
    /// has no room for the image, and can't grow by as much.
    ///
    /// RISC OS 3 Programmer's Reference Manual, "OS_Module", reason 1.
    #[tactic(auto, unfolding(crate::specs::Adding::loading))]
    pub fn load(
        &self,
        map: &mut AddressMap,
        areas: &mut Areas,
        image: &[u8],
        text: &[u8],
    ) -> Result<Plan, ErrorNumber>
        requires state { IsModuleMap map.old areas.old self.now }
        ensures module_state { Gives (module_state_of map.old areas.old self.now)
            (loading (module_state_of map.old areas.old self.now) image.now text.now) result
            (module_state_of map.new areas.new self.now) }
        ensures kept { AddsInBlock map.old map.new areas.old areas.new self.now result }
        ensures ready { IfOk result (λ plan. IsReady self.now plan) }
        ensures rests { IfOk result (λ plan. plan.runs ≡ false) }
    {
        if is_too_long(text) {
            return Err(ErrorNumber::BadString);
        }
        let header = good_header(Header::read(image))?;
        let slot = self.slot_for(&header)?;
        let at = Rma::new().make_image(map, areas, image)?;
        let placed = Image {
            at,
            len: image.len() as u32,
        };
        Ok(self.adding_plan(header, placed, text, slot))
    }

    /// The slot that the first instance of a new module gets.
    pub(crate) fn slot_for(&self, header: &Header) -> Result<u32, ErrorNumber>
        ensures value { result ≡ slot_for self.now header.now }
        ensures below { IfOk result (λ slot. slot < 64) }
        ensures free { IfOk result (λ slot. is_slot_held slot
            (titled_otherwise header.now.title.items self.now) ≡ false) }
        ensures few { length self.now ≤ 64 }
    {
        self.table
            .free_slot_for(header.title.as_slice())
            .ok_or(ErrorNumber::InstanceTableFull)
    }

    /// The plan that takes an older module of the title away, and adds the new one.
    #[tactic(auto, using(crate::proofs::ReadyLemmas::load_ready, crate::proofs::ReadyLemmas::load_pending))]
    pub(crate) fn adding_plan(&self, header: Header, image: Image, text: &[u8], slot: u32) -> Plan
        requires text { length text.now ≤ 255 }
        requires below { slot < 64 }
        requires free { is_slot_held slot (titled_otherwise header.title.items self.now) ≡ false }
        ensures value { result ≡ adding_plan self.now header image text.now slot }
        ensures ready { IsReady self.now result }
        ensures rests { result.runs ≡ false }
        ensures pending { pending_of result ≡ image ∷ [] }
    {
        let old = self.table.slots_of_title(header.title.as_slice());
        Plan::load(given_module(header, image, text), old.as_slice(), slot)
    }
}

/// The header of an image that stands in memory.
#[tactic(auto, unfolding(crate::specs::Memory::store_of))]
pub(crate) fn header_at(map: &AddressMap, at: u32, len: u32) -> Result<Header, ErrorNumber>
    requires { AreMapped (is_mapped map.now) at len }
    ensures value { result ≡ good_header (header_of (bytes_between (store_of map.now).bytes.at at len)) }
    ensures there { IfOk result (λ header. header_of (bytes_between (store_of map.now).bytes.at at len)
        ≡ Ok header) }
{
    good_header(Header::read_from(&map.view(at, len)))
}

/// A fault of a header refuses the call.
fn good_header(read: Result<Header, HeaderFault>) -> Result<Header, ErrorNumber>
    ensures { result ≡ good_header read }
{
    match read {
        Ok(header) => Ok(header),
        Err(_) => Err(ErrorNumber::ModuleBadHeader),
    }
}
