//! The plans of the calls on instances that are there.
#![tactic(auto, using(crate::proofs::ReadyLemmas::plans_ready), unfolding(crate::specs::Plans::deletion, crate::specs::Plans::reinitialisation))]

ghost use Rattle.std.specs.Prelude.{◌≡◌, [], false, IfOk};
ghost use Rattle.instances.specs.actions.Pending.{pending_of};
ghost use Rattle.instances.specs.actions.Ready.{IsReady};
ghost use Rattle.instances.specs.Plans.{clearing, deletion, reinitialisation, tidying};

use crate::given::{given_only, is_too_long};
use crate::instances::Instances;
use instances_table::plans::Plan;
use rma::ErrorNumber;

impl Instances {
    /// The instance that a name means, as `lookup` takes it, is finalised and removed.
    ///
    /// # Errors
    ///
    /// `ModuleNotFound` where there is none.
    ///
    /// RISC OS 3 Programmer's Reference Manual, "OS_Module", reason 4.
    pub fn plan_delete(&self, full: &[u8]) -> Result<Plan, ErrorNumber>
        ensures value { result ≡ deletion self.now full.now }
        ensures ready { IfOk result (λ plan. IsReady self.now plan) }
        ensures rests { IfOk result (λ plan. plan.runs ≡ false) }
        ensures pending { IfOk result (λ plan. pending_of plan ≡ []) }
    {
        let place = self.table.lookup(full)?;
        let slot = self
            .table
            .slot_of(place)
            .ok_or(ErrorNumber::ModuleNotFound)?;
        Ok(Plan::delete(given_only(&[], 0), slot))
    }

    /// The instance that a name means is finalised, and initialised again with a text.
    ///
    /// # Errors
    ///
    /// The first of these: `BadString` where the text is longer than 255 bytes; `ModuleNotFound`
    /// where there is none.
    ///
    /// RISC OS 3 Programmer's Reference Manual, "OS_Module", reason 3.
    pub fn plan_reinit(&self, full: &[u8], text: &[u8]) -> Result<Plan, ErrorNumber>
        ensures value { result ≡ reinitialisation self.now full.now text.now }
        ensures ready { IfOk result (λ plan. IsReady self.now plan) }
        ensures rests { IfOk result (λ plan. plan.runs ≡ false) }
        ensures pending { IfOk result (λ plan. pending_of plan ≡ []) }
    {
        if is_too_long(text) {
            return Err(ErrorNumber::BadString);
        }
        let place = self.table.lookup(full)?;
        let slot = self
            .table
            .slot_of(place)
            .ok_or(ErrorNumber::ModuleNotFound)?;
        Ok(Plan::reinit(given_only(text, 0), slot))
    }

    /// All instances are finalised and removed, oldest first.
    ///
    /// RISC OS 3 Programmer's Reference Manual, "OS_Module", reason 9.
    pub fn plan_clear(&self) -> Plan
        ensures value { result ≡ clearing self.now }
        ensures ready { IsReady self.now result }
        ensures rests { result.runs ≡ false }
        ensures pending { pending_of result ≡ [] }
    {
        let slots = self.table.slots();
        Plan::clear(given_only(&[], 0), slots.as_slice())
    }

    /// The module area is tidied, while all instances are finalised; the caller goes on at the
    /// return address.
    ///
    /// RISC OS 3 Programmer's Reference Manual, "OS_Module", reason 8.
    pub fn plan_tidy(&self, return_address: u32) -> Plan
        ensures value { result ≡ tidying self.now return_address }
        ensures ready { IsReady self.now result }
        ensures rests { result.runs ≡ false }
        ensures pending { pending_of result ≡ [] }
    {
        let slots = self.table.slots();
        Plan::tidy(given_only(&[], return_address), slots.as_slice())
    }
}
