//! The plan of the call that adds an instance to a module.
ghost use Rattle.std.specs.Prelude.{◌≡◌, [], false, IfOk};
ghost use Rattle.instances.specs.actions.Pending.{pending_of};
ghost use Rattle.instances.specs.actions.Ready.{IsReady};
ghost use Rattle.instances.specs.Adding.{instantiation};

use crate::given::{given_instance, is_too_long};
use crate::instances::Instances;
use instances_table::plans::Plan;
use rma::ErrorNumber;

impl Instances {
    /// A new instance of a module, `Title%Name`, is added and initialised with a text.
    ///
    /// # Errors
    ///
    /// The first of these: `BadString` where the text is longer than 255 bytes, the full name has
    /// no `%`, or the name after it isn't formed like a title; `ModuleNotFound` where there is no
    /// module of the title; `InstanceExists` where the module has an instance of the name;
    /// `InstanceTableFull` where there are 64 instances.
    ///
    /// RISC OS 3 Programmer's Reference Manual, "OS_Module", reason 14.
    #[tactic(auto, unfolding(crate::specs::Adding::instantiation))]
    pub fn instantiate(&self, full: &[u8], text: &[u8]) -> Result<Plan, ErrorNumber>
        ensures value { result ≡ instantiation self.now full.now text.now }
        ensures ready { IfOk result (λ plan. IsReady self.now plan) }
        ensures rests { IfOk result (λ plan. plan.runs ≡ false) }
        ensures pending { IfOk result (λ plan. pending_of plan ≡ []) }
    {
        if is_too_long(text) {
            return Err(ErrorNumber::BadString);
        }
        let new = self.table.room_for(full)?;
        let info = self
            .table
            .module(new.number)
            .ok_or(ErrorNumber::ModuleNotFound)?;
        let slot = new.slot;
        Ok(Plan::instantiate(given_instance(info, new, text), slot))
    }
}
