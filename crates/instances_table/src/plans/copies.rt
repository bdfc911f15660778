//! Copies of plans.
ghost use Rattle.std.specs.Prelude.{◌≡◌};

use crate::plans::given::Given;
use crate::plans::plan::Plan;
use arrayvec::ArrayVec;

impl Plan {
    /// The same plan once more.
    pub fn copied(&self) -> Plan
        ensures { result ≡ self.now }
    {
        Plan {
            given: self.given.copied(),
            actions: ArrayVec::try_from(self.actions.as_slice()).unwrap(),
            instead: ArrayVec::try_from(self.instead.as_slice()).unwrap(),
            runs: self.runs,
            first: self.first,
        }
    }
}

impl Given {
    fn copied(&self) -> Given
        ensures { result ≡ self.now }
    {
        Given {
            header: self.header.copied(),
            image: self.image,
            len: self.len,
            name: ArrayVec::try_from(self.name.as_slice()).unwrap(),
            text: ArrayVec::try_from(self.text.as_slice()).unwrap(),
            return_address: self.return_address,
        }
    }
}
