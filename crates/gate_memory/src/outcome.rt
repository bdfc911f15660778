//! How a call ended for which memory may be refused.

use std::alloc::{AllocError, Global};

#[derive(Clone, Copy)]
pub enum CallOutcome {
    /// Memory was refused before the call.
    Before,
    /// The call shown that memory is missing, and left what it was handed as it was.
    Refused,
    /// The call gave its answer.
    Answered,
    /// Neither of these, or no call has this name.
    Wrong,
}

impl CallOutcome {
    /// The call shown that memory is missing: that is right where all is as before.
    pub fn refused(is_as_before: bool) -> CallOutcome {
        if is_as_before {
            CallOutcome::Refused
        } else {
            CallOutcome::Wrong
        }
    }

    /// The call ended well: that is right where the answer is.
    pub fn answered(is_right: bool) -> CallOutcome {
        if is_right {
            CallOutcome::Answered
        } else {
            CallOutcome::Wrong
        }
    }

    pub fn word(self) -> &'static str {
        match self {
            CallOutcome::Before => "before",
            CallOutcome::Refused => "refused",
            CallOutcome::Answered => "answered",
            CallOutcome::Wrong => "wrong",
        }
    }
}

/// Takes host memory so many times, and gives it back each time.
pub fn take_and_give_back(alloc: Global, times: u32) -> Result<(), AllocError> {
    for n in 0..times {
        let mut taken = Vec::new(alloc);
        taken.push(n)?;
    }
    Ok(())
}
