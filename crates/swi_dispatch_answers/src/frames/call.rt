//! What a store call keeps from its start to its end.

use arm_core::{Mode, Psr};

/// What the end of a call needs to know of its start.
#[derive(Clone, Copy)]
pub struct Call {
    /// Whether an error goes back to the caller.
    pub is_x: bool,
    /// The caller's status.
    pub caller: Psr,
    /// Where the caller goes on.
    pub next: u32,
    /// Whether the module that the call loads is entered once it has ended well.
    pub enters: bool,
}

impl Default for Call {
    fn default() -> Call {
        Call {
            is_x: false,
            caller: Psr {
                negative: false,
                zero: false,
                carry: false,
                overflow: false,
                interrupts_off: false,
                fast_interrupts_off: false,
                mode: Mode::User,
            },
            next: 0,
            enters: false,
        }
    }
}
