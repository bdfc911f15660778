//! Module code that was entered and has not come back: its frames, and the core on its way in and
//! out.
#![tactic(auto)]

pub mod busy;
pub mod call;
pub mod enter;
pub mod frame;
pub mod frames;
pub mod leave;

pub use call::Call;
pub use enter::{enter_code, enter_swi};
pub use frame::{Frame, FrameKind};
pub use frames::{Frames, MOST_FRAMES};
pub use instances_table::plans::CodeKind;
