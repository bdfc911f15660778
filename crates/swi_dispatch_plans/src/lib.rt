//! Module calls that may run module code, before they begin: what each refuses, and the plan that
//! it makes.
//!
//! Promise: a call is refused for the first reason that holds, and then nothing changes; else its
//! plan may begin.
//!
//! A `Planner` is made from the parts of a machine that these calls read; it changes none of them.
//! What holds between calls is its invariant (`IsPlannerInput`), so that a plan of its may begin
//! (`CanBegin`) on what it was made from. A `Scratch` tries a call that is under way on a copy, to
//! say whether it ends with an error. `module_code` has what is left of the core and the frames where
//! module code is entered or comes back.
#![tactic(auto)]

mod answering;
pub mod flex;
pub mod flex_frame;
pub mod image_plans;
pub mod module_code;
pub mod module_plans;
pub mod modules;
pub mod openings;
pub mod planner;
pub mod refusals;
pub mod scratch;
pub mod store;

pub use flex_store::{Flex, FlexBlock, FlexBlocks};
pub use image_plans::{ImageFound, ImageRange, Load};
pub use instances::module_state::put_text;
pub use instances::{
    Area, Areas, Ended, Handler, InstanceInfo, Instances, ModuleInfo, Outcome, Plan, Start,
    areas_count_pages, start_memory,
};
pub use openings::{Opening, enter_as_user};
pub use planner::Planner;
pub use profile::images::Images;
pub use scratch::Scratch;
pub use swi_dispatch_answers::errors::{error_at, write_error};
pub use swi_dispatch_answers::frames::{
    Call, CodeKind, Frame, FrameKind, Frames, MOST_FRAMES, enter_swi,
};
pub use swi_dispatch_answers::returns::return_to;
pub use swi_dispatch_answers::strings::{next_word, text_at};
pub use swi_dispatch_answers::words::host_string;
pub use swi_dispatch_answers::{Given, MAX_TEXT, Refusal, TextEnd};
