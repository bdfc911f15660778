//! What a debugger keeps beside the machine while steps are taken: stubs for SWIs that the machine
//! doesn't have, and watches on words of memory.
//!
//! Promise: a stub answers its SWI as it was set, and a watch finds the first of its words that
//! changed.
#![tactic(auto)]

mod ahead;
pub mod byte_writes;
pub mod counts;
mod modes;
pub mod routines;
mod step_words;
mod stub_deeds;
mod stubbing;
mod stubs;

pub use command_shell::watches::{
    MOST_WATCHES, WatchHit, WatchedWord, WordWatchError, WordWatches, first_change, push_watch,
};
pub use command_shell::{
    AsmError, CallEnd, Machine, Nowhere, OutsideCall, RunError, Session, assemble, labels_of_lines,
    print_stepped, print_stop,
};
pub use modes::StepModes;
pub use step_words::{WordFlow, word_flow};
pub use stub_deeds::{BankSetting, STUB_END, StubDeed};
pub use stubs::{MOST_STUBS, StubError, Stubs};
