//! What is shown of lines of a debugging script that expect something and of those that are refused, as
//! answers or in the Test Anything Protocol, and what stands after the last line.
#![tactic(auto)]

mod reports;

pub use reports::{
    BLOCK_GOES_ON, CheckTally, NO_END, ReportForm, push_answer, push_fail, push_missing_end,
    push_pass, push_refusal, push_summary,
};
