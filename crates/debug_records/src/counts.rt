//! How many lines of a script passed, failed and were refused.

ghost use Rattle.std.specs.Prelude.{◌≡◌, []};
ghost use Rattle.debug_records.specs.AnswerHeads.{line_counts};
ghost use Rattle.debug_session.specs.Session.{debug_state};

use debug_session::DebugSession;

/// How many lines EXPECT passed and failed so far, and how many lines and blocks were refused.
#[derive(Clone, Copy)]
pub(crate) struct LineCounts {
    pub(crate) passed: u64,
    pub(crate) failed: u64,
    pub(crate) refused: u64,
}

impl LineCounts {
    /// Those of a session.
    pub(crate) fn of(session: &DebugSession) -> LineCounts
        ensures { result ≡ line_counts (debug_state session.now []) }
    {
        let tally = session.tally();
        LineCounts {
            passed: tally.passed,
            failed: tally.failed,
            refused: tally.refused,
        }
    }
}
