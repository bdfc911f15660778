//! What a debugging session has left, for those who show it: the machine, the last answer, and the
//! tally; and how it reads and answers a line.

ghost use Rattle.std.specs.Prelude.{◌≡◌, List, IfOk};
ghost use Rattle.debug_tables.specs.GuestState.{state_of};

use crate::session::DebugSession;
use debug_lines::is_known_line;
use debug_modules::CheckTally;
use debug_tables::Machine;
use std::alloc::{AllocError, Global};

impl DebugSession {
    ghost use Rattle.debug_modules.specs.Modes.{answer_of_line};
    ghost use Rattle.profile.specs.images.Entries.{Entry};
    ghost use Rattle.debug_session.specs.Looking.{words_meant};
    ghost use Rattle.debug_session.specs.Naming.{naming_of};
    ghost use Rattle.debug_session.specs.Session.{debug_state};

    /// The machine, as the lines that were answered left it.
    pub fn machine(&self) -> &Machine
        ensures { (images : List Entry)
            → state_of result.now.guest ≡ (debug_state self.now images).script.machine }
    {
        self.session.machine()
    }

    /// How many steps are shown of a line that takes steps, `None` where they are not shown: shown they are
    /// behind TRACE, and where the steps of all lines are.
    pub fn answer_steps(&self, is_traced: bool) -> Option<u64>
        ensures { result ≡ answer_of_line self.now.modes is_traced }
    {
        self.modes.reported(is_traced)
    }

    /// A tidy line as it is read now: as it stands where it means something so, else with numbers in
    /// place of the words that name places.
    ///
    /// # Errors
    ///
    /// Memory ran out.
    pub fn words_meant(&self, alloc: Global, words: &[u8]) -> Result<Vec<u8>, AllocError>
        ensures { (images : List Entry) → IfOk result (λ meant. meant.items
            ≡ words_meant (naming_of (debug_state self.now images)) words.now) }
    {
        if is_known_line(words) {
            return Vec::from_slice(alloc, words);
        }
        self.with_numbers(words)
    }

    /// The answer that EXPECT looks at: of a line that takes steps, how they ended.
    pub fn answer(&self) -> &[u8]
        ensures { (images : List Entry) → result.now ≡ (debug_state self.now images).answer }
    {
        self.answer.as_slice()
    }

    /// How many steps the last line took that takes any.
    pub fn steps(&self) -> u64
        ensures { (images : List Entry) → result ≡ (debug_state self.now images).steps }
    {
        self.steps
    }

    /// How many lines EXPECT passed and failed so far, and how many lines and blocks were refused.
    pub fn tally(&self) -> CheckTally
        ensures { (images : List Entry) → result ≡ (debug_state self.now images).tally }
    {
        self.tally
    }
}
