//! Requests that go back: a step, and as far as something stops it. What stops it is looked for in
//! pieces of the past: after each the other side is asked whether the user wants the search to stop.

ghost use Rattle.std.specs.Prelude.{◌≡◌, ◌<◌, ◌+◌, ◌^◌, List, IfErr, IfOk, OnOk};
ghost use Rattle.debug_session.specs.Error.{IsLineError};
ghost use Rattle.gdb_server.specs.session.Back.{end_found, sought_of};

use crate::session::session::{GdbAnswer, GdbSession};
use debug_session::{PastFound, RunError, Sought};
use gdb_machine::{
    BackEnd, BackGoal, BackSearch, GdbStop, SeenByte, UnderWay, all_goals, first_changed,
    piece_before,
};
use profile::images::Images;
use profile::text_sink::TextSink;
use std::alloc::AllocError;

impl GdbSession {
    ghost use Rattle.gdb_machine.specs.Watches.{first_changed};
    ghost use Rattle.gdb_server.specs.session.Back.{back_goals, changed_or, continue_back_shown, gone_back_to, search_further};
    ghost use Rattle.gdb_server.specs.session.Back.{search_shown, step_back_shown, stepped_back, steps_back};
    ghost use Rattle.gdb_server.specs.session.Runs.{stop_here};
    ghost use Rattle.gdb_server.specs.session.Session.{gdb_state, IsGdbAnswered};
    ghost use Rattle.profile.specs.images.Entries.{Entry};

    /// Takes a step back, unless a watch that was struck has had it taken already.
    pub(crate) fn step_back(&mut self, images: &mut Images) -> Result<GdbAnswer, RunError>
        ensures reported { IfOk result (λ answer. IsGdbAnswered (gdb_state self.new images.new) answer
            (step_back_shown (gdb_state self.old images.old))) }
        ensures errors { IfErr result IsLineError }
    {
        match self.stop {
            GdbStop::WatchedBack(_) => {
                let stop = self.stop_here();
                self.stand(stop)
            }
            _ => {
                let steps = self.steps_back();
                if steps == 0 {
                    return self.stand(GdbStop::Begin);
                }
                self.step_back_to(images, steps - 1)
            }
        }
    }

    // How many steps back there are.
    fn steps_back(&self) -> u64
        ensures { (images : List Entry) → result ≡ steps_back (gdb_state self.now images).debug.past }
    {
        if self.debug.past.is_kept() {
            self.debug.past.steps()
        } else {
            0
        }
    }

    // The machine as it was before the step of that number.
    fn go_back(&mut self, images: &mut Images, step: u64) -> Result<(), RunError>
        ensures reported { OnOk result (gdb_state self.new images.new
            ≡ gone_back_to (gdb_state self.old images.old) step) }
        ensures errors { IfErr result IsLineError }
    {
        let setting = self.debug.setting;
        self.debug.past.go_back(
            &mut self.debug.session,
            images,
            setting.config,
            setting.budget,
            step,
        )?;
        Ok(())
    }

    fn step_back_to(&mut self, images: &mut Images, step: u64) -> Result<GdbAnswer, RunError>
        ensures reported { IfOk result (λ answer. IsGdbAnswered (gdb_state self.new images.new) answer
            (stepped_back (gdb_state self.old images.old)
            (gone_back_to (gdb_state self.old images.old) step))) }
        ensures errors { IfErr result IsLineError }
    {
        let map = self.debug.session.machine().memory();
        let seen = self.watches.seen_bytes(self.alloc, map)?;
        self.go_back(images, step)?;
        let stop = self.stop_after(seen.as_slice());
        self.stand(stop)
    }

    // Why the program stands where a step back led, before which these bytes were seen.
    fn stop_after(&self, seen: &[SeenByte]) -> GdbStop
        ensures { (images : List Entry) → result ≡ changed_or
            (first_changed (gdb_state self.now images).debug.script.machine.store.bytes seen.now)
            (stop_here (gdb_state self.now images)) }
    {
        match first_changed(self.debug.session.machine().memory(), seen) {
            Some(place) => GdbStop::WatchedBack(place),
            None => self.stop_here(),
        }
    }

    /// Goes back as far as something stops it, unless GDB has to be told of other modules first.
    pub(crate) fn continue_back(&mut self, images: &mut Images) -> Result<GdbAnswer, RunError>
        ensures reported { IfOk result (λ answer. IsGdbAnswered (gdb_state self.new images.new) answer
            (continue_back_shown (gdb_state self.old images.old))) }
        ensures errors { IfErr result IsLineError }
    {
        let is_other = self.has_other_list()?;
        if is_other {
            return self.stand(GdbStop::Library);
        }
        let steps = self.steps_back();
        if steps == 0 {
            return self.stand(GdbStop::Begin);
        }
        let so_far = BackSearch::begin(self.debug.past.acts().len());
        self.search_on(images, so_far)
    }

    /// Looks for where going back ends in a piece of the past, and asks the other side then; where all
    /// goals were looked for, goes back.
    pub(crate) fn search_on(
        &mut self,
        images: &mut Images,
        so_far: BackSearch,
    ) -> Result<GdbAnswer, RunError>
        ensures reported { IfOk result (λ answer. IsGdbAnswered (gdb_state self.new images.new) answer
            (search_shown (gdb_state self.old images.old) so_far)) }
        ensures errors { IfErr result IsLineError }
    {
        let goals = self.back_goals()?;
        if so_far.goal >= goals.len() {
            self.go_back(images, so_far.end.step)?;
            return self.stand(so_far.end.why);
        }
        let further = self.search_further(images, so_far, goals[so_far.goal])?;
        self.ask(TextSink::new(self.alloc), UnderWay::Search(further))
    }

    // What going back may end at.
    fn back_goals(&self) -> Result<Vec<BackGoal>, AllocError>
        ensures { (images : List Entry) → IfOk result (λ goals. goals.items
            ≡ back_goals (gdb_state self.now images)) }
    {
        let map = self.debug.session.machine().memory();
        let seen = self.watches.seen_bytes(self.alloc, map)?;
        all_goals(self.alloc, seen.as_slice(), self.breaks.places())
    }

    // The search behind one piece of the past, in which a goal is looked for.
    fn search_further(
        &self,
        images: &mut Images,
        so_far: BackSearch,
        goal: BackGoal,
    ) -> Result<BackSearch, RunError>
        requires { so_far.goal + 1 < 2 ^ 64 }
        ensures found { IfOk result (λ further. further
            ≡ search_further (gdb_state self.now images.old) so_far goal) }
        ensures images { OnOk result (images.new ≡ images.old) }
        ensures errors { IfErr result IsLineError }
    {
        let acts = self.debug.past.acts().len();
        let piece = piece_before(so_far.until, acts);
        let found = self.debug.past.last_among(
            self.alloc,
            images,
            self.debug.setting.config,
            sought_of(goal),
            piece.from,
            piece.until,
        )?;
        Ok(so_far.after(piece.from, acts, end_found(goal, found)))
    }
}

fn sought_of(goal: BackGoal) -> Sought
    ensures { result ≡ sought_of goal }
{
    match goal {
        BackGoal::Byte(place) => Sought::Byte(place.address),
        BackGoal::Break(address) => Sought::Stood(address),
    }
}

fn end_found(goal: BackGoal, found: Option<PastFound>) -> Option<BackEnd>
    ensures { result ≡ end_found goal found }
{
    match found {
        Some(found) => Some(goal.end(found.step, found.is_step)),
        None => None,
    }
}
