//! The past of a machine, and how the machine goes back.

ghost use Rattle.std.specs.Prelude.{◌≡◌, ◌≤◌, ◌<◌, ◌^◌, ◌+◌, ◌++◌, true, length, take, Some, IfOk, IfSome, OnErr, OnOk, IfErr};
ghost use Rattle.debug_tables.specs.Error.{IsLineError};
ghost use Rattle.debug_tables.specs.Session.{script_state};
ghost use Rattle.debug_history.specs.Acts.{steps_of_acts, steps_of_deed};
ghost use Rattle.debug_history.specs.Again.{script_at_moment};
ghost use Rattle.debug_history.specs.Cutting.{acts_behind, acts_cut};
ghost use Rattle.debug_history.specs.Past.{acts_before_line, acts_from, acts_until, ends_anew, line_of_last_act};

use crate::act::Act;
use crate::again::acts_again;
use debug_tables::{RunError, Session};
use profile::images::Images;
use profile::{Config, Stop};
use std::alloc::{AllocError, Global};
use std::marker::Model;

/// What was done to a machine since it was made, as far as it is known, and what lies ahead: what the machine
/// went back by since something was done to it last.
#[derive(Drop)]
pub struct Past {
    alloc: Global,
    is_kept: bool,
    // What was done, and then what lies ahead.
    acts: Vec<Act>,
    // How many of these were done.
    done: usize,
    // How many steps those counted, and how many all count.
    steps: u64,
    all_steps: u64,
}

impl Model for Past {
    ghost use Rattle.std.specs.Prelude.{◌≡◌, ◌≤◌, drop, length, take};
    ghost use Rattle.debug_history.specs.Acts.{steps_of_acts};
    ghost use Rattle.debug_history.specs.Past.{PastState};

    ghost Value = { PastState };

    ghost view = { λ p. record {
      is_kept = p.is_kept;
      acts = take p.done p.acts.items;
      ahead = drop p.done p.acts.items;
    } };

    ghost invariant = { λ p. (p.done ≤ length p.acts.items)
        × (p.steps ≡ steps_of_acts (take p.done p.acts.items))
        × (p.all_steps ≡ steps_of_acts p.acts.items) };
}

impl Past {
    ghost use Rattle.debug_history.specs.Past.{moment_after_past, past_before_line, past_from_start, past_until, past_with_act, past_with_images, unknown_past};

    /// That of a machine as it was made, where it is to be kept.
    #[tactic(auto, unfolding(crate::specs::Acts::steps_of_acts))]
    pub fn new(alloc: Global, is_kept: bool) -> Past
        ensures { result ≡ past_from_start is_kept }
    {
        Past {
            alloc,
            is_kept,
            acts: Vec::new(alloc),
            done: 0,
            steps: 0,
            all_steps: 0,
        }
    }

    /// The machine was made anew.
    #[tactic(auto, unfolding(crate::specs::Acts::steps_of_acts))]
    pub fn begin(&mut self, is_kept: bool)
        ensures { self.new ≡ past_from_start is_kept }
    {
        *self = Past::new(self.alloc, is_kept);
    }

    /// The machine was changed in a way that isn't kept.
    pub fn lose(&mut self)
        ensures { self.new ≡ unknown_past }
    {
        self.begin(false);
    }

    /// The images are others now, if these are.
    pub fn change_images_if(&mut self, are_others: bool)
        ensures { self.new ≡ past_with_images are_others self.old }
    {
        if are_others {
            let is_kept = self.is_kept && ends_anew(self.acts());
            self.begin(is_kept);
        }
    }

    /// This was done to the machine; what lay ahead is forgotten.
    ///
    /// # Errors
    ///
    /// Memory ran out.
    pub fn add(&mut self, act: Act) -> Result<(), AllocError>
        ensures { OnOk result (self.new ≡ past_with_act self.old act) }
    {
        if !self.is_kept {
            return Ok(());
        }
        match self.steps.checked_add(act.deed.steps()) {
            Some(steps) => self.add_counted(act, steps),
            None => {
                self.lose();
                Ok(())
            }
        }
    }

    // The same where it is known, and so many steps are counted then.
    #[tactic(auto, using(crate::proofs::ActLemmas::steps_with_one))]
    fn add_counted(&mut self, act: Act, steps: u64) -> Result<(), AllocError>
        requires kept { self.old.is_kept ≡ true }
        requires counted { steps ≡ steps_of_acts self.old.acts + steps_of_deed act.deed }
        ensures { OnOk result (self.new ≡ past_with_act self.old act) }
    {
        self.acts.truncate(self.done);
        self.all_steps = self.steps;
        self.acts.push(act)?;
        self.done = self.acts.len();
        self.steps = steps;
        self.all_steps = steps;
        Ok(())
    }

    /// Whether it is known.
    pub fn is_kept(&self) -> bool
        ensures { result ≡ self.now.is_kept }
    {
        self.is_kept
    }

    /// What was done, one after another.
    pub fn acts(&self) -> &[Act]
        ensures { result.now ≡ self.now.acts }
    {
        &self.acts.as_slice()[..self.done]
    }

    /// How many steps were counted.
    pub fn steps(&self) -> u64
        ensures { result ≡ steps_of_acts self.now.acts }
    {
        self.steps
    }

    /// The number of the line that did something last, if anything was done.
    pub fn last_line(&self) -> Option<u64>
        ensures { result ≡ line_of_last_act self.now.acts }
    {
        Some(self.acts().last()?.line)
    }

    /// How many steps were counted before the last moment that lies ahead, or that the machine stands at.
    pub fn all_steps(&self) -> u64
        ensures { result ≡ steps_of_acts (self.now.acts ++ self.now.ahead) }
    {
        self.all_steps
    }

    // What comes after a moment lies ahead.
    fn move_to(&mut self, step: u64) -> Result<(), AllocError>
        ensures { OnOk result (self.new ≡ past_until step self.old) }
    {
        let done = split_at(self.alloc, &mut self.acts, step)?;
        self.steps = count_steps(&self.acts.as_slice()[..done]);
        self.done = done;
        Ok(())
    }

    // What a line did last is forgotten, and what lies ahead.
    fn forget_line(&mut self, line: u64)
        ensures { self.new ≡ past_before_line line self.old }
    {
        let done = count_before_line(self.acts(), line);
        self.acts.truncate(done);
        self.done = done;
        self.steps = count_steps(self.acts.as_slice());
        self.all_steps = self.steps;
    }

    /// The session's machine becomes as it was before the step of that number, and what came after
    /// that lies ahead. The session then has the whole budget; its breaks stay.
    ///
    /// # Errors
    ///
    /// `Memory` where the host has none for a fresh machine.
    pub fn go_back(
        &mut self,
        session: &mut Session,
        images: &mut Images,
        config: Config,
        budget: u64,
        step: u64,
    ) -> Result<(), RunError>
        ensures past { OnOk result (self.new ≡ past_until step self.old) }
        ensures machine { let s = script_state session.old images.old in
            OnOk result (script_state session.new images.new ≡ script_at_moment s config budget
            (moment_after_past s.images config (past_until step self.old))) }
        ensures errors { IfErr result IsLineError }
    {
        self.move_to(step)?;
        self.stand_there(session, images, config, budget)
    }

    /// The session's machine becomes as it was before what the line of that number did last, which is
    /// forgotten. The session then has the whole budget; its breaks stay.
    ///
    /// # Errors
    ///
    /// `Memory` where the host has none for a fresh machine.
    pub fn undo(
        &mut self,
        session: &mut Session,
        images: &mut Images,
        config: Config,
        budget: u64,
        line: u64,
    ) -> Result<(), RunError>
        ensures past { OnOk result (self.new ≡ past_before_line line self.old) }
        ensures machine { let s = script_state session.old images.old in
            OnOk result (script_state session.new images.new ≡ script_at_moment s config budget
            (moment_after_past s.images config (past_before_line line self.old))) }
        ensures errors { IfErr result IsLineError }
    {
        self.forget_line(line);
        self.stand_there(session, images, config, budget)
    }

    // The session's machine becomes as it is after all that was done.
    fn stand_there(
        &self,
        session: &mut Session,
        images: &mut Images,
        config: Config,
        budget: u64,
    ) -> Result<(), RunError>
        ensures machine { let s = script_state session.old images.old in
            OnOk result (script_state session.new images.new
            ≡ script_at_moment s config budget (moment_after_past s.images config self.now)) }
        ensures errors { IfErr result IsLineError }
    {
        let last = session.last().unwrap_or(Stop::Budget);
        session.start_anew(config, budget)?;
        acts_again(session, images, self.acts())?;
        session.set_budget(budget);
        session.set_last(last);
        Ok(())
    }
}

// Where acts are cut: behind so many, and so many steps of the next one.
#[derive(Clone, Copy)]
struct Cut {
    index: usize,
    left: u64,
}

// Where acts are cut by a moment within them, if it is.
fn cut_at(acts: &[Act], step: u64) -> Option<Cut>
    ensures within { IfSome result (λ cut. cut.index < length acts.now) }
    ensures until { acts_until step acts.now ≡ acts_cut acts.now result }
    ensures from { acts_from step acts.now ≡ acts_behind acts.now result }
{
    let mut left = step;
    for (index, act) in acts.iter().enumerate() {
        let count = act.deed.steps();
        if count > left {
            return Some(Cut { index, left });
        }
        left -= count;
    }
    None
}

// Acts are cut by a moment: steps within which it lies become two acts. Answers how many come before it.
fn split_at(alloc: Global, acts: &mut Vec<Act>, step: u64) -> Result<usize, AllocError>
    ensures items { OnOk result (acts.new.items
        ≡ acts_until step acts.old.items ++ acts_from step acts.old.items) }
    ensures count { IfOk result (λ count. count ≡ length (acts_until step acts.old.items)) }
    ensures same { OnErr result (acts.new.items ≡ acts.old.items) }
{
    let Some(cut) = cut_at(acts.as_slice(), step) else {
        return Ok(acts.len());
    };
    if cut.left == 0 {
        return Ok(cut.index);
    }
    split_within(alloc, acts, cut)?;
    Ok(cut.index + 1)
}

// The steps within which acts are cut become two acts.
fn split_within(alloc: Global, acts: &mut Vec<Act>, cut: Cut) -> Result<(), AllocError>
    requires there { cut.index < length acts.old.items }
    requires within { 0 < cut.left }
    ensures items { OnOk result (acts.new.items
        ≡ acts_cut acts.old.items (Some cut) ++ acts_behind acts.old.items (Some cut)) }
    ensures same { OnErr result (acts.new.items ≡ acts.old.items) }
{
    let items = acts.as_slice();
    let act = &items[cut.index];
    let first = act.of_count(alloc, cut.left)?;
    let rest = act.of_count(alloc, act.deed.steps().saturating_sub(cut.left))?;
    acts.insert(cut.index, first)?;
    acts[cut.index + 1] = rest;
    Ok(())
}

// How many acts come before those at the end that are all of one line.
fn count_before_line(acts: &[Act], line: u64) -> usize
    ensures most { result ≤ length acts.now }
    ensures before { acts_before_line line acts.now ≡ take result acts.now }
{
    let mut count = acts.len();
    while count > 0 && acts[count - 1].line == line {
        count -= 1;
    }
    count
}

// Whether a machine stands as it was made after some acts.
fn ends_anew(acts: &[Act]) -> bool
    ensures { result ≡ ends_anew true acts.now }
{
    match acts.last() {
        Some(act) => act.deed.is_anew(),
        None => true,
    }
}

/// How many steps some acts count.
pub(crate) fn count_steps(acts: &[Act]) -> u64
    requires { steps_of_acts acts.now < 2 ^ 64 }
    ensures { result ≡ steps_of_acts acts.now }
{
    let mut steps = 0;
    for act in acts {
        steps += act.deed.steps();
    }
    steps
}
