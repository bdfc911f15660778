//! The search: what was done is done again, and after each step it is seen whether that was what is sought.

ghost use Rattle.std.specs.Prelude.{◌≡◌, ◌≤◌, ◌+◌, ◌<◌, ◌^◌, length, OnOk, IfOk, IfErr};
ghost use Rattle.std.specs.Option.{option_or};
ghost use Rattle.debug_tables.specs.Error.{IsLineError};
ghost use Rattle.debug_tables.specs.Session.{script_state};
ghost use Rattle.debug_history.specs.Acts.{fresh_moment, moment_after_acts, moment_of_script, steps_of_acts, steps_of_deed};
ghost use Rattle.debug_history.specs.Again.{IsAtMoment};
ghost use Rattle.debug_history.specs.Scan.{scan_past};
ghost use Rattle.debug_history.specs.Search.{found_between, last_among, last_found, value_in, single_steps, units, units_of_act};
ghost use Rattle.debug_tables.specs.GuestState.{state_of};

use crate::act::{Act, PastDeed};
use crate::again::{acts_again, deed_again};
use crate::past::{Past, count_steps};
use crate::search::{PastFound, Sought};
use debug_tables::{Machine, Nowhere, RunError, Session, Stubs};
use profile::images::Images;
use profile::{Config, WriteFault};
use std::alloc::Global;

// How far a search is: how many steps were counted, what is seen now, and what was found so far.
#[derive(Clone, Copy)]
struct Scan {
    step: u64,
    seen: Option<u32>,
    found: Option<PastFound>,
}

impl Past {
    /// The last time before now that something was so, if ever since the machine was made. The search
    /// takes all steps again, on a machine of its own.
    ///
    /// # Errors
    ///
    /// `Memory` where the host has none for a fresh machine.
    pub fn last(
        &self,
        alloc: Global,
        images: &mut Images,
        config: Config,
        sought: Sought,
    ) -> Result<Option<PastFound>, RunError>
        ensures found { IfOk result (λ found. found
            ≡ last_found images.old config sought (fresh_moment config) 0 (units self.now.acts)) }
        ensures images { OnOk result (images.new ≡ images.old) }
        ensures errors { IfErr result IsLineError }
    {
        self.last_among(alloc, images, config, sought, 0, self.acts().len())
    }

    /// The last time that something was so while the acts were done from one index up to another. Those
    /// before them are done again first, on a machine of its own.
    ///
    /// # Errors
    ///
    /// `Memory` where the host has none for a fresh machine.
    pub fn last_among(
        &self,
        alloc: Global,
        images: &mut Images,
        config: Config,
        sought: Sought,
        from: usize,
        until: usize,
    ) -> Result<Option<PastFound>, RunError>
        requires from { from ≤ until }
        requires until { until ≤ length self.now.acts }
        ensures found { IfOk result (λ found. found
            ≡ last_among images.old config self.now.acts sought from until) }
        ensures images { OnOk result (images.new ≡ images.old) }
        ensures errors { IfErr result IsLineError }
    {
        // The steps in all are counted below 2^64: the sum is looked at for the proof alone.
        let _steps = self.steps();
        let halves = self.acts().split_at(until);
        let parts = halves.0.split_at(from);
        let mut session = Session::on_fresh_machine(alloc, config, 0)?;
        acts_again(&mut session, images, parts.0)?;
        let mut scan = Scan {
            step: count_steps(parts.0),
            seen: sought.seen(session.machine()),
            found: None,
        };
        scan_acts(&mut session, images, &sought, parts.1, &mut scan)?;
        Ok(scan.found)
    }
}

fn scan_acts(
    session: &mut Session,
    images: &mut Images,
    sought: &Sought,
    acts: &[Act],
    scan: &mut Scan,
) -> Result<(), RunError>
    requires seen { scan.old.seen ≡ value_in sought.now (state_of session.old.machine.guest) }
    requires fits { scan.old.step + steps_of_acts acts.now < 2 ^ 64 }
    ensures moment { let s = script_state session.old images.old in
        OnOk result (IsAtMoment s (script_state session.new images.new)
        (moment_after_acts s.images s.sizes (units acts.now) (moment_of_script s))) }
    ensures scan { let s = script_state session.old images.old in OnOk result (scan.new
        ≡ scan_past s.images s.sizes sought.now (units acts.now) (moment_of_script s) scan.old) }
    ensures errors { IfErr result IsLineError }
{
    for act in acts {
        scan_act(session, images, sought, act, scan)?;
    }
    Ok(())
}

fn scan_act(
    session: &mut Session,
    images: &mut Images,
    sought: &Sought,
    act: &Act,
    scan: &mut Scan,
) -> Result<(), RunError>
    requires seen { scan.old.seen ≡ value_in sought.now (state_of session.old.machine.guest) }
    requires fits { scan.old.step + steps_of_deed act.now.deed < 2 ^ 64 }
    ensures moment { let s = script_state session.old images.old in
        OnOk result (IsAtMoment s (script_state session.new images.new)
        (moment_after_acts s.images s.sizes (units_of_act act.now) (moment_of_script s))) }
    ensures scan { let s = script_state session.old images.old in OnOk result (scan.new
        ≡ scan_past s.images s.sizes sought.now (units_of_act act.now) (moment_of_script s) scan.old) }
    ensures errors { IfErr result IsLineError }
{
    match &act.deed {
        PastDeed::Steps(_, count) => {
            let stubs = act.deed.stubs();
            scan_steps(session, images, sought, act.line, &stubs, *count, scan)?
        }
        _ => {
            deed_again(session, images, &act.deed)?;
            scan.pass(session.machine(), sought, act.line, act.deed.steps());
        }
    }
    Ok(())
}

// So many steps, one by one.
fn scan_steps(
    session: &mut Session,
    images: &Images,
    sought: &Sought,
    line: u64,
    stubs: &Stubs,
    count: u64,
    scan: &mut Scan,
) -> Result<(), WriteFault>
    requires seen { scan.old.seen ≡ value_in sought.now (state_of session.old.machine.guest) }
    requires fits { scan.old.step + count < 2 ^ 64 }
    ensures moment { let s = script_state session.old images.now in
        OnOk result (IsAtMoment s (script_state session.new images.now)
        (moment_after_acts s.images s.sizes (single_steps line stubs.now count) (moment_of_script s))) }
    ensures scan { let s = script_state session.old images.now in OnOk result (scan.new
        ≡ scan_past s.images s.sizes sought.now (single_steps line stubs.now count)
        (moment_of_script s) scan.old) }
{
    let mut left = count;
    while left > 0 {
        session.set_budget(1);
        stubs.take_step(session, images, &mut Nowhere)?;
        scan.pass(session.machine(), sought, line, 1);
        left -= 1;
    }
    Ok(())
}

impl Scan {
    // Passes something that counts so many steps, after which the machine stands so.
    fn pass(&mut self, machine: &Machine, sought: &Sought, line: u64, steps: u64)
        requires { self.old.step + steps < 2 ^ 64 }
        ensures step { self.new.step ≡ self.old.step + steps }
        ensures seen { self.new.seen ≡ value_in sought.now (state_of machine.now.guest) }
        ensures found { self.new.found ≡ option_or (found_between sought.now line self.old.step steps
            self.old.seen (value_in sought.now (state_of machine.now.guest))) self.old.found }
    {
        let before = self.seen;
        let after = sought.seen(machine);
        if sought.passes(steps, before, after) {
            self.found = Some(PastFound {
                step: self.step,
                line,
                is_step: steps > 0,
                before,
                after,
            });
        }
        self.seen = after;
        self.step += steps;
    }
}
