//! Where going back ends, and how it is looked for.

ghost use Rattle.std.specs.Prelude.{◌≡◌, ◌≤◌, ◌<◌, ◌+◌, ◌^◌, IfOk};
ghost use Rattle.gdb_machine.specs.BackEnds.{all_goals, at_next_goal, stood_end as stood_end_shown, changed_end as changed_end_shown, goal_end, is_met_before, met_first, piece_before as piece_shown, search_after, search_begin, the_begin, turn_of as turn_shown};

use crate::stops::GdbStop;
use crate::watches::{SeenByte, WatchedPlace};
use gdb_packets::Going;
use profile::Stop;
use std::alloc::{AllocError, Global};

/// How many acts of the past are looked among at first.
const FIRST_ACTS: usize = 10;

/// Where going back may end: before the step of that number, and why there.
#[derive(Clone, Copy)]
pub struct BackEnd {
    /// How many steps were counted before it.
    pub step: u64,
    /// Why the program stands there.
    pub why: GdbStop,
}

/// What going back may end at.
#[derive(Clone, Copy)]
pub enum BackGoal {
    /// A change of a watched byte.
    Byte(WatchedPlace),
    /// A break.
    Break(u32),
}

/// The acts of a past from one index up to another.
#[derive(Clone, Copy)]
pub struct ActRange {
    /// The index of the first.
    pub from: usize,
    /// The index of the one behind the last.
    pub until: usize,
}

/// How far a search is for where going back ends.
#[derive(Clone, Copy)]
pub struct BackSearch {
    /// The index of the goal that is looked for.
    pub goal: usize,
    /// How many acts of the past are left to look among for it.
    pub until: usize,
    /// The end that is met first of those of the goals before it.
    pub end: BackEnd,
}

/// What the other side is asked in the midst of, whether it is to stop.
#[derive(Clone, Copy)]
pub enum UnderWay {
    /// A run.
    Run(Going),
    /// A search for where going back ends.
    Search(BackSearch),
}

impl BackEnd {
    /// As far back as the past is known.
    pub fn begin() -> BackEnd
        ensures { result ≡ the_begin }
    {
        BackEnd {
            step: 0,
            why: GdbStop::Begin,
        }
    }

    /// The one of two that is met first on the way back; this one, where both are met at once.
    pub fn or_first(self, other: BackEnd) -> BackEnd
        ensures { result ≡ met_first self other }
    {
        if other.is_met_before(self) {
            other
        } else {
            self
        }
    }

    // Whether it is met before another on the way back.
    fn is_met_before(self, other: BackEnd) -> bool
        ensures { result ≡ is_met_before self other }
    {
        self.step > other.step
            || (self.step == other.step && turn_of(self.why) > turn_of(other.why))
    }
}

// What is met at one number of steps: first the change that the step which begins there made, then a break,
// then what was done from outside.
fn turn_of(why: GdbStop) -> u32
    ensures { result ≡ turn_shown why }
{
    match why {
        GdbStop::WatchedBack(_) => 2,
        GdbStop::Ran(_) => 1,
        _ => 0,
    }
}

// Where a watched byte has changed last: by the step that begins there, or from outside. What was there
// before a change from outside isn't looked for.
fn changed_end(step: u64, is_step: bool, place: WatchedPlace) -> BackEnd
    ensures { result ≡ changed_end_shown step is_step place }
{
    BackEnd {
        step,
        why: if is_step {
            GdbStop::WatchedBack(place)
        } else {
            GdbStop::Begin
        },
    }
}

// Where the program stood at a break last.
fn stood_end(step: u64, address: u32) -> BackEnd
    ensures { result ≡ stood_end_shown step address }
{
    BackEnd {
        step,
        why: GdbStop::Ran(Stop::Break(address)),
    }
}

impl BackGoal {
    /// Where going back ends at it: by a step before which so many were counted, or from outside.
    pub fn end(self, step: u64, is_step: bool) -> BackEnd
        ensures { result ≡ goal_end self step is_step }
    {
        match self {
            BackGoal::Byte(place) => changed_end(step, is_step, place),
            BackGoal::Break(address) => stood_end(step, address),
        }
    }
}

/// What going back may end at where these bytes are watched and these breaks are set.
pub fn all_goals(
    alloc: Global,
    seen: &[SeenByte],
    breaks: &[u32],
) -> Result<Vec<BackGoal>, AllocError>
    ensures { IfOk result (λ goals. goals.items ≡ all_goals seen.now breaks.now) }
{
    let mut goals = Vec::new(alloc);
    for byte in seen {
        goals.push(BackGoal::Byte(byte.place))?;
    }
    for address in breaks {
        goals.push(BackGoal::Break(*address))?;
    }
    Ok(goals)
}

impl BackSearch {
    /// Before the first goal, in a past of so many acts.
    pub fn begin(acts: usize) -> BackSearch
        ensures { result ≡ search_begin acts }
    {
        BackSearch {
            goal: 0,
            until: acts,
            end: BackEnd::begin(),
        }
    }

    /// After a piece that begins with an act, in a past of so many: that end was found in it, or none.
    pub fn after(self, from: usize, acts: usize, found: Option<BackEnd>) -> BackSearch
        requires { self.goal + 1 < 2 ^ 64 }
        ensures { result ≡ search_after self from acts found }
    {
        match found {
            Some(end) => self.at_next_goal(acts, self.end.or_first(end)),
            None if from == 0 => self.at_next_goal(acts, self.end),
            None => BackSearch {
                goal: self.goal,
                until: from,
                end: self.end,
            },
        }
    }

    fn at_next_goal(self, acts: usize, end: BackEnd) -> BackSearch
        requires { self.goal + 1 < 2 ^ 64 }
        ensures { result ≡ at_next_goal self acts end }
    {
        BackSearch {
            goal: self.goal + 1,
            until: acts,
            end,
        }
    }
}

/// The piece that is looked among next where so many acts are left of a past of so many: the last of
/// those that are left, ten more than were looked among already.
pub fn piece_before(until: usize, acts: usize) -> ActRange
    ensures piece { result ≡ piece_shown until acts }
    ensures from { result.from ≤ result.until }
    ensures until { result.until ≤ acts }
{
    let until = until.min(acts);
    ActRange {
        from: until
            .saturating_sub(acts - until)
            .saturating_sub(FIRST_ACTS),
        until,
    }
}
