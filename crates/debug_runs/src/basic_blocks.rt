//! Steps of a run that go through words in a row, and those of a loop over them: memory stays until the
//! last of them at least, so that no watched word changes, and where each step begins is known.

ghost use Rattle.std.specs.Prelude.{◌≡◌, ◌≤◌, ◌<◌, ◌+◌, ◌*◌, ◌-◌, ◌^◌, ℕ, Option, None, false, List, IfOk, OnOk};
ghost use Rattle.profile.specs.images.Entries.{Entry};
ghost use Rattle.debug_tables.specs.Session.{script_state};
ghost use Rattle.debug_tables.specs.counts.Counts.{steps_counted};
ghost use Rattle.debug_labels.specs.Labels.{ImageLabels};
ghost use Rattle.debug_runs.specs.BasicBlocks.{RunsOnBehind, IsAfterBlock, IsBasicBlock, block_places, stays_short};
ghost use Rattle.debug_runs.specs.TraceWriter.{is_step_shown};
ghost use Rattle.debug_tables.specs.GuestState.{state_of};

use crate::running::{RunEnd, RunGoal, count_at, end_of_unseen};
use crate::silent::take_up_to;
use debug_tables::counts::StepCounts;
use debug_tables::routines::ROUTINE_END;
use debug_tables::{Machine, Session, StepModes, WordFlow, word_flow};
use profile::WriteFault;
use profile::memory_map::ADDRESS_LIMIT;

/// How many words in a row are looked at.
const MOST_WORDS: u32 = 64;

/// Words in a row through which steps go: so many from an address on. In a loop they begin again at the
/// first, unless they go on behind the last.
#[derive(Clone, Copy)]
pub(crate) struct BasicBlock {
    start: u32,
    count: u32,
    is_loop: bool,
}

/// The block that begins where a machine stands. Memory stays at its last word too, where it is to.
fn basic_block_ahead(machine: &Machine, stays: bool) -> BasicBlock
    ensures { let s = state_of machine.now.guest in IsBasicBlock stays s.store.bytes s.cpu.pc result }
{
    let memory = machine.memory();
    let mut row = BasicBlock {
        start: machine.cpu().pc(),
        count: 0,
        is_loop: false,
    };
    while row.count < MOST_WORDS {
        let at = row.start + 4 * row.count;
        let Ok(word) = memory.load_word(at) else {
            return row;
        };
        match word_flow(at, word) {
            WordFlow::Straight => row.count += 1,
            WordFlow::Stores if stays => return row,
            WordFlow::Branches(to) if to == row.start && at + 4 < ADDRESS_LIMIT => {
                row.count += 1;
                row.is_loop = true;
                return row;
            }
            _ => {
                row.count += 1;
                return row;
            }
        }
    }
    row
}

/// Takes those of so many steps that go through basic blocks, as the machine's own run does, as long as none
/// before the last of a block can reach the goal, and counts them where steps are counted. Answers how
/// many, and why the run ends with them, if it does.
pub(crate) fn take_basic_blocks(
    session: &mut Session,
    modes: &StepModes,
    counts: &mut StepCounts,
    goal: RunGoal,
    most: u64,
) -> Result<(u64, Option<RunEnd>), WriteFault>
    requires enough { most ≤ session.old.left }
    requires unhalted { (state_of session.old.machine.guest).halt ≡ None }
    ensures { (images : List Entry) (labels : List ImageLabels) (reported : Option ℕ)
        → is_step_shown reported ≡ false → IfOk result (λ t. RunsOnBehind modes.now labels goal reported most
        (script_state session.old images) counts.old t.0 t.1 (script_state session.new images) counts.new) }
{
    let mut left = most;
    while left > 0 {
        let block = basic_block_ahead(session.machine(), !modes.watches.is_empty());
        let taken = take_basic_block(session, block, goal, left);
        if taken == 0 {
            return Ok((most - left, None));
        }
        count_basic_block(counts, block, taken)?;
        left -= taken;
        if let Some(end) = end_of_unseen(session, goal, taken) {
            return Ok((most - left, Some(end)));
        }
    }
    Ok((most - left, None))
}

// Takes those of so many steps that go through a block, if none before the last can reach the goal.
// Answers how many.
fn take_basic_block(session: &mut Session, block: BasicBlock, goal: RunGoal, most: u64) -> u64
    requires some { 0 < most }
    requires enough { most ≤ session.old.left }
    requires unhalted { (state_of session.old.machine.guest).halt ≡ None }
    requires inside { block.start + 4 * block.count ≤ 2 ^ 26 }
    ensures taken { (images : List Entry) → IsAfterBlock goal block
        (script_state session.old images) (script_state session.new images) result }
    ensures count { result ≤ most }
{
    let end = block.start + 4 * block.count;
    if block.count == 0 || !stays_short(goal, session.machine(), end) {
        return 0;
    }
    if block.is_loop {
        return take_up_to(session, end, most);
    }
    session
        .take_silent_steps(most.min(u64::from(block.count)))
        .taken
}

// Whether no step of a block before the last can reach a goal, where the block ends before an address.
fn stays_short(goal: RunGoal, machine: &Machine, end: u32) -> bool
    ensures { result ≡ stays_short goal end (state_of machine.now.guest) }
{
    match goal {
        RunGoal::Nowhere => true,
        RunGoal::Frames(count) => machine.frames() != count,
        RunGoal::Routine(count) => machine.frames() != count || end <= ROUTINE_END,
    }
}

// Counts so many steps that begin at the words of a block, the first at its first word.
fn count_basic_block(
    counts: &mut StepCounts,
    block: BasicBlock,
    taken: u64,
) -> Result<(), WriteFault>
    requires some { 0 < block.count }
    requires inside { block.start + 4 * block.count ≤ 2 ^ 26 }
    ensures { OnOk result (counts.new ≡ steps_counted (block_places block 0 taken) counts.old) }
{
    if !counts.is_on() {
        return Ok(());
    }
    let mut word = 0;
    for _step in 0..taken {
        count_at(counts, block.start + 4 * word)?;
        word += 1;
        if word == block.count {
            word = 0;
        }
    }
    Ok(())
}
