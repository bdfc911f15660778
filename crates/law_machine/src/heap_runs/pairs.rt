//! Lists of moves on two machines, in which the same heap is asked the same.

ghost use Rattle.std.specs.Prelude.{◌≡◌};
ghost use Rattle.swi_dispatch_guest.specs.Value.{IsMachine};
ghost use Rattle.law_machine.specs.heap_runs.Making.{AreMade, done_of};
ghost use Rattle.law_machine.specs.heap_runs.Moves.{written_all};
ghost use Rattle.law_machine.specs.heap_runs.Pairs.{AreAlike};
ghost use Rattle.swi_dispatch_guest.specs.GuestState.{state_of};

use crate::heap_runs::making::make_events;
use crate::heap_runs::moves::{MachineMoves, Made};
use swi_dispatch_guest::Machine;

/// Makes a list of moves on each of two machines. Where a guest's heap is the same in both, and is
/// asked the same, it answers the same and is left the same, whatever else the moves do in each, so
/// long as they leave it to itself, do not forget it and make no heap in it.
pub fn make_in_two<const MOST: usize>(
    one: &mut Machine,
    moves: &MachineMoves,
    two: &mut Machine,
    others: &MachineMoves,
) -> (Made<MOST>, Made<MOST>)
    ensures one { AreMade moves.now.images.now moves.now.start (state_of one.old.guest)
        (state_of one.new.guest)
        (written_all moves.now.list.now) MOST result.0.count result.0.end result.0.answers.items }
    ensures two { AreMade others.now.images.now others.now.start (state_of two.old.guest)
        (state_of two.new.guest)
        (written_all others.now.list.now) MOST result.1.count result.1.end result.1.answers.items }
    ensures alike { AreAlike
        (record {
          images = moves.now.images.now;
          start = moves.now.start;
          state = (state_of one.old.guest);
          moves = done_of result.0.end result.0.count (written_all moves.now.list.now);
          answers = result.0.answers.items;
        })
        (record {
          images = others.now.images.now;
          start = others.now.start;
          state = (state_of two.old.guest);
          moves = done_of result.1.end result.1.count (written_all others.now.list.now);
          answers = result.1.answers.items;
        }) }
    ensures one_sizes { one.new.sizes ≡ one.old.sizes }
    ensures two_sizes { two.new.sizes ≡ two.old.sizes }
    ensures one_known { IsMachine one.new }
    ensures two_known { IsMachine two.new }
{
    let first = make_events(one, moves);
    (first, make_events(two, others))
}
