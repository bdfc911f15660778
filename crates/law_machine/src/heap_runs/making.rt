//! A list of moves on one machine.

ghost use Rattle.swi_dispatch_guest.specs.Moves.{machine_with_words, machine_after_event};
ghost use Rattle.std.specs.Prelude.{◌≡◌, ◌==◌, ◌≤◌, ◌&&◌, ◌++◌, true, false, length};
ghost use Rattle.swi_dispatch_guest.specs.Value.{IsMachine};
ghost use Rattle.law_machine.specs.heap_alone.Moves.{is_own};
ghost use Rattle.law_machine.specs.heap_runs.Making.{AreMade};
ghost use Rattle.law_machine.specs.heap_runs.Moves.{reply_if, written_event_of, written_all};
ghost use Rattle.swi_dispatch_guest.specs.GuestState.{state_of};

use crate::heap_runs::moves::{End, MachineEvent, MachineMoves, Made, Reply};
use crate::heap_runs::own_calls::{is_own_call, reply_of};
use arrayvec::ArrayVec;
use profile::images::Images;
use swi_dispatch_guest::Machine;

/// Makes the moves in turn, until the machine is halted or there is no room for an answer. If a
/// guest's heap with no anchor and no heap in it stands at `start`, and the moves leave it to
/// itself, neither forget it nor make a heap in it, then what it answers is what it answers alone.
pub fn make_events<const MOST: usize>(machine: &mut Machine, moves: &MachineMoves) -> Made<MOST>
    ensures made { AreMade moves.now.images.now moves.now.start (state_of machine.old.guest)
        (state_of machine.new.guest)
        (written_all moves.now.list.now) MOST result.count result.end result.answers.items }
    ensures fresh { machine.new.is_fresh ≡ (machine.old.is_fresh && (result.count == 0)) }
    ensures sizes { machine.new.sizes ≡ machine.old.sizes }
    ensures known { IsMachine machine.new }
{
    let mut answers = ArrayVec::new();
    machine.known();
    if let Some(stop) = machine.stop() {
        return Made {
            count: 0,
            end: End::Halted(stop),
            answers,
        };
    }
    for (count, next) in moves.list.iter().enumerate() {
        let is_own = make_event(machine, moves.images, moves.start, next);
        if let Some(stop) = machine.stop() {
            return Made {
                count: count + 1,
                end: End::Halted(stop),
                answers,
            };
        }
        if !note(&mut answers, machine, is_own) {
            return Made {
                count: count + 1,
                end: End::Full,
                answers,
            };
        }
    }
    Made {
        count: moves.list.len(),
        end: End::All,
        answers,
    }
}

/// Makes one move, and answers whether it is a call on the heap at `start`.
fn make_event(machine: &mut Machine, images: &Images, start: u32, next: &MachineEvent) -> bool
    ensures state { state_of machine.new.guest ≡ machine_after_event images.now (state_of machine.old.guest)
        (written_event_of next.now) }
    ensures own { result ≡ is_own start (state_of machine.old.guest) (written_event_of next.now) }
    ensures fresh { machine.new.is_fresh ≡ false }
    ensures sizes { machine.new.sizes ≡ machine.old.sizes }
    ensures known { IsMachine machine.new }
{
    let is_own = match next {
        MachineEvent::Call(number, words) => {
            set_registers(machine, words);
            let is_own = is_own_call(machine.cpu(), *number, start);
            machine.store_call(images, *number);
            is_own
        }
        MachineEvent::Step => {
            machine.step(images);
            false
        }
    };
    machine.known();
    is_own
}

/// Notes what the machine answered, if that was to a call on the heap. Answers whether there was
/// room for it.
fn note<const MOST: usize>(
    answers: &mut ArrayVec<Reply, MOST>,
    machine: &Machine,
    is_own: bool,
) -> bool
    ensures noted { result ≡ true → answers.new.items ≡ answers.old.items
        ++ reply_if is_own (state_of machine.now.guest) }
    ensures own { result ≡ false → is_own ≡ true }
    ensures full { result ≡ false → length answers.old.items ≡ MOST }
    ensures same { result ≡ false → answers.new.items ≡ answers.old.items }
{
    if !is_own {
        return true;
    }
    if answers.is_full() {
        return false;
    }
    answers.push(reply_of(machine));
    true
}

/// Sets R0 and the registers after it.
fn set_registers(machine: &mut Machine, words: &[u32])
    requires { length words.now ≤ 15 }
    ensures state { state_of machine.new.guest ≡ machine_with_words (state_of machine.old.guest) words.now }
    ensures sizes { machine.new.sizes ≡ machine.old.sizes }
{
    for (number, word) in words.iter().enumerate() {
        machine.set_register(number as u32, *word);
    }
}
