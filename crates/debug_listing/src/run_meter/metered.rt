//! Steps that are taken so many at a time, between which the meter is told. What they come to is what
//! they come to at once.

ghost use Rattle.std.specs.Prelude.{◌≡◌, ◌↔◌, ◌+◌, List, min, true, Err, IfOk, IfErr, IsTrue, OnOk, OnErr};
ghost use Rattle.debug_tables.specs.Error.{IsLineError};
ghost use Rattle.debug_tables.specs.Fronts.{AreOldOrAnswer};
ghost use Rattle.debug_tables.specs.Script.{request_answer, takes_memory};
ghost use Rattle.debug_tables.specs.Session.{script_state};
ghost use Rattle.debug_tables.specs.State.{IsAnswered};
ghost use Rattle.debug_tables.specs.Stepping.{IsAfterRun, run_answer, script_run, step_answer};
ghost use Rattle.command_shell_lines.specs.Blocks.{block_lines, lines_after, lines_taken};
ghost use Rattle.command_shell_lines.specs.Requests.{opens_block, request_of_command};
ghost use Rattle.profile.specs.images.Entries.{Entry};

use crate::run_meter::meter::RunMeter;
use command_shell_lines::ScriptCommand;
use debug_tables::{RunError, Session, print_stepped, print_stop};
use profile::images::Images;
use profile::text_lines::Lines;
use profile::{Sink, Stop, WriteFault};

/// So many steps are taken before the meter is told.
const STEPS_SHOWN: u64 = 20_000_000;

/// Answers a request as the session does; RUN and STEP show the meter, each time that 20 million
/// steps are taken, how many they were.
///
/// # Errors
///
/// `Memory` for an image that is let in, and nothing is written then; `WriteFault`.
pub fn answer_metered<W: Sink>(
    session: &mut Session,
    images: &mut Images,
    sink: &mut W,
    command: &ScriptCommand<'_>,
    script: &mut Lines,
    meter: RunMeter,
) -> Result<(), RunError>
    ensures reported { OnOk result (IsAnswered (W.contents sink.old) (W.contents sink.new)
        (script_state session.new images.new)
        (request_answer (script_state session.old images.old) script.old.number
        (request_of_command command.now) (block_lines script.old.left))) }
    ensures left { OnOk result (script.new.left
        ≡ lines_after (opens_block (request_of_command command.now)) script.old.left) }
    ensures number { OnOk result (script.new.number ≡ script.old.number
        + lines_taken (opens_block (request_of_command command.now)) script.old.left) }
    ensures memory { result ≡ Err RunError.Memory → sink.new ≡ sink.old }
    ensures taking { result ≡ Err RunError.Memory
        → takes_memory images.old (request_of_command command.now) ≡ true }
    ensures write_fault { result ≡ Err RunError.WriteFault → W.has_failed sink.new ≡ true }
    ensures images { OnErr result (AreOldOrAnswer images.old images.new
        (request_answer (script_state session.old images.old) script.old.number
        (request_of_command command.now) (block_lines script.old.left))) }
    ensures errors { IfErr result IsLineError }
    ensures same_flag { OnOk result (W.has_failed sink.new ≡ W.has_failed sink.old) }
{
    match command {
        ScriptCommand::Run => Ok(run(session, images, sink, meter)?),
        ScriptCommand::Step(count) => Ok(step(session, images, sink, *count, meter)?),
        _ => session.answer(images, sink, same_command(command), script),
    }
}

// Takes all the steps that are left, and shows the stop.
fn run<W: Sink>(
    session: &mut Session,
    images: &Images,
    sink: &mut W,
    meter: RunMeter,
) -> Result<(), WriteFault>
    ensures reported { OnOk result (IsAnswered (W.contents sink.old) (W.contents sink.new)
        (script_state session.new images.now) (run_answer (script_state session.old images.now))) }
    ensures flag { OnErr result (W.has_failed sink.new ≡ true) }
    ensures same_flag { OnOk result (W.has_failed sink.new ≡ W.has_failed sink.old) }
{
    let left = session.left();
    let stop = take_steps(session, images, sink, left, meter)?;
    print_stop(sink, stop, place_of(session))
}

// Takes so many steps, or as many as are left, and says where the machine stands.
fn step<W: Sink>(
    session: &mut Session,
    images: &Images,
    sink: &mut W,
    count: u32,
    meter: RunMeter,
) -> Result<(), WriteFault>
    ensures reported { OnOk result (IsAnswered (W.contents sink.old) (W.contents sink.new)
        (script_state session.new images.now)
        (step_answer (script_state session.old images.now) count)) }
    ensures flag { OnErr result (W.has_failed sink.new ≡ true) }
    ensures same_flag { OnOk result (W.has_failed sink.new ≡ W.has_failed sink.old) }
{
    let count = u64::from(count);
    let could_all = count <= session.left();
    let stop = take_steps(session, images, sink, count, meter)?;
    print_stepped(sink, could_all, stop, place_of(session))
}

// Takes so many steps, or as many as are left, and answers why they ended.
fn take_steps<W: Sink>(
    session: &mut Session,
    images: &Images,
    sink: &mut W,
    count: u64,
    meter: RunMeter,
) -> Result<Stop, WriteFault>
    ensures ran { let s = script_state session.old images.now in
        IfOk result (λ stop. IsAfterRun s (min count s.left) (script_state session.new images.now)
        (W.contents sink.old) (W.contents sink.new) (script_run s (min count s.left)).taken stop) }
    ensures flag { OnErr result (W.has_failed sink.new ≡ true) }
    ensures same_flag { OnOk result (W.has_failed sink.new ≡ W.has_failed sink.old) }
{
    let most = count.min(session.left());
    let mut left = most;
    while left > STEPS_SHOWN {
        let ran = session.take_steps(images, sink, STEPS_SHOWN)?;
        if !is_used_up(ran.stop) {
            meter.clear();
            return Ok(ran.stop);
        }
        left -= STEPS_SHOWN;
        meter.print(most - left);
    }
    let ran = session.take_steps(images, sink, left)?;
    if left < most {
        meter.clear();
    }
    Ok(ran.stop)
}

// Whether nothing but the budget ended steps.
fn is_used_up(stop: Stop) -> bool
    ensures { IsTrue result ↔ (stop ≡ Stop.Budget) }
{
    stop == Stop::Budget
}

// The address at which the next step begins.
fn place_of(session: &Session) -> u32
    ensures { (images : List Entry) → result ≡ (script_state session.now images).machine.cpu.pc }
{
    session.machine().cpu().pc()
}

// The same command: the borrow checker reads no copy of a value that borrows out of a reference.
fn same_command<'a>(command: &ScriptCommand<'a>) -> ScriptCommand<'a>
    ensures { request_of_command result ≡ request_of_command command.now }
{
    match *command {
        ScriptCommand::Nothing => ScriptCommand::Nothing,
        ScriptCommand::Hex(name) => ScriptCommand::Hex(name),
        ScriptCommand::Asm(name, origin) => ScriptCommand::Asm(name, origin),
        ScriptCommand::Boot(name) => ScriptCommand::Boot(name),
        ScriptCommand::Run => ScriptCommand::Run,
        ScriptCommand::Regs => ScriptCommand::Regs,
        ScriptCommand::Set(register, value) => ScriptCommand::Set(register, value),
        ScriptCommand::Poke(address, value) => ScriptCommand::Poke(address, value),
        ScriptCommand::Call(number) => ScriptCommand::Call(number),
        ScriptCommand::Load(text) => ScriptCommand::Load(text),
        ScriptCommand::Step(count) => ScriptCommand::Step(count),
        ScriptCommand::Break(address) => ScriptCommand::Break(address),
        ScriptCommand::Unbreak(address) => ScriptCommand::Unbreak(address),
        ScriptCommand::Mem(address, count) => ScriptCommand::Mem(address, count),
        ScriptCommand::Code(address, count) => ScriptCommand::Code(address, count),
        ScriptCommand::Heap(address) => ScriptCommand::Heap(address),
        ScriptCommand::Areas => ScriptCommand::Areas,
        ScriptCommand::Modules => ScriptCommand::Modules,
        ScriptCommand::Flex => ScriptCommand::Flex,
        ScriptCommand::Unknown => ScriptCommand::Unknown,
    }
}
