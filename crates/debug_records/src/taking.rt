//! Steps of the twin, and what is set in it before and behind them.

ghost use Rattle.std.specs.Prelude.{◌≡◌, ◌<◌, ◌==◌, false, List, OnOk};
ghost use Rattle.debug_session.specs.Calls.{outside_called};
ghost use Rattle.trace_json.specs.GuestState.{state_of};
ghost use Rattle.debug_records.specs.Moments.{IsSet};
ghost use Rattle.command_shell_lines.specs.declared.debug_words.stubs.Stub.{Stub};
ghost use Rattle.debug_session.specs.Stubs.{deed_ahead, stubbed_step};

use crate::answers::AnsweredLine;
use debug_lines::SteppingCommand;
use debug_session::{DebugSession, OutsideCall, Session, StubDeed, enter};
use profile::WriteFault;
use profile::images::Images;
use profile::text_sink::TextSink;
use std::alloc::AllocError;
use trace_effects::changes::{REGISTERS, home_of};
use trace_effects::shown_registers::WrittenRegisters;

/// Takes the steps of a line past its limit.
pub(crate) fn take_rest(
    twin: &mut DebugSession,
    images: &Images,
    printed: &mut TextSink,
    line: &AnsweredLine<'_>,
) -> Result<(), AllocError>
    requires { line.now.limit < line.now.taken }
{
    let mut left = line.taken - line.limit;
    enter_first(&mut twin.session, &line.command, line.limit);
    if let Some(call) = outside_call(&line.command, line.limit) {
        make_call(&mut twin.session, images, printed, call)?;
        left = left.saturating_sub(1);
    }
    take_steps(twin, images, printed, left)
}

/// Stands at the routine that a line calls, before the first of its steps.
pub(crate) fn enter_first(twin: &mut Session, command: &Option<SteppingCommand<'_>>, index: u64)
    ensures set { IsSet (state_of twin.old.machine.guest) (state_of twin.new.machine.guest) }
    ensures later { (index == 0) ≡ false → state_of twin.new.machine.guest ≡ state_of twin.old.machine.guest }
{
    if index > 0 {
        return;
    }
    if let Some(SteppingCommand::Gosub(address)) = command {
        enter(twin, address.address());
    }
}

/// The call from outside that the step of a number in a line is, if it is one.
pub(crate) fn outside_call<'a>(
    command: &Option<SteppingCommand<'a>>,
    index: u64,
) -> Option<OutsideCall<'a>> {
    match command {
        _ if index > 0 => None,
        Some(SteppingCommand::Call(number)) => Some(OutsideCall::Swi(*number)),
        Some(SteppingCommand::Load(words)) => Some(OutsideCall::Load(*words)),
        _ => None,
    }
}

/// The registers that a stub sets, if one does something.
pub(crate) fn written_by_stub(deed: &Option<StubDeed>) -> WrittenRegisters {
    let mut written = WrittenRegisters::new();
    if let Some(deed) = deed {
        for setting in deed.settings() {
            written.add(setting.mode, setting.register.number());
        }
    }
    written
}

/// Takes a step, or lets a stub do in its place what one does then.
pub(crate) fn take_or_let(
    twin: &mut Session,
    images: &Images,
    printed: &mut TextSink,
    deed: &Option<StubDeed>,
) -> Result<(), AllocError>
    ensures { (stubs : List Stub) → let before = state_of twin.old.machine.guest in
        deed.now ≡ deed_ahead stubs before → OnOk result
        (state_of twin.new.machine.guest ≡ (stubbed_step stubs images.now before).now) }
{
    twin.set_budget(1);
    match deed {
        Some(deed) => {
            deed.act(twin);
            Ok(())
        }
        None => match twin.take_step(images, printed) {
            Ok(_stop) => Ok(()),
            Err(_) => Err(AllocError),
        },
    }
}

/// Makes a call from outside, which is its first step.
pub(crate) fn make_call(
    twin: &mut Session,
    images: &Images,
    printed: &mut TextSink,
    call: OutsideCall<'_>,
) -> Result<(), AllocError>
    ensures { let before = state_of twin.old.machine.guest in OnOk result
        (state_of twin.new.machine.guest ≡ (outside_called images.now before call.entry).now) }
{
    twin.set_budget(1);
    match twin.begin_call(images, printed, call) {
        Ok(_stop) => Ok(()),
        Err(_) => Err(AllocError),
    }
}

// Takes so many steps, at once where nothing looks at them.
fn take_steps(
    twin: &mut DebugSession,
    images: &Images,
    printed: &mut TextSink,
    count: u64,
) -> Result<(), AllocError> {
    let mut left = count;
    while left > 0 {
        let taken = if twin.stubs().is_empty() {
            twin.session.set_budget(left);
            match twin.session.take_steps(images, printed, left) {
                Ok(ran) => ran.taken,
                Err(_) => return Err(AllocError),
            }
        } else {
            0
        };
        if taken > 0 {
            left = left.saturating_sub(taken);
        } else {
            let deed = twin.stubs().ahead(twin.machine());
            take_or_let(&mut twin.session, images, printed, &deed)?;
            left -= 1;
        }
    }
    Ok(())
}

/// Behind the last step of a line the core of the twin becomes that of the session: a routine that has come
/// back leaves R14 and the program counter as they were before it.
pub(crate) fn settle_last(twin: &mut Session, session: &DebugSession, is_last: bool)
    ensures set { IsSet (state_of twin.old.machine.guest) (state_of twin.new.machine.guest) }
    ensures earlier { is_last ≡ false → state_of twin.new.machine.guest ≡ state_of twin.old.machine.guest }
{
    if !is_last {
        return;
    }
    let cpu = session.machine().cpu();
    cpu.known();
    for place in 0..REGISTERS as u32 {
        let (mode, number) = home_of(place);
        let value = cpu.register_in(mode, number);
        twin.set_register_in(mode, number, value);
    }
    twin.set_psr(cpu.psr());
    twin.set_pc(cpu.pc());
}
