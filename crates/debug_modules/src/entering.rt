//! The code of a module is entered from outside, as a routine.

ghost use Rattle.std.specs.Prelude.{◌≡◌, ◌≤◌, List, IfOk, OnOk};
ghost use Rattle.profile.specs.images.Entries.{Entry};
ghost use Rattle.debug_modes.specs.Memory.{script_with_register, script_with_status};
ghost use Rattle.debug_modes.specs.Session.{script_state};
ghost use Rattle.debug_history.specs.Noted.{past_with_deed};
ghost use Rattle.debug_history.specs.declared.act.PastDeed.TheVariants.{Register, Status};
ghost use Rattle.debug_modules.specs.Entering.{at_entry, module_code_entered, past_at_entry, status_gone_back, supervisor};
ghost use Rattle.debug_modules.specs.Taking.{HasLineSteps};

use crate::context::LineContext;
use crate::taking::take_steps;
use arm_core::{Mode, Psr};
use debug_history::{Past, PastDeed, has_returned};
use debug_listing::Origin;
use debug_modes::{DebugModes, RegisterNumber};
use debug_runs::{LineAnswer, Session, SteppingCommand};
use std::alloc::AllocError;

/// Code that is to be entered, and what R0, R1 and R12 are there.
#[derive(Clone, Copy)]
pub struct ModuleEntry {
    pub code: Origin,
    pub r0: u32,
    pub r1: u32,
    pub r12: u32,
}

/// Enters code in SVC mode, as GOSUB does. Once it has gone back, the mode and the bits I and F are as before.
///
/// # Errors
///
/// Where memory ran out; steps may have been taken then.
pub(crate) fn enter_code(
    context: &LineContext<'_>,
    session: &mut Session,
    modes: &mut DebugModes,
    past: &mut Past,
    entry: &ModuleEntry,
) -> Result<LineAnswer, AllocError>
    ensures { let images = context.now.images.now in let s = script_state session.old images in
        IfOk result (λ answer. HasLineSteps
        (module_code_entered modes.old context.now.labels.now s past.old context.now.number entry.now)
        (script_state session.new images) modes.new past.new
        answer.text.items answer.printed.items answer.ending.items) }
{
    let number = context.number;
    let command = SteppingCommand::Gosub(entry.code);
    let before = status_of(session);
    stand_at(session, past, number, entry)?;
    let answer = take_steps(
        context.alloc,
        session,
        modes,
        past,
        context.images,
        context.labels,
        number,
        false,
        &command,
    )?;
    if !has_returned(answer.ending.as_slice()) {
        return Ok(answer);
    }
    let status = status_gone_back(before, status_of(session));
    put_status(session, past, number, status)?;
    Ok(answer)
}

fn status_of(session: &Session) -> Psr
    ensures { (images : List Entry) → result ≡ (script_state session.now images).machine.cpu.psr }
{
    session.machine().cpu().psr()
}

// SVC mode, and the registers of the entry.
fn stand_at(
    session: &mut Session,
    past: &mut Past,
    number: u64,
    entry: &ModuleEntry,
) -> Result<(), AllocError>
    ensures script { (images : List Entry) → OnOk result
        (script_state session.new images ≡ at_entry (script_state session.old images) entry.now) }
    ensures past { (images : List Entry) → OnOk result (past.new ≡ past_at_entry past.old number
        (script_state session.old images).machine.cpu.psr entry.now) }
{
    let status = supervisor(status_of(session));
    put_status(session, past, number, status)?;
    put_register(session, past, number, 0, entry.r0)?;
    put_register(session, past, number, 1, entry.r1)?;
    put_register(session, past, number, 12, entry.r12)
}

fn supervisor(status: Psr) -> Psr
    ensures { result ≡ supervisor status }
{
    Psr {
        negative: status.negative,
        zero: status.zero,
        carry: status.carry,
        overflow: status.overflow,
        interrupts_off: status.interrupts_off,
        fast_interrupts_off: status.fast_interrupts_off,
        mode: Mode::Supervisor,
    }
}

// The flags of a status, with the mode and the bits I and F of the one before.
fn status_gone_back(before: Psr, now: Psr) -> Psr
    ensures { result ≡ status_gone_back before now }
{
    Psr {
        negative: now.negative,
        zero: now.zero,
        carry: now.carry,
        overflow: now.overflow,
        interrupts_off: before.interrupts_off,
        fast_interrupts_off: before.fast_interrupts_off,
        mode: before.mode,
    }
}

// Sets the status, and keeps that.
fn put_status(
    session: &mut Session,
    past: &mut Past,
    number: u64,
    status: Psr,
) -> Result<(), AllocError>
    ensures script { (images : List Entry) → script_state session.new images
        ≡ script_with_status (script_state session.old images) status }
    ensures past { OnOk result (past.new ≡ past_with_deed past.old number (Status status)) }
{
    session.set_psr(status);
    past.put(number, PastDeed::Status(status))
}

// Sets a register of the present mode, and keeps that.
fn put_register(
    session: &mut Session,
    past: &mut Past,
    number: u64,
    register: u32,
    value: u32,
) -> Result<(), AllocError>
    requires { register ≤ 14 }
    ensures script { (images : List Entry) → script_state session.new images
        ≡ script_with_register (script_state session.old images) register value }
    ensures past { OnOk result (past.new ≡ past_with_deed past.old number (Register register value)) }
{
    session.set_register(register, value);
    past.put(
        number,
        PastDeed::Register(RegisterNumber::new(register), value),
    )
}
