//! What was done to a machine is done to it again.

ghost use Rattle.std.specs.Prelude.{◌≡◌, [], OnOk, IfErr};
ghost use Rattle.debug_tables.specs.Calls.{outside_called};
ghost use Rattle.debug_tables.specs.Error.{IsLineError};
ghost use Rattle.debug_tables.specs.Session.{script_state};
ghost use Rattle.debug_history.specs.Acts.{changed_moment, moment_after_acts, moment_after_deed, moment_after_steps, moment_of_script};
ghost use Rattle.debug_history.specs.Again.{IsAtMoment};
ghost use Rattle.debug_history.specs.declared.act.PastDeed.TheVariants.{FaultingStep};

use crate::act::{Act, PastDeed};
use crate::kept_stubs::KeptStubs;
use command_shell_lines::ScriptCommand;
use debug_tables::byte_writes::put_bytes;
use debug_tables::{Nowhere, OutsideCall, RunError, Session};
use profile::WriteFault;
use profile::images::Images;
use profile::text_lines::Lines;

// Takes so many steps again, past all breaks: with stubs one by one.
fn steps_again(
    session: &mut Session,
    images: &Images,
    stubs: &KeptStubs,
    count: u64,
) -> Result<(), WriteFault>
    ensures { let s = script_state session.old images.now in
        OnOk result (IsAtMoment s (script_state session.new images.now)
        (moment_after_steps stubs.now s.images count (moment_of_script s))) }
{
    let Some(table) = stubs.table() else {
        return take_again(session, images, count);
    };
    let mut left = count;
    while left > 0 {
        session.set_budget(1);
        table.take_step(session, images, &mut Nowhere)?;
        left -= 1;
    }
    Ok(())
}

// With no stubs, in runs.
fn take_again(session: &mut Session, images: &Images, count: u64) -> Result<(), WriteFault>
    ensures { let s = script_state session.old images.now in
        OnOk result (IsAtMoment s (script_state session.new images.now)
        (moment_after_steps [] s.images count (moment_of_script s))) }
{
    let mut left = count;
    while left > 0 {
        match session.machine().stop() {
            Some(_) => return Ok(()),
            None => {
                session.set_budget(left);
                let ran = session.take_steps(images, &mut Nowhere, left)?;
                left -= ran.taken;
            }
        }
    }
    Ok(())
}

// Takes a step again that ends in a fault.
fn fault_again(session: &mut Session, images: &Images) -> Result<(), WriteFault>
    ensures { let s = script_state session.old images.now in
        OnOk result (IsAtMoment s (script_state session.new images.now)
        (moment_after_deed s.images s.sizes FaultingStep (moment_of_script s))) }
{
    session.set_budget(1);
    session.take_step(images, &mut Nowhere)?;
    Ok(())
}

// Takes the first step of a call from outside again.
fn call_again(session: &mut Session, images: &Images, call: OutsideCall) -> Result<(), WriteFault>
    ensures { let s = script_state session.old images.now in
        OnOk result (IsAtMoment s (script_state session.new images.now)
        (changed_moment (outside_called s.images s.machine call.entry).now)) }
{
    session.set_budget(1);
    session.begin_call(images, &mut Nowhere, call)?;
    Ok(())
}

/// Does one thing again.
///
/// # Errors
///
/// `Memory` where a program can't be booted for lack of it, or no machine made.
pub fn deed_again(
    session: &mut Session,
    images: &mut Images,
    deed: &PastDeed,
) -> Result<(), RunError>
    ensures moment { let s = script_state session.old images.old in
        OnOk result (IsAtMoment s (script_state session.new images.new)
        (moment_after_deed s.images s.sizes deed.now (moment_of_script s))) }
    ensures errors { IfErr result IsLineError }
{
    match deed {
        PastDeed::Steps(stubs, count) => steps_again(session, images, stubs, *count)?,
        PastDeed::FaultingStep => fault_again(session, images)?,
        PastDeed::Boot(name) => {
            let name = name.bytes();
            let mut none = Lines::new(b"");
            session.answer(images, &mut Nowhere, ScriptCommand::Boot(name), &mut none)?;
        }
        PastDeed::Call(number, _) => call_again(session, images, OutsideCall::Swi(*number))?,
        PastDeed::Load(text, _) => call_again(session, images, OutsideCall::Load(text.bytes()))?,
        PastDeed::Register(register, value) => {
            let number = register.number();
            session.set_register(number, *value);
        }
        PastDeed::Word(address, value) => {
            let at = address.address();
            let _ = session.store_word(at, *value);
        }
        PastDeed::Banked(mode, register, value) => {
            let number = register.number();
            session.set_register_in(*mode, number, *value);
        }
        PastDeed::Place(address) => session.set_pc(address.address()),
        PastDeed::Routine(address, link) => {
            session.set_register(14, *link);
            session.set_pc(address.address());
        }
        PastDeed::Status(status) => session.set_psr(*status),
        PastDeed::Woken => session.wake(),
        PastDeed::Bytes(address, bytes) => {
            let _ = put_bytes(session, *address, bytes.bytes());
        }
        PastDeed::Anew => {
            let config = session.machine().config();
            let budget = session.left();
            session.start_anew(config, budget)?;
        }
    }
    Ok(())
}

/// Does all these again, one after another.
pub(crate) fn acts_again(
    session: &mut Session,
    images: &mut Images,
    acts: &[Act],
) -> Result<(), RunError>
    ensures moment { let s = script_state session.old images.old in
        OnOk result (IsAtMoment s (script_state session.new images.new)
        (moment_after_acts s.images s.sizes acts.now (moment_of_script s))) }
    ensures errors { IfErr result IsLineError }
{
    for act in acts {
        deed_again(session, images, &act.deed)?;
    }
    Ok(())
}
