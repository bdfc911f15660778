//! Service calls: the code for them of each instance of each module, in turn.

ghost use Rattle.std.specs.Prelude.{◌≡◌, ◌≤◌, List, IfOk, OnOk};
ghost use Rattle.arm_core.specs.State.{register_of};
ghost use Rattle.debug_modes.specs.GuestState.{state_of};
ghost use Rattle.debug_modes.specs.Session.{script_state};
ghost use Rattle.debug_modes.specs.State.{ScriptState};
ghost use Rattle.debug_history.specs.Past.{PastState};
ghost use Rattle.debug_modes.specs.declared.modes.DebugModes.{DebugModes};
ghost use Rattle.profile.specs.images.Entries.{Entry};
ghost use Rattle.debug_modules.specs.Services.{claimed_text, is_service_meant, is_served, served_at, served_by, service_called, service_code, service_ended, service_state};
ghost use Rattle.debug_modules.specs.Taking.{HasLineSteps};

use crate::context::LineContext;
use crate::entering::{ModuleEntry, enter_code};
use debug_history::{Machine, Past, has_returned};
use debug_listing::{Origin, code_place, loaded_word};
use debug_modes::{DebugModes, Instances};
use debug_runs::{LineAnswer, Session};
use instances_table::{ModuleInfo, Name};
use profile::memory_map::PRIVATE_WORDS;
use std::alloc::{AllocError, Global};

// Where the header has the offset of the code, and how long an image is that has it.
const SERVICE_WORD: u32 = 0x0C;

const LEAST_BYTES: u32 = 0x10;

// So many modules there are at most, and so many instances of each.
const MOST: u32 = 64;

/// The code for service calls of an instance: its module's title, where the code is, and its private word.
#[derive(Drop)]
pub struct ServiceCode {
    pub title: Name,
    pub code: Origin,
    pub word: u32,
}

/// How far a service call is: R1, whether it is over, and what its steps left.
#[derive(Drop)]
pub(crate) struct Serving {
    pub r1: u32,
    pub is_over: bool,
    pub answer: LineAnswer,
}

/// Whether an instance of a module of that title is there, or any title is meant.
pub(crate) fn is_served(modules: &Instances, title: &[u8]) -> bool
    ensures { result ≡ is_served modules.now title.now }
{
    title.is_empty() || modules.slots_of_title(title).len() > 0
}

/// Makes a service call, with the whole budget: to the modules of a title, or to all where it is empty.
///
/// # Errors
///
/// Where memory ran out; steps may have been taken then.
pub(crate) fn call_service(
    context: &LineContext<'_>,
    session: &mut Session,
    modes: &mut DebugModes,
    past: &mut Past,
    service: u32,
    title: &[u8],
) -> Result<LineAnswer, AllocError>
    ensures { let images = context.now.images.now in let labels = context.now.labels.now in
        let s = script_state session.old images in IfOk result (λ answer. HasLineSteps
        (service_called modes.old labels context.now.budget s past.old context.now.number service title.now)
        (script_state session.new images) modes.new past.new
        answer.text.items answer.printed.items answer.ending.items) }
{
    let alloc = context.alloc;
    session.set_budget(context.budget);
    let ending = Vec::from_slice(alloc, b"not claimed\n")?;
    let mut serving = Serving {
        r1: service,
        is_over: false,
        answer: LineAnswer {
            text: Vec::new(alloc),
            printed: Vec::new(alloc),
            ending,
        },
    };
    for place in 0..MOST * MOST {
        serve_at(context, session, modes, past, title, place, &mut serving)?;
    }
    Ok(serving.answer)
}

// Enters the code of the instance at a place, if there is one and the call isn't over.
fn serve_at(
    context: &LineContext<'_>,
    session: &mut Session,
    modes: &mut DebugModes,
    past: &mut Past,
    title: &[u8],
    place: u32,
    serving: &mut Serving,
) -> Result<(), AllocError>
    ensures { let images = context.now.images.now in
        OnOk result (service_state (script_state session.new images) modes.new past.new serving.new
        ≡ served_at context.now.labels.now context.now.number title.now place
        (service_state (script_state session.old images) modes.old past.old serving.old)) }
{
    if serving.is_over {
        return Ok(());
    }
    match service_code(session.machine(), title, place / MOST, place % MOST) {
        Some(code) => serve(context, session, modes, past, &code, serving),
        None => Ok(()),
    }
}

// Enters the code of an instance.
fn serve(
    context: &LineContext<'_>,
    session: &mut Session,
    modes: &mut DebugModes,
    past: &mut Past,
    code: &ServiceCode,
    serving: &mut Serving,
) -> Result<(), AllocError>
    ensures { let images = context.now.images.now in
        OnOk result (service_state (script_state session.new images) modes.new past.new serving.new
        ≡ served_by context.now.labels.now context.now.number code.now
        (service_state (script_state session.old images) modes.old past.old serving.old)) }
{
    let entry = ModuleEntry {
        code: code.code,
        r0: register_in(session, 0),
        r1: serving.r1,
        r12: code.word,
    };
    let taken = enter_code(context, session, modes, past, &entry)?;
    serving
        .answer
        .text
        .extend_from_slice(taken.text.as_slice())?;
    serving
        .answer
        .printed
        .extend_from_slice(taken.printed.as_slice())?;
    serving.r1 = register_in(session, 1);
    end_turn(context.alloc, serving, code.title.as_slice(), taken.ending)
}

fn register_in(session: &Session, number: u32) -> u32
    requires { number ≤ 14 }
    ensures { (images : List Entry)
        → result ≡ register_of (script_state session.now images).machine.cpu number }
{
    session.machine().cpu().register(number)
}

// The call is over where the code has not gone back, which ended so, or has claimed it.
fn end_turn(
    alloc: Global,
    serving: &mut Serving,
    title: &[u8],
    ended: Vec<u8>,
) -> Result<(), AllocError>
    ensures { (s : ScriptState) → (m : DebugModes) → (p : PastState) → OnOk result
        (service_state s m p serving.new
        ≡ service_ended title.now ended.items (service_state s m p serving.old)) }
{
    if !has_returned(ended.as_slice()) {
        serving.is_over = true;
        serving.answer.ending = ended;
        return Ok(());
    }
    if serving.r1 != 0 {
        return Ok(());
    }
    serving.answer.ending = claimed_line(alloc, title)?;
    serving.is_over = true;
    Ok(())
}

// `claimed by Pots`
fn claimed_line(alloc: Global, title: &[u8]) -> Result<Vec<u8>, AllocError>
    ensures { IfOk result (λ line. line.items ≡ claimed_text title.now) }
{
    let mut line = Vec::from_slice(alloc, b"claimed by ")?;
    line.extend_from_slice(title)?;
    line.push(b'\n')?;
    Ok(line)
}

// The code of an instance of a module, by their numbers, if there is one that is meant.
fn service_code(machine: &Machine, title: &[u8], number: u32, instance: u32) -> Option<ServiceCode>
    ensures { result ≡ service_code (state_of machine.now.guest) title.now number instance }
{
    let info = machine.instances().module(number)?;
    let reported = machine.instances().instance(number, instance)?;
    if !is_service_meant(&info, title) {
        return None;
    }
    let offset = loaded_word(machine.memory(), info.image.wrapping_add(SERVICE_WORD));
    let code = code_place(info.image, info.len, offset)?;
    Some(ServiceCode {
        title: info.title,
        code,
        word: PRIVATE_WORDS + 4 * reported.slot,
    })
}

// Whether a module has a word for such code, and is meant by a title.
fn is_service_meant(module: &ModuleInfo, title: &[u8]) -> bool
    ensures { result ≡ is_service_meant module.now title.now }
{
    module.len >= LEAST_BYTES
        && (title.is_empty() || module.title.as_slice().eq_ignore_ascii_case(title))
}
