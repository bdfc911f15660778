//! Lines that enter the code of modules are answered.

ghost use Rattle.std.specs.Prelude.{◌≡◌, List, option_map, IfOk, OnOk};
ghost use Rattle.profile.specs.images.Entries.{Entry};
ghost use Rattle.debug_modes.specs.Session.{script_state};
ghost use Rattle.debug_modules.specs.Answers.{IsModuleAnswered, command_answered, command_called, command_put, code_error_text, module_answered, module_line_answered, modes_after_modules, past_after_modules, script_after_modules, service_answered, shown_of};
ghost use Rattle.debug_listing.specs.Requests.{module_request_of};
ghost use Rattle.debug_modules.specs.Taking.{HasLineSteps};

use crate::comparing::images_compared;
use crate::context::LineContext;
use crate::entering::{ModuleEntry, enter_code};
use crate::plans::{CommandPlan, TAIL, command_plan, tail_bytes};
use crate::services::{call_service, is_served};
use debug_history::{DebugView, KeptText, Past, PastDeed, has_returned};
use debug_listing::{
    ModuleRequest, commands_text, listing_text, module_described, module_meant, module_request,
    names_on, put_bytes,
};
use debug_modes::{DebugModes, refused_line, view_text};
use debug_runs::{LabelTable, LineAnswer, Session};
use profile::images::Images;
use std::alloc::{AllocError, Global};

/// What such a line is answered.
#[derive(Drop)]
pub enum ModuleAnswer {
    /// A text, where nothing was done.
    Shown(Vec<u8>),
    /// Of code that was entered, what its steps left.
    Entered(LineAnswer),
}

/// Answers a tidy line where it enters the code of modules; any other is left.
///
/// # Errors
///
/// Where memory ran out; steps may have been taken then.
pub fn answer_module_line(
    alloc: Global,
    budget: u64,
    session: &mut Session,
    modes: &mut DebugModes,
    past: &mut Past,
    images: &Images,
    labels: &LabelTable,
    sources: &Images,
    number: u64,
    line: &[u8],
) -> Result<Option<ModuleAnswer>, AllocError>
    ensures script { let s = script_state session.old images.now in
        OnOk result (script_state session.new images.now ≡ script_after_modules s
        (module_line_answered modes.old labels.now sources.now budget s past.old number line.now)) }
    ensures modes { let s = script_state session.old images.now in
        OnOk result (modes.new ≡ modes_after_modules modes.old
        (module_line_answered modes.old labels.now sources.now budget s past.old number line.now)) }
    ensures past { let s = script_state session.old images.now in
        OnOk result (past.new ≡ past_after_modules past.old
        (module_line_answered modes.old labels.now sources.now budget s past.old number line.now)) }
    ensures shown { let s = script_state session.old images.now in
        IfOk result (λ answer. option_map shown_of answer ≡ option_map (λ a. a.shown)
        (module_line_answered modes.old labels.now sources.now budget s past.old number line.now)) }
{
    let Some(request) = module_request(line) else {
        let Some(info) = module_meant(session.machine(), line) else {
            return Ok(None);
        };
        let text = module_described(alloc, session.machine().memory(), &info)?;
        return Ok(Some(ModuleAnswer::Shown(text)));
    };
    let context = LineContext {
        alloc,
        images,
        labels,
        budget,
        number,
    };
    match answer_request(&context, session, modes, past, sources, &request) {
        Ok(answer) => Ok(Some(answer)),
        Err(error) => Err(error),
    }
}

// What a line asks for is done, and answered.
fn answer_request(
    context: &LineContext<'_>,
    session: &mut Session,
    modes: &mut DebugModes,
    past: &mut Past,
    sources: &Images,
    request: &ModuleRequest<'_>,
) -> Result<ModuleAnswer, AllocError>
    ensures { let images = context.now.images.now in let labels = context.now.labels.now in
        let s = script_state session.old images in IfOk result (λ answer. IsModuleAnswered
        (module_answered modes.old labels sources.now context.now.budget s past.old context.now.number
        (module_request_of request.now))
        (script_state session.new images) modes.new past.new (shown_of answer)) }
{
    let alloc = context.alloc;
    let text = match *request {
        ModuleRequest::Command(name, tail) => {
            return answer_command(context, session, modes, past, name, tail);
        }
        ModuleRequest::Service(service, title) => {
            return answer_service(context, session, modes, past, service, title);
        }
        ModuleRequest::Commands => commands_text(alloc, session.machine()),
        ModuleRequest::Explain(is_on) => modes.explain(alloc, is_on),
        ModuleRequest::Listing(name) => {
            let place = names_on(context.labels, session.machine()).image_place(name);
            let (image, source) = (context.images.get(name), sources.get(name));
            let start = place.map(|place| place.start);
            listing_text(alloc, &modes.counts, image, source, start)
        }
        ModuleRequest::Compare(one, other) => images_compared(alloc, context.images, one, other),
    };
    match text {
        Ok(text) => Ok(ModuleAnswer::Shown(text)),
        Err(error) => Err(error),
    }
}

// COMMAND.
fn answer_command(
    context: &LineContext<'_>,
    session: &mut Session,
    modes: &mut DebugModes,
    past: &mut Past,
    name: &[u8],
    tail: &[u8],
) -> Result<ModuleAnswer, AllocError>
    ensures { let images = context.now.images.now in let labels = context.now.labels.now in
        let s = script_state session.old images in IfOk result (λ answer. IsModuleAnswered
        (command_answered modes.old labels context.now.budget s past.old context.now.number name.now tail.now)
        (script_state session.new images) modes.new past.new (shown_of answer)) }
{
    let alloc = context.alloc;
    match command_plan(alloc, session.machine(), name, tail)? {
        CommandPlan::Refused(text) => Ok(ModuleAnswer::Shown(text)),
        CommandPlan::Ready(entry) => {
            let bytes = tail_bytes(alloc, tail)?;
            put_tail(context, session, modes, past, &entry, bytes.as_slice())
        }
    }
}

// Puts the tail where the code finds it, and enters that.
fn put_tail(
    context: &LineContext<'_>,
    session: &mut Session,
    modes: &mut DebugModes,
    past: &mut Past,
    entry: &ModuleEntry,
    bytes: &[u8],
) -> Result<ModuleAnswer, AllocError>
    ensures { let images = context.now.images.now in let labels = context.now.labels.now in
        let s = script_state session.old images in IfOk result (λ answer. IsModuleAnswered
        (command_put modes.old labels context.now.budget s past.old context.now.number entry.now bytes.now)
        (script_state session.new images) modes.new past.new (shown_of answer)) }
{
    let alloc = context.alloc;
    let kept = KeptText::of(alloc, bytes)?;
    match put_bytes(session, TAIL, bytes) {
        Ok(()) => {
            past.put(context.number, PastDeed::Bytes(TAIL, kept))?;
            let answer = call_command(context, session, modes, past, entry)?;
            Ok(ModuleAnswer::Entered(answer))
        }
        Err(fault) => {
            let text = refused_line(alloc, fault.name().as_bytes())?;
            Ok(ModuleAnswer::Shown(text))
        }
    }
}

// Enters a command, with the whole budget; where its code has gone back with an error, that stands below.
fn call_command(
    context: &LineContext<'_>,
    session: &mut Session,
    modes: &mut DebugModes,
    past: &mut Past,
    entry: &ModuleEntry,
) -> Result<LineAnswer, AllocError>
    ensures { let images = context.now.images.now in let labels = context.now.labels.now in
        let s = script_state session.old images in IfOk result (λ answer. HasLineSteps
        (command_called modes.old labels context.now.budget s past.old context.now.number entry.now)
        (script_state session.new images) modes.new past.new
        answer.text.items answer.printed.items answer.ending.items) }
{
    session.set_budget(context.budget);
    let mut answer = enter_code(context, session, modes, past, entry)?;
    let error = code_error_text(
        context.alloc,
        session,
        context.labels,
        answer.ending.as_slice(),
    )?;
    answer.ending.extend_from_slice(error.as_slice())?;
    Ok(answer)
}

// The error of code that has gone back with one, as WHY shows it.
fn code_error_text(
    alloc: Global,
    session: &Session,
    labels: &LabelTable,
    ending: &[u8],
) -> Result<Vec<u8>, AllocError>
    ensures { (images : List Entry) → IfOk result (λ text. text.items
        ≡ code_error_text (script_state session.now images).machine ending.now) }
{
    let machine = session.machine();
    if machine.cpu().psr().overflow && has_returned(ending) {
        view_text(alloc, labels, machine, DebugView::Why)
    } else {
        Ok(Vec::new(alloc))
    }
}

// SERVICE.
fn answer_service(
    context: &LineContext<'_>,
    session: &mut Session,
    modes: &mut DebugModes,
    past: &mut Past,
    service: u32,
    title: &[u8],
) -> Result<ModuleAnswer, AllocError>
    ensures { let images = context.now.images.now in let labels = context.now.labels.now in
        let s = script_state session.old images in IfOk result (λ answer. IsModuleAnswered
        (service_answered modes.old labels context.now.budget s past.old context.now.number service title.now)
        (script_state session.new images) modes.new past.new (shown_of answer)) }
{
    let alloc = context.alloc;
    let machine = session.machine();
    if machine.stop().is_some() {
        return Ok(ModuleAnswer::Shown(refused_line(alloc, b"Halted")?));
    }
    if !is_served(machine.instances(), title) {
        return Ok(ModuleAnswer::Shown(refused_line(alloc, b"NoModule")?));
    }
    let answer = call_service(context, session, modes, past, service, title)?;
    Ok(ModuleAnswer::Entered(answer))
}
