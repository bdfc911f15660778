//! Module code is entered, and comes back: what is left of the core and of the frames of module code
//! that is under way.

ghost use Rattle.std.specs.Prelude.{◌≡◌, ◌<◌, length, true, MatchResult};
ghost use Rattle.os_heap.specs.Memory.{bytes_of};
ghost use Rattle.swi_dispatch_answers.specs.frames.Busy.{is_swi};
ghost use Rattle.swi_dispatch_plans.specs.ModuleCode.{GoesBack, IsUntaken, core_by, frames_by, kept_by, outcome_left, plan_unless_code};

use instances::{Code, Outcome, Plan};
use os_heap::AddressMap;
use swi_dispatch_answers::Cpu;
use swi_dispatch_answers::errors::error_at;
use swi_dispatch_answers::frames::{Call, Frame, FrameKind, Frames, enter_code};
use swi_dispatch_answers::returns::return_to;

/// Enters the next code of a call that was carried on, in a frame of the call. Answers the plan that
/// is kept while that runs; or, where there is no code, the plan that has ended.
pub fn open_code(
    cpu: &mut Cpu,
    frames: &mut Frames,
    call: Call,
    plan: Plan,
    code: Option<Code>,
) -> (Option<Plan>, Option<Plan>)
    requires { length frames.old < 32 }
    ensures core { cpu.new ≡ core_by cpu.old code }
    ensures frames { frames.new ≡ frames_by frames.old cpu.old call code }
    ensures plans { result ≡ (kept_by plan code, plan_unless_code plan code) }
{
    let Some(code) = code else {
        return (None, Some(plan));
    };
    frames.open(Frame::of(cpu, call, FrameKind::Entry(code.kind), code.slot));
    enter_code(cpu, code);
    (Some(plan), None)
}

/// The core goes back from a SWI of a module to its caller.
///
/// # Errors
///
/// The error's number where the SWI was refused and its caller takes no error; nothing is changed
/// then.
#[tactic(auto, using(crate::proofs::ModuleCode::r0_kept))]
pub fn leave_swi(cpu: &mut Cpu, memory: &AddressMap, frame: &Frame) -> Result<(), u32>
    requires { is_swi frame.now.kind ≡ true }
    ensures { MatchResult result (λ _. GoesBack cpu.old frame.now cpu.new)
        (λ number. IsUntaken cpu.old (bytes_of memory.now) frame.now number × (cpu.new ≡ cpu.old)) }
{
    let is_refused = cpu.psr().overflow;
    if is_refused && !frame.call.is_x {
        return Err(error_at(memory, cpu.register(0)));
    }
    frame.leave(cpu);
    return_to(cpu, frame.call.caller, is_refused, frame.call.next);
    Ok(())
}

/// What an entry of a module has left.
pub fn outcome_left(cpu: &Cpu) -> Outcome
    ensures { result ≡ outcome_left cpu.now }
{
    if cpu.psr().overflow {
        Outcome::Refused(cpu.register(0))
    } else {
        Outcome::Well
    }
}
