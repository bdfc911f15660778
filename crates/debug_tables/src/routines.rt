//! A routine of the guest's that is called from outside.

ghost use Rattle.std.specs.Prelude.{◌≡◌, ◌<◌, ◌%◌, ◌^◌, List};
ghost use Rattle.profile.specs.images.Entries.{Entry};
ghost use Rattle.profile.specs.Output.{Writes};
ghost use Rattle.command_shell.specs.Session.{script_state};
ghost use Rattle.debug_tables.specs.Routines.{caller_in, returned_text, script_at_routine, script_back, step_count_text};

use command_shell::{Mode, Session};
use itoa::Buffer;
use profile::memory_map::ADDRESS_LIMIT;
use profile::{Sink, WriteFault, push_all, push_parts};
use std::marker::Model;

/// Where a routine goes back to that was called from outside: nothing is fetched there.
pub const ROUTINE_END: u32 = ADDRESS_LIMIT - 4;

/// The number of the link register.
const LINK: u32 = 14;

/// What is as it was once a routine has come back, and what was left of the budget before it.
#[derive(Clone, Copy)]
pub struct Caller {
    mode: Mode,
    link: u32,
    at: u32,
    left: u64,
}

impl Model for Caller {
    ghost use Rattle.std.specs.Prelude.{◌≡◌, ◌<◌, ◌%◌, ◌^◌};
    ghost use Rattle.debug_tables.specs.Routines.{CallerState};

    ghost Value = { CallerState };

    ghost view = { λ c. record { mode = c.mode; link = c.link; at = c.at; left = c.left } };

    ghost invariant = { λ c. (c.at % 4 ≡ 0) × (c.at < 2 ^ 26) };

    ghost inverse = { λ s. record { mode = s.mode; link = s.link; at = s.at; left = s.left } };
}

impl Caller {
    /// What was left of the budget before the routine.
    pub fn left(self) -> u64
        ensures { result ≡ self.left }
    {
        self.left
    }
}

/// What stands in a session before it calls a routine.
pub fn caller_of(session: &Session) -> Caller
    ensures { (images : List Entry) → result ≡ caller_in (script_state session.now images) }
{
    let cpu = session.machine().cpu();
    Caller {
        mode: cpu.psr().mode,
        link: cpu.register(LINK),
        at: cpu.pc(),
        left: session.left(),
    }
}

/// Stands at a routine, with R14 as the address to which it goes back.
pub fn enter(session: &mut Session, address: u32)
    requires aligned { address % 4 ≡ 0 }
    requires inside { address < 2 ^ 26 }
    ensures { (images : List Entry) → script_state session.new images
        ≡ script_at_routine (script_state session.old images) address }
{
    let back = session.machine().cpu().psr().bits() + ROUTINE_END;
    session.set_register(LINK, back);
    session.set_pc(address);
}

/// Stands where the caller stood, with its R14.
pub fn go_back(session: &mut Session, caller: Caller)
    ensures { (images : List Entry) → script_state session.new images
        ≡ script_back caller (script_state session.old images) }
{
    session.set_register_in(caller.mode, LINK, caller.link);
    session.set_pc(caller.at);
}

/// `returned after 12 steps`.
pub fn print_returned<W: Sink>(sink: &mut W, steps: u64) -> Result<(), WriteFault>
    ensures { Writes W.contents W.has_failed sink.old sink.new result (returned_text steps) }
{
    push_all(sink, b"returned after ")?;
    push_steps(sink, steps)
}

fn push_steps<W: Sink>(sink: &mut W, steps: u64) -> Result<(), WriteFault>
    ensures { Writes W.contents W.has_failed sink.old sink.new result (step_count_text steps) }
{
    let mut digits = Buffer::new();
    let shown = digits.format(steps).as_bytes();
    push_parts(sink, &[shown, b" steps\n".as_slice()])
}
