//! What the lines of a script work on, and how one is answered.

ghost use Rattle.std.specs.Prelude.{◌≡◌, ◌+◌, true, List, IfErr, OnOk, OnErr};
ghost use Rattle.command_shell_lines.specs.Blocks.{block_lines, lines_after, lines_taken};
ghost use Rattle.command_shell.specs.Error.{IsLineError};
ghost use Rattle.command_shell.specs.Fronts.{AreOldOrAnswer};

use crate::answers::print_unknown;
use crate::calls::OutsideCall;
use crate::error::{RunError, written};
use command_shell_lines::{ScriptCommand, command_of};
use debugger::{Breaks, Machine};
use profile::images::Images;
use profile::text_lines::Lines;
use profile::{Sink, Stop};
use std::alloc::Global;

/// What the lines of a script work on beside the images: a machine, its breaks, what is left of the
/// budget, and the last stop that a line was answered with.
pub struct Session {
    pub(crate) alloc: Global,
    pub(crate) machine: Machine,
    pub(crate) breaks: Breaks,
    pub(crate) left: u64,
    pub(crate) last: Option<Stop>,
}

impl Drop for Session {
    fn drop(self) {
        let Session {
            alloc: _alloc,
            machine: _machine,
            breaks: _breaks,
            left: _left,
            last: _last,
        } = self;
    }
}

impl Session {
    ghost use Rattle.profile.specs.images.Entries.{Entry};
    ghost use Rattle.command_shell_lines.specs.Requests.{opens_block, request_of, request_of_command};
    ghost use Rattle.command_shell.specs.Script.{request_answer, takes_memory};
    ghost use Rattle.command_shell.specs.Session.{script_state, state_on};
    ghost use Rattle.command_shell.specs.State.{IsAnswered};

    /// A session on a machine, with no breaks and the whole budget.
    pub fn new(alloc: Global, machine: Machine, budget: u64) -> Session
        ensures { (images : List Entry) → script_state result images ≡ state_on machine images budget }
    {
        Session {
            alloc,
            machine,
            breaks: Breaks::new(),
            left: budget,
            last: None,
        }
    }

    /// The last stop that a line was answered with.
    pub fn last(&self) -> Option<Stop>
        ensures { (images : List Entry) → result ≡ (script_state self.now images).last }
    {
        self.last
    }

    /// How many steps are left of the budget.
    pub fn left(&self) -> u64
        ensures { (images : List Entry) → result ≡ (script_state self.now images).left }
    {
        self.left
    }

    /// The machine, as the lines that were answered left it.
    pub fn machine(&self) -> &Machine
        ensures { result.now ≡ self.now.machine }
    {
        &self.machine
    }

    /// The addresses at which runs stop.
    pub fn breaks(&self) -> &Breaks
        ensures { result.now ≡ self.now.breaks }
    {
        &self.breaks
    }

    /// Answers a line; of a HEX or an ASM line, reads its block from the lines that follow.
    ///
    /// # Errors
    ///
    /// As [`answer`].
    ///
    /// [`answer`]: Session::answer
    pub fn answer_line<W: Sink>(
        &mut self,
        images: &mut Images,
        sink: &mut W,
        line: &[u8],
        script: &mut Lines,
    ) -> Result<(), RunError>
        ensures reported { OnOk result (IsAnswered (W.contents sink.old) (W.contents sink.new)
            (script_state self.new images.new)
            (request_answer (script_state self.old images.old) script.old.number
            (request_of line.now) (block_lines script.old.left))) }
        ensures left { OnOk result (script.new.left
            ≡ lines_after (opens_block (request_of line.now)) script.old.left) }
        ensures number { OnOk result (script.new.number
            ≡ script.old.number + lines_taken (opens_block (request_of line.now)) script.old.left) }
        ensures memory { result ≡ Err RunError.Memory → sink.new ≡ sink.old }
        ensures taking { result ≡ Err RunError.Memory
            → takes_memory images.old (request_of line.now) ≡ true }
        ensures write_fault { result ≡ Err RunError.WriteFault → W.has_failed sink.new ≡ true }
        ensures images { OnErr result (AreOldOrAnswer images.old images.new
            (request_answer (script_state self.old images.old) script.old.number
            (request_of line.now) (block_lines script.old.left))) }
        ensures errors { IfErr result IsLineError }
        ensures same_flag { OnOk result (W.has_failed sink.new ≡ W.has_failed sink.old) }
    {
        self.answer(images, sink, command_of(line), script)
    }

    /// Answers a request; of a HEX or an ASM line, reads its block from the lines that follow.
    ///
    /// # Errors
    ///
    /// `Memory` for an image that is let in, and nothing is written then; `WriteFault`.
    pub fn answer<W: Sink>(
        &mut self,
        images: &mut Images,
        sink: &mut W,
        command: ScriptCommand,
        script: &mut Lines,
    ) -> Result<(), RunError>
        ensures reported { OnOk result (IsAnswered (W.contents sink.old) (W.contents sink.new)
            (script_state self.new images.new)
            (request_answer (script_state self.old images.old) script.old.number
            (request_of_command command.entry) (block_lines script.old.left))) }
        ensures left { OnOk result (script.new.left
            ≡ lines_after (opens_block (request_of_command command.entry)) script.old.left) }
        ensures number { OnOk result (script.new.number
            ≡ script.old.number + lines_taken (opens_block
            (request_of_command command.entry)) script.old.left) }
        ensures memory { result ≡ Err RunError.Memory → sink.new ≡ sink.old }
        ensures taking { result ≡ Err RunError.Memory
            → takes_memory images.old (request_of_command command.entry) ≡ true }
        ensures write_fault { result ≡ Err RunError.WriteFault → W.has_failed sink.new ≡ true }
        ensures images { OnErr result (AreOldOrAnswer images.old images.new
            (request_answer (script_state self.old images.old) script.old.number
            (request_of_command command.entry) (block_lines script.old.left))) }
        ensures errors { IfErr result IsLineError }
        ensures same_flag { OnOk result (W.has_failed sink.new ≡ W.has_failed sink.old) }
    {
        let done = match command {
            ScriptCommand::Hex(name) => return self.hex(images, sink, name, script),
            ScriptCommand::Asm(name, origin) => return self.asm(images, sink, name, origin, script),
            ScriptCommand::Nothing => Ok(()),
            ScriptCommand::Boot(name) => self.boot(images, sink, name),
            ScriptCommand::Run => self.run(images, sink),
            ScriptCommand::Regs => self.regs(sink),
            ScriptCommand::Set(register, value) => {
                self.set(register, value);
                Ok(())
            }
            ScriptCommand::Poke(address, value) => self.poke(sink, address, value),
            ScriptCommand::Call(number) => self.call(images, sink, OutsideCall::Swi(number)),
            ScriptCommand::Load(text) => self.call(images, sink, OutsideCall::Load(text)),
            ScriptCommand::Step(count) => self.step(images, sink, count),
            ScriptCommand::Break(address) => self.break_at(sink, address),
            ScriptCommand::Unbreak(address) => self.unbreak_at(sink, address),
            ScriptCommand::Mem(address, count) => self.mem(sink, address, count),
            ScriptCommand::Code(address, count) => self.code(sink, address, count),
            ScriptCommand::Heap(address) => self.heap(sink, address),
            ScriptCommand::Areas => self.areas(sink),
            ScriptCommand::Modules => self.modules(sink),
            ScriptCommand::Flex => self.flex(sink),
            ScriptCommand::Unknown => print_unknown(sink, script.number()),
        };
        written(done)
    }
}
