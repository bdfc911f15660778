//! The lines that look at the machine and change nothing: REGS, MEM, CODE, HEAP, AREAS, MODULES and
//! FLEX.

ghost use Rattle.std.specs.Prelude.{◌≡◌, true, List, OnOk, OnErr};

use crate::answers::print_refused;
use crate::session::Session;
use command_shell_lines::WordAddress;
use debugger::{
    show_areas, show_blocks, show_code, show_flex, show_memory, show_modules, show_regs,
};
use profile::{Sink, WriteFault};

impl Session {
    ghost use Rattle.profile.specs.images.Entries.{Entry};
    ghost use Rattle.command_shell.specs.Session.{script_state};
    ghost use Rattle.command_shell.specs.State.{IsAnswered};
    ghost use Rattle.command_shell.specs.Views.{regs_answer, mem_answer, code_answer, heap_answer, areas_answer, modules_answer};
    ghost use Rattle.command_shell.specs.Views.{flex_answer};

    /// Shows the registers of the present mode and the status.
    pub(crate) fn regs<W: Sink>(&self, sink: &mut W) -> Result<(), WriteFault>
        ensures reported { (images : List Entry) → OnOk result
            (IsAnswered (W.contents sink.old) (W.contents sink.new)
            (script_state self.now images)
            (regs_answer (script_state self.now images))) }
        ensures flag { OnErr result (W.has_failed sink.new ≡ true) }
        ensures same_flag { OnOk result (W.has_failed sink.new ≡ W.has_failed sink.old) }
    {
        show_regs(&self.machine, sink)
    }

    /// Shows so many bytes of memory.
    pub(crate) fn mem<W: Sink>(
        &self,
        sink: &mut W,
        address: u32,
        count: u32,
    ) -> Result<(), WriteFault>
        ensures reported { (images : List Entry) → OnOk result
            (IsAnswered (W.contents sink.old) (W.contents sink.new)
            (script_state self.now images)
            (mem_answer (script_state self.now images) address count)) }
        ensures flag { OnErr result (W.has_failed sink.new ≡ true) }
        ensures same_flag { OnOk result (W.has_failed sink.new ≡ W.has_failed sink.old) }
    {
        show_memory(&self.machine, address, count, sink)
    }

    /// Shows so many words of memory as instructions.
    pub(crate) fn code<W: Sink>(
        &self,
        sink: &mut W,
        address: WordAddress,
        count: u32,
    ) -> Result<(), WriteFault>
        ensures reported { (images : List Entry) → OnOk result
            (IsAnswered (W.contents sink.old) (W.contents sink.new)
            (script_state self.now images)
            (code_answer (script_state self.now images) address count)) }
        ensures flag { OnErr result (W.has_failed sink.new ≡ true) }
        ensures same_flag { OnOk result (W.has_failed sink.new ≡ W.has_failed sink.old) }
    {
        show_code(&self.machine, address.address(), count, sink)
    }

    /// Shows the heap that starts at an address, if one does.
    #[tactic(auto, using(crate::proofs::ViewLemmas::heap_steps))]
    pub(crate) fn heap<W: Sink>(&self, sink: &mut W, address: u32) -> Result<(), WriteFault>
        ensures reported { (images : List Entry) → OnOk result
            (IsAnswered (W.contents sink.old) (W.contents sink.new)
            (script_state self.now images)
            (heap_answer (script_state self.now images) address)) }
        ensures flag { OnErr result (W.has_failed sink.new ≡ true) }
        ensures same_flag { OnOk result (W.has_failed sink.new ≡ W.has_failed sink.old) }
    {
        if show_blocks(&self.machine, address, sink)? {
            return Ok(());
        }
        print_refused(sink, b"NoHeap")
    }

    /// Shows all areas, and what is left in the pool.
    pub(crate) fn areas<W: Sink>(&self, sink: &mut W) -> Result<(), WriteFault>
        ensures reported { (images : List Entry) → OnOk result
            (IsAnswered (W.contents sink.old) (W.contents sink.new)
            (script_state self.now images)
            (areas_answer (script_state self.now images))) }
        ensures flag { OnErr result (W.has_failed sink.new ≡ true) }
        ensures same_flag { OnOk result (W.has_failed sink.new ≡ W.has_failed sink.old) }
    {
        show_areas(&self.machine, sink)
    }

    /// Shows all modules and their instances.
    pub(crate) fn modules<W: Sink>(&self, sink: &mut W) -> Result<(), WriteFault>
        ensures reported { (images : List Entry) → OnOk result
            (IsAnswered (W.contents sink.old) (W.contents sink.new)
            (script_state self.now images)
            (modules_answer (script_state self.now images))) }
        ensures flag { OnErr result (W.has_failed sink.new ≡ true) }
        ensures same_flag { OnOk result (W.has_failed sink.new ≡ W.has_failed sink.old) }
    {
        show_modules(&self.machine, sink)
    }

    /// Shows the flex store and its blocks, if there is one.
    #[tactic(auto, using(crate::proofs::ViewLemmas::flex_steps))]
    pub(crate) fn flex<W: Sink>(&self, sink: &mut W) -> Result<(), WriteFault>
        ensures reported { (images : List Entry) → OnOk result
            (IsAnswered (W.contents sink.old) (W.contents sink.new)
            (script_state self.now images)
            (flex_answer (script_state self.now images))) }
        ensures flag { OnErr result (W.has_failed sink.new ≡ true) }
        ensures same_flag { OnOk result (W.has_failed sink.new ≡ W.has_failed sink.old) }
    {
        if show_flex(&self.machine, sink)? {
            return Ok(());
        }
        print_refused(sink, b"NoFlex")
    }
}
