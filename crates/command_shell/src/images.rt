//! The lines that hand in an image and boot one: HEX, ASM and BOOT.

ghost use Rattle.std.specs.Prelude.{◌≡◌, ◌+◌, true, None, IfErr, IsOk, OnOk, OnErr};
ghost use Rattle.command_shell_lines.specs.Blocks.{block_lines, after_block, lines_in_block, result_of_block};
ghost use Rattle.command_shell.specs.Error.{IsLineError};
ghost use Rattle.command_shell.specs.Fronts.{AreOldOrAnswer};

use crate::answers::{
    print_boot, print_image, print_image_refused, print_line_refused, print_refused,
};
use crate::error::{RunError, written};
use crate::session::Session;
use assembler::{AsmError, Program, Reason, assemble_lines};
use command_shell_lines::{Block, Origin, read_block, skip_block};
use debugger::BootError;
use profile::images::{ImageError, Images};
use profile::text_lines::Lines;
use profile::{Sink, WriteFault};
use std::alloc::AllocError;

impl Session {
    ghost use Rattle.profile.specs.images.Entries.{refusal_for};
    ghost use Rattle.command_shell.specs.Images.{asm_answer, asm_block, hex_answer, hex_block, image_sized, boot_answer};
    ghost use Rattle.command_shell.specs.Session.{script_state};
    ghost use Rattle.command_shell.specs.State.{IsAnswered};

    /// Reads the block of a HEX line, and adds its image.
    pub(crate) fn hex<W: Sink>(
        &self,
        images: &mut Images,
        sink: &mut W,
        name: &[u8],
        script: &mut Lines,
    ) -> Result<(), RunError>
        ensures reported { OnOk result (IsAnswered (W.contents sink.old) (W.contents sink.new)
            (script_state self.now images.new)
            (hex_answer (script_state self.now images.old) name.now (block_lines script.old.left))) }
        ensures taking { result ≡ Err RunError.Memory → refusal_for images.old name.now 0 ≡ None }
        ensures left { OnOk result (script.new.left ≡ after_block script.old.left) }
        ensures number { OnOk result (script.new.number ≡ script.old.number + lines_in_block
            script.old.left) }
        ensures memory { result ≡ Err RunError.Memory → sink.new ≡ sink.old }
        ensures write_fault { result ≡ Err RunError.WriteFault → W.has_failed sink.new ≡ true }
        ensures images { OnErr result (AreOldOrAnswer images.old images.new
            (hex_answer (script_state self.now images.old) name.now (block_lines script.old.left))) }
        ensures errors { IfErr result IsLineError }
        ensures same_flag { OnOk result (W.has_failed sink.new ≡ W.has_failed sink.old) }
    {
        if let Some(error) = images.refusal(name, 0) {
            skip_block(script);
            let reason = error.name().as_bytes();
            return written(print_image_refused(sink, b"hex ", name, reason));
        }
        match read_block(self.alloc, script) {
            Ok(block) => self.hex_block(images, sink, name, &block),
            Err(AllocError) => Err(RunError::Memory),
        }
    }

    // The answer to a block that was read.
    fn hex_block<W: Sink>(
        &self,
        images: &mut Images,
        sink: &mut W,
        name: &[u8],
        block: &Block,
    ) -> Result<(), RunError>
        ensures reported { OnOk result (IsAnswered (W.contents sink.old) (W.contents sink.new)
            (script_state self.now images.new)
            (hex_block (script_state self.now images.old) name.now (result_of_block block.now))) }
        ensures taking { result ≡ Err RunError.Memory → IsOk (result_of_block block.now) }
        ensures memory { result ≡ Err RunError.Memory → sink.new ≡ sink.old }
        ensures write_fault { result ≡ Err RunError.WriteFault → W.has_failed sink.new ≡ true }
        ensures images { OnErr result (AreOldOrAnswer images.old images.new
            (hex_block (script_state self.now images.old) name.now (result_of_block block.now))) }
        ensures errors { IfErr result IsLineError }
        ensures same_flag { OnOk result (W.has_failed sink.new ≡ W.has_failed sink.old) }
    {
        match block {
            Block::Bytes(bytes) => self.add_image(images, sink, b"hex ", name, bytes.as_slice()),
            Block::BadLine(line) => written(print_line_refused(
                sink, b"hex ", name, *line, b"Syntax",
            )),
        }
    }

    /// Assembles the block of an ASM line, and adds its image.
    pub(crate) fn asm<W: Sink>(
        &self,
        images: &mut Images,
        sink: &mut W,
        name: &[u8],
        origin: Origin,
        script: &mut Lines,
    ) -> Result<(), RunError>
        ensures reported { OnOk result (IsAnswered (W.contents sink.old) (W.contents sink.new)
            (script_state self.now images.new)
            (asm_answer (script_state self.now images.old) name.now origin (block_lines script.old.left))) }
        ensures taking { result ≡ Err RunError.Memory → refusal_for images.old name.now 0 ≡ None }
        ensures left { OnOk result (script.new.left ≡ after_block script.old.left) }
        ensures number { OnOk result (script.new.number ≡ script.old.number + lines_in_block
            script.old.left) }
        ensures memory { result ≡ Err RunError.Memory → sink.new ≡ sink.old }
        ensures write_fault { result ≡ Err RunError.WriteFault → W.has_failed sink.new ≡ true }
        ensures images { OnErr result (AreOldOrAnswer images.old images.new
            (asm_answer (script_state self.now images.old) name.now origin (block_lines script.old.left))) }
        ensures errors { IfErr result IsLineError }
        ensures same_flag { OnOk result (W.has_failed sink.new ≡ W.has_failed sink.old) }
    {
        let block = script.again();
        let count = skip_block(script);
        if let Some(error) = images.refusal(name, 0) {
            let reason = error.name().as_bytes();
            return written(print_image_refused(sink, b"asm ", name, reason));
        }
        let answer = assemble_lines(self.alloc, &block, count, origin.address());
        self.asm_block(images, sink, name, &answer)
    }

    // The answer to a block that was assembled.
    fn asm_block<W: Sink>(
        &self,
        images: &mut Images,
        sink: &mut W,
        name: &[u8],
        answer: &Result<Program, AsmError>,
    ) -> Result<(), RunError>
        ensures reported { OnOk result (IsAnswered (W.contents sink.old) (W.contents sink.new)
            (script_state self.now images.new)
            (asm_block (script_state self.now images.old) name.now answer.now)) }
        ensures no_memory { answer.now ≡ Err (record { line = 0; reason = Reason.Memory })
            → result ≡ Err RunError.Memory }
        ensures taking { IfErr answer.now (λ e. result ≡ Err RunError.Memory → e.reason ≡ Reason.Memory) }
        ensures memory { result ≡ Err RunError.Memory → sink.new ≡ sink.old }
        ensures write_fault { result ≡ Err RunError.WriteFault → W.has_failed sink.new ≡ true }
        ensures images { OnErr result (AreOldOrAnswer images.old images.new
            (asm_block (script_state self.now images.old) name.now answer.now)) }
        ensures errors { IfErr result IsLineError }
        ensures same_flag { OnOk result (W.has_failed sink.new ≡ W.has_failed sink.old) }
    {
        match answer {
            Ok(program) => self.add_image(images, sink, b"asm ", name, program.bytes()),
            Err(error) => match error.reason {
                Reason::Memory => Err(RunError::Memory),
                _ => {
                    let reason = error.reason_name().as_bytes();
                    written(print_line_refused(sink, b"asm ", name, error.line, reason))
                }
            },
        }
    }

    // Adds the image of a block without fault; `word` begins the answer.
    fn add_image<W: Sink>(
        &self,
        images: &mut Images,
        sink: &mut W,
        word: &[u8],
        name: &[u8],
        bytes: &[u8],
    ) -> Result<(), RunError>
        ensures reported { OnOk result (IsAnswered (W.contents sink.old) (W.contents sink.new)
            (script_state self.now images.new)
            (image_sized (script_state self.now images.old) word.now name.now bytes.now)) }
        ensures memory { result ≡ Err RunError.Memory → sink.new ≡ sink.old }
        ensures write_fault { result ≡ Err RunError.WriteFault → W.has_failed sink.new ≡ true }
        ensures images { OnErr result (AreOldOrAnswer images.old images.new
            (image_sized (script_state self.now images.old) word.now name.now bytes.now)) }
        ensures errors { IfErr result IsLineError }
        ensures same_flag { OnOk result (W.has_failed sink.new ≡ W.has_failed sink.old) }
    {
        match images.add(self.alloc, name, bytes) {
            Ok(()) => written(print_image(sink, word, name, bytes.len())),
            Err(error) => match error {
                ImageError::Memory => Err(RunError::Memory),
                _ => {
                    let reason = error.name().as_bytes();
                    written(print_image_refused(sink, word, name, reason))
                }
            },
        }
    }

    /// Copies an image to the start of the machine.
    pub(crate) fn boot<W: Sink>(
        &mut self,
        images: &Images,
        sink: &mut W,
        name: &[u8],
    ) -> Result<(), WriteFault>
        ensures reported { OnOk result (IsAnswered (W.contents sink.old) (W.contents sink.new)
            (script_state self.new images.now)
            (boot_answer (script_state self.old images.now) name.now)) }
        ensures flag { OnErr result (W.has_failed sink.new ≡ true) }
        ensures same_flag { OnOk result (W.has_failed sink.new ≡ W.has_failed sink.old) }
    {
        match images.get(name) {
            None => print_refused(sink, b"NoImage"),
            Some(program) => match self.machine.boot(program) {
                Ok(()) => print_boot(sink, name),
                Err(BootError::Booted) => print_refused(sink, b"Booted"),
                Err(BootError::TooLarge) => print_refused(sink, b"TooLarge"),
            },
        }
    }
}
