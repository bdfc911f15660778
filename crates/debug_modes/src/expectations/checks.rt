//! What a line EXPECT finds.

ghost use Rattle.std.specs.Prelude.{◌≡◌, IfOk};
ghost use Rattle.std.specs.Option.{option_map};
ghost use Rattle.debug_lines.specs.Expectations.{expect_request_of};
ghost use Rattle.debug_modes.specs.expectations.Checks.{check_answer, reason_unless};
ghost use Rattle.debug_modes.specs.expectations.Reasons.{reason_text, seen_on_machine};

use crate::expectations::answers::{
    has_line_of_words, is_error_answer, is_line_of_words, last_line,
};
use crate::expectations::status::has_status;
use arm_core::{Mode, Psr};
use command_shell::{Machine, RegisterNumber};
use debug_lines::{Expectation, StatusPattern, WordAddress, is_spelt};
use std::alloc::{AllocError, Global};

/// What an expectation is about: a machine, the last answer without what the guest printed, what it
/// printed in the last line that takes steps, and how many steps that took.
#[derive(Clone, Copy)]
pub struct SeenMachine<'a> {
    /// The machine.
    pub machine: &'a Machine,
    /// The last answer, without what the guest printed.
    pub answer: &'a [u8],
    /// What the guest printed.
    pub output: &'a [u8],
    /// How many steps were taken.
    pub steps: u64,
}

/// What is so in place of what should be so.
#[derive(Clone, Copy)]
pub enum Mismatch<'a> {
    /// A register as the machine's mode has it, and its value.
    Register(u32, u32),
    /// The program counter.
    Pc(u32),
    /// A register as a mode has it, and its value.
    Banked(Mode, u32, u32),
    /// The status.
    Status(Psr),
    /// An address, and the word there if it is mapped.
    Word(u32, Option<u32>),
    /// An address, and the byte there if it is mapped.
    Byte(u32, Option<u8>),
    /// The last line of the answer.
    Answer(&'a [u8]),
    /// No line of the answer is as it should be.
    NoLine,
    /// What the guest printed.
    Output(&'a [u8]),
    /// How many steps were taken.
    Steps(u64),
}

/// Why what should be so isn't; `None` where it is so.
///
/// # Errors
///
/// Memory ran out.
pub fn check<'a>(
    alloc: Global,
    seen: SeenMachine<'a>,
    expected: &Expectation<'_>,
) -> Result<Option<Mismatch<'a>>, AllocError>
    ensures { IfOk result (λ reason. option_map reason_text reason
        ≡ check_answer (seen_on_machine seen.entry) (expect_request_of expected.now)) }
{
    match *expected {
        Expectation::Answer(text) => seen.answer_reason(alloc, text),
        Expectation::Line(text) => seen.line_reason(alloc, text),
        Expectation::Error(number) => Ok(seen.error_reason(number)),
        Expectation::Output(raw) => Ok(seen.output_reason(raw)),
        Expectation::Steps(count) => Ok(seen.steps_reason(seen.steps == u64::from(count))),
        Expectation::StepsAtMost(count) => Ok(seen.steps_reason(seen.steps <= u64::from(count))),
        Expectation::Register(register, value) => Ok(seen.register_reason(register, value)),
        Expectation::Pc(value) => Ok(seen.pc_reason(value)),
        Expectation::Banked(mode, register, value) => {
            Ok(seen.banked_reason(mode, register, value))
        }
        Expectation::Flags(pattern) => Ok(seen.status_reason(pattern)),
        Expectation::Word(address, value) => Ok(seen.word_reason(address, value)),
        Expectation::Byte(address, value) => Ok(seen.byte_reason(address, value)),
    }
}

fn reason_unless<'a>(is_so: bool, reason: Mismatch<'a>) -> Option<Mismatch<'a>>
    ensures { option_map reason_text result ≡ reason_unless is_so (reason_text reason.entry) }
{
    if is_so { None } else { Some(reason) }
}

impl<'a> SeenMachine<'a> {
    ghost use Rattle.debug_modes.specs.expectations.Checks.{steps_reason};
    ghost use Rattle.debug_lines.specs.Expectations.{Answer, Banked, Byte, Error, Flags, Line, Output, Pc, Register, Word};

    fn register_reason(self, register: RegisterNumber, value: u32) -> Option<Mismatch<'a>>
        ensures { option_map reason_text result
            ≡ check_answer (seen_on_machine self.entry) (Register register value) }
    {
        let number = register.number();
        let found = self.machine.cpu().register(number);
        reason_unless(found == value, Mismatch::Register(number, found))
    }

    fn pc_reason(self, value: u32) -> Option<Mismatch<'a>>
        ensures { option_map reason_text result ≡ check_answer (seen_on_machine self.entry) (Pc value) }
    {
        let found = self.machine.cpu().pc();
        reason_unless(found == value, Mismatch::Pc(found))
    }

    fn banked_reason(self, mode: Mode, register: RegisterNumber, value: u32) -> Option<Mismatch<'a>>
        ensures { option_map reason_text result
            ≡ check_answer (seen_on_machine self.entry) (Banked mode register value) }
    {
        let number = register.number();
        let found = self.machine.cpu().register_in(mode, number);
        reason_unless(found == value, Mismatch::Banked(mode, number, found))
    }

    fn status_reason(self, pattern: StatusPattern) -> Option<Mismatch<'a>>
        ensures { option_map reason_text result ≡ check_answer (seen_on_machine self.entry) (Flags pattern) }
    {
        let status = self.machine.cpu().psr();
        reason_unless(has_status(&pattern, status), Mismatch::Status(status))
    }

    fn word_reason(self, address: WordAddress, value: u32) -> Option<Mismatch<'a>>
        ensures { option_map reason_text result
            ≡ check_answer (seen_on_machine self.entry) (Word address value) }
    {
        let at = address.address();
        match self.machine.memory().load_word(at) {
            Ok(found) => reason_unless(found == value, Mismatch::Word(at, Some(found))),
            Err(_) => Some(Mismatch::Word(at, None)),
        }
    }

    fn byte_reason(self, address: u32, value: u32) -> Option<Mismatch<'a>>
        ensures { option_map reason_text result
            ≡ check_answer (seen_on_machine self.entry) (Byte address value) }
    {
        match self.machine.memory().load_byte(address) {
            Ok(found) => reason_unless(
                u32::from(found) == value,
                Mismatch::Byte(address, Some(found)),
            ),
            Err(_) => Some(Mismatch::Byte(address, None)),
        }
    }

    fn answer_reason(self, alloc: Global, text: &[u8]) -> Result<Option<Mismatch<'a>>, AllocError>
        ensures { IfOk result (λ reason. option_map reason_text reason
            ≡ check_answer (seen_on_machine self.entry) (Answer text.now)) }
    {
        let line = last_line(self.answer);
        let is_so = is_line_of_words(alloc, text, line)?;
        Ok(reason_unless(is_so, Mismatch::Answer(line)))
    }

    fn line_reason(self, alloc: Global, text: &[u8]) -> Result<Option<Mismatch<'a>>, AllocError>
        ensures { IfOk result (λ reason. option_map reason_text reason
            ≡ check_answer (seen_on_machine self.entry) (Line text.now)) }
    {
        let is_so = has_line_of_words(alloc, text, self.answer)?;
        Ok(reason_unless(is_so, Mismatch::NoLine))
    }

    fn error_reason(self, number: u32) -> Option<Mismatch<'a>>
        ensures { option_map reason_text result ≡ check_answer (seen_on_machine self.entry) (Error number) }
    {
        let line = last_line(self.answer);
        reason_unless(is_error_answer(number, line), Mismatch::Answer(line))
    }

    fn output_reason(self, raw: &[u8]) -> Option<Mismatch<'a>>
        ensures { option_map reason_text result ≡ check_answer (seen_on_machine self.entry) (Output raw.now) }
    {
        reason_unless(is_spelt(raw, self.output), Mismatch::Output(self.output))
    }

    fn steps_reason(self, is_so: bool) -> Option<Mismatch<'a>>
        ensures { option_map reason_text result ≡ reason_unless is_so (steps_reason self.entry.steps) }
    {
        reason_unless(is_so, Mismatch::Steps(self.steps))
    }
}
