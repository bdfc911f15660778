//! What a line EXPECT says should be so.

ghost use Rattle.std.specs.Prelude.{◌≡◌, option_map};
ghost use Rattle.command_shell_lines.specs.Numbers.{script_number};
ghost use Rattle.command_shell_lines.specs.Operands.{word_address};
ghost use Rattle.command_shell_lines.specs.Requests.{words};
ghost use Rattle.command_shell_lines.specs.debug_words.Texts.{byte_value};
ghost use Rattle.debug_lines.specs.Expectations.{Word as IsWord, Byte as IsByte, expect_both, expect_steps, expect_value, expect_of_two, expect_of_three, expect_of_words, expect_output, expect_request, expect_request_of};
ghost use Rattle.command_shell_lines.specs.debug_words.Values.{value_shown};

use crate::few_words::{FewWords, few_words, has_letters};
use crate::registers::{banked_register_named, register_of_name};
use crate::status::StatusPattern;
use arm_core::Mode;
use command_shell_lines::debug_words::{
    between_quotes, byte_value, error_shown, is_well_spelt, text_behind, value_shown,
};
use command_shell_lines::{RegisterNumber, WordAddress, number_of};

/// What a line EXPECT says should be so.
#[derive(Clone, Copy)]
pub enum Expectation<'a> {
    /// `EXPECT R0 v`: a register as the machine's mode has it.
    Register(RegisterNumber, u32),
    /// `EXPECT PC v`.
    Pc(u32),
    /// `EXPECT R13_svc v`: a register as a mode has it.
    Banked(Mode, RegisterNumber, u32),
    /// `EXPECT FLAGS letters mode`.
    Flags(StatusPattern),
    /// `EXPECT WORD a v`.
    Word(WordAddress, u32),
    /// `EXPECT BYTE a v`, with a value below 256.
    Byte(u32, u32),
    /// `EXPECT ANSWER text`.
    Answer(&'a [u8]),
    /// `EXPECT LINE text`.
    Line(&'a [u8]),
    /// `EXPECT ERROR n`, or the number of the error that is named.
    Error(u32),
    /// `EXPECT OUTPUT "text"`: what stands between the quotes, as it is spelt.
    Output(&'a [u8]),
    /// `EXPECT STEPS n`.
    Steps(u32),
    /// `EXPECT STEPS <= n`.
    StepsAtMost(u32),
}

/// What should be so, by what stands behind the word EXPECT.
#[tactic(auto, unfolding(crate::specs::Expectations::expect_request))]
pub(crate) fn expectation_of(text: &[u8]) -> Option<Expectation<'_>>
    ensures { option_map expect_request_of result ≡ expect_request text.now }
{
    if let Some(answer) = text_behind(b"ANSWER ", text) {
        Some(Expectation::Answer(answer))
    } else if let Some(line) = text_behind(b"LINE ", text) {
        Some(Expectation::Line(line))
    } else if let Some(output) = text_behind(b"OUTPUT ", text) {
        output_of(output)
    } else {
        of_words(text)
    }
}

// A text in quotes that is well spelt.
fn output_of(text: &[u8]) -> Option<Expectation<'_>>
    ensures { option_map expect_request_of result ≡ expect_output text.now }
{
    match between_quotes(text) {
        Some(raw) if is_well_spelt(raw) => Some(Expectation::Output(raw)),
        _ => None,
    }
}

fn of_words(text: &[u8]) -> Option<Expectation<'static>>
    ensures { option_map expect_request_of result ≡ expect_of_words (words text.now) }
{
    match few_words(text) {
        FewWords::Two(what, value) => of_two(what, value),
        FewWords::Three(what, first, second) => of_three(what, first, second),
        _ => None,
    }
}

fn of_two(what: &[u8], value: &[u8]) -> Option<Expectation<'static>>
    ensures { option_map expect_request_of result ≡ expect_of_two what.now value.now }
{
    if has_letters(what, b"FLAGS") {
        Some(Expectation::Flags(StatusPattern::of_word(value)?))
    } else if has_letters(what, b"ERROR") {
        Some(Expectation::Error(error_shown(value)?))
    } else if has_letters(what, b"STEPS") {
        Some(Expectation::Steps(number_of(value)?))
    } else {
        of_value(what, value_shown(value)?)
    }
}

// The value of the PC or of a register.
fn of_value(what: &[u8], value: u32) -> Option<Expectation<'static>>
    ensures { option_map expect_request_of result ≡ expect_value what.now value }
{
    if has_letters(what, b"PC") {
        return Some(Expectation::Pc(value));
    }
    if let Some(register) = register_of_name(what) {
        return Some(Expectation::Register(register, value));
    }
    match banked_register_named(what) {
        Some((mode, register)) => Some(Expectation::Banked(mode, register, value)),
        None => None,
    }
}

fn of_three(what: &[u8], first: &[u8], second: &[u8]) -> Option<Expectation<'static>>
    ensures { option_map expect_request_of result ≡ expect_of_three what.now first.now second.now }
{
    if has_letters(what, b"FLAGS") {
        Some(Expectation::Flags(StatusPattern::of_two(first, second)?))
    } else if has_letters(what, b"WORD") {
        word_of(first, second)
    } else if has_letters(what, b"BYTE") {
        byte_of(first, second)
    } else if has_letters(what, b"STEPS") {
        steps_of(first == b"<=".as_slice(), second)
    } else {
        None
    }
}

fn steps_of(is_at_most: bool, count: &[u8]) -> Option<Expectation<'static>>
    ensures { option_map expect_request_of result ≡ expect_steps is_at_most (script_number count.now) }
{
    if !is_at_most {
        return None;
    }
    Some(Expectation::StepsAtMost(number_of(count)?))
}

fn word_of(address: &[u8], value: &[u8]) -> Option<Expectation<'static>>
    ensures { option_map expect_request_of result
        ≡ expect_both (word_address address.now) (value_shown value.now) IsWord }
{
    match (WordAddress::spelled(address), value_shown(value)) {
        (Some(address), Some(value)) => Some(Expectation::Word(address, value)),
        _ => None,
    }
}

fn byte_of(address: &[u8], value: &[u8]) -> Option<Expectation<'static>>
    ensures { option_map expect_request_of result
        ≡ expect_both (script_number address.now) (byte_value value.now) IsByte }
{
    match (number_of(address), byte_value(value)) {
        (Some(address), Some(value)) => Some(Expectation::Byte(address, value)),
        _ => None,
    }
}
