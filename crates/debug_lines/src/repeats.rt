//! A line that is to be answered many times: `REPEAT n line`.

ghost use Rattle.std.specs.Prelude.{◌≡◌, ◌==◌, option_map, true, IfSome};
ghost use Rattle.std.specs.List.{position};
ghost use Rattle.debug_lines.specs.DebugRequests.{is_known, is_repeatable, repeated_at, repeated_if, repeated_line, simple_request};
ghost use Rattle.debug_lines.specs.Repeats.{count_and_line, counted_text, counted_text_at, repeated_text};

use crate::tracing::simple_command;
use command_shell_lines::debug_words::text_behind;
use command_shell_lines::number_of;

/// A tidy line, and how often it is to be answered.
#[derive(Clone, Copy)]
pub struct RepeatedLine<'a> {
    /// How often, once at least.
    pub count: u32,
    /// The line.
    pub line: &'a [u8],
}

/// What is repeated, and how often, of a tidy line `REPEAT n line`, where the line asks for something,
/// opens no block, and is no REPEAT.
#[tactic(auto, unfolding(crate::specs::DebugRequests::repeated_line))]
pub fn repeated_line(tidied: &[u8]) -> Option<RepeatedLine<'_>>
    ensures reported { option_map count_and_line result ≡ repeated_line tidied.now }
    ensures alone { IfSome result (λ repeated. is_repeatable (simple_request repeated.line.now) ≡ true) }
{
    match text_behind(b"REPEAT ", tidied) {
        Some(text) => repeated_in(text),
        None => None,
    }
}

// A number, a space and a line.
fn repeated_in(text: &[u8]) -> Option<RepeatedLine<'_>>
    ensures reported { option_map count_and_line result ≡ repeated_at
        (position (λ b. b == 32) text.now) text.now }
    ensures alone { IfSome result (λ repeated. is_repeatable (simple_request repeated.line.now) ≡ true) }
{
    match space_in(text) {
        Some(place) => repeated_if(number_of(&text[..place]), &text[place + 1..]),
        None => None,
    }
}

// The place of the first space.
pub(crate) fn space_in(text: &[u8]) -> Option<usize>
    ensures { result ≡ position (λ b. b == 32) text.now }
{
    text.iter().position(|byte| *byte == b' ')
}

fn repeated_if(count: Option<u32>, line: &[u8]) -> Option<RepeatedLine<'_>>
    ensures reported { option_map count_and_line result ≡ repeated_if count line.now }
    ensures alone { IfSome result (λ repeated. is_repeatable (simple_request repeated.line.now) ≡ true) }
{
    match count {
        Some(count) if count > 0 && simple_command(line).is_repeatable() => Some(RepeatedLine {
            count,
            line,
        }),
        _ => None,
    }
}

/// What stands behind `REPEAT n` of a tidy line, and how often, from once on, whatever it asks for.
#[tactic(auto, unfolding(crate::specs::Repeats::repeated_text))]
pub fn repeated_text(tidied: &[u8]) -> Option<RepeatedLine<'_>>
    ensures { option_map count_and_line result ≡ repeated_text tidied.now }
{
    match text_behind(b"REPEAT ", tidied) {
        Some(text) => counted_text(text),
        None => None,
    }
}

// A number from 1 on, a space and a text.
fn counted_text(text: &[u8]) -> Option<RepeatedLine<'_>>
    ensures { option_map count_and_line result
        ≡ counted_text_at (position (λ b. b == 32) text.now) text.now }
{
    match space_in(text) {
        Some(place) => counted_if(number_of(&text[..place]), &text[place + 1..]),
        None => None,
    }
}

fn counted_if(count: Option<u32>, line: &[u8]) -> Option<RepeatedLine<'_>>
    ensures { option_map count_and_line result ≡ counted_text count line.now }
{
    match count {
        Some(count) if count > 0 => Some(RepeatedLine { count, line }),
        _ => None,
    }
}

/// Whether a tidy line asks for something, opens no block, and is no REPEAT.
pub fn is_repeatable_line(tidied: &[u8]) -> bool
    ensures { result ≡ is_repeatable (simple_request tidied.now) }
{
    simple_command(tidied).is_repeatable()
}

/// Whether a tidy line that is no REPEAT means something.
pub fn is_known_line(tidied: &[u8]) -> bool
    ensures { result ≡ is_known (simple_request tidied.now) }
{
    simple_command(tidied).is_known()
}
