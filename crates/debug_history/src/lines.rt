//! The lines that go back, or look into the past.

ghost use Rattle.std.specs.Prelude.{◌≡◌, ◌∷◌};
ghost use Rattle.command_shell_lines.specs.Requests.{words};
ghost use Rattle.debug_history.specs.Lines.{past_line, past_line_of, past_line_of_four, past_line_of_three, past_line_of_two, past_line_of_word, sought_by, sought_in, sought_named, sought_place, sought_sized, last_steps_asked};

use crate::search::Sought;
use arm_core::Mode;
use command_shell_lines::{Origin, RegisterNumber, WordAddress, count_up_to, number_of};
use debug_lines::{banked_register_named, register_of_name};
use profile::text_lines::cut;

/// What a line asks for that has to do with the past.
#[derive(Clone, Copy)]
pub enum PastCommand {
    /// `BACK n`: the machine as it was so many steps before, at least 1; `BACK` is `BACK 1`.
    Back(u32),
    /// `BACK TO n`: the machine as it was before the step of that number.
    BackTo(u32),
    /// `BACK UNTIL a`: the machine as it was before the last step from that address.
    BackUntil(Origin),
    /// `UNDO`: the machine as the last line that did something to it found it.
    Undo,
    /// `WHEN`: how many steps were taken.
    When,
    /// `LAST CHANGE x`, `LAST CLAIM a` or `LAST FREE a`: what changed a part of the machine last, or a block.
    Last(Sought),
}

/// What a tidy line asks for, if it has to do with the past; the machine is in that mode.
pub fn past_line(mode: Mode, line: &[u8]) -> Option<PastCommand>
    ensures { result ≡ past_line mode line.now }
{
    let (word, rest) = cut(line, b' ');
    match rest {
        Some(rest) => behind_one(mode, word, rest),
        None => of_word(word),
    }
}

fn behind_one(mode: Mode, word: &[u8], line: &[u8]) -> Option<PastCommand>
    ensures { result ≡ past_line_of mode (word.now ∷ words line.now) }
{
    let (second, rest) = cut(line, b' ');
    match rest {
        Some(rest) => behind_two(mode, word, second, rest),
        None => of_two(word, second),
    }
}

fn behind_two(mode: Mode, word: &[u8], second: &[u8], line: &[u8]) -> Option<PastCommand>
    ensures { result ≡ past_line_of mode (word.now ∷ second.now ∷ words line.now) }
{
    let (third, rest) = cut(line, b' ');
    match rest {
        Some(rest) => of_more(mode, word, second, third, rest),
        None => of_three(mode, word, second, third),
    }
}

fn of_more(mode: Mode, word: &[u8], second: &[u8], third: &[u8], line: &[u8]) -> Option<PastCommand>
    ensures { result ≡ past_line_of mode (word.now ∷ second.now ∷ third.now ∷ words line.now) }
{
    let (fourth, rest) = cut(line, b' ');
    match rest {
        Some(_) => None,
        None => of_four(word, second, third, fourth),
    }
}

fn of_word(word: &[u8]) -> Option<PastCommand>
    ensures { result ≡ past_line_of_word word.now }
{
    if word.eq_ignore_ascii_case(b"BACK") {
        Some(PastCommand::Back(1))
    } else if word.eq_ignore_ascii_case(b"UNDO") {
        Some(PastCommand::Undo)
    } else if word.eq_ignore_ascii_case(b"WHEN") {
        Some(PastCommand::When)
    } else {
        None
    }
}

fn of_two(word: &[u8], count: &[u8]) -> Option<PastCommand>
    ensures { result ≡ past_line_of_two word.now count.now }
{
    if word.eq_ignore_ascii_case(b"BACK") {
        count_up_to(u32::MAX, count).map(PastCommand::Back)
    } else {
        None
    }
}

fn of_three(mode: Mode, word: &[u8], second: &[u8], third: &[u8]) -> Option<PastCommand>
    ensures { result ≡ past_line_of_three mode word.now second.now third.now }
{
    if word.eq_ignore_ascii_case(b"BACK") && second.eq_ignore_ascii_case(b"TO") {
        number_of(third).map(PastCommand::BackTo)
    } else if word.eq_ignore_ascii_case(b"BACK") && second.eq_ignore_ascii_case(b"UNTIL") {
        Origin::spelled(third).map(PastCommand::BackUntil)
    } else if word.eq_ignore_ascii_case(b"LAST") {
        sought_by(mode, second, third).map(PastCommand::Last)
    } else {
        None
    }
}

// What is sought by two words behind LAST.
fn sought_by(mode: Mode, word: &[u8], place: &[u8]) -> Option<Sought>
    ensures { result ≡ sought_by mode word.now place.now }
{
    if word.eq_ignore_ascii_case(b"CHANGE") {
        named(mode, place)
    } else if word.eq_ignore_ascii_case(b"CLAIM") {
        number_of(place).map(Sought::Claimed)
    } else if word.eq_ignore_ascii_case(b"FREE") {
        number_of(place).map(Sought::Freed)
    } else {
        None
    }
}

fn of_four(word: &[u8], second: &[u8], size: &[u8], address: &[u8]) -> Option<PastCommand>
    ensures { result ≡ past_line_of_four word.now second.now size.now address.now }
{
    if word.eq_ignore_ascii_case(b"LAST") && second.eq_ignore_ascii_case(b"CHANGE") {
        sized(size, address).map(PastCommand::Last)
    } else {
        None
    }
}

fn named(mode: Mode, word: &[u8]) -> Option<Sought>
    ensures { result ≡ sought_named mode word.now }
{
    if word.eq_ignore_ascii_case(b"FLAGS") {
        Some(Sought::Status)
    } else {
        named_place(mode, word)
    }
}

fn named_place(mode: Mode, word: &[u8]) -> Option<Sought>
    ensures { result ≡ sought_place mode word.now }
{
    let register = register_of_name(word);
    let banked = banked_register_named(word);
    sought_in(mode, register, banked, WordAddress::spelled(word))
}

// A register of the present mode, of a mode's bank, or a word, by what its name is found to be.
fn sought_in(
    mode: Mode,
    register: Option<RegisterNumber>,
    banked: Option<(Mode, RegisterNumber)>,
    address: Option<WordAddress>,
) -> Option<Sought>
    ensures { result ≡ sought_in mode register banked address }
{
    match (register, banked) {
        (Some(number), _) => Some(Sought::Register(mode, number)),
        (None, Some((bank, number))) => Some(Sought::Banked(bank, number)),
        (None, None) => address.map(Sought::Word),
    }
}

fn sized(size: &[u8], address: &[u8]) -> Option<Sought>
    ensures { result ≡ sought_sized size.now address.now }
{
    if size.eq_ignore_ascii_case(b"WORD") {
        WordAddress::spelled(address).map(Sought::Word)
    } else if size.eq_ignore_ascii_case(b"BYTE") {
        number_of(address).map(Sought::Byte)
    } else if size.eq_ignore_ascii_case(b"BLOCK") {
        number_of(address).map(Sought::Block)
    } else {
        None
    }
}

/// How many steps a tidy line asks for that shows the last ones: `LAST STEPS n`, 1 to 1000.
pub fn last_steps_asked(line: &[u8]) -> Option<u32>
    ensures { result ≡ last_steps_asked line.now }
{
    match (line.get(..11), line.get(11..)) {
        (Some(words), Some(count)) if words.eq_ignore_ascii_case(b"LAST STEPS ") => {
            count_up_to(1000, count)
        }
        _ => None,
    }
}
