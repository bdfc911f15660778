//! Where the reading of a text stands, its next line, and a text cut at a separator.

ghost use Rattle.std.specs.Prelude.{◌≡◌, ◌<◌, ◌+◌, ◌-◌, ◌^◌, ◌==◌, ◌∷◌, [], length, take, drop, map, IfSome, IfNone};
ghost use Rattle.std.specs.Option.{option_map_or};
ghost use Rattle.std.specs.List.{slice_split, position};
ghost use Rattle.std.specs.Str.Lines.{lines, strip_carriage_return};
ghost use Rattle.profile.specs.text_lines.WholeLines.{whole_lines, unended_line};

use std::marker::Model;

/// Where the reading of a text stands. Its lines end in LF or CR LF; the last may lack it, and a
/// carriage return elsewhere is a byte of its line.
#[derive(Drop)]
pub struct Lines<'a> {
    rest: &'a [u8],
    number: usize,
}

impl<'a> Model for Lines<'a> {
    ghost use Rattle.std.specs.Prelude.{◌<◌, ◌+◌, ◌^◌, length};
    ghost use Rattle.profile.specs.text_lines.Lines.{ReadingPlace};
    ghost use Rattle.std.specs.Str.Lines.{lines};

    ghost Value = { ReadingPlace };

    ghost view = { λ l. record { left = lines l.rest.now; number = l.number } };

    ghost invariant = { λ l. l.number + length l.rest.now < 2 ^ 64 };
}

impl<'a> Lines<'a> {
    /// At the first line.
    pub fn new(text: &'a [u8]) -> Lines<'a>
        ensures { result ≡ record { left = lines text.now; number = 0 } }
    {
        Lines {
            rest: text,
            number: 0,
        }
    }

    /// At the first line of a text before which so many lines stood.
    pub fn after(text: &'a [u8], number: usize) -> Lines<'a>
        requires { number + length text.now < 2 ^ 64 }
        ensures { result ≡ record { left = lines text.now; number = number } }
    {
        Lines { rest: text, number }
    }

    /// How many lines were read.
    pub fn number(&self) -> usize
        ensures { result ≡ self.now.number }
    {
        self.number
    }

    /// A second reading from the same place.
    pub fn again(&self) -> Lines<'a>
        ensures { result ≡ self.now }
    {
        Lines {
            rest: self.rest,
            number: self.number,
        }
    }

    /// How many lines are left.
    pub fn count(&self) -> usize
        ensures { result ≡ length self.now.left }
    {
        let mut lines = self.again();
        while let Some(_line) = lines.next_line() {}
        lines.number - self.number
    }

    /// The next line, without its end.
    pub fn next_line(&mut self) -> Option<&'a [u8]>
        ensures line { self.old.left ≡ option_map_or (λ line. line.now ∷ self.new.left) result [] }
        ensures number { IfSome result (λ _. self.new.number ≡ self.old.number + 1) }
        ensures end { IfNone result (self.new ≡ self.old) }
    {
        if self.rest.is_empty() {
            return None;
        }
        let (line, after) = cut(self.rest, b'\n');
        self.number += 1;
        match after {
            Some(rest) => {
                self.rest = rest;
                Some(without_return(line))
            }
            None => {
                self.rest = &[];
                Some(line)
            }
        }
    }
}

/// The bytes before the first separator, and those after it where there is one.
pub fn cut<'a>(bytes: &'a [u8], separator: u8) -> (&'a [u8], Option<&'a [u8]>)
    ensures parts { slice_split (λ b. b == separator) bytes.now
        ≡ result.0.now ∷ option_map_or (λ rest. slice_split (λ b. b == separator) rest.now) result.1 [] }
    ensures shorter { IfSome result.1 (λ rest. length rest.now < length bytes.now) }
{
    match place_of(bytes, separator) {
        Some(place) => (&bytes[..place], Some(&bytes[place + 1..])),
        None => (bytes, None),
    }
}

/// The first line and the bytes after its end, where it has one: LF or CR LF.
pub fn cut_line(text: &[u8]) -> Option<(&[u8], &[u8])>
    ensures lines { whole_lines text.now
        ≡ option_map_or (λ cut. cut.0.now ∷ whole_lines cut.1.now) result [] }
    ensures unended { unended_line text.now
        ≡ option_map_or (λ cut. unended_line cut.1.now) result text.now }
    ensures shorter { IfSome result (λ cut. length cut.1.now < length text.now) }
    ensures after { IfSome result
        (λ cut. cut.1.now ≡ drop (length text.now - length cut.1.now) text.now) }
    ensures one { IfSome result
        (λ cut. whole_lines (take (length text.now - length cut.1.now) text.now) ≡ cut.0.now ∷ []) }
    ensures ends { IfSome result
        (λ cut. unended_line (take (length text.now - length cut.1.now) text.now) ≡ []) }
{
    match place_of(text, b'\n') {
        Some(place) => Some((without_return(&text[..place]), &text[place + 1..])),
        None => None,
    }
}

fn place_of(bytes: &[u8], separator: u8) -> Option<usize>
    ensures { result ≡ position (λ b. b == separator) bytes.now }
{
    bytes.iter().position(|byte| *byte == separator)
}

fn without_return(line: &[u8]) -> &[u8]
    ensures { result.now ≡ strip_carriage_return line.now }
{
    match line {
        [front @ .., b'\r'] => front,
        _ => line,
    }
}
