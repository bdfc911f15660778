//! What a line STUB asks for.

ghost use Rattle.std.specs.Prelude.{◌≡◌, option_map};
ghost use Rattle.command_shell_lines.specs.Numbers.{script_number};
ghost use Rattle.command_shell_lines.specs.Operands.{origin_of, word_address};
ghost use Rattle.command_shell_lines.specs.Requests.{words};
ghost use Rattle.command_shell_lines.specs.debug_words.StubLines.{empty_stub, flag_shown, flag_set_once, stub_of_line, with_flag};

use crate::debug_words::values::swi_shown;
use crate::numbers::number_of;
use crate::operands::{Origin, RegisterNumber, WordAddress};
use arrayvec::ArrayVec;
use assembler_text::cut;
use std::marker::Model;

/// How many registers a stub sets at most.
pub const MOST_STUB_REGISTERS: usize = 8;

/// How many words it stores at most.
pub const MOST_STUB_WORDS: usize = 8;

/// A register that a stub sets.
#[derive(Clone, Copy)]
pub struct StubRegister {
    pub register: RegisterNumber,
    pub value: u32,
}

impl Default for StubRegister {
    fn default() -> StubRegister {
        StubRegister {
            register: RegisterNumber::new(0),
            value: 0,
        }
    }
}

/// The flags that a stub sets or clears; with `None` a flag stays, but V, which is cleared.
#[derive(Clone, Copy, Default)]
pub struct StubFlags {
    pub negative: Option<bool>,
    pub zero: Option<bool>,
    pub carry: Option<bool>,
    pub overflow: Option<bool>,
}

impl StubFlags {
    // One flag more, by its letter.
    fn with(self, letter: u8, is_set: bool) -> Option<StubFlags>
        ensures { result ≡ with_flag self letter is_set }
    {
        match letter {
            b'N' | b'n' => Some(StubFlags {
                negative: flag_set_once(self.negative, is_set)?,
                ..self
            }),
            b'Z' | b'z' => Some(StubFlags {
                zero: flag_set_once(self.zero, is_set)?,
                ..self
            }),
            b'C' | b'c' => Some(StubFlags {
                carry: flag_set_once(self.carry, is_set)?,
                ..self
            }),
            b'V' | b'v' => Some(StubFlags {
                overflow: flag_set_once(self.overflow, is_set)?,
                ..self
            }),
            _ => None,
        }
    }
}

fn flag_set_once(before: Option<bool>, is_set: bool) -> Option<Option<bool>>
    ensures { result ≡ flag_set_once before is_set }
{
    match before {
        None => Some(Some(is_set)),
        Some(_) => None,
    }
}

// The letter of a flag, and whether it is set: `C=1`.
fn flag_shown(word: &[u8]) -> Option<(u8, bool)>
    ensures { result ≡ flag_shown word.now }
{
    match word {
        [letter, b'=', b'1'] => Some((*letter, true)),
        [letter, b'=', b'0'] => Some((*letter, false)),
        _ => None,
    }
}

/// What a SWI does that the machine doesn't have.
#[derive(Default, Drop)]
pub struct Stub {
    /// The SWI's number.
    pub number: u32,
    /// The registers that are set, one after another.
    pub registers: ArrayVec<StubRegister, MOST_STUB_REGISTERS>,
    /// The flags that are set or cleared.
    pub flags: StubFlags,
    /// Where words are stored, one behind another.
    pub at: u32,
    /// The words.
    pub words: ArrayVec<u32, MOST_STUB_WORDS>,
    /// The code that is entered, if some is.
    pub entry: Option<Origin>,
}

impl Stub {
    ghost use Rattle.command_shell_lines.specs.debug_words.StubLines.{stub_entering, stub_with_flag, stub_with_pair, stub_with_register, stub_with_word};

    // That says nothing but its SWI.
    fn of_swi(number: u32) -> Stub
        ensures { result ≡ empty_stub number }
    {
        Stub {
            number,
            registers: ArrayVec::new(),
            flags: StubFlags {
                negative: None,
                zero: None,
                carry: None,
                overflow: None,
            },
            at: 0,
            words: ArrayVec::new(),
            entry: None,
        }
    }

    /// The same once more.
    pub fn copied(&self) -> Stub
        ensures { result ≡ self.now }
    {
        let mut copy = Stub::of_swi(self.number);
        copy.flags = self.flags;
        copy.at = self.at;
        copy.entry = self.entry;
        let _fit = copy
            .registers
            .try_extend_from_slice(self.registers.as_slice());
        let _fit = copy.words.try_extend_from_slice(self.words.as_slice());
        copy
    }

    fn with_flag(mut self, letter: u8, is_set: bool) -> Option<Stub>
        ensures { result ≡ stub_with_flag self letter is_set }
    {
        self.flags = self.flags.with(letter, is_set)?;
        Some(self)
    }

    // Two words more: a register, an address or AT, and its value.
    fn with_pair(self, first: &[u8], second: &[u8]) -> Option<Stub>
        ensures { result ≡ stub_with_pair self first.now second.now }
    {
        if first.eq_ignore_ascii_case(b"AT") {
            return self.entering(Origin::spelled(second));
        }
        match RegisterNumber::named(first) {
            Some(register) => self.with_register(register, number_of(second)),
            None => self.with_word(WordAddress::spelled(first), number_of(second)),
        }
    }

    fn with_register(mut self, register: RegisterNumber, value: Option<u32>) -> Option<Stub>
        ensures { result ≡ stub_with_register self register value }
    {
        let value = value?;
        if self.registers.is_full() {
            return None;
        }
        self.registers.push(StubRegister { register, value });
        Some(self)
    }

    fn with_word(mut self, address: Option<WordAddress>, word: Option<u32>) -> Option<Stub>
        ensures { result ≡ stub_with_word self address word }
    {
        let address = address?.address();
        let word = word?;
        if self.words.is_full() {
            return None;
        }
        if self.words.is_empty() {
            self.at = address;
        } else if u64::from(address) != u64::from(self.at) + 4 * self.words.len() as u64 {
            return None;
        }
        self.words.push(word);
        Some(self)
    }

    fn entering(mut self, entry: Option<Origin>) -> Option<Stub>
        ensures { result ≡ stub_entering self entry }
    {
        let entry = entry?;
        if !self.words.is_empty() {
            return None;
        }
        self.entry = Some(entry);
        Some(self)
    }
}

// What was read of a line, and the first of two words, where that alone was read.
#[derive(Drop)]
struct StubReading<'a> {
    stub: Stub,
    first: Option<&'a [u8]>,
}

impl<'a> Model for StubReading<'a> {
    ghost use Rattle.std.specs.Prelude.{option_map};
    ghost use Rattle.command_shell_lines.specs.debug_words.StubLines.{StubRead};

    ghost Value = { StubRead };

    ghost view = { λ r. record { stub = r.stub; first = option_map (λ word. word.now) r.first } };
}

impl<'a> StubReading<'a> {
    ghost use Rattle.command_shell_lines.specs.debug_words.StubLines.{read_word, whole_stub};

    // A word more, unless code is entered.
    fn read(self, word: &'a [u8]) -> Option<StubReading<'a>>
        ensures { result ≡ read_word self.entry word.now }
    {
        if self.stub.entry.is_some() {
            return None;
        }
        if let Some(first) = self.first {
            let stub = self.stub.with_pair(first, word)?;
            return Some(StubReading { stub, first: None });
        }
        match flag_shown(word) {
            Some((letter, is_set)) => {
                let stub = self.stub.with_flag(letter, is_set)?;
                Some(StubReading { stub, first: None })
            }
            None => Some(StubReading {
                stub: self.stub,
                first: Some(word),
            }),
        }
    }

    // The stub, where no word is missing.
    fn whole(self) -> Option<Stub>
        ensures { result ≡ whole_stub self.entry }
    {
        match self.first {
            Some(_) => None,
            None => Some(self.stub),
        }
    }
}

/// The stub that a line asks for, by what stands behind the word STUB.
pub fn stub_of_line(text: &[u8]) -> Option<Stub>
    ensures { result ≡ stub_of_line text.now }
{
    let (number, items) = cut(text, b' ');
    let mut reading = StubReading {
        stub: Stub::of_swi(swi_shown(number)?),
        first: None,
    };
    let mut left = items;
    while let Some(text) = left {
        let (word, rest) = cut(text, b' ');
        match reading.read(word) {
            Some(next) => reading = next,
            None => return None,
        }
        left = rest;
    }
    reading.whole()
}
