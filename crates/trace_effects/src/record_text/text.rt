//! A text that is made of names, numbers and strings of bytes.

ghost use Rattle.std.specs.Prelude.{◌≡◌, ◌<◌, ◌++◌, [], ◌∷◌, true, false, codes, OnOk};
ghost use Rattle.std.specs.Fmt.{decimal};
ghost use Rattle.std.specs.List.{flat_map, list_all};
ghost use Rattle.profile.specs.text_sink.Safe.{is_safe};
ghost use Rattle.trace_effects.specs.record_text.Spelling.{closing, code_escape, comma_before, name_text, opening, small_digit, json_byte, string_text};

use itoa::Buffer;
use std::alloc::{AllocError, Global};

/// A text of records. All its bytes are printing ASCII characters other than `<`, and line feeds, so
/// no data can end an element of a page that it stands in.
#[derive(Drop)]
pub struct RecordText {
    bytes: Vec<u8>,
    /// Whether a value stands before the next one, in the object or list that is open.
    follows: bool,
    ghost safe: { list_all is_safe bytes.items ≡ true },
}

impl RecordText {
    /// No text.
    pub fn new(alloc: Global) -> RecordText
        ensures text { result.bytes.items ≡ [] }
        ensures follows { result.follows ≡ false }
    {
        RecordText {
            bytes: Vec::new(alloc),
            follows: false,
        }
    }

    /// What was written.
    pub fn bytes(&self) -> &[u8]
        ensures value { result.now ≡ self.now.bytes.items }
        ensures safe { list_all is_safe result.now ≡ true }
    {
        self.bytes.as_slice()
    }

    /// No text again, in the memory of what was written.
    pub fn clear(&mut self)
        ensures text { self.new.bytes.items ≡ [] }
        ensures follows { self.new.follows ≡ false }
    {
        self.bytes.clear();
        self.follows = false;
    }

    /// Drops what was written, and goes on with what is open.
    pub fn go_on(&mut self)
        ensures text { self.new.bytes.items ≡ [] }
        ensures follows { self.new.follows ≡ self.old.follows }
    {
        self.bytes.clear();
    }

    /// Begins an object or, with `[`, a list.
    pub fn open(&mut self, mark: Bracket) -> Result<(), AllocError>
        ensures text { OnOk result (self.new.bytes.items
            ≡ self.old.bytes.items ++ (comma_before self.old.follows ++ opening mark)) }
        ensures follows { OnOk result (self.new.follows ≡ false) }
    {
        self.separate()?;
        self.follows = false;
        match mark {
            Bracket::Object => self.mark(b'{'),
            Bracket::List => self.mark(b'['),
        }
    }

    /// Ends the object or list that was begun last.
    pub fn close(&mut self, mark: Bracket) -> Result<(), AllocError>
        ensures text { OnOk result (self.new.bytes.items ≡ self.old.bytes.items ++ closing mark) }
        ensures follows { OnOk result (self.new.follows ≡ true) }
    {
        self.follows = true;
        match mark {
            Bracket::Object => self.mark(b'}'),
            Bracket::List => self.mark(b']'),
        }
    }

    /// Names the value that is written next.
    pub fn name(&mut self, name: &[u8]) -> Result<(), AllocError>
        ensures text { OnOk result (self.new.bytes.items
            ≡ self.old.bytes.items ++ (comma_before self.old.follows ++ name_text name.now)) }
        ensures follows { OnOk result (self.new.follows ≡ false) }
    {
        self.string(name)?;
        self.follows = false;
        self.mark(b':')
    }

    /// Writes bytes as a string: each is the character of its number.
    pub fn string(&mut self, bytes: &[u8]) -> Result<(), AllocError>
        ensures text { OnOk result (self.new.bytes.items
            ≡ self.old.bytes.items ++ (comma_before self.old.follows ++ string_text bytes.now)) }
        ensures follows { OnOk result (self.new.follows ≡ true) }
    {
        self.open_string()?;
        self.push_all(bytes)?;
        self.close_string()
    }

    /// Begins a string, whose bytes are written one by one.
    pub fn open_string(&mut self) -> Result<(), AllocError>
        ensures text { OnOk result (self.new.bytes.items
            ≡ self.old.bytes.items ++ (comma_before self.old.follows ++ codes "\"")) }
        ensures follows { OnOk result (self.new.follows ≡ true) }
    {
        self.separate()?;
        self.mark(b'"')
    }

    /// Writes a byte of a string that is open.
    pub fn character(&mut self, byte: u8) -> Result<(), AllocError>
        ensures text { OnOk result (self.new.bytes.items ≡ self.old.bytes.items ++ json_byte byte) }
        ensures follows { OnOk result (self.new.follows ≡ self.old.follows) }
    {
        self.push(byte)
    }

    /// Ends a string.
    pub fn close_string(&mut self) -> Result<(), AllocError>
        ensures text { OnOk result (self.new.bytes.items ≡ self.old.bytes.items ++ codes "\"") }
        ensures follows { OnOk result (self.new.follows ≡ self.old.follows) }
    {
        self.mark(b'"')
    }

    /// Writes a number.
    #[tactic(auto, using(crate::proofs::RecordTextLemmas::SpellingLemmas::plain_decimal))]
    pub fn number(&mut self, number: u64) -> Result<(), AllocError>
        ensures text { OnOk result (self.new.bytes.items
            ≡ self.old.bytes.items ++ (comma_before self.old.follows ++ decimal number)) }
        ensures follows { OnOk result (self.new.follows ≡ true) }
    {
        let mut digits = Buffer::new();
        self.word(digits.format(number).as_bytes())
    }

    /// Writes `true`, `false`, `null` or the digits of a number.
    pub fn word(&mut self, word: &[u8]) -> Result<(), AllocError>
        ensures text { OnOk result (self.new.bytes.items
            ≡ self.old.bytes.items ++ (comma_before self.old.follows ++ flat_map json_byte word.now)) }
        ensures follows { OnOk result (self.new.follows ≡ true) }
    {
        self.separate()?;
        self.push_all(word)
    }

    /// Writes a named number.
    pub fn number_field(&mut self, name: &[u8], number: u64) -> Result<(), AllocError>
        ensures text { OnOk result (self.new.bytes.items
            ≡ self.old.bytes.items
            ++ (comma_before self.old.follows ++ (name_text name.now ++ decimal number))) }
        ensures follows { OnOk result (self.new.follows ≡ true) }
    {
        self.name(name)?;
        self.number(number)
    }

    /// Writes a named string.
    pub fn string_field(&mut self, name: &[u8], bytes: &[u8]) -> Result<(), AllocError>
        ensures text { OnOk result (self.new.bytes.items
            ≡ self.old.bytes.items
            ++ (comma_before self.old.follows ++ (name_text name.now ++ string_text bytes.now))) }
        ensures follows { OnOk result (self.new.follows ≡ true) }
    {
        self.name(name)?;
        self.string(bytes)
    }

    /// Writes `true` by a name.
    pub fn truth_field(&mut self, name: &[u8]) -> Result<(), AllocError>
        ensures text { OnOk result (self.new.bytes.items
            ≡ self.old.bytes.items
            ++ (comma_before self.old.follows ++ (name_text name.now ++ codes "true"))) }
        ensures follows { OnOk result (self.new.follows ≡ true) }
    {
        self.name(name)?;
        self.word(b"true")
    }

    /// Writes a list of numbers.
    pub fn numbers(&mut self, numbers: &[u32]) -> Result<(), AllocError> {
        self.open(Bracket::List)?;
        for number in numbers {
            self.number(u64::from(*number))?;
        }
        self.close(Bracket::List)
    }

    /// Begins a named object or list.
    pub fn open_field(&mut self, name: &[u8], mark: Bracket) -> Result<(), AllocError>
        ensures text { OnOk result (self.new.bytes.items
            ≡ self.old.bytes.items
            ++ (comma_before self.old.follows ++ (name_text name.now ++ opening mark))) }
        ensures follows { OnOk result (self.new.follows ≡ false) }
    {
        self.name(name)?;
        self.open(mark)
    }

    /// Ends a line.
    pub fn end_line(&mut self) -> Result<(), AllocError>
        ensures text { OnOk result (self.new.bytes.items ≡ self.old.bytes.items ++ codes "\n") }
        ensures follows { OnOk result (self.new.follows ≡ false) }
    {
        self.follows = false;
        self.mark(b'\n')
    }

    // Writes a comma before a value that another stands before.
    fn separate(&mut self) -> Result<(), AllocError>
        ensures text { OnOk result (self.new.bytes.items
            ≡ self.old.bytes.items ++ comma_before self.old.follows) }
        ensures follows { OnOk result (self.new.follows ≡ true) }
    {
        let follows = self.follows;
        self.follows = true;
        if follows { self.mark(b',') } else { Ok(()) }
    }

    fn push_all(&mut self, bytes: &[u8]) -> Result<(), AllocError>
        ensures text { OnOk result (self.new.bytes.items
            ≡ self.old.bytes.items ++ flat_map json_byte bytes.now) }
        ensures follows { OnOk result (self.new.follows ≡ self.old.follows) }
    {
        for byte in bytes {
            self.push(*byte)?;
        }
        Ok(())
    }

    // Writes a byte of a string.
    fn push(&mut self, byte: u8) -> Result<(), AllocError>
        ensures text { OnOk result (self.new.bytes.items ≡ self.old.bytes.items ++ json_byte byte) }
        ensures follows { OnOk result (self.new.follows ≡ self.old.follows) }
    {
        match byte {
            b'"' | b'\\' => {
                self.mark(b'\\')?;
                self.mark(byte)
            }
            b'\n' => self.escape(b'n'),
            b'\r' => self.escape(b'r'),
            b'\t' => self.escape(b't'),
            _ if byte < b' ' || byte > b'~' || byte == b'<' => self.escape_code(byte),
            _ => self.mark(byte),
        }
    }

    fn escape(&mut self, letter: u8) -> Result<(), AllocError>
        requires { is_safe letter ≡ true }
        ensures text { OnOk result (self.new.bytes.items ≡ self.old.bytes.items ++ 92 ∷ letter ∷ []) }
        ensures follows { OnOk result (self.new.follows ≡ self.old.follows) }
    {
        self.mark(b'\\')?;
        self.mark(letter)
    }

    // Writes a byte by its code, `\u003c`.
    fn escape_code(&mut self, byte: u8) -> Result<(), AllocError>
        ensures text { OnOk result (self.new.bytes.items ≡ self.old.bytes.items ++ code_escape byte) }
        ensures follows { OnOk result (self.new.follows ≡ self.old.follows) }
    {
        self.escape(b'u')?;
        self.mark(b'0')?;
        self.mark(b'0')?;
        self.digit(byte / 16)?;
        self.digit(byte % 16)
    }

    fn digit(&mut self, digit: u8) -> Result<(), AllocError>
        requires { digit < 16 }
        ensures text { OnOk result (self.new.bytes.items
            ≡ self.old.bytes.items ++ small_digit digit ∷ []) }
        ensures follows { OnOk result (self.new.follows ≡ self.old.follows) }
    {
        if digit < 10 {
            self.mark(b'0' + digit)
        } else {
            self.mark(b'a' + (digit - 10))
        }
    }

    fn mark(&mut self, byte: u8) -> Result<(), AllocError>
        requires { is_safe byte ≡ true }
        ensures text { OnOk result (self.new.bytes.items ≡ self.old.bytes.items ++ byte ∷ []) }
        ensures follows { OnOk result (self.new.follows ≡ self.old.follows) }
    {
        self.bytes.push(byte)?;
        Ok(())
    }
}

/// What holds values.
#[derive(Clone, Copy)]
pub enum Bracket {
    Object,
    List,
}
