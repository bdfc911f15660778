//! What each line of a script asks for.

ghost use Rattle.std.specs.Prelude.{◌≡◌, ◌<◌, true, [], ◌∷◌, length};
ghost use Rattle.command_shell_lines.specs.Numbers.{script_number};
ghost use Rattle.command_shell_lines.specs.Operands.{cpu_register_named, word_address, origin_of, count_up_to};
ghost use Rattle.command_shell_lines.specs.Requests.{Hex, Boot, Set, Poke, Mem, Code, is_same_word, is_end_of_block, is_load, words, request_if_named, named_at, both_numbered, request_of, request_of_word, request_of_number, request_of_two, request_of_three, request_of_words, request_of_command};
ghost use Rattle.assembler_text.specs.Entries.{can_name_image};

use crate::numbers::number_of;
use crate::operands::{Origin, RegisterNumber, WordAddress, count_up_to};
use assembler_text::{cut, is_image_name};

/// The most bytes of memory that a line shows.
const MAX_BYTES_SHOWN: u32 = 4096;

/// The most words that a line shows as instructions.
const MAX_WORDS_SHOWN: u32 = 1024;

/// What a line begins with that loads a module.
const LOAD: &[u8] = b"LOAD ";

/// What a line of a script asks for.
#[derive(Clone, Copy)]
pub enum ScriptCommand<'a> {
    /// An empty line.
    Nothing,
    /// `HEX name`, which opens a block.
    Hex(&'a [u8]),
    /// `ASM name origin`, which opens a block.
    Asm(&'a [u8], Origin),
    /// `BOOT name`.
    Boot(&'a [u8]),
    /// `RUN`.
    Run,
    /// `REGS`.
    Regs,
    /// `SET Rn v`.
    Set(RegisterNumber, u32),
    /// `POKE a v`.
    Poke(WordAddress, u32),
    /// `CALL n`.
    Call(u32),
    /// `LOAD text`, with a text of a byte at least.
    Load(&'a [u8]),
    /// `STEP n`.
    Step(u32),
    /// `BREAK a`.
    Break(u32),
    /// `UNBREAK a`.
    Unbreak(u32),
    /// `MEM a n`, of 1 to 4096 bytes.
    Mem(u32, u32),
    /// `CODE a n`, of 1 to 1024 words.
    Code(WordAddress, u32),
    /// `HEAP a`.
    Heap(u32),
    /// `AREAS`.
    Areas,
    /// `MODULES`.
    Modules,
    /// `FLEX`.
    Flex,
    /// Any other line.
    Unknown,
}

impl ScriptCommand<'_> {
    ghost use Rattle.command_shell_lines.specs.Requests.{opens_block, request_of_command};

    /// Whether the lines that follow are a block of the line's own.
    pub fn opens_block(&self) -> bool
        ensures { result ≡ opens_block (request_of_command self.now) }
    {
        matches!(self, ScriptCommand::Hex(_) | ScriptCommand::Asm(_, _))
    }
}

/// Reads a line. Words are parted by single spaces, but the text of LOAD is all that follows; a
/// command may be in upper or lower case.
pub fn command_of(line: &[u8]) -> ScriptCommand<'_>
    ensures { request_of_command result ≡ request_of line.now }
{
    if is_load(line) {
        ScriptCommand::Load(&line[LOAD.len()..])
    } else {
        command_of_line(line)
    }
}

// Whether the line is LOAD with a text.
fn is_load(line: &[u8]) -> bool
    ensures value { result ≡ is_load line.now }
    ensures long { result ≡ true → 5 < length line.now }
{
    line.len() > LOAD.len() && has_letters(&line[..LOAD.len()], LOAD)
}

// A line of words.
fn command_of_line(line: &[u8]) -> ScriptCommand<'_>
    ensures { request_of_command result ≡ request_of_words (words line.now) }
{
    let (word, rest) = cut(line, b' ');
    match rest {
        Some(rest) => command_of_words(word, rest),
        None => command_of_word(word),
    }
}

/// Whether the line ends a block.
pub fn is_block_end(line: &[u8]) -> bool
    ensures { result ≡ is_end_of_block line.now }
{
    has_letters(line, b"END")
}

fn command_of_word(word: &[u8]) -> ScriptCommand<'static>
    ensures { request_of_command result ≡ request_of_word word.now }
{
    if word.is_empty() {
        ScriptCommand::Nothing
    } else if has_letters(word, b"RUN") {
        ScriptCommand::Run
    } else if has_letters(word, b"REGS") {
        ScriptCommand::Regs
    } else if has_letters(word, b"AREAS") {
        ScriptCommand::Areas
    } else if has_letters(word, b"MODULES") {
        ScriptCommand::Modules
    } else if has_letters(word, b"FLEX") {
        ScriptCommand::Flex
    } else {
        ScriptCommand::Unknown
    }
}

fn command_of_words<'a>(word: &[u8], rest: &'a [u8]) -> ScriptCommand<'a>
    ensures { request_of_command result ≡ request_of_words (word.now ∷ words rest.now) }
{
    let (other, more) = cut(rest, b' ');
    match more {
        Some(more) => command_of_more(word, other, more),
        None => command_of_two(word, other),
    }
}

fn command_of_more<'a>(word: &[u8], first: &'a [u8], rest: &[u8]) -> ScriptCommand<'a>
    ensures { request_of_command result ≡ request_of_words (word.now ∷ first.now ∷ words rest.now) }
{
    let (second, more) = cut(rest, b' ');
    match more {
        Some(_) => ScriptCommand::Unknown,
        None => command_of_three(word, first, second),
    }
}

fn command_of_two<'a>(word: &[u8], other: &'a [u8]) -> ScriptCommand<'a>
    ensures { request_of_command result ≡ request_of_two word.now other.now }
{
    if has_letters(word, b"HEX") {
        hex_command(other)
    } else if has_letters(word, b"BOOT") {
        boot_command(other)
    } else {
        match number_of(other) {
            Some(number) => command_of_number(word, number),
            None => ScriptCommand::Unknown,
        }
    }
}

fn command_of_number(word: &[u8], number: u32) -> ScriptCommand<'static>
    ensures { request_of_command result ≡ request_of_number word.now number }
{
    if has_letters(word, b"CALL") {
        ScriptCommand::Call(number)
    } else if has_letters(word, b"STEP") {
        ScriptCommand::Step(number)
    } else if has_letters(word, b"BREAK") {
        ScriptCommand::Break(number)
    } else if has_letters(word, b"UNBREAK") {
        ScriptCommand::Unbreak(number)
    } else if has_letters(word, b"HEAP") {
        ScriptCommand::Heap(number)
    } else {
        ScriptCommand::Unknown
    }
}

fn command_of_three<'a>(word: &[u8], first: &'a [u8], second: &[u8]) -> ScriptCommand<'a>
    ensures { request_of_command result ≡ request_of_three word.now first.now second.now }
{
    if has_letters(word, b"ASM") {
        asm_command(first, second)
    } else if has_letters(word, b"SET") {
        set_command(first, second)
    } else if has_letters(word, b"POKE") {
        poke_command(first, second)
    } else if has_letters(word, b"MEM") {
        mem_command(first, second)
    } else if has_letters(word, b"CODE") {
        code_command(first, second)
    } else {
        ScriptCommand::Unknown
    }
}

fn hex_command(name: &[u8]) -> ScriptCommand<'_>
    ensures { request_of_command result ≡ request_if_named (can_name_image name.now) (Hex name.now) }
{
    if is_image_name(name) {
        ScriptCommand::Hex(name)
    } else {
        ScriptCommand::Unknown
    }
}

fn asm_command<'a>(name: &'a [u8], origin: &[u8]) -> ScriptCommand<'a>
    ensures { request_of_command result ≡ named_at (can_name_image name.now) name.now (origin_of origin.now) }
{
    match Origin::spelled(origin) {
        Some(origin) if is_image_name(name) => ScriptCommand::Asm(name, origin),
        _ => ScriptCommand::Unknown,
    }
}

fn boot_command(name: &[u8]) -> ScriptCommand<'_>
    ensures { request_of_command result ≡ request_if_named (can_name_image name.now) (Boot name.now) }
{
    if is_image_name(name) {
        ScriptCommand::Boot(name)
    } else {
        ScriptCommand::Unknown
    }
}

fn set_command(register: &[u8], value: &[u8]) -> ScriptCommand<'static>
    ensures { request_of_command result
        ≡ both_numbered (cpu_register_named register.now) (script_number value.now) Set }
{
    match (RegisterNumber::named(register), number_of(value)) {
        (Some(register), Some(value)) => ScriptCommand::Set(register, value),
        _ => ScriptCommand::Unknown,
    }
}

fn poke_command(address: &[u8], value: &[u8]) -> ScriptCommand<'static>
    ensures { request_of_command result
        ≡ both_numbered (word_address address.now) (script_number value.now) Poke }
{
    match (WordAddress::spelled(address), number_of(value)) {
        (Some(address), Some(value)) => ScriptCommand::Poke(address, value),
        _ => ScriptCommand::Unknown,
    }
}

fn mem_command(address: &[u8], count: &[u8]) -> ScriptCommand<'static>
    ensures { request_of_command result
        ≡ both_numbered (script_number address.now) (count_up_to 4096 count.now) Mem }
{
    match (number_of(address), count_up_to(MAX_BYTES_SHOWN, count)) {
        (Some(address), Some(count)) => ScriptCommand::Mem(address, count),
        _ => ScriptCommand::Unknown,
    }
}

fn code_command(address: &[u8], count: &[u8]) -> ScriptCommand<'static>
    ensures { request_of_command result
        ≡ both_numbered (word_address address.now) (count_up_to 1024 count.now) Code }
{
    match (
        WordAddress::spelled(address),
        count_up_to(MAX_WORDS_SHOWN, count),
    ) {
        (Some(address), Some(count)) => ScriptCommand::Code(address, count),
        _ => ScriptCommand::Unknown,
    }
}

/// The same letters in either case.
pub(crate) fn has_letters(word: &[u8], letters: &[u8]) -> bool
    ensures { result ≡ is_same_word word.now letters.now }
{
    word.eq_ignore_ascii_case(letters)
}
