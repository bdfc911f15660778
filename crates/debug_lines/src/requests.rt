//! What each line of a debugging script asks for.

ghost use Rattle.std.specs.Prelude.{◌≡◌, option_map};
ghost use Rattle.command_shell_lines.specs.Numbers.{script_number};
ghost use Rattle.command_shell_lines.specs.Operands.{word_address, count_up_to, origin_of};
ghost use Rattle.command_shell_lines.specs.Requests.{request_of, request_of_command, words};
ghost use Rattle.profile.specs.images.Entries.{can_name_image};
ghost use Rattle.debug_lines.specs.DebugRequests.{is_script_request, is_remark, untraced_request, expect_line, own_request_of_words, of_image, is_frames_word, own_request_of_word, own_request_of_two, own_request_of_three, own_request_of_four, named_call, dump_at, gosub_to, help_of, mode_line, put_at, stack_of, words_at, debug_request_of_command};
ghost use Rattle.debug_lines.specs.Expectations.{expect_request};
ghost use Rattle.command_shell_lines.specs.debug_words.Forms.{form_of_word};
ghost use Rattle.debug_lines.specs.ModeRequests.{mode_request_of};
ghost use Rattle.command_shell_lines.specs.debug_words.SwiNames.{swi_named};

use crate::byte_lines::bytes_command;
use crate::expectations::{Expectation, expectation_of};
use crate::few_words::{FewWords, few_words, has_letters};
use crate::modes::{ModeCommand, mode_of_two, stub_command};
use crate::settings::{set_command, set_psr_command};
use crate::status::StatusPattern;
use crate::stepping::SteppingCommand;
use command_shell_lines::debug_words::{form_of_word, swi_named, text_behind};
use command_shell_lines::{Origin, ScriptCommand, WordAddress, command_of, count_up_to, number_of};
use profile::images::is_image_name;

/// The most words that a line shows.
const MAX_WORDS_SHOWN: u32 = 1024;

/// The most bytes that a line shows.
const MAX_BYTES_SHOWN: u32 = 4096;

/// So many words of the stack are shown where a line shows no number.
const STACK_WORDS: u32 = 8;

/// What a line asks for that only looks.
#[derive(Clone, Copy)]
pub enum DebugView {
    /// `WORDS a n`, of 1 to 1024 words.
    Words(WordAddress, u32),
    /// `WHERE`.
    Where,
    /// `BANKS`.
    Banks,
    /// `STACK n`, of 1 to 1024 words; `STACK` is of 8.
    Stack(u32),
    /// `FRAMES`, `BACKTRACE` or `BT`.
    Frames,
    /// `LABELS`.
    Labels,
    /// `DUMP a n`, of 1 to 4096 bytes.
    Dump(u32, u32),
    /// `WHY`.
    Why,
    /// `HELP`.
    Help,
}

/// What a line of a debugging script asks for.
#[derive(Drop)]
pub enum DebugCommand<'a> {
    /// A line of a script, as it stands or made tidy.
    Script(ScriptCommand<'a>),
    /// A line that takes steps, and whether they are shown one by one: FINISH and GOSUB, and behind
    /// TRACE the lines of a script too. `TRACE n` is `TRACE STEP n`, and `TRACE LAST n` a RUN.
    Stepping(bool, SteppingCommand<'a>),
    /// A line that changes how later lines are answered.
    Mode(ModeCommand),
    /// An empty line, or one that begins with `#`.
    Remark,
    /// A line that only looks.
    View(DebugView),
    /// `HELP word`: what the lines need that begin with the word.
    Form(&'a [u8]),
    /// `SET PC a`, with a multiple of 4 below 2^26.
    SetPc(Origin),
    /// `SET PSR letters mode`, `SET PSR letters` or `SET PSR mode`.
    SetPsr(StatusPattern),
    /// `PUT name a`, with a name that an image can have.
    Put(&'a [u8], u32),
    /// `POKE a "text"` or `POKE a BYTES v ..`; `FILL a n v`, of 1 to 1,048,576 bytes: an address, how
    /// many bytes, where that is shown, and a text that names bytes.
    Write(u32, Option<u32>, &'a [u8]),
    /// `FIND a n v`, of 1 to 2^26 addresses: the first of them, how many, and a text that names bytes.
    Find(u32, u32, &'a [u8]),
    /// `FORGET name`, with a name that an image can have.
    Forget(&'a [u8]),
    /// `COUNTS name`, with a name that an image can have.
    Counts(&'a [u8]),
    /// `RESET`.
    Reset,
    /// `QUIT`.
    Quit,
    /// `EXPECT ..`.
    Expect(Expectation<'a>),
    /// Any other line.
    Unknown,
}

impl DebugCommand<'_> {
    ghost use Rattle.debug_lines.specs.DebugRequests.{debug_opens_block, debug_request_of_command};
    ghost use Rattle.debug_lines.specs.DebugRequests.{is_known, is_repeatable};

    /// Whether the lines that follow are a block of the line's own.
    pub fn opens_block(&self) -> bool
        ensures { result ≡ debug_opens_block (debug_request_of_command self.now) }
    {
        match self {
            DebugCommand::Script(command) => command.opens_block(),
            _ => false,
        }
    }

    /// Whether the line means something.
    pub fn is_known(&self) -> bool
        ensures { result ≡ is_known (debug_request_of_command self.now) }
    {
        !matches!(self, DebugCommand::Unknown)
    }

    /// Whether the line may stand behind REPEAT: it asks for something, and opens no block.
    pub fn is_repeatable(&self) -> bool
        ensures { result ≡ is_repeatable (debug_request_of_command self.now) }
    {
        match self {
            DebugCommand::Script(command) => !command.opens_block(),
            DebugCommand::Remark | DebugCommand::Unknown => false,
            _ => true,
        }
    }
}

/// Whether a line is one of a script as it stands. What it asks for is `command_of` then, and else
/// `repeated_line` or else `simple_command` of the line made tidy.
pub fn is_script_line(line: &[u8]) -> bool
    ensures { result ≡ is_script_request (request_of line.now) }
{
    is_script_command(&command_of(line))
}

/// Whether a line that was read as one of a script is one.
pub fn is_script_command(command: &ScriptCommand) -> bool
    ensures { result ≡ is_script_request (request_of_command command.now) }
{
    !matches!(command, ScriptCommand::Unknown)
}

/// What a tidy line asks for that is neither a REPEAT nor a TRACE.
#[tactic(auto, unfolding(crate::specs::DebugRequests::untraced_request))]
pub(crate) fn untraced_command(tidied: &[u8]) -> DebugCommand<'_>
    ensures { debug_request_of_command result ≡ untraced_request tidied.now }
{
    if is_remark(tidied) {
        return DebugCommand::Remark;
    }
    let command = command_of(tidied);
    if is_script_command(&command) {
        return DebugCommand::Script(command);
    }
    if let Some(text) = text_behind(b"EXPECT ", tidied) {
        expect_command(text)
    } else if let Some(text) = text_behind(b"STUB ", tidied) {
        mode_command(stub_command(text))
    } else if let Some(command) = bytes_command(tidied) {
        command
    } else {
        command_of_words(tidied)
    }
}

fn is_remark(line: &[u8]) -> bool
    ensures { result ≡ is_remark line.now }
{
    match line {
        [] => true,
        [first, ..] => *first == b'#',
    }
}

// A line EXPECT, by what follows that word.
fn expect_command(text: &[u8]) -> DebugCommand<'_>
    ensures { debug_request_of_command result ≡ expect_line (expect_request text.now) }
{
    match expectation_of(text) {
        Some(expectation) => DebugCommand::Expect(expectation),
        None => DebugCommand::Unknown,
    }
}

// A line that changes a mode, if it is one.
fn mode_command(command: Option<ModeCommand>) -> DebugCommand<'static>
    ensures { debug_request_of_command result ≡ mode_line (option_map mode_request_of command) }
{
    match command {
        Some(command) => DebugCommand::Mode(command),
        None => DebugCommand::Unknown,
    }
}

fn command_of_words(line: &[u8]) -> DebugCommand<'_>
    ensures { debug_request_of_command result ≡ own_request_of_words (words line.now) }
{
    match few_words(line) {
        FewWords::One(word) => command_of_word(word),
        FewWords::Two(word, other) => command_of_two(word, other),
        FewWords::Three(word, first, second) => command_of_three(word, first, second),
        FewWords::Four(word, what, letters, mode) => command_of_four(word, what, letters, mode),
        FewWords::More => DebugCommand::Unknown,
    }
}

fn command_of_word(word: &[u8]) -> DebugCommand<'static>
    ensures { debug_request_of_command result ≡ own_request_of_word word.now }
{
    if has_letters(word, b"WHERE") {
        DebugCommand::View(DebugView::Where)
    } else if has_letters(word, b"BANKS") {
        DebugCommand::View(DebugView::Banks)
    } else if has_letters(word, b"STACK") {
        DebugCommand::View(DebugView::Stack(STACK_WORDS))
    } else if is_frames_word(word) {
        DebugCommand::View(DebugView::Frames)
    } else if has_letters(word, b"LABELS") {
        DebugCommand::View(DebugView::Labels)
    } else if has_letters(word, b"STEP") {
        DebugCommand::Script(ScriptCommand::Step(1))
    } else if has_letters(word, b"FINISH") {
        DebugCommand::Stepping(false, SteppingCommand::Finish)
    } else if has_letters(word, b"RESET") {
        DebugCommand::Reset
    } else if has_letters(word, b"WHY") {
        DebugCommand::View(DebugView::Why)
    } else if has_letters(word, b"HELP") {
        DebugCommand::View(DebugView::Help)
    } else if has_letters(word, b"QUIT") {
        DebugCommand::Quit
    } else {
        DebugCommand::Unknown
    }
}

fn is_frames_word(word: &[u8]) -> bool
    ensures { result ≡ is_frames_word word.now }
{
    has_letters(word, b"FRAMES") || has_letters(word, b"BACKTRACE") || has_letters(word, b"BT")
}

fn command_of_two<'a>(word: &[u8], other: &'a [u8]) -> DebugCommand<'a>
    ensures { debug_request_of_command result ≡ own_request_of_two word.now other.now }
{
    if has_letters(word, b"STACK") {
        stack_command(other)
    } else if has_letters(word, b"FORGET") {
        of_image(other, DebugCommand::Forget(other))
    } else if has_letters(word, b"COUNTS") {
        of_image(other, DebugCommand::Counts(other))
    } else if has_letters(word, b"GOSUB") {
        gosub_command(other)
    } else if has_letters(word, b"CALL") {
        call_command(other)
    } else if has_letters(word, b"HELP") {
        help_command(other)
    } else {
        mode_command(mode_of_two(word, other))
    }
}

fn stack_command(count: &[u8]) -> DebugCommand<'static>
    ensures { debug_request_of_command result ≡ stack_of (count_up_to 1024 count.now) }
{
    match count_up_to(MAX_WORDS_SHOWN, count) {
        Some(count) => DebugCommand::View(DebugView::Stack(count)),
        None => DebugCommand::Unknown,
    }
}

fn of_image<'a>(name: &[u8], command: DebugCommand<'a>) -> DebugCommand<'a>
    ensures { debug_request_of_command result
        ≡ of_image name.now (debug_request_of_command command.entry) }
{
    if is_image_name(name) {
        command
    } else {
        DebugCommand::Unknown
    }
}

fn gosub_command(address: &[u8]) -> DebugCommand<'static>
    ensures { debug_request_of_command result ≡ gosub_to (origin_of address.now) }
{
    match Origin::spelled(address) {
        Some(address) => DebugCommand::Stepping(false, SteppingCommand::Gosub(address)),
        None => DebugCommand::Unknown,
    }
}

// A store call by its name.
fn call_command(name: &[u8]) -> DebugCommand<'static>
    ensures { debug_request_of_command result ≡ named_call (swi_named name.now) }
{
    match swi_named(name) {
        Some(number) => DebugCommand::Script(ScriptCommand::Call(number)),
        None => DebugCommand::Unknown,
    }
}

fn help_command(word: &[u8]) -> DebugCommand<'static>
    ensures { debug_request_of_command result ≡ help_of (form_of_word word.now) }
{
    match form_of_word(word) {
        Some(form) => DebugCommand::Form(form),
        None => DebugCommand::Unknown,
    }
}

fn command_of_three<'a>(word: &[u8], first: &'a [u8], second: &[u8]) -> DebugCommand<'a>
    ensures { debug_request_of_command result ≡ own_request_of_three word.now first.now second.now }
{
    if has_letters(word, b"WORDS") {
        words_command(first, second)
    } else if has_letters(word, b"SET") {
        set_command(first, second)
    } else if has_letters(word, b"PUT") {
        put_command(first, second)
    } else if has_letters(word, b"DUMP") {
        dump_command(first, second)
    } else {
        DebugCommand::Unknown
    }
}

fn put_command<'a>(name: &'a [u8], address: &[u8]) -> DebugCommand<'a>
    ensures { debug_request_of_command result
        ≡ put_at (can_name_image name.now) name.now (script_number address.now) }
{
    match number_of(address) {
        Some(address) if is_image_name(name) => DebugCommand::Put(name, address),
        _ => DebugCommand::Unknown,
    }
}

fn dump_command(address: &[u8], count: &[u8]) -> DebugCommand<'static>
    ensures { debug_request_of_command result
        ≡ dump_at (script_number address.now) (count_up_to 4096 count.now) }
{
    match (number_of(address), count_up_to(MAX_BYTES_SHOWN, count)) {
        (Some(address), Some(count)) => DebugCommand::View(DebugView::Dump(address, count)),
        _ => DebugCommand::Unknown,
    }
}

fn words_command(address: &[u8], count: &[u8]) -> DebugCommand<'static>
    ensures { debug_request_of_command result
        ≡ words_at (word_address address.now) (count_up_to 1024 count.now) }
{
    let shown = count_up_to(MAX_WORDS_SHOWN, count);
    match (WordAddress::spelled(address), shown) {
        (Some(address), Some(count)) => DebugCommand::View(DebugView::Words(address, count)),
        _ => DebugCommand::Unknown,
    }
}

fn command_of_four(word: &[u8], what: &[u8], letters: &[u8], mode: &[u8]) -> DebugCommand<'static>
    ensures { debug_request_of_command result
        ≡ own_request_of_four word.now what.now letters.now mode.now }
{
    if has_letters(word, b"SET") && has_letters(what, b"PSR") {
        set_psr_command(StatusPattern::of_two(letters, mode))
    } else {
        DebugCommand::Unknown
    }
}
