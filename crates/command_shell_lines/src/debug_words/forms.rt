//! What each line needs, by its first word, or by its second where that is a word of SET or EXPECT: what
//! HELP and a word shows, and the reason where such a line means nothing.

ghost use Rattle.std.specs.Prelude.{◌≡◌, option_map};
ghost use Rattle.assembler_text.specs.WholeLines.{whole_lines};
ghost use Rattle.command_shell_lines.specs.debug_words.Forms.{begins_with_word, form_of_word, form_of_line, form_with_word, has_second_word};
ghost use Rattle.command_shell_lines.specs.Requests.{words};

use assembler_text::{cut, cut_line};

/// A line for each first word of the language, and for words behind SET and EXPECT.
pub const FORMS: &[u8] = b"ASM wants a name and an address, as ASM main &8000, and a line END
HEX wants a name, as HEX main, and a line END
END ends a block that ASM or HEX opens
BOOT wants the name of an image, as BOOT main
RUN stands alone
STEP stands alone, or with a number, as STEP 4
BREAK wants an address, as BREAK &8004 or BREAK loop
UNBREAK wants an address, as UNBREAK &8004 or UNBREAK loop
CALL wants a SWI's number, or the name of a store call or of a loaded module's SWI, as CALL OS_Heap
LOAD wants the name of an image, and takes a text behind it, as LOAD module
REGS stands alone
MEM wants an address and how many bytes, 1 to 4096, as MEM &8000 16
DUMP wants an address and how many bytes, 1 to 4096, as DUMP &9000 16
CODE wants a word's address and how many words, 1 to 1024, as CODE &8000 4
HEAP wants an address, as HEAP &9000
AREAS stands alone
MODULES stands alone
FLEX stands alone
SET wants R0 to R14, SP, LR, PC or PSR and a value, as SET R0 5
PC wants a multiple of 4 below 2^26, as SET PC &8000
PSR wants letters of flags, each once, or a mode, or both, as SET PSR Zc SVC
POKE wants a word's address and a value, or an address and BYTES v .. or a text, as POKE &9000 5
FILL wants an address, how many bytes, 1 to 2^20, and a value, BYTES v .. or a text, as FILL &9000 64 0
FIND wants an address, how many, 1 to 2^26, and a value, BYTES v .. or a text, as FIND &8000 64 \"Heap\"
WORDS wants a word's address and how many words, 1 to 1024, as WORDS &9000 4
STACK stands alone, or with how many words, 1 to 1024, as STACK 4
BANKS stands alone
WHERE stands alone
FRAMES stands alone
BACKTRACE stands alone
BT stands alone
LABELS stands alone
COMMANDS stands alone
LISTING wants the name of an image, as LISTING main
COMPARE wants the names of two images, as COMPARE mine original
WHY stands alone, or with ON or OFF
RESET stands alone
BACK stands alone, or with a number from 1 on, TO and a step or UNTIL and an address, as BACK UNTIL loop
UNDO stands alone
WHEN stands alone
LAST wants CHANGE, CLAIM or FREE and an address, CHANGE and BLOCK a, R0 or FLAGS, or STEPS and 1 to 1000
FORGET wants the name of an image, as FORGET main
REPEAT wants a number from 1 on and a line that opens no block, as REPEAT 3 STEP 1
INCLUDE wants one file, as INCLUDE lib/heap.script; rosm_debug alone reads it
SAVE wants an image, or an address and a number, and a file, as SAVE &9000 64 table; rosm_debug alone reads it
TRACE wants a line that opens no block, or a number, ON, OFF, LIMIT n or LAST 1 to 64, as TRACE RUN
FINISH stands alone
GOSUB wants an address, as GOSUB &8010 or GOSUB routine
COMMAND wants a module's command, with what stands behind it, as COMMAND PotSet 1 5
SERVICE wants a number, and may have a module's title, as SERVICE &27 Pots
PUT wants the name of an image and an address, as PUT table &9000
STUB wants a SWI's number, registers, flags and words with values, or AT and an address, as STUB 6 R0 5 C=1
UNSTUB wants a SWI's number, as UNSTUB 6
WATCH wants a word's address, as WATCH &9000
UNWATCH wants a word's address, as UNWATCH &9000
COUNT wants ON or OFF, as COUNT ON
COUNTS wants the name of an image, as COUNTS main
EXPECT wants a register or PC, FLAGS, WORD, BYTE, STEPS, ANSWER, LINE, ERROR, OUTPUT, as EXPECT R0 5
FLAGS wants letters of flags, each once, or a mode, or both, as EXPECT FLAGS Zc SVC
WORD wants a word's address and its value, as EXPECT WORD &9000 5
BYTE wants an address and a value below 256, as EXPECT BYTE &9000 5
STEPS wants a number, as EXPECT STEPS 9 or EXPECT STEPS <= 9
ANSWER wants a text, as EXPECT ANSWER stop Exit
LINE wants a text, as EXPECT LINE live 00009010 104
ERROR wants a number or the name of an error, as EXPECT ERROR 9 or EXPECT ERROR HeapNoRoom
OUTPUT wants a text in quotes, as EXPECT OUTPUT \"Hello\\n\"
HELP stands alone, or with the first word of a line, as HELP STEP
QUIT stands alone
";

/// What a line lacks, by its first word, or by its second behind SET and EXPECT.
pub fn form_of_line(line: &[u8]) -> Option<&'static [u8]>
    ensures { option_map (λ form. form.now) result ≡ form_of_line (words line.now) }
{
    let (word, rest) = cut(line, b' ');
    match rest {
        Some(rest) if has_second_word(word) => {
            let (second, _) = cut(rest, b' ');
            form_of_word(second).or(form_of_word(word))
        }
        _ => form_of_word(word),
    }
}

fn has_second_word(word: &[u8]) -> bool
    ensures { result ≡ has_second_word word.now }
{
    word.eq_ignore_ascii_case(b"SET") || word.eq_ignore_ascii_case(b"EXPECT")
}

/// What the lines of a word need, in either case.
#[tactic(auto, unfolding(crate::specs::debug_words::Forms::form_of_word))]
pub fn form_of_word(word: &[u8]) -> Option<&'static [u8]>
    ensures { option_map (λ form. form.now) result ≡ form_of_word word.now }
{
    form_in(FORMS, word)
}

// The first line of a text that begins with a word.
fn form_in<'a>(text: &'a [u8], word: &[u8]) -> Option<&'a [u8]>
    ensures { option_map (λ form. form.now) result ≡ form_with_word (whole_lines text.now) word.now }
{
    let mut rest = text;
    while let Some((form, after)) = cut_line(rest) {
        if begins_with(form, word) {
            return Some(form);
        }
        rest = after;
    }
    None
}

fn begins_with(form: &[u8], word: &[u8]) -> bool
    ensures { result ≡ begins_with_word form.now word.now }
{
    let (first, _) = cut(form, b' ');
    word.eq_ignore_ascii_case(first)
}
