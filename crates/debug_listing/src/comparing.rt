//! Two images, compared word by word, with the instructions where they differ.

ghost use Rattle.std.specs.Prelude.{◌≡◌, ◌<◌, ◌≤◌, ◌+◌, ◌*◌, ◌^◌, ◌++◌, length, take, IfOk};
ghost use Rattle.std.specs.Fmt.{decimal};
ghost use Rattle.std.specs.List.{flat_map};
ghost use Rattle.profile.specs.Output.{Writes};
ghost use Rattle.debug_listing.specs.Comparing.{compared_word, comparison_text, difference_line, lengths_compared, line_of_word, word_of_bytes, words_that_differ};

use assembler_text::disassemble;
use byteorder::{ByteOrder, LittleEndian};
use itoa::Buffer;
use profile::{HexText, Sink, WriteFault, push_all, push_parts};

// So many words that differ are shown.
const MOST_SHOWN: usize = 16;

/// Writes where two images differ, the other one's words beside the first one's.
///
/// # Errors
///
/// The sink has failed.
pub fn push_comparison<W: Sink>(sink: &mut W, one: &[u8], other: &[u8]) -> Result<(), WriteFault>
    requires { length one.now < 2 ^ 32 }
    ensures { Writes W.contents W.has_failed sink.old sink.new result (comparison_text one.now other.now) }
{
    let found = push_differences(sink, one, other)?;
    let words = one.len().min(other.len()) / 4;
    push_two(sink, found, b" of ", words, b" words differ\n")?;
    push_lengths(sink, one, other)
}

// The first words that differ, and how many do.
fn push_differences<W: Sink>(sink: &mut W, one: &[u8], other: &[u8]) -> Result<usize, WriteFault>
    requires { length one.now < 2 ^ 32 }
    ensures lines { Writes W.contents W.has_failed sink.old sink.new result
        (flat_map (line_of_word one.now other.now) (take 16 (words_that_differ one.now other.now))) }
    ensures count { IfOk result (λ found. found ≡ length (words_that_differ one.now other.now)) }
{
    let mut found = 0;
    for k in 0..one.len().min(other.len()) / 4 {
        let first = word_of_bytes(one, k);
        let second = word_of_bytes(other, k);
        if first != second {
            if found < MOST_SHOWN {
                push_both(sink, 4 * k as u32, first, second)?;
            }
            found += 1;
        }
    }
    Ok(found)
}

fn word_of_bytes(bytes: &[u8], k: usize) -> u32
    requires { 4 * k + 4 ≤ length bytes.now }
    ensures { result ≡ word_of_bytes bytes.now k }
{
    LittleEndian::read_u32(&bytes[4 * k..4 * k + 4])
}

fn push_both<W: Sink>(sink: &mut W, at: u32, first: u32, second: u32) -> Result<(), WriteFault>
    ensures { Writes W.contents W.has_failed sink.old sink.new result (difference_line at first second) }
{
    push_all(sink, HexText::word(at).as_slice())?;
    push_word(sink, b" ", at, first)?;
    push_word(sink, b" | ", at, second)?;
    push_all(sink, b"\n")
}

// A word and what it is as an instruction, behind a text.
fn push_word<W: Sink>(sink: &mut W, front: &[u8], at: u32, word: u32) -> Result<(), WriteFault>
    ensures { Writes W.contents W.has_failed sink.old sink.new result (front.now ++ compared_word at word) }
{
    let digits = HexText::word(word);
    push_parts(sink, &[front, digits.as_slice(), b" ".as_slice()])?;
    disassemble(word, at, sink)
}

// Which lengths differ, or that the bytes behind the last word do.
fn push_lengths<W: Sink>(sink: &mut W, one: &[u8], other: &[u8]) -> Result<(), WriteFault>
    ensures { Writes W.contents W.has_failed sink.old sink.new result
        (lengths_compared one.now other.now) }
{
    if one.len() != other.len() {
        return push_two(sink, one.len(), b" bytes and ", other.len(), b" bytes\n");
    }
    let words = one.len() / 4 * 4;
    if one[words..] == other[words..] {
        Ok(())
    } else {
        push_all(sink, b"the last bytes differ\n")
    }
}

// Two numbers, each with a text behind it.
fn push_two<W: Sink>(
    sink: &mut W,
    first: usize,
    between: &[u8],
    second: usize,
    behind: &[u8],
) -> Result<(), WriteFault>
    ensures { Writes W.contents W.has_failed sink.old sink.new result
        (decimal first ++ (between.now ++ (decimal second ++ behind.now))) }
{
    let (mut one, mut other) = (Buffer::new(), Buffer::new());
    let one = one.format(first).as_bytes();
    let other = other.format(second).as_bytes();
    push_parts(sink, &[one, between, other, behind])
}
