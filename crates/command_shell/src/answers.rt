//! The lines that requests are answered with.

ghost use Rattle.std.specs.Prelude.{◌++◌, codes};
ghost use Rattle.profile.specs.Output.{Writes};
ghost use Rattle.command_shell.specs.Answers.{unknown_text, image_text, line_refused_text, image_refused_text, boot_text, refused_text, break_text, unbreak_text, ok_text, call_error_text, at_text, numbered_text, at_address_text, fault_stop_text, stop_text, stepped_text};

use itoa::Buffer;
use profile::{Fault, HexText, Sink, Stop, WriteFault, push_all, push_parts};

/// `? line n`: the line is outside the language.
pub fn print_unknown<W: Sink>(sink: &mut W, line: usize) -> Result<(), WriteFault>
    ensures { Writes W.contents W.has_failed sink.old sink.new result (unknown_text line) }
{
    let mut number = Buffer::new();
    push_parts(
        sink,
        &[
            b"? line ".as_slice(),
            number.format(line).as_bytes(),
            b"\n".as_slice(),
        ],
    )
}

/// `hex name: n bytes`, or `asm ` in place of `hex `: the image was taken.
pub fn print_image<W: Sink>(
    sink: &mut W,
    word: &[u8],
    name: &[u8],
    len: usize,
) -> Result<(), WriteFault>
    ensures { Writes W.contents W.has_failed sink.old sink.new result (image_text word.now name.now len) }
{
    let mut number = Buffer::new();
    push_parts(
        sink,
        &[
            word,
            name,
            b": ".as_slice(),
            number.format(len).as_bytes(),
            b" bytes\n".as_slice(),
        ],
    )
}

/// `hex name: line k: Syntax`, and the like: that line of the block is refused.
pub fn print_line_refused<'t, W: Sink>(
    sink: &mut W,
    word: &'t [u8],
    name: &'t [u8],
    line: usize,
    reason: &'t [u8],
) -> Result<(), WriteFault>
    ensures { Writes W.contents W.has_failed sink.old sink.new result
        (line_refused_text word.now name.now line reason.now) }
{
    let mut number = Buffer::new();
    push_parts(
        sink,
        &[
            word,
            name,
            b": line ".as_slice(),
            number.format(line).as_bytes(),
            b": ".as_slice(),
            reason,
            b"\n".as_slice(),
        ],
    )
}

/// `hex name: NameTaken`, and the like: the image was refused.
pub fn print_image_refused<W: Sink>(
    sink: &mut W,
    word: &[u8],
    name: &[u8],
    reason: &[u8],
) -> Result<(), WriteFault>
    ensures { Writes W.contents W.has_failed sink.old sink.new result
        (image_refused_text word.now name.now reason.now) }
{
    push_parts(
        sink,
        &[word, name, b": ".as_slice(), reason, b"\n".as_slice()],
    )
}

/// `boot name`: the program was copied.
pub fn print_boot<W: Sink>(sink: &mut W, name: &[u8]) -> Result<(), WriteFault>
    ensures { Writes W.contents W.has_failed sink.old sink.new result (boot_text name.now) }
{
    push_parts(sink, &[b"boot ".as_slice(), name, b"\n".as_slice()])
}

/// `refused NoImage`, and the like.
#[tactic(auto, unfolding(crate::specs::Answers::refused_text))]
pub fn print_refused<W: Sink>(sink: &mut W, reason: &[u8]) -> Result<(), WriteFault>
    ensures { Writes W.contents W.has_failed sink.old sink.new result (refused_text reason.now) }
{
    push_parts(sink, &[b"refused ".as_slice(), reason, b"\n".as_slice()])
}

/// `break &8004`: a run stops there from now on.
pub fn print_break<W: Sink>(sink: &mut W, address: u32) -> Result<(), WriteFault>
    ensures { Writes W.contents W.has_failed sink.old sink.new result (break_text address) }
{
    print_address(sink, b"break", address)
}

/// `unbreak &8004`: a run doesn't stop there any more.
pub fn print_unbreak<W: Sink>(sink: &mut W, address: u32) -> Result<(), WriteFault>
    ensures { Writes W.contents W.has_failed sink.old sink.new result (unbreak_text address) }
{
    print_address(sink, b"unbreak", address)
}

/// `ok`: the store call succeeded.
pub fn print_ok<W: Sink>(sink: &mut W) -> Result<(), WriteFault>
    ensures { Writes W.contents W.has_failed sink.old sink.new result ok_text }
{
    push_all(sink, b"ok\n")
}

/// `error n`: the store call was refused with that error.
pub fn print_error<W: Sink>(sink: &mut W, number: u32) -> Result<(), WriteFault>
    ensures { Writes W.contents W.has_failed sink.old sink.new result (call_error_text number) }
{
    let mut digits = Buffer::new();
    push_parts(
        sink,
        &[
            b"error ".as_slice(),
            digits.format(number).as_bytes(),
            b"\n".as_slice(),
        ],
    )
}

/// `at &8004`: the steps are taken, and the machine stands there.
pub fn print_at<W: Sink>(sink: &mut W, pc: u32) -> Result<(), WriteFault>
    ensures { Writes W.contents W.has_failed sink.old sink.new result (at_text pc) }
{
    print_address(sink, b"at", pc)
}

/// A stop line: `stop Exit`, `stop Budget`, `stop Break &8004`, `stop OwnedWord &8004`,
/// `stop ErrorStop 6 &8004`. After a fault stands the program counter.
pub fn print_stop<W: Sink>(sink: &mut W, stop: Stop, pc: u32) -> Result<(), WriteFault>
    ensures { Writes W.contents W.has_failed sink.old sink.new result (stop_text stop pc) }
{
    match stop {
        Stop::Exit => push_all(sink, b"stop Exit\n"),
        Stop::Budget => push_all(sink, b"stop Budget\n"),
        Stop::Break(address) => print_address(sink, b"stop Break", address),
        Stop::Fault(fault) => print_fault(sink, fault, pc),
    }
}

/// What follows on the steps of a STEP line: where the machine stands, if all of them could be
/// taken and were, else the stop line.
pub fn print_stepped<W: Sink>(
    sink: &mut W,
    could_all: bool,
    stop: Stop,
    pc: u32,
) -> Result<(), WriteFault>
    ensures { Writes W.contents W.has_failed sink.old sink.new result (stepped_text could_all stop pc) }
{
    match stop {
        Stop::Budget if could_all => print_at(sink, pc),
        _ => print_stop(sink, stop, pc),
    }
}

// Some words and an address.
fn print_address<W: Sink>(sink: &mut W, words: &[u8], address: u32) -> Result<(), WriteFault>
    ensures { Writes W.contents W.has_failed sink.old sink.new result
        (words.now ++ (at_address_text address ++ codes "\n")) }
{
    push_parts(
        sink,
        &[
            words,
            b" &".as_slice(),
            HexText::number(address).as_slice(),
            b"\n".as_slice(),
        ],
    )
}

fn print_numbered<W: Sink>(
    sink: &mut W,
    words: &[u8],
    number: u32,
    pc: u32,
) -> Result<(), WriteFault>
    ensures { Writes W.contents W.has_failed sink.old sink.new result (numbered_text words.now number pc) }
{
    let mut digits = Buffer::new();
    push_parts(
        sink,
        &[
            words,
            digits.format(number).as_bytes(),
            b" &".as_slice(),
            HexText::number(pc).as_slice(),
            b"\n".as_slice(),
        ],
    )
}

fn print_fault<W: Sink>(sink: &mut W, fault: Fault, pc: u32) -> Result<(), WriteFault>
    ensures { Writes W.contents W.has_failed sink.old sink.new result (fault_stop_text fault pc) }
{
    match fault {
        Fault::ErrorStop(code) => print_numbered(sink, b"stop ErrorStop ", code, pc),
        _ => push_parts(
            sink,
            &[
                b"stop ".as_slice(),
                fault.name().as_bytes(),
                b" &".as_slice(),
                HexText::number(pc).as_slice(),
                b"\n".as_slice(),
            ],
        ),
    }
}
