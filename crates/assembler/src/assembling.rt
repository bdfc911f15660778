//! The two passes over a source.

ghost use Rattle.std.specs.Prelude.{◌≡◌, ◌≢◌, ◌≤◌, ◌<◌, ◌%◌, ◌^◌, [], Err, length, take, IfOk, OnOk};
ghost use Rattle.assembler_reading.specs.Labels.{address_of};
ghost use Rattle.assembler.specs.Line.{line};
ghost use Rattle.assembler.specs.Passes.{bytes_of_line, labels_of_lines, leaving, means, means_lines, measured_with_line, second_pass};

use crate::error::AsmError;
use crate::line::put_line;
use crate::output::Output;
use crate::program::Program;
use assembler_reading::{Labels, Reason};
use profile::memory_map::ADDRESS_LIMIT;
use profile::text_lines::Lines;
use std::alloc::{AllocError, Global};

/// The program that a source means at an origin below 2^26. Lines end in LF or CR LF; the last may
/// lack it. A program stands at a multiple of 4; from 2^26 on there is no memory, and the source is
/// read as at the origin modulo 2^26.
///
/// # Errors
///
/// The line that is refused, and why, as [`AsmError`] says; or, where the host has no memory left,
/// line 0 and `Memory`.
pub fn assemble(alloc: Global, source: &[u8], origin: u32) -> Result<Program, AsmError>
    ensures below { origin < 2 ^ 26 → result ≢ Err (record { line = 0; reason = Reason.Memory })
        → result ≡ means source.now origin }
    ensures modulo { result ≢ Err (record { line = 0; reason = Reason.Memory })
        → result ≡ means source.now (origin % 2 ^ 26) }
{
    let lines = Lines::new(source);
    assemble_lines(alloc, &lines, lines.count(), origin)
}

/// The program that the next lines of a text mean, at most `count`, as [`assemble`] says; they are
/// counted from 1.
pub fn assemble_lines(
    alloc: Global,
    lines: &Lines,
    count: usize,
    origin: u32,
) -> Result<Program, AsmError>
    ensures below { origin < 2 ^ 26 → result ≢ Err (record { line = 0; reason = Reason.Memory })
        → result ≡ means_lines (take count lines.now.left) origin }
    ensures modulo { result ≢ Err (record { line = 0; reason = Reason.Memory })
        → result ≡ means_lines (take count lines.now.left) (origin % 2 ^ 26) }
{
    match both_passes(alloc, lines, count, origin % ADDRESS_LIMIT) {
        Ok(answer) => answer,
        Err(AllocError) => Err(AsmError {
            line: 0,
            reason: Reason::Memory,
        }),
    }
}

/// The labels of the next lines of a text, at most `count`, with the addresses at which they stand
/// in the program that [`assemble_lines`] makes of them. Lines that have a program have labels.
///
/// # Errors
///
/// The line that is refused, and why: what the first pass finds, which is `Syntax`, `LabelTwice`
/// and `TooLong`; or, where the host has no memory left, line 0 and `Memory`.
pub fn labels_of_lines<'s>(
    alloc: Global,
    lines: &Lines<'s>,
    count: usize,
    origin: u32,
) -> Result<Labels<'s>, AsmError>
    ensures below { origin < 2 ^ 26 → result ≢ Err (record { line = 0; reason = Reason.Memory })
        → result ≡ labels_of_lines (take count lines.now.left) origin }
    ensures modulo { result ≢ Err (record { line = 0; reason = Reason.Memory })
        → result ≡ labels_of_lines (take count lines.now.left) (origin % 2 ^ 26) }
{
    match labels_of(alloc, lines, count, origin % ADDRESS_LIMIT) {
        Ok(answer) => answer,
        Err(AllocError) => Err(AsmError {
            line: 0,
            reason: Reason::Memory,
        }),
    }
}

fn both_passes(
    alloc: Global,
    lines: &Lines,
    count: usize,
    origin: u32,
) -> Result<Result<Program, AsmError>, AllocError>
    requires { origin < 2 ^ 26 }
    ensures { IfOk result (λ answer. answer ≡ means_lines (take count lines.now.left) origin) }
{
    match labels_of(alloc, lines, count, origin)? {
        Ok(labels) => program_of(alloc, &labels, lines, count, origin),
        Err(error) => Ok(Err(error)),
    }
}

// The first pass: the labels of a source, with their addresses.
fn labels_of<'s>(
    alloc: Global,
    source: &Lines<'s>,
    count: usize,
    origin: u32,
) -> Result<Result<Labels<'s>, AsmError>, AllocError>
    requires { origin < 2 ^ 26 }
    ensures { IfOk result (λ answer. answer ≡ labels_of_lines (take count source.now.left) origin) }
{
    let none = Labels::new(alloc);
    let mut labels = Labels::new(alloc);
    let mut output = Output::new(alloc);
    let mut lines = source.again();
    for index in 0..count {
        let Some(text) = lines.next_line() else {
            return Ok(Ok(labels));
        };
        if let Err(reason) = measure(&none, origin, text, &mut labels, &mut output)? {
            let line = index + 1;
            return Ok(Err(AsmError { line, reason }));
        }
    }
    Ok(Ok(labels))
}

// A line of the first pass, which knows no label's address.
fn measure<'s>(
    none: &Labels,
    origin: u32,
    text: &'s [u8],
    labels: &mut Labels<'s>,
    output: &mut Output,
) -> Result<Result<(), Reason>, AllocError>
    requires none { none.now ≡ [] }
    requires origin { origin < 2 ^ 26 }
    requires room { length output.old.bytes ≤ 1048576 }
    ensures reported { IfOk result (λ answer.
        leaving (record { entries = labels.new; program = output.new.bytes }) answer
        ≡ measured_with_line origin (record { entries = labels.old; program = output.old.bytes })
        (line (address_of []) origin output.old.bytes text.now)) }
    ensures room { IfOk result (λ answer. OnOk answer (length output.new.bytes ≤ 1048576)) }
{
    let Some((label, place)) = put_line(none, origin, text, output)? else {
        return Ok(Err(Reason::Syntax));
    };
    if !label.is_empty() && labels.find(label).is_some() {
        return Ok(Err(Reason::LabelTwice));
    }
    if output.is_too_long(origin) {
        return Ok(Err(Reason::TooLong));
    }
    if !label.is_empty() {
        labels.put(label, place).map_err(|_| AllocError)?;
    }
    Ok(Ok(()))
}

// The second pass: the bytes of the lines, with the labels of the first.
fn program_of(
    alloc: Global,
    labels: &Labels,
    source: &Lines,
    count: usize,
    origin: u32,
) -> Result<Result<Program, AsmError>, AllocError>
    requires { origin < 2 ^ 26 }
    ensures { IfOk result (λ answer. answer
        ≡ second_pass (address_of labels.now) origin 1 [] (take count source.now.left)) }
{
    let mut output = Output::new(alloc);
    let mut lines = source.again();
    for index in 0..count {
        let Some(text) = lines.next_line() else {
            return Ok(Ok(Program::new(output.into_bytes())));
        };
        if let Err(reason) = finish(labels, origin, text, &mut output)? {
            let line = index + 1;
            return Ok(Err(AsmError { line, reason }));
        }
    }
    Ok(Ok(Program::new(output.into_bytes())))
}

// A line of the second pass.
fn finish(
    labels: &Labels,
    origin: u32,
    text: &[u8],
    output: &mut Output,
) -> Result<Result<(), Reason>, AllocError>
    requires origin { origin < 2 ^ 26 }
    requires room { length output.old.bytes ≤ 1048576 }
    ensures reported { IfOk result (λ answer. leaving output.new.bytes answer
        ≡ bytes_of_line origin (line (address_of labels.now) origin output.old.bytes text.now)) }
    ensures room { IfOk result (λ answer. OnOk answer (length output.new.bytes ≤ 1048576)) }
{
    if put_line(labels, origin, text, output)?.is_none() {
        return Ok(Err(Reason::Syntax));
    }
    if output.is_too_long(origin) {
        return Ok(Err(Reason::TooLong));
    }
    match output.fault() {
        Some(reason) => Ok(Err(reason)),
        None => Ok(Ok(())),
    }
}
