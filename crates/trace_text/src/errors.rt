//! Errors and stops as words.

ghost use Rattle.std.specs.Prelude.{◌≡◌, ◌++◌};
ghost use Rattle.profile.specs.Output.{Writes};
ghost use Rattle.trace_text.specs.Errors.{error_with_number, error_word, fault_word, name_word, numbered_errors, error_number_word, stop_word};

use itoa::Buffer;
use profile::{ErrorNumber, Fault, Sink, Stop, WriteFault, error_text, push_all, push_parts};

// The errors of all store calls.
const NUMBERED_ERRORS: [ErrorNumber; 38] = [
    ErrorNumber::HeapBadReason,
    ErrorNumber::HeapBadDesc,
    ErrorNumber::HeapBadRegion,
    ErrorNumber::HeapOverlaps,
    ErrorNumber::HeapTableFull,
    ErrorNumber::HeapNotABlock,
    ErrorNumber::HeapHoldsAnchor,
    ErrorNumber::HeapBadShrink,
    ErrorNumber::HeapNoRoom,
    ErrorNumber::BlockHoldsHeap,
    ErrorNumber::AreaBadReason,
    ErrorNumber::AreaUnknown,
    ErrorNumber::AreaBad,
    ErrorNumber::AreaTaken,
    ErrorNumber::AreaTableFull,
    ErrorNumber::AreaInUse,
    ErrorNumber::AreaNoPages,
    ErrorNumber::RmaNotABlock,
    ErrorNumber::RmaHoldsAnchor,
    ErrorNumber::RmaNoRoom,
    ErrorNumber::RmaBlockHoldsHeap,
    ErrorNumber::ModuleBadHeader,
    ErrorNumber::ModuleBadReason,
    ErrorNumber::ModuleNotFound,
    ErrorNumber::ImageUnknown,
    ErrorNumber::InstanceExists,
    ErrorNumber::InstanceTableFull,
    ErrorNumber::ModuleBusy,
    ErrorNumber::FrameLimit,
    ErrorNumber::FlexNotReady,
    ErrorNumber::FlexAlready,
    ErrorNumber::FlexBadRange,
    ErrorNumber::FlexBadAnchor,
    ErrorNumber::FlexAnchorInUse,
    ErrorNumber::FlexHoldsAnchor,
    ErrorNumber::SwiUnknown,
    ErrorNumber::BadString,
    ErrorNumber::BadPointer,
];

/// Writes an error, ` error 9 HeapNoRoom`; a number that no store call gives stands alone.
pub fn push_error<W: Sink>(sink: &mut W, number: u32) -> Result<(), WriteFault>
    ensures writes { Writes W.contents W.has_failed sink.old sink.new result (error_word number) }
{
    push_numbered(sink, b" error", number)
}

/// Writes why a step has halted the machine, ` stops ErrorStop 9 HeapNoRoom`.
pub fn push_stop<W: Sink>(sink: &mut W, stop: Stop) -> Result<(), WriteFault>
    ensures writes { Writes W.contents W.has_failed sink.old sink.new result (stop_word stop) }
{
    match stop {
        Stop::Exit => push_all(sink, b" stops Exit"),
        Stop::Fault(fault) => push_fault(sink, fault),
        Stop::Budget | Stop::Break(_) => Ok(()),
    }
}

fn push_fault<W: Sink>(sink: &mut W, fault: Fault) -> Result<(), WriteFault>
    ensures { Writes W.contents W.has_failed sink.old sink.new result (fault_word fault) }
{
    match fault {
        Fault::ErrorStop(number) => push_numbered(sink, b" stops ErrorStop", number),
        _ => push_parts(sink, &[b" stops ".as_slice(), fault.name().as_bytes()]),
    }
}

// A number behind what it is of, and its name.
fn push_numbered<W: Sink>(sink: &mut W, front: &[u8], number: u32) -> Result<(), WriteFault>
    ensures { Writes W.contents W.has_failed sink.old sink.new result
        (front.now ++ error_number_word number) }
{
    let mut digits = Buffer::new();
    push_parts(
        sink,
        &[front, b" ".as_slice(), digits.format(number).as_bytes()],
    )?;
    push_name(sink, numbered_error(number))
}

fn push_name<W: Sink>(sink: &mut W, error: Option<ErrorNumber>) -> Result<(), WriteFault>
    ensures { Writes W.contents W.has_failed sink.old sink.new result (name_word error) }
{
    match error {
        None => Ok(()),
        Some(error) => push_parts(sink, &[b" ".as_slice(), error_text(error).as_bytes()]),
    }
}

#[tactic(auto, unfolding(crate::specs::Errors::numbered_errors))]
fn numbered_error(number: u32) -> Option<ErrorNumber>
    ensures { result ≡ error_with_number numbered_errors number }
{
    with_number(&NUMBERED_ERRORS, number)
}

// The first of some errors that has a number.
fn with_number(errors: &[ErrorNumber], number: u32) -> Option<ErrorNumber>
    ensures { result ≡ error_with_number errors.now number }
{
    for error in errors {
        if error.number() == number {
            return Some(*error);
        }
    }
    None
}
