//! The error that a line names.

ghost use Rattle.std.specs.Prelude.{◌≡◌};
ghost use Rattle.command_shell_lines.specs.debug_words.ErrorNumbers.{store_errors, error_with_name, error_shown};

use crate::number_of;
use assembler_text::{ErrorNumber, error_text};

// The errors of all store calls.
const STORE_ERRORS: [ErrorNumber; 38] = [
    ErrorNumber::HeapBadReason,
    ErrorNumber::HeapBadDesc,
    ErrorNumber::HeapBadRegion,
    ErrorNumber::HeapOverlaps,
    ErrorNumber::HeapTableFull,
    ErrorNumber::HeapNotABlock,
    ErrorNumber::HeapHoldsAnchor,
    ErrorNumber::HeapBadShrink,
    ErrorNumber::HeapNoRoom,
    ErrorNumber::BlockHoldsHeap,
    ErrorNumber::AreaBadReason,
    ErrorNumber::AreaUnknown,
    ErrorNumber::AreaBad,
    ErrorNumber::AreaTaken,
    ErrorNumber::AreaTableFull,
    ErrorNumber::AreaInUse,
    ErrorNumber::AreaNoPages,
    ErrorNumber::RmaNotABlock,
    ErrorNumber::RmaHoldsAnchor,
    ErrorNumber::RmaNoRoom,
    ErrorNumber::RmaBlockHoldsHeap,
    ErrorNumber::ModuleBadHeader,
    ErrorNumber::ModuleBadReason,
    ErrorNumber::ModuleNotFound,
    ErrorNumber::ImageUnknown,
    ErrorNumber::InstanceExists,
    ErrorNumber::InstanceTableFull,
    ErrorNumber::ModuleBusy,
    ErrorNumber::FrameLimit,
    ErrorNumber::FlexNotReady,
    ErrorNumber::FlexAlready,
    ErrorNumber::FlexBadRange,
    ErrorNumber::FlexBadAnchor,
    ErrorNumber::FlexAnchorInUse,
    ErrorNumber::FlexHoldsAnchor,
    ErrorNumber::SwiUnknown,
    ErrorNumber::BadString,
    ErrorNumber::BadPointer,
];

/// The number that a word shows: a number, or the name of a store call's error.
#[tactic(auto, unfolding(crate::specs::debug_words::ErrorNumbers::error_shown))]
pub fn error_shown(word: &[u8]) -> Option<u32>
    ensures { result ≡ error_shown word.now }
{
    match number_of(word) {
        Some(number) => Some(number),
        None => match store_error_named(word) {
            Some(error) => Some(error.number()),
            None => None,
        },
    }
}

#[tactic(auto, unfolding(crate::specs::debug_words::ErrorNumbers::store_errors))]
fn store_error_named(name: &[u8]) -> Option<ErrorNumber>
    ensures { result ≡ error_with_name store_errors name.now }
{
    with_name(&STORE_ERRORS, name)
}

// The first of some errors that has a name.
fn with_name(errors: &[ErrorNumber], name: &[u8]) -> Option<ErrorNumber>
    ensures { result ≡ error_with_name errors.now name.now }
{
    for error in errors {
        if error_text(*error).as_bytes() == name {
            return Some(*error);
        }
    }
    None
}
