//! The errors of a heap under their names in the module area.

ghost use Rattle.std.specs.Prelude.{◌≡◌};
ghost use Rattle.rma.specs.Calls.{is_no_room, rma_error};

use dynamic_areas::ErrorNumber;

/// What a heap refuses has a name of its own in the module area.
pub(crate) fn rma_error(error: ErrorNumber) -> ErrorNumber
    ensures { result ≡ rma_error error }
{
    match error {
        ErrorNumber::HeapNotABlock => ErrorNumber::RmaNotABlock,
        ErrorNumber::HeapHoldsAnchor => ErrorNumber::RmaHoldsAnchor,
        ErrorNumber::HeapNoRoom => ErrorNumber::RmaNoRoom,
        ErrorNumber::BlockHoldsHeap => ErrorNumber::RmaBlockHoldsHeap,
        other => other,
    }
}

/// Whether a heap refused because no room was left.
pub(crate) fn is_no_room(error: ErrorNumber) -> bool
    ensures { result ≡ is_no_room error }
{
    matches!(error, ErrorNumber::HeapNoRoom)
}
