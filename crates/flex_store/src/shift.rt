//! Ranges of bytes that move, and where a word among them goes.

ghost use Rattle.std.specs.Prelude.{◌≡◌, ◌≤◌, ◌+◌, ◌^◌};
ghost use Rattle.flex_store.specs.Blocks.{bytes_taken_by};
ghost use Rattle.flex_store.specs.Shifts.{AreShort, gone_to, splice_shifts};
ghost use Rattle.flex_store.specs.Splices.{size_after_splice, IsSplice};

use crate::splice::Splice;
use crate::walk::{HEADER, taken};

/// Bytes that move: those from `from` up to `end` go to `to`, and a word among them goes with them.
#[derive(Clone, Copy)]
pub(crate) struct Shift {
    pub(crate) from: u32,
    pub(crate) end: u32,
    pub(crate) to: u32,
}

/// Where the word at an address is after such moves.
pub(crate) fn gone_to(shifts: &[Shift], at: u32) -> u32
    requires { AreShort shifts.now }
    ensures { result ≡ gone_to shifts.now at }
{
    for shift in shifts {
        if shift.from <= at && at < shift.end {
            return shift.to + (at - shift.from);
        }
    }
    at
}

/// What moves where a block's bytes change: its own after the change, and the blocks after it, up
/// to `end`.
pub(crate) fn splice_shifts(header: u32, size: u32, splice: &Splice, end: u32) -> [Shift; 2]
    requires splice { IsSplice splice.now size }
    requires old { header + bytes_taken_by size ≤ 2 ^ 26 }
    requires new { header + bytes_taken_by (size_after_splice splice.now size) ≤ 2 ^ 26 }
    ensures { result ≡ splice_shifts header end size splice.now.at splice.now.cut splice.now.more }
{
    let contents = header + HEADER;
    let inside = Shift {
        from: contents + splice.at,
        end: contents + size,
        to: contents + (splice.at - splice.cut + splice.more),
    };
    let behind = Shift {
        from: header + taken(u64::from(size)) as u32,
        end,
        to: header + taken(splice.size_after(size)) as u32,
    };
    [inside, behind]
}
