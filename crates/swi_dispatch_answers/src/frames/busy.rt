//! Which open frames forbid a call on modules.

ghost use Rattle.std.specs.Prelude.{◌≡◌, ◌==◌, ◌&&◌};
ghost use Rattle.std.specs.List.{list_any};
ghost use Rattle.swi_dispatch_answers.specs.frames.Busy.{is_swi, has_swi_of};

use crate::frames::frame::{Frame, FrameKind};
use crate::frames::frames::Frames;

impl Frames {
    /// Whether a SWI of an instance in one of these slots is under way.
    pub fn has_swi_of(&self, slots: &[u32]) -> bool
        ensures { result ≡ has_swi_of slots.now self.now }
    {
        has_swi_of(self.as_slice(), slots)
    }
}

fn has_swi_of(frames: &[Frame], slots: &[u32]) -> bool
    ensures { result ≡ has_swi_of slots.now frames.now }
{
    frames
        .iter()
        .any(|frame| is_swi(frame.kind) && is_among(slots, frame.slot))
}

fn is_swi(kind: FrameKind) -> bool
    ensures { result ≡ is_swi kind }
{
    match kind {
        FrameKind::Swi(_) => true,
        FrameKind::Entry(_) => false,
    }
}

fn is_among(slots: &[u32], slot: u32) -> bool
    ensures { result ≡ list_any (λ s. s == slot) slots.now }
{
    slots.iter().any(|held| *held == slot)
}
