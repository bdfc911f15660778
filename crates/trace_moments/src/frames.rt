//! The frames of module code that a step leaves and enters.

ghost use Rattle.std.specs.Prelude.{◌≡◌, ◌<◌, IfSome, List, length};
ghost use Rattle.std.specs.Option.{option_map};
ghost use Rattle.trace_moments.specs.Frames.{AreKept, frames_after, shown_frame, shown_frames};
ghost use Rattle.trace_moments.specs.declared.frames.ShownFrame.{ShownFrame};

use swi_dispatch_answers::frames::{Frame, FrameKind};
use trace_store_text::frame_words::innermost;

/// What records show of a frame: what its code was entered for, and the slot of the instance whose code
/// it is.
#[derive(Clone, Copy)]
pub struct ShownFrame {
    pub kind: FrameKind,
    pub slot: u32,
}

/// How many frames are kept, where some are left, and the one that is entered then, if one is.
#[derive(Clone, Copy)]
pub struct FrameChanges {
    pub kept: Option<usize>,
    pub entered: Option<ShownFrame>,
}

/// What a record says of frames: `count` were open, so many of them are kept, and these are open. Where
/// all of these but one at most are those that were kept, it makes these out of those that were open.
pub fn changed_frames(count: usize, kept: usize, frames: &[Frame]) -> FrameChanges
    ensures replays { (old : List ShownFrame) → length old ≡ count
        → AreKept old (shown_frames frames.now) kept
        → frames_after result old ≡ shown_frames frames.now }
    ensures left { IfSome result.kept (λ k. k < count) }
{
    FrameChanges {
        kept: if kept < count { Some(kept) } else { None },
        entered: if kept < frames.len() {
            shown(innermost(frames))
        } else {
            None
        },
    }
}

fn shown(frame: Option<Frame>) -> Option<ShownFrame>
    ensures { result ≡ option_map shown_frame frame }
{
    let frame = frame?;
    Some(ShownFrame {
        kind: frame.kind,
        slot: frame.slot,
    })
}
