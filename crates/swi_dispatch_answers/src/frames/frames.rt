//! The frames that are open.

ghost use Rattle.std.specs.Prelude.{◌≡◌, ◌<◌, ◌≤◌, [], ◌∷◌, ◌++◌, None, Some, MatchOption, length};
ghost use Rattle.swi_dispatch_answers.specs.frames.Frames.{innermost_frame, frames_after_close};

use crate::frames::frame::Frame;
use arrayvec::ArrayVec;
use std::marker::Model;

/// How many frames can be open.
pub const MOST_FRAMES: usize = 32;

/// The frames that are open, at most 32, the innermost last.
#[derive(Drop)]
pub struct Frames {
    table: ArrayVec<Frame, MOST_FRAMES>,
}

impl Model for Frames {
    ghost use Rattle.std.specs.Prelude.{List, ◌≤◌, length};
    ghost use Rattle.swi_dispatch_answers.specs.declared.frames.frame.Frame.{Frame};

    ghost Value = { List Frame };

    ghost view = { λ f. f.table.items };

    ghost invariant = { λ f. length f.table.items ≤ 32 };
}

impl Frames {
    /// No frame.
    pub fn new() -> Frames
        ensures { result ≡ [] }
    {
        Frames {
            table: ArrayVec::new(),
        }
    }

    /// How many frames are open.
    pub fn len(&self) -> usize
        ensures value { result ≡ length self.now }
        ensures fits { result ≤ 32 }
    {
        self.table.len()
    }

    /// The frames as they were opened.
    pub fn as_slice(&self) -> &[Frame]
        ensures { result.now ≡ self.now }
    {
        self.table.as_slice()
    }

    /// Opens a frame.
    pub fn open(&mut self, frame: Frame)
        requires { length self.old < 32 }
        ensures { self.new ≡ self.old ++ frame ∷ [] }
    {
        self.table.push(frame);
    }

    /// The frame that was opened last, if one is open.
    pub fn innermost(&self) -> Option<&Frame>
        ensures { MatchOption result (innermost_frame self.now ≡ None)
            (λ frame. innermost_frame self.now ≡ Some frame.now) }
    {
        self.table.as_slice().last()
    }

    /// Closes the innermost frame, if one is open.
    pub fn close(&mut self)
        ensures value { self.new ≡ frames_after_close self.old }
        ensures room { length self.new < 32 }
    {
        self.table.pop();
    }
}
