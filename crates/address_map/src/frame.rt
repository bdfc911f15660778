//! The frame that a page of the address space is mapped to, packed into two bytes.

ghost use Rattle.std.specs.Prelude.{◌≡◌, ◌<◌, None, Some};

use std::marker::Model;

/// The number that stands for no frame. A store has at most 1024 frames.
const NO_FRAME: u16 = 65535;

/// The frame of a page, if it has one, in two bytes.
#[derive(Clone, Copy)]
pub(crate) struct PageFrame {
    number: u16,
}

impl Model for PageFrame {
    ghost use Rattle.std.specs.Prelude.{ℕ, Option};
    ghost use Rattle.address_map.specs.Pages.{frame_numbered, number_of_frame};

    ghost Value = { Option ℕ };

    ghost view = { λ f. frame_numbered f.number };

    ghost inverse = { λ frame. record { number = number_of_frame frame } };
}

impl PageFrame {
    /// No frame: the page is not mapped.
    pub(crate) fn none() -> PageFrame
        ensures { result ≡ None }
    {
        PageFrame { number: NO_FRAME }
    }

    /// The frame with this number.
    pub(crate) fn of(frame: u16) -> PageFrame
        requires { frame < 65535 }
        ensures { result ≡ Some frame }
    {
        PageFrame { number: frame }
    }

    /// The frame's number, if there is one.
    #[inline(always)]
    pub(crate) fn frame(self) -> Option<u16>
        ensures { result ≡ self }
    {
        if self.number == NO_FRAME {
            return None;
        }
        Some(self.number)
    }
}
