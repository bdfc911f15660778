//! The sizes of a machine, in pages, and their limits.

ghost use Rattle.std.specs.Prelude.{◌≡◌, ◌≤◌, ◌+◌};
ghost use Rattle.profile.specs.Sizes.{Sizes, AreGood};

use crate::memory_map::{MOST_PAGES, SYSTEM_PAGES};
use std::marker::Model;

/// The sizes of a machine, in pages of 4096 bytes: all its memory, the application space and the
/// module area at the start. What is left, past the three system pages, is the pool.
///
/// There is at least one page of application space and one of module area, at most 1024 pages in
/// all, and room for everything.
#[derive(Clone, Copy)]
pub struct Config {
    pages: u32,
    app: u32,
    rma: u32,
}

impl Model for Config {
    ghost Value = { Sizes };

    ghost view = { λ c. record { pages = c.pages; app = c.app; rma = c.rma } };

    ghost invariant = { λ c. AreGood (record { pages = c.pages; app = c.app; rma = c.rma }) };

    ghost inverse = { λ s. record { pages = s.pages; app = s.app; rma = s.rma } };
}

impl Config {
    ghost use Rattle.profile.specs.Sizes.{config_of};

    /// The sizes, or `None` where they can't be.
    pub fn new(pages: u32, app: u32, rma: u32) -> Option<Config>
        ensures { result ≡ config_of pages app rma }
    {
        if app < 1 || rma < 1 || pages > MOST_PAGES {
            return None;
        }
        if app > pages || rma > pages - app || SYSTEM_PAGES > pages - app - rma {
            return None;
        }
        Some(Config { pages, app, rma })
    }

    /// All pages of the machine.
    pub fn pages(self) -> u32
        ensures value { result ≡ self.pages }
        ensures sizes { AreGood self }
    {
        self.pages
    }

    /// The pages of the application space.
    pub fn app(self) -> u32
        ensures value { result ≡ self.app }
        ensures sizes { AreGood self }
    {
        self.app
    }

    /// The pages of the module area at the start.
    pub fn rma(self) -> u32
        ensures value { result ≡ self.rma }
        ensures sizes { AreGood self }
    {
        self.rma
    }
}
