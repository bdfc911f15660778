//! The list of files that a command line names.

ghost use Rattle.std.specs.Prelude.{◌≡◌, ◌<◌, ℕ, List, [], IfOk, length, map, slice_get, Some, string_bytes};

use std::alloc::{AllocError, Global};
use std::marker::Model;

/// A list of texts: the files that a command line names.
#[derive(Drop)]
pub struct Files {
    names: Vec<String>,
}

impl Model for Files {
    ghost Value = { List (List ℕ) };

    ghost view = { λ f. map string_bytes f.names.items };
}

impl Files {
    /// No text.
    pub fn none(alloc: Global) -> Files
        ensures { result ≡ [] }
    {
        Files {
            names: Vec::new(alloc),
        }
    }

    /// A copy of these texts.
    pub fn copied(alloc: Global, texts: &[&str]) -> Result<Files, AllocError>
        ensures { IfOk result (λ f. f ≡ map (λ t. t.now) texts.now) }
    {
        let mut names = Vec::new(alloc);
        for text in texts {
            names.push(String::from_str(alloc, text)?)?;
        }
        Ok(Files { names })
    }

    /// How many there are.
    pub fn len(&self) -> usize
        ensures { result ≡ length self.now }
    {
        self.names.len()
    }

    /// The text at a place, counted from 0.
    pub fn get(&self, n: usize) -> &str
        requires { n < length self.now }
        ensures { slice_get self.now n ≡ Some result.now }
    {
        self.names[n].as_str()
    }
}
