//! Labels and their addresses.

ghost use Rattle.std.specs.Prelude.{◌≡◌, ◌++◌, ◌∷◌, [], None, length, slice_get, option_map, IfErr, OnOk, OnErr};
ghost use Rattle.assembler_text.specs.naming.Labels.{address_of, begins_with_digit, is_label};

use crate::naming::names::register_named;
use crate::naming::reason::Reason;
use indexmap::IndexMap;
use std::alloc::Global;
use std::marker::Model;

/// The labels of a source and their addresses, in the order in which they were put.
///
/// Contracts see the list of names and addresses.
#[derive(Drop)]
pub struct Labels<'a> {
    map: IndexMap<&'a [u8], u32>,
}

impl<'a> Model for Labels<'a> {
    ghost use Rattle.assembler_text.specs.naming.Labels.{Entries, named_entries};

    ghost Value = { Entries };

    ghost view = { λ l. named_entries l.map.entries };
}

impl<'a> Labels<'a> {
    /// No label.
    pub fn new(alloc: Global) -> Labels<'a>
        ensures { result ≡ [] }
    {
        Labels {
            map: IndexMap::new(alloc),
        }
    }

    /// The address of a label. Letters of either case differ.
    pub fn find(&self, name: &[u8]) -> Option<u32>
        ensures { result ≡ address_of self.now name.now }
    {
        self.map.get(name).copied()
    }

    /// How many labels there are.
    pub fn count(&self) -> usize
        ensures { result ≡ length self.now }
    {
        self.map.len()
    }

    /// A label and its address, by its place in the order in which they were put.
    pub fn entry(&self, place: usize) -> Option<(&'a [u8], u32)>
        ensures { option_map (λ entry. (entry.0.now, entry.1)) result ≡ slice_get self.now place }
    {
        let (name, address) = self.map.get_index(place)?;
        Some((*name, *address))
    }

    /// Puts a label that isn't there yet.
    ///
    /// # Errors
    ///
    /// `Memory`; then no label was put.
    pub fn put(&mut self, name: &'a [u8], address: u32) -> Result<(), Reason>
        requires { address_of self.old name.now ≡ None }
        ensures put { OnOk result (self.new ≡ self.old ++ (name.now, address) ∷ []) }
        ensures full { OnErr result (self.new ≡ self.old) }
        ensures memory { IfErr result (λ reason. reason ≡ Reason.Memory) }
    {
        let Ok(_) = self.map.insert(name, address) else {
            return Err(Reason::Memory);
        };
        Ok(())
    }
}

/// Whether a word may be a label: 1 to 63 letters, digits and `_`, no digit first, and no
/// register's name.
pub fn is_label(name: &[u8]) -> bool
    ensures { result ≡ is_label name.now }
{
    1 <= name.len()
        && name.len() <= 63
        && !begins_with_digit(name)
        && register_named(name).is_none()
}

/// Whether a word begins with a digit.
pub fn begins_with_digit(name: &[u8]) -> bool
    ensures { result ≡ begins_with_digit name.now }
{
    match name {
        [] => false,
        [first, ..] => first.is_ascii_digit(),
    }
}
