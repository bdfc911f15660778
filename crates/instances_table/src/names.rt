//! Full names.
ghost use Rattle.std.specs.Prelude.{◌≡◌, ◌≤◌, length, option_map};
ghost use Rattle.std.specs.List.{list_all, position};
ghost use Rattle.profile.specs.images.module_header.Title.{is_title_byte};
ghost use Rattle.instances_table.specs.Names.{FullName, full_name_parts, is_percent, is_instance_name};

use crate::parts::{MOST_NAME_BYTES, Name};
use profile::images::module_header::is_title_byte;

/// A full name: a title, and the instance's name after the first `%`, if there is one.
#[derive(Clone, Copy)]
pub(crate) struct FullName<'a> {
    pub(crate) title: &'a [u8],
    pub(crate) name: Option<&'a [u8]>,
}

impl<'a> FullName<'a> {
    pub(crate) fn of(full: &'a [u8]) -> FullName<'a>
        ensures { record { title = result.title.now; name = option_map (λ n. n.now) result.name }
            ≡ full_name_parts full.now }
    {
        match place_of_percent(full) {
            Some(place) => FullName {
                title: &full[..place],
                name: Some(&full[place + 1..]),
            },
            None => FullName {
                title: full,
                name: None,
            },
        }
    }
}

fn place_of_percent(full: &[u8]) -> Option<usize>
    ensures { result ≡ position is_percent full.now }
{
    full.iter().position(|byte| *byte == b'%')
}

/// Whether a new instance may have that name.
pub(crate) fn is_instance_name(name: &[u8]) -> bool
    ensures { result ≡ is_instance_name name.now }
{
    !name.is_empty() && name.len() <= MOST_NAME_BYTES && are_title_bytes(name)
}

fn are_title_bytes(name: &[u8]) -> bool
    ensures { result ≡ list_all is_title_byte name.now }
{
    name.iter().all(|byte| is_title_byte(*byte))
}

/// A name of these bytes.
pub(crate) fn name_of(bytes: &[u8]) -> Name
    requires { length bytes.now ≤ 31 }
    ensures { result.items ≡ bytes.now }
{
    let mut name = Name::new();
    name.try_extend_from_slice(bytes).unwrap();
    name
}
