//! Which instances are the same, and which are preferred in place of others.

ghost use Rattle.std.specs.Prelude.{◌≡◌};
ghost use Rattle.std.specs.List.{list_any, position};
ghost use Rattle.trace_store_text.specs.modules.Changes.{is_preferred_anew, is_same_instance, old_address, was_preferred_beside};

use crate::modules::marks::InstanceMark;

/// Whether an instance is among some others.
pub fn has_same(marks: &[InstanceMark], mark: &InstanceMark) -> bool
    ensures { result ≡ list_any (is_same_instance mark.now) marks.now }
{
    marks.iter().any(|other| is_same(mark, other))
}

/// Where the image of an instance stands among some others, if it is one of them.
pub fn old_address(marks: &[InstanceMark], mark: &InstanceMark) -> Option<u32>
    ensures { result ≡ old_address marks.now mark.now }
{
    let place = place_of(marks, mark)?;
    let found = marks.get(place)?;
    Some(found.at)
}

// Where among some others the first that is the same is.
fn place_of(marks: &[InstanceMark], mark: &InstanceMark) -> Option<usize>
    ensures { result ≡ position (is_same_instance mark.now) marks.now }
{
    marks.iter().position(|other| is_same(mark, other))
}

// Whether both have the same title and the same name, and images of the same length.
fn is_same(mark: &InstanceMark, other: &InstanceMark) -> bool
    ensures { result ≡ is_same_instance mark.now other.now }
{
    mark.title
        .as_slice()
        .eq_ignore_ascii_case(other.title.as_slice())
        && mark
            .name
            .as_slice()
            .eq_ignore_ascii_case(other.name.as_slice())
        && mark.len == other.len
}

/// Whether an instance is the preferred one of its module, where another was before.
pub fn is_preferred_anew(before: &[InstanceMark], mark: &InstanceMark) -> bool
    ensures { result ≡ is_preferred_anew before.now mark.now }
{
    mark.preferred && was_another_preferred(before, mark)
}

fn was_another_preferred(before: &[InstanceMark], mark: &InstanceMark) -> bool
    ensures { result ≡ list_any (was_preferred_beside mark.now) before.now }
{
    before.iter().any(|other| was_preferred_beside(mark, other))
}

// Whether the second was preferred, of a module with the same title, and has another name.
fn was_preferred_beside(mark: &InstanceMark, other: &InstanceMark) -> bool
    ensures { result ≡ was_preferred_beside mark.now other.now }
{
    other.preferred
        && mark
            .title
            .as_slice()
            .eq_ignore_ascii_case(other.title.as_slice())
        && !mark
            .name
            .as_slice()
            .eq_ignore_ascii_case(other.name.as_slice())
}
