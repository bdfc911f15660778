//! The modules with their instances, where they differ.

ghost use Rattle.std.specs.Prelude.{◌≡◌, ◌↔◌, IsTrue};
ghost use Rattle.trace_moments.specs.Difference.{IsDifference};
ghost use Rattle.trace_moments.specs.Modules.{module_marks};

use law_machine::Instances;
use trace_store_text::modules::{InstanceMark, InstanceMarks, marks_of};

/// The instances of all modules as they are, where they aren't what they were. With each stand its
/// module's title, and its image's address and length; each module has an instance.
pub fn changed_modules(before: &Instances, after: &Instances) -> Option<InstanceMarks>
    ensures { IsDifference (module_marks before.now) (module_marks after.now) result }
{
    let old = marks_of(before);
    let new = marks_of(after);
    if are_same(old.as_slice(), new.as_slice()) {
        None
    } else {
        Some(new)
    }
}

fn are_same(old: &[InstanceMark], new: &[InstanceMark]) -> bool
    ensures { IsTrue result ↔ (old.now ≡ new.now) }
{
    if old.len() != new.len() {
        return false;
    }
    for (index, mark) in old.iter().enumerate() {
        if !is_same(mark, &new[index]) {
            return false;
        }
    }
    true
}

fn is_same(old: &InstanceMark, new: &InstanceMark) -> bool
    ensures { IsTrue result ↔ (old.now ≡ new.now) }
{
    old.title.as_slice() == new.title.as_slice()
        && old.name.as_slice() == new.name.as_slice()
        && old.slot == new.slot
        && old.preferred == new.preferred
        && old.at == new.at
        && old.len == new.len
}
