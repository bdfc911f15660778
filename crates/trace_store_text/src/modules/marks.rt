//! The instances of all modules, one after another.

ghost use Rattle.std.specs.Prelude.{◌≡◌, ◌≤◌, ◌<◌, ◌+◌, ◌∷◌, ◌++◌, [], length, slice_get};
ghost use Rattle.arrayvec.specs.ArrayVec.{array_vec_len};
ghost use Rattle.instances_table.specs.Lookup.{shown_of_place};
ghost use Rattle.trace_store_text.specs.modules.Marks.{instance_marks, marks_at, marks_in, one_mark};

use arrayvec::ArrayVec;
use instances_table::{MOST_INSTANCES, Name};
use store_copies::Instances;

/// An instance: its module's title, its own name, its slot, whether it is the preferred one of its
/// module, and where its image stands, and how many bytes that has.
#[derive(Default, Drop)]
pub struct InstanceMark {
    pub title: Name,
    pub name: Name,
    pub slot: u32,
    pub preferred: bool,
    pub at: u32,
    pub len: u32,
}

/// Instances of modules, at most all that there can be.
pub type InstanceMarks = ArrayVec<InstanceMark, MOST_INSTANCES>;

/// The instances of all modules, oldest module first, each with its instances, oldest first.
pub fn marks_of(modules: &Instances) -> InstanceMarks
    ensures { result.items ≡ instance_marks modules.now }
{
    modules.known();
    let mut marks = ArrayVec::new();
    for number in 0..modules.count() {
        add_module(&mut marks, modules, number);
    }
    marks
}

// The instances of one module more.
fn add_module(marks: &mut InstanceMarks, modules: &Instances, number: u32)
    requires room { array_vec_len marks.old + length (marks_at (slice_get modules.now number)) ≤ 64 }
    ensures { marks.new.items ≡ marks.old.items ++ marks_at (slice_get modules.now number) }
{
    for instance in 0..modules.instance_count(number) {
        add_instance(marks, modules, number, instance);
    }
}

// One instance more, if there is one of that number.
fn add_instance(marks: &mut InstanceMarks, modules: &Instances, number: u32, instance: u32)
    requires room { array_vec_len marks.old < 64 }
    ensures { marks.new.items ≡ marks.old.items ++ one_mark instance (slice_get modules.now number) }
{
    let Some(info) = modules.module(number) else {
        return;
    };
    if let Some(reported) = modules.instance(number, instance) {
        marks.push(InstanceMark {
            title: info.title,
            name: reported.name,
            slot: reported.slot,
            preferred: reported.preferred,
            at: info.image,
            len: info.len,
        });
    }
}
