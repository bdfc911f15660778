//! What lines are answered with that enter the code of modules.

use debug_runs::LabelTable;
use profile::images::Images;
use std::alloc::Global;

/// What a line is answered with: the memory for answers, the images that SWIs load, the labels that a
/// trace names, how many steps the line may take, and its number.
#[derive(Drop)]
pub(crate) struct LineContext<'a> {
    pub(crate) alloc: Global,
    pub(crate) images: &'a Images,
    pub(crate) labels: &'a LabelTable,
    pub(crate) budget: u64,
    pub(crate) number: u64,
}
