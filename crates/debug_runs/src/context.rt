//! What the steps of a line are taken with.

use debug_labels::LabelTable;
use debug_tables::StepModes;
use profile::images::Images;

/// What the steps of a line are taken with: the images that SWIs load, the stubs and watches, and
/// the labels that a trace names.
#[derive(Drop)]
pub(crate) struct StepContext<'a> {
    pub(crate) images: &'a Images,
    pub(crate) modes: &'a StepModes,
    pub(crate) labels: &'a LabelTable,
}
