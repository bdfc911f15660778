//! The actions of which a module call is made.

/// One action of a module call. Instances are named by their slots, which stay while places in
/// lists move.
#[derive(Clone, Copy)]
pub enum PlanAction {
    /// The finalisation entry of an instance runs; the flag says whether it is fatal.
    Finalise(u32, bool),
    /// An instance is removed.
    Remove(u32),
    /// The block that an instance's private word names is freed, and the word is 0.
    FreePrivate(u32),
    /// The new module is added, with its first instance in a slot.
    Insert(u32),
    /// An instance of a module that is there is added in a slot.
    Instantiate(u32),
    /// The image of the new module is given up.
    GiveUp,
    /// The blocks of the module area slide together.
    Slide,
    /// The call's text is written, and the initialisation entry of an instance runs.
    Initialise(u32),
}

impl Default for PlanAction {
    fn default() -> PlanAction {
        PlanAction::Slide
    }
}
