//! Which moves leave a heap to itself, as the contract of a function that does nothing.

ghost use Rattle.law_machine.specs.heap_runs.Calls.{CallsStandAside};

/// Store calls from outside leave each heap to itself, whatever they are and whatever machine they
/// are made on, but for Flex_Alloc, which may put an anchor in it. This does not say that they
/// leave it whole: a call may free or cut the block that it lies in, which forgets it, or make a
/// heap in it.
pub fn calls_stand_aside()
    ensures { CallsStandAside }
{}
