//! Laws of registers that are written, and of where going back ends, over their definitions alone.

ghost use Rattle.gdb_machine.specs.BackEnds.{FirstIsMetFirst};
ghost use Rattle.gdb_machine.specs.Laws.{RegisterWritesAreRead};

/// A register that was written is read with the value that it was given.
pub fn register_writes_are_read()
    ensures { RegisterWritesAreRead }
{}

/// Of all places at which going back may end, none is met before the one at which it ends.
pub fn first_is_met_first()
    ensures { FirstIsMetFirst }
{}
