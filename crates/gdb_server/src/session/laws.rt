//! Laws of sessions with GDB, over their definitions alone.

ghost use Rattle.gdb_server.specs.session.Laws.{GdbLookingChangesNothing, GdbRegistersAreRead, GdbSearchesAreOneSearch, GdbSlicesAreOneRun, GdbWritesAreWhole, LookingLinesLeaveTheMachine};

/// A request that only looks leaves the session as it is, and is answered with the packet that shows
/// what is so.
pub fn looking_changes_nothing()
    ensures { GdbLookingChangesNothing }
{}

/// A line of the debugger's own language that looks or expects something, through GDB's monitor, leaves
/// the machine, the images, the breaks and the budget.
pub fn looking_lines_leave_the_machine()
    ensures { LookingLinesLeaveTheMachine }
{}

/// A register that GDB set is read with the value that it was given; where it can't have it, all is as
/// it was.
pub fn registers_are_read()
    ensures { GdbRegistersAreRead }
{}

/// Bytes that GDB stored stand where they were sent, and all others as they were; where one of their
/// words is refused, all is as it was. A word of the SWIs' own is refused.
pub fn writes_are_whole()
    ensures { GdbWritesAreWhole }
{}

/// A run that is taken in slices comes to what one run of all its steps comes to.
pub fn slices_are_one_run()
    ensures { GdbSlicesAreOneRun }
{}

/// Where going back ends is looked for in pieces of the past. Unless the user stops that, it comes to
/// what one search of the whole comes to.
pub fn searches_are_one_search()
    ensures { GdbSearchesAreOneSearch }
{}
