//! A law of what GDB's bytes are answered with.

ghost use Rattle.gdb_server.specs.Laws.{PiecesAreServed};

/// What GDB sends in two pieces leaves a server where the two in one leave it, and is answered alike.
pub fn pieces_are_served()
    ensures { PiecesAreServed }
{}
