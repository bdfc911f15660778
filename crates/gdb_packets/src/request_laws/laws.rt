//! The law of GDB's requests, over definitions alone.

ghost use Rattle.gdb_packets.specs.request_laws.Laws.{RequestsAreExact};

/// A packet is read as a request exactly where the grammar says that it asks for it; what asks for
/// nothing is unknown.
pub fn requests_are_exact()
    ensures { RequestsAreExact }
{}
