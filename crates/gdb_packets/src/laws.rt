//! The law of frames and of reading, over their definitions alone.

ghost use Rattle.gdb_packets.specs.Laws.{PacketsAreRead};

/// Whatever was read before, what is sent in a frame is read as that packet, and then the reading
/// stands between packets again.
pub fn packets_are_read()
    ensures { PacketsAreRead }
{}
