//! The law of results and flags. It is the contract of a function that does nothing.

ghost use Rattle.law_machine.specs.flags.Flags.{FlagsAreExact};

/// An operation that adds or subtracts and sets the flags, and isn't of the program counter: its
/// register gets the exact number modulo 2^32, N and Z are those of this word, C is set where the
/// number reaches 2^32, or in a difference where nothing was borrowed, and V where the number of
/// the signed operands is no signed word.
pub fn flags_are_exact()
    ensures { FlagsAreExact }
{}
