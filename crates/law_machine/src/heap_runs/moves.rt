//! Moves of a machine, and what comes of a list of them.

use arrayvec::ArrayVec;
use profile::Stop;
use profile::images::Images;

/// How many registers a store call from outside is given: R0 to R8.
pub const GIVEN_REGISTERS: usize = 9;

/// A move of a machine.
#[derive(Clone, Copy)]
pub enum MachineEvent {
    /// A store call from outside: its number, and the words of R0 to R8.
    Call(u32, [u32; GIVEN_REGISTERS]),
    /// A step: an instruction, a SWI or a return of module code.
    Step,
}

/// A list of moves, the images that they may load from, and the heap whose answers are to be noted.
#[derive(Clone, Copy)]
pub struct MachineMoves<'a> {
    pub images: &'a Images,
    /// Where the heap starts.
    pub start: u32,
    pub list: &'a [MachineEvent],
}

/// What a heap answers to a call of OS_Heap on it.
#[derive(Clone, Copy)]
pub enum Reply {
    /// R2 and R3.
    Answered(u32, u32),
    /// The number of an error.
    Refused(u32),
}

impl Default for Reply {
    fn default() -> Reply {
        Reply::Answered(0, 0)
    }
}

/// Why a list of moves ended.
#[derive(Clone, Copy)]
pub enum End {
    /// All were made, and the machine goes on.
    All,
    /// The last move that was made is a call on the heap, for whose answer there is no room. The
    /// machine still has it.
    Full,
    /// The machine is halted: by the last move that was made, or before any was.
    Halted(Stop),
}

/// What came of a list of moves.
#[derive(Drop)]
pub struct Made<const MOST: usize> {
    /// How many moves were made.
    pub count: usize,
    pub end: End,
    /// What the heap answered to its own calls, those of reasons 1 to 6 on it from outside, in
    /// turn.
    pub answers: ArrayVec<Reply, MOST>,
}
