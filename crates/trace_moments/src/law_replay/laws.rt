//! Records, replayed one after another.

ghost use Rattle.trace_moments.specs.law_replay.Laws.{PrefixesReplay};
ghost use Rattle.trace_moments.specs.law_replay.Steps.{StepsKeepFrames};

/// Whoever has the machine at the start, and replays so many of the records that follow, has the machine
/// behind the last of these: registers of all banks, flags, mode, program counter, each word of memory,
/// the items of each heap, areas, modules, flex blocks, frames, and all that was printed.
pub fn prefixes_replay()
    ensures { PrefixesReplay }
{}

/// A step, and a call or a module from outside, keeps so many of the open frames as records say, and
/// opens one more at most; so what is said of them makes those that are open after it.
pub fn steps_keep_frames()
    ensures { StepsKeepFrames }
{}
