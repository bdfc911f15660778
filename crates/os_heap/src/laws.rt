//! Laws of live blocks, of forgotten heaps, and of heaps that lie in others. Each is the contract
//! of a function that does nothing.

ghost use Rattle.os_heap.specs.Laws.{CallsKeepPayloads, ForgettingKeeps, ForgottenAreLost, InnermostShows, LiveBlocksAreApart, RecordsAreShown};

/// No byte belongs to two live blocks, unless one lies, with its heap, in what the other holds.
#[tactic(auto, using(crate::proofs::Apart::blocks_apart))]
pub fn live_blocks_share_no_byte()
    ensures { LiveBlocksAreApart }
{}

/// A call that is done keeps the bytes of each block of its heap that was live and is so still, and all bytes outside the heap.
#[tactic(auto, using(crate::proofs::KeptPayloads::calls_keep))]
pub fn calls_keep_payloads()
    ensures { CallsKeepPayloads }
{}

/// Heaps that are forgotten leave a sound store.
#[tactic(auto, using(crate::proofs::Forgetting::forgot_sound))]
pub fn forgetting_keeps_stores()
    ensures { ForgettingKeeps }
{}

/// The heaps that are forgotten with bytes of a live block are those that have one of these, and those that lie in one of them.
#[tactic(auto, using(crate::proofs::LossLaw::forgotten_lost))]
pub fn forgotten_heaps_are_lost()
    ensures { ForgottenAreLost }
{}

/// Of heaps that lie round each other the innermost shows for all of them.
#[tactic(auto, using(crate::proofs::Innermost::innermost_shows))]
pub fn innermost_heaps_print()
    ensures { InnermostShows }
{}

/// The heaps of a store, its other ranges, and the order in which all are recorded show the record.
#[tactic(auto, using(crate::proofs::Order::records_shown))]
pub fn records_are_shown()
    ensures { RecordsAreShown }
{}
