//! What a heap call answers, with the count of items that it looked at.

ghost use Rattle.std.specs.Prelude.{◌≡◌, Err};

use address_map::ErrorNumber;

/// What a heap call answers, and how much of the heap it looked at: a probe is one free item looked at along the links,
/// or one item passed in a walk.
#[derive(Clone, Copy, Drop)]
pub struct Counted<T> {
    pub answer: Result<T, ErrorNumber>,
    pub probes: u32,
}

/// What a call answers that is refused.
pub fn refused<T>(error: ErrorNumber, probes: u32) -> Counted<T>
    ensures { result ≡ record { answer = Err error; probes = probes } }
{
    let answer = Err(error);
    Counted { answer, probes }
}
