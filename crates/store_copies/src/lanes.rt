//! Pages compared by lanes of 16 words, each at once.

ghost use Rattle.std.specs.Prelude.{◌≡◌, ◌<◌, ◌+◌, ◌*◌, true, length};
ghost use Rattle.store_copies.specs.Words.{AreSameBytes};

use profile::memory_map::PAGE_SIZE;
use std::simd::prelude::*;

/// How many words a page has.
pub(crate) const PAGE_WORDS: u32 = PAGE_SIZE / 4;

/// How many words a lane has.
pub(crate) const LANE_WORDS: u32 = 16;

/// Whether two pages have the same bytes: most have, so all their lanes are looked at before any
/// is asked for by itself, four of them in a row.
pub(crate) fn has_same_page(old: &[u8], new: &[u8]) -> bool
    requires old { length old.now ≡ 4096 }
    requires new { length new.now ≡ 4096 }
    ensures { result ≡ true → AreSameBytes old.now new.now 0 4096 }
{
    for row in 0..16 {
        let lane = 4 * row;
        let first = has_same_lane(old, new, lane) & has_same_lane(old, new, lane + 1);
        let last = has_same_lane(old, new, lane + 2) & has_same_lane(old, new, lane + 3);
        if !(first & last) {
            return false;
        }
    }
    true
}

/// Whether a lane of two pages has the same bytes, by its number.
#[inline(always)]
pub(crate) fn has_same_lane(old: &[u8], new: &[u8], lane: u32) -> bool
    requires old { length old.now ≡ 4096 }
    requires new { length new.now ≡ 4096 }
    requires lane { lane < 64 }
    ensures { result ≡ true → AreSameBytes old.now new.now (64 * lane) (64 * lane + 64) }
{
    let at = 4 * (LANE_WORDS * lane) as usize;
    let was = u8x64::from_slice(&old[at..]);
    let is = u8x64::from_slice(&new[at..]);
    was.simd_ne(is).to_bitmask() == 0
}
