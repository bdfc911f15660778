//! Sums of sizes: a size after a signed change, and a size rounded up.

ghost use Rattle.std.specs.Prelude.{◌≡◌, ◌<◌, ◌^◌};
ghost use Rattle.os_heap_words.specs.lists.Lists.{round_up_8, changed_by};

/// A size after a change of it, a signed word in two's complement; a sum below 0 counts as 0.
pub fn changed_by(size: u32, change: u32) -> u64
    ensures { result ≡ changed_by size change }
{
    let sum = u64::from(size) + u64::from(change);
    if change < 0x8000_0000 {
        sum
    } else {
        sum.saturating_sub(0x1_0000_0000)
    }
}

/// The least multiple of 8 that is no less.
pub fn round_up_8(size: u64) -> u64
    requires { size < 2 ^ 34 }
    ensures { result ≡ round_up_8 size }
{
    (size + 7) / 8 * 8
}
