//! Words: numbers below 2^32, their bits, and their sums with carry and signed overflow.

ghost use Rattle.std.specs.Prelude.{◌≡◌, ◌<◌, ◌+◌, ◌%◌, ◌^◌, true};
ghost use Rattle.std.specs.Int.{bit_not, w32};
ghost use Rattle.profile.specs.Word.{bit_of};
ghost use Rattle.profile.specs.Sums.{sum_of, difference_of};

/// A sum or a difference of two words.
#[derive(Clone, Copy)]
pub struct Sum {
    /// The exact result modulo 2^32.
    pub value: u32,
    /// Of a sum: it reached 2^32. Of a difference: nothing was borrowed.
    pub carry: bool,
    /// The exact signed result is no signed word.
    pub overflow: bool,
}

/// Whether the bit at `place`, from 0 to 31, is set.
pub fn is_bit_set(word: u32, place: u32) -> bool
    requires { place < 32 }
    ensures { result ≡ bit_of word place }
{
    (word >> place) & 1 == 1
}

/// `left + right + carry`.
pub fn add(left: u32, right: u32, carry: bool) -> Sum
    ensures { result ≡ sum_of left right carry }
{
    let (value, carry) = left.carrying_add(right, carry);
    let overflow = is_bit_set(left, 31) == is_bit_set(right, 31)
        && is_bit_set(value, 31) != is_bit_set(left, 31);
    Sum {
        value,
        carry,
        overflow,
    }
}

/// `left - right - 1 + carry`.
pub fn subtract(left: u32, right: u32, carry: bool) -> Sum
    ensures { result ≡ difference_of left right carry }
{
    if !carry {
        return add(left, !right, false);
    }
    let value = left.wrapping_sub(right);
    Sum {
        value,
        carry: left >= right,
        overflow: has_other_sign(left, right, value),
    }
}

/// Whether a difference has another sign than the exact signed one, which the comparison of the two
/// words tells.
#[inline(always)]
fn has_other_sign(left: u32, right: u32, value: u32) -> bool
    requires { (value + right) % 2 ^ 32 ≡ left }
    ensures { result ≡ (difference_of left right true).overflow }
{
    if left.cast_signed() < right.cast_signed() {
        value < 1 << 31
    } else {
        value >= 1 << 31
    }
}
