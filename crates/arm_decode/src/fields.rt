//! The fields of a word, cut out where the table has them.
ghost use Rattle.std.specs.Prelude.{◌≡◌, ◌<◌, ◌^◌};
ghost use Rattle.profile.specs.Word.{field};

/// The `size` bits of a word from bit `low` on.
pub(crate) fn field_of(word: u32, low: u32, size: u32) -> u32
    requires low_inside { low < 32 }
    requires size_inside { size < 32 }
    ensures value { result ≡ field word low size }
    ensures below { result < 2 ^ size }
{
    (word >> low) & ((1 << size) - 1)
}
