//! The registers of a list: how many they are, and one after another, the lowest first.

ghost use Rattle.std.specs.Prelude.{◌≡◌, ◌<◌, ◌≤◌, ◌^◌, ◌∷◌, length};
ghost use Rattle.arm_core.specs.Listed.{registers_of_list};

use arm_decode::{Register, RegisterList};

/// How many registers a list has.
#[tactic(auto, using(crate::proofs::Listing::counted))]
#[inline(always)]
pub fn size_of(list: RegisterList) -> u32
    ensures size { result ≡ length (registers_of_list list) }
    ensures few { result ≤ 16 }
{
    list.bits().count_ones()
}

/// The lowest register of a list that is not empty, and the list without it. A list is 16 bits; it
/// comes as a number of 64, so that its register's place in the file needs no widening.
#[tactic(auto, using(crate::proofs::Lowest::splitting))]
#[inline(always)]
pub fn split_lowest(list: u64) -> (Register, u64)
    requires some { 0 < list }
    requires bits { list < 2 ^ 16 }
    ensures registers { registers_of_list list ≡ result.0 ∷ registers_of_list result.1 }
    ensures bits { result.1 < 2 ^ 16 }
    ensures below { list < 2 ^ 15 → result.0 < 15 }
    ensures low { list < 2 ^ 15 → result.1 < 2 ^ 15 }
{
    let number = list.trailing_zeros();
    (Register::new(number as u8), list & (list - 1))
}
