//! Banks of registers in one file, which change places.
//!
//! A file has 26 registers: R0 to R14 of user mode, and behind them those that the other modes have
//! for themselves (ARM2 data sheet, "Registers").
#![tactic(auto)]

ghost use Rattle.std.specs.Prelude.{◌≡◌, ◌<◌, ◌+◌, IsTrue};
ghost use Rattle.arm_core.specs.register_file.Banks.{changed_place, bank_exchanged, is_bank};

/// The place that a place of the file changes with, where the registers from R`first` up to R14
/// change with those `ahead` places on.
#[tactic(auto, using(crate::specs::register_file::Places::place_below, crate::specs::register_file::Places::bounds))]
#[inline(always)]
pub fn changed_place(first: usize, ahead: usize, place: usize) -> usize
    requires bank { IsTrue (is_bank first ahead) }
    requires place { place < 26 }
    ensures place { result ≡ changed_place first 15 ahead place }
    ensures bound { result < 26 }
{
    if place < first {
        place
    } else if place < 15 {
        place + ahead
    } else if place < first + ahead {
        place
    } else if place < 15 + ahead {
        place - ahead
    } else {
        place
    }
}

/// The registers from R`first` up to R14 change places with those `ahead` places on.
#[inline(always)]
pub fn exchange(file: &mut [u32; 26], first: usize, ahead: usize)
    requires { IsTrue (is_bank first ahead) }
    ensures { file.new ≡ bank_exchanged first ahead file.old }
{
    for number in first..15 {
        let value = file[number];
        file[number] = file[number + ahead];
        file[number + ahead] = value;
    }
}
