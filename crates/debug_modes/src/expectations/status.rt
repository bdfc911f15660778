//! A status beside a pattern of letters, which shows some of its parts.

ghost use Rattle.std.specs.Prelude.{◌≡◌, unwrap_or};
ghost use Rattle.debug_modes.specs.expectations.Checks.{has_status, is_flag, is_mode, is_mode_answer, status_after_pattern};

use arm_core::{Mode, Psr};
use debug_lines::StatusPattern;

/// Whether a status is as a pattern shows it.
pub fn has_status(pattern: &StatusPattern, status: Psr) -> bool
    ensures { result ≡ has_status pattern.now status }
{
    is_flag(pattern.negative, status.negative)
        && is_flag(pattern.zero, status.zero)
        && is_flag(pattern.carry, status.carry)
        && is_flag(pattern.overflow, status.overflow)
        && is_flag(pattern.interrupts_off, status.interrupts_off)
        && is_flag(pattern.fast_interrupts_off, status.fast_interrupts_off)
        && is_mode_answer(pattern.mode, status.mode)
}

/// The status with what a pattern shows; all else stays.
pub fn status_with(pattern: &StatusPattern, status: Psr) -> Psr
    ensures { result ≡ status_after_pattern pattern.now status }
{
    Psr {
        negative: pattern.negative.unwrap_or(status.negative),
        zero: pattern.zero.unwrap_or(status.zero),
        carry: pattern.carry.unwrap_or(status.carry),
        overflow: pattern.overflow.unwrap_or(status.overflow),
        interrupts_off: pattern.interrupts_off.unwrap_or(status.interrupts_off),
        fast_interrupts_off: pattern
            .fast_interrupts_off
            .unwrap_or(status.fast_interrupts_off),
        mode: pattern.mode.unwrap_or(status.mode),
    }
}

// A flag, where the pattern shows it.
fn is_flag(reported: Option<bool>, flag: bool) -> bool
    ensures { result ≡ is_flag reported flag }
{
    match reported {
        None => true,
        Some(true) => flag,
        Some(false) => !flag,
    }
}

fn is_mode_answer(reported: Option<Mode>, mode: Mode) -> bool
    ensures { result ≡ is_mode_answer reported mode }
{
    match reported {
        None => true,
        Some(reported) => is_mode(reported, mode),
    }
}

fn is_mode(one: Mode, other: Mode) -> bool
    ensures { result ≡ is_mode one other }
{
    matches!(
        (one, other),
        (Mode::User, Mode::User)
            | (Mode::FastInterrupt, Mode::FastInterrupt)
            | (Mode::Interrupt, Mode::Interrupt)
            | (Mode::Supervisor, Mode::Supervisor)
    )
}
