//! Copies and fills within a slice, by lanes of 32 bytes and then byte by byte for the rest.

ghost use Rattle.std.specs.Prelude.{◌≡◌, ◌≤◌, ◌<◌, ◌+◌, ◌-◌, ◌*◌, length, replicate};
ghost use Rattle.raw_store.specs.Region.{bytes_after_copy, bytes_after_zero};

use std::simd::prelude::*;

// The bytes of a lane.
const LANE: usize = 32;

/// Copies `len` bytes; the two ranges may overlap.
///
/// Each piece is read before it is written over: from the first piece on where the bytes go down,
/// and from the last one back where they go up.
#[tactic(auto, using(crate::proofs::Pieces::pieces))]
pub(crate) fn copy(bytes: &mut [u8], from: usize, to: usize, len: usize)
    requires source { from + len ≤ length bytes.old }
    requires target { to + len ≤ length bytes.old }
    ensures { bytes.new ≡ bytes_after_copy bytes.old from to len }
{
    let lanes = len / LANE;
    let rest = len % LANE;
    let done = lanes * LANE;
    if to <= from {
        copy_lanes_down(bytes, from, to, lanes);
        copy_bytes_down(bytes, from + done, to + done, rest);
    } else {
        copy_bytes_up(bytes, from + done, to + done, rest);
        copy_lanes_up(bytes, from, to, lanes);
    }
}

/// Makes all the bytes zero.
pub(crate) fn zero(bytes: &mut [u8])
    ensures { bytes.new ≡ replicate (length bytes.old) 0 }
{
    let lanes = bytes.len() / LANE;
    zero_lanes(bytes, lanes);
    zero_bytes(bytes, lanes * LANE);
}

// To a lower place, or the same: the first lane first.
fn copy_lanes_down(bytes: &mut [u8], from: usize, to: usize, lanes: usize)
    requires source { from + 32 * lanes ≤ length bytes.old }
    requires below { to ≤ from }
    ensures { bytes.new ≡ bytes_after_copy bytes.old from to (32 * lanes) }
{
    for lane in 0..lanes {
        copy_lane(bytes, from + lane * LANE, to + lane * LANE);
    }
}

fn copy_bytes_down(bytes: &mut [u8], from: usize, to: usize, len: usize)
    requires source { from + len ≤ length bytes.old }
    requires below { to ≤ from }
    ensures { bytes.new ≡ bytes_after_copy bytes.old from to len }
{
    for place in 0..len {
        copy_byte(bytes, from + place, to + place);
    }
}

// To a higher place, or the same: the last lane first.
fn copy_lanes_up(bytes: &mut [u8], from: usize, to: usize, lanes: usize)
    requires target { to + 32 * lanes ≤ length bytes.old }
    requires above { from ≤ to }
    ensures { bytes.new ≡ bytes_after_copy bytes.old from to (32 * lanes) }
{
    for lane in (0..lanes).rev() {
        copy_lane(bytes, from + lane * LANE, to + lane * LANE);
    }
}

fn copy_bytes_up(bytes: &mut [u8], from: usize, to: usize, len: usize)
    requires target { to + len ≤ length bytes.old }
    requires above { from ≤ to }
    ensures { bytes.new ≡ bytes_after_copy bytes.old from to len }
{
    for place in (0..len).rev() {
        copy_byte(bytes, from + place, to + place);
    }
}

fn copy_lane(bytes: &mut [u8], from: usize, to: usize)
    requires source { from + 32 ≤ length bytes.old }
    requires target { to + 32 ≤ length bytes.old }
    ensures { bytes.new ≡ bytes_after_copy bytes.old from to 32 }
{
    let lane = u8x32::from_slice(&bytes[from..]);
    lane.copy_to_slice(&mut bytes[to..]);
}

fn copy_byte(bytes: &mut [u8], from: usize, to: usize)
    requires source { from + 1 ≤ length bytes.old }
    requires target { to + 1 ≤ length bytes.old }
    ensures { bytes.new ≡ bytes_after_copy bytes.old from to 1 }
{
    bytes[to] = bytes[from];
}

fn zero_lanes(bytes: &mut [u8], lanes: usize)
    requires { 32 * lanes ≤ length bytes.old }
    ensures { bytes.new ≡ bytes_after_zero bytes.old 0 (32 * lanes) }
{
    for lane in 0..lanes {
        zero_lane(bytes, lane * LANE);
    }
}

// All bytes from a place on.
fn zero_bytes(bytes: &mut [u8], first: usize)
    requires { first ≤ length bytes.old }
    ensures { bytes.new ≡ bytes_after_zero bytes.old first (length bytes.old - first) }
{
    for place in first..bytes.len() {
        zero_byte(bytes, place);
    }
}

fn zero_lane(bytes: &mut [u8], at: usize)
    requires { at + 32 ≤ length bytes.old }
    ensures { bytes.new ≡ bytes_after_zero bytes.old at 32 }
{
    u8x32::splat(0).copy_to_slice(&mut bytes[at..]);
}

fn zero_byte(bytes: &mut [u8], at: usize)
    requires { at < length bytes.old }
    ensures { bytes.new ≡ bytes_after_zero bytes.old at 1 }
{
    bytes[at] = 0;
}
