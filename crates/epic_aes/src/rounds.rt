//! The cipher's steps on vectors. Where a byte lies changes from round to round: ShiftRows moves nothing, and MixColumns puts a
//! byte where the one below it was. The tables of neighbours follow.

ghost use Rattle.std.specs.Prelude.{◌≡◌, ◌+◌, ◌%◌, ◌<◌, [], slice_index_or};
ghost use Rattle.epic_aes.specs.Cipher.{add_round_key, round, last_round};
ghost use Rattle.epic_aes.specs.Lanes.{AreBytes, mixed_lanes, state_of, key_of};

use crate::lanes::{half_sum, halves, look_up, nibble_sum};
use crate::tables::{
    ABOVE, ENTER_HIGH, ENTER_LOW, LAST, LEAVE_HIGH, LEAVE_LOW, ONE_FIRST, ONE_SECOND, OPPOSITE,
    TWO_FIRST, TWO_SECOND,
};
use std::simd::prelude::*;

/// The lanes that stand for the bytes of a block.
#[inline(always)]
pub(crate) fn enter(block: u8x16) -> u8x16
    ensures value { state_of 0 result ≡ block }
    ensures bytes { AreBytes result }
{
    nibble_sum(ENTER_LOW, ENTER_HIGH, block)
}

/// The bytes of the block that lanes stand for.
#[inline(always)]
pub(crate) fn leave(x: u8x16) -> u8x16
    ensures { result ≡ state_of 0 x }
{
    nibble_sum(LEAVE_LOW, LEAVE_HIGH, x)
}

#[inline(always)]
pub(crate) fn sum(x: u8x16, y: u8x16) -> u8x16
    ensures { state_of 0 result ≡ add_round_key (state_of 0 x) (state_of 0 y) }
{
    x ^ y
}

// MixColumns and AddRoundKey in the round after n rounds, from the S-box of each byte and its double.
#[inline(always)]
fn mix(one: u8x16, two: u8x16, key: u8x16, n: usize) -> u8x16
    ensures { result ≡ mixed_lanes one two key (slice_index_or OPPOSITE (n % 2) []) (slice_index_or ABOVE (n % 4) []) }
{
    let sum = two ^ look_up(one, u8x16::from_array(OPPOSITE[n % 2]));
    one ^ key ^ sum ^ look_up(sum, u8x16::from_array(ABOVE[n % 4]))
}

/// The round after n rounds, fewer than nine.
#[inline(always)]
pub(crate) fn round(x: u8x16, key: u8x16, n: usize) -> u8x16
    requires { n < 9 }
    ensures { state_of (n + 1) result ≡ round (state_of n x) (key_of (n + 1) key) }
{
    let halves = halves(x);
    let one = half_sum(ONE_FIRST, ONE_SECOND, halves);
    let two = half_sum(TWO_FIRST, TWO_SECOND, halves);
    mix(one, two, key, n)
}

/// The last round, after nine. Its bytes lie in the standard's order.
#[inline(always)]
pub(crate) fn last_round(x: u8x16, key: u8x16) -> u8x16
    ensures { state_of 0 result ≡ last_round (state_of 9 x) (key_of 0 key) }
{
    let one = half_sum(ONE_FIRST, ONE_SECOND, halves(x));
    look_up(one, u8x16::from_array(LAST)) ^ key
}
