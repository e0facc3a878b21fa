//! Look-ups in tables of 16 bytes by nibbles, 16 at once, so that no address depends on a key or a block.

ghost use Rattle.std.specs.Prelude.{◌≡◌, ◌/◌, ◌%◌, map, bit_xor};
ghost use Rattle.std.specs.Simd.Lanes.{zip2};
ghost use Rattle.epic_aes.specs.Lanes.{ArePlaces, entry, nibble_sum, first_half, second_half};

use crate::tables::{INVERSE, OVER};
use std::simd::prelude::*;

#[inline(always)]
pub(crate) fn look_up(table: u8x16, places: u8x16) -> u8x16
    requires { ArePlaces places }
    ensures { result ≡ map (entry table) places }
{
    table.swizzle_dyn_within::<16>(places)
}

#[inline(always)]
fn low_nibbles(x: u8x16) -> u8x16
    ensures { result ≡ map (λ b. b % 16) x }
{
    x & u8x16::splat(15)
}

#[inline(always)]
fn high_nibbles(x: u8x16) -> u8x16
    ensures { result ≡ map (λ b. b / 16) x }
{
    x >> u8x16::splat(4)
}

#[inline(always)]
pub(crate) fn nibble_sum(low: [u8; 16], high: [u8; 16], x: u8x16) -> u8x16
    ensures { result ≡ map (nibble_sum low high) x }
{
    look_up(u8x16::from_array(low), low_nibbles(x))
        ^ look_up(u8x16::from_array(high), high_nibbles(x))
}

// The two halves of the inverse of each byte.
#[inline(always)]
pub(crate) fn halves(x: u8x16) -> (u8x16, u8x16)
    ensures first { result.0 ≡ map first_half x }
    ensures second { result.1 ≡ map second_half x }
    ensures first_places { ArePlaces result.0 }
    ensures second_places { ArePlaces result.1 }
{
    let inverse = u8x16::from_array(INVERSE);
    let low = low_nibbles(x);
    let high = high_nibbles(x);
    let sum = low ^ high;
    let over = look_up(u8x16::from_array(OVER), low);
    let first = look_up(inverse, look_up(inverse, high) ^ over) ^ sum;
    let second = look_up(inverse, look_up(inverse, sum) ^ over) ^ high;
    (first, second)
}

#[inline(always)]
pub(crate) fn half_sum(first: [u8; 16], second: [u8; 16], halves: (u8x16, u8x16)) -> u8x16
    requires first { ArePlaces halves.0 }
    requires second { ArePlaces halves.1 }
    ensures { result ≡ zip2 bit_xor (map (entry first) halves.0) (map (entry second) halves.1) }
{
    look_up(u8x16::from_array(first), halves.0) ^ look_up(u8x16::from_array(second), halves.1)
}
