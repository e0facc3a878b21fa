//! The key schedule on vectors.

ghost use Rattle.std.specs.Prelude.{◌≡◌, ◌<◌};
ghost use Rattle.epic_aes.specs.Cipher.{next_key};
ghost use Rattle.epic_aes.specs.Lanes.{state_of, key_of};

use crate::lanes::{half_sum, halves, look_up};
use crate::rounds::enter;
use crate::tables::{ARRANGED, LAST_WORD, ONE_COLUMN_ON, ONE_FIRST, ONE_SECOND, TWO_COLUMNS_ON};
use std::simd::prelude::*;

/// The round key after `key`.
#[inline(always)]
pub(crate) fn next_key(key: u8x16, constant: u8) -> u8x16
    ensures { state_of 0 result ≡ next_key (state_of 0 key) constant }
{
    let last = look_up(key, u8x16::from_array(LAST_WORD));
    let turned = half_sum(ONE_FIRST, ONE_SECOND, halves(last));
    let two = key ^ look_up(key, u8x16::from_array(ONE_COLUMN_ON));
    let four = two ^ look_up(two, u8x16::from_array(TWO_COLUMNS_ON));
    // What the look-ups leave out of the S-box, with the round constant besides in the first row.
    let first = constant ^ 0x63;
    let constants = enter(u8x16::from_array([
        first, 0x63, 0x63, 0x63, first, 0x63, 0x63, 0x63, first, 0x63, 0x63, 0x63, first, 0x63,
        0x63, 0x63,
    ]));
    four ^ (turned ^ constants)
}

/// A round key as it is added after n rounds: its bytes where those of the state lie then, and with the constant of the S-box.
#[inline(always)]
pub(crate) fn round_key(key: u8x16, n: usize) -> u8x16
    requires { n < 10 }
    ensures { key_of n result ≡ state_of 0 key }
{
    look_up(key, u8x16::from_array(ARRANGED[n])) ^ enter(u8x16::splat(0x63))
}
