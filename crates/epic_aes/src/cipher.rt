//! A key that is ready for use, and the encryption of a block under it.

ghost use Rattle.std.specs.Prelude.{◌≡◌, ℕ, ◌+◌, ◌<◌, List, [], length, slice_index_or};
ghost use Rattle.epic_aes.specs.Chain.{chain};
ghost use Rattle.epic_aes.specs.Cipher.{add_round_key, aes, after_rounds};
ghost use Rattle.epic_aes.specs.Keys.{first_key, HasRoundKeys};
ghost use Rattle.epic_aes.specs.Lanes.{state_of};

use crate::rounds::{enter, last_round, leave, round, sum};
use crate::schedule::{next_key, round_key};
use std::marker::Model;
use std::simd::prelude::*;

// What a round adds, as it lies there.
#[derive(Drop)]
struct RoundKey {
    lanes: u8x16,
}

/// A key of AES-128 with its round keys. Clauses see the key, a list of 16 bytes.
#[derive(Drop)]
pub struct Aes {
    keys: [RoundKey; 11],
}

impl Model for Aes {
    ghost use Rattle.std.specs.Prelude.{ℕ, List};
    ghost use Rattle.epic_aes.specs.Keys.{first_key, HasRoundKeys};

    ghost Value = { List ℕ };

    ghost view = { λ a. first_key a.keys };

    ghost invariant = { λ a. HasRoundKeys a.keys };
}

// The rounds of a block to which the first key was added, in two parts: a function of all ten is too large to be inlined twice.
// They are written out, so that their tables are constants.
#[inline(always)]
fn early_rounds(keys: &[RoundKey; 11], x: u8x16) -> u8x16
    requires { HasRoundKeys keys.now }
    ensures { (block : List ℕ) → state_of 0 x ≡ add_round_key block (first_key keys.now) → state_of 5 result ≡ after_rounds (first_key keys.now) block 5 }
{
    let x = round(x, keys[1].lanes, 0);
    let x = round(x, keys[2].lanes, 1);
    let x = round(x, keys[3].lanes, 2);
    let x = round(x, keys[4].lanes, 3);
    round(x, keys[5].lanes, 4)
}

#[inline(always)]
fn later_rounds(keys: &[RoundKey; 11], x: u8x16) -> u8x16
    requires { HasRoundKeys keys.now }
    ensures { (block : List ℕ) → state_of 5 x ≡ after_rounds (first_key keys.now) block 5 → state_of 0 result ≡ aes (first_key keys.now) block }
{
    let x = round(x, keys[6].lanes, 5);
    let x = round(x, keys[7].lanes, 6);
    let x = round(x, keys[8].lanes, 7);
    let x = round(x, keys[9].lanes, 8);
    last_round(x, keys[10].lanes)
}

// The round after n rounds, fewer than nine, of two blocks, each under a key of its own. Neither waits for the other.
#[inline(always)]
fn round_of_both(
    keys: &[RoundKey; 11],
    x: u8x16,
    others: &[RoundKey; 11],
    y: u8x16,
    n: usize,
) -> (u8x16, u8x16)
    requires few { n < 9 }
    requires keys { HasRoundKeys keys.now }
    requires others { HasRoundKeys others.now }
    ensures first { (block : List ℕ) → state_of n x ≡ after_rounds (first_key keys.now) block n → state_of (n + 1) result.0 ≡ after_rounds (first_key keys.now) block (n + 1) }
    ensures second { (block : List ℕ) → state_of n y ≡ after_rounds (first_key others.now) block n → state_of (n + 1) result.1 ≡ after_rounds (first_key others.now) block (n + 1) }
{
    (
        round(x, keys[n + 1].lanes, n),
        round(y, others[n + 1].lanes, n),
    )
}

// The sum of the first key and a block, where there is that block.
#[inline(always)]
fn first_sum(key: u8x16, blocks: &[[u8; 16]], i: usize) -> u8x16
    ensures { i < length blocks.now → state_of 0 result ≡ add_round_key (state_of 0 key) (slice_index_or blocks.now i []) }
{
    match blocks.get(i) {
        Some(block) => sum(key, enter(u8x16::from_array(*block))),
        None => key,
    }
}

impl Aes {
    /// Makes the key schedule of the 16 bytes of `key` (FIPS 197 5.2).
    pub fn new(key: &[u8; 16]) -> Aes
        ensures { result ≡ key.now }
    {
        let key0 = enter(u8x16::from_array(*key));
        let key1 = next_key(key0, 0x01);
        let key2 = next_key(key1, 0x02);
        let key3 = next_key(key2, 0x04);
        let key4 = next_key(key3, 0x08);
        let key5 = next_key(key4, 0x10);
        let key6 = next_key(key5, 0x20);
        let key7 = next_key(key6, 0x40);
        let key8 = next_key(key7, 0x80);
        let key9 = next_key(key8, 0x1b);
        let key10 = next_key(key9, 0x36);
        Aes {
            keys: [
                RoundKey { lanes: key0 },
                RoundKey {
                    lanes: round_key(key1, 1),
                },
                RoundKey {
                    lanes: round_key(key2, 2),
                },
                RoundKey {
                    lanes: round_key(key3, 3),
                },
                RoundKey {
                    lanes: round_key(key4, 4),
                },
                RoundKey {
                    lanes: round_key(key5, 5),
                },
                RoundKey {
                    lanes: round_key(key6, 6),
                },
                RoundKey {
                    lanes: round_key(key7, 7),
                },
                RoundKey {
                    lanes: round_key(key8, 8),
                },
                RoundKey {
                    lanes: round_key(key9, 9),
                },
                RoundKey {
                    lanes: round_key(key10, 0),
                },
            ],
        }
    }

    /// Puts the ciphertext of the 16 bytes of `block` in their place (FIPS 197 5.1).
    pub fn encrypt(&self, block: &mut [u8; 16])
        ensures { block.new ≡ aes self.now block.old }
    {
        let x = sum(self.keys[0].lanes, enter(u8x16::from_array(*block)));
        let x = early_rounds(&self.keys, x);
        let x = later_rounds(&self.keys, x);
        *block = leave(x).to_array();
    }

    /// Puts the ciphertext of the 16 bytes of `x` under this key, and that of the 16 bytes of `y` under another, in their places
    /// (FIPS 197 5.1). The two are made side by side, in less time than one after the other.
    pub fn encrypt_both(&self, x: &mut [u8; 16], other: &Aes, y: &mut [u8; 16])
        ensures first { x.new ≡ aes self.now x.old }
        ensures second { y.new ≡ aes other.now y.old }
    {
        let keys = &self.keys;
        let others = &other.keys;
        let x0 = sum(keys[0].lanes, enter(u8x16::from_array(*x)));
        let y0 = sum(others[0].lanes, enter(u8x16::from_array(*y)));
        let both1 = round_of_both(keys, x0, others, y0, 0);
        let both2 = round_of_both(keys, both1.0, others, both1.1, 1);
        let both3 = round_of_both(keys, both2.0, others, both2.1, 2);
        let both4 = round_of_both(keys, both3.0, others, both3.1, 3);
        let both5 = round_of_both(keys, both4.0, others, both4.1, 4);
        let both6 = round_of_both(keys, both5.0, others, both5.1, 5);
        let both7 = round_of_both(keys, both6.0, others, both6.1, 6);
        let both8 = round_of_both(keys, both7.0, others, both7.1, 7);
        let both9 = round_of_both(keys, both8.0, others, both8.1, 8);
        let x10 = last_round(both9.0, keys[10].lanes);
        let y10 = last_round(both9.1, others[10].lanes);
        *x = leave(x10).to_array();
        *y = leave(y10).to_array();
    }

    /// Adds each block of 16 bytes to `x` in turn, and encrypts the sum: cipher block chaining, for a MAC.
    pub fn chain(&self, x: &mut [u8; 16], blocks: &[[u8; 16]])
        ensures { x.new ≡ chain self.now x.old blocks.now }
    {
        let key = self.keys[0].lanes;
        let mut state = enter(u8x16::from_array(*x));
        // What a block adds is ready before the state is.
        let mut ahead = first_sum(key, blocks, 0);
        for i in 0..blocks.len() {
            let sum = sum(state, ahead);
            let next = first_sum(key, blocks, i + 1);
            ahead = next;
            let half = early_rounds(&self.keys, sum);
            let done = later_rounds(&self.keys, half);
            state = done;
        }
        *x = leave(state).to_array();
    }
}
