//! A key with all that the tags under it need.

ghost use Rattle.std.specs.Prelude.{◌≡◌, ◌<◌, ◌≤◌, length};
ghost use Rattle.epic_aes.specs.Chain.{block_sum, chain};
ghost use Rattle.epic_aes.specs.Cipher.{aes};
ghost use Rattle.epic_cmac.specs.Cmac.{blocks, cmac, last_block, zero_block};

use crate::subkeys::{block_double, first_subkey, padded_block};
use epic_aes::{Aes, block_sum};
use std::marker::Model;

/// A key of AES-CMAC (RFC 4493) made ready for use: its round keys and its two subkeys. Clauses see the key, a list of 16
/// bytes. Whoever makes several tags under one key makes it ready once.
#[derive(Drop)]
pub struct CmacKey {
    cipher: Aes,
    // The subkeys for a whole last block and for one that is padded.
    whole: [u8; 16],
    padded: [u8; 16],
}

impl Model for CmacKey {
    ghost use Rattle.std.specs.Prelude.{◌≡◌, ℕ, List};
    ghost use Rattle.epic_cmac.specs.Cmac.{first_subkey, second_subkey};

    ghost Value = { List ℕ };

    ghost view = { λ k. k.cipher };

    ghost invariant = { λ k. (k.whole ≡ first_subkey k.cipher) × (k.padded ≡ second_subkey k.cipher) };
}

impl CmacKey {
    /// Makes the 16 bytes of `key` ready (FIPS 197 5.2, RFC 4493 2.3).
    #[tactic(auto, unfolding(crate::specs::Cmac::second_subkey))]
    pub fn new(key: &[u8; 16]) -> CmacKey
        ensures { result ≡ key.now }
    {
        let cipher = Aes::new(key);
        let whole = first_subkey(&cipher);
        let padded = block_double(&whole);
        CmacKey {
            cipher,
            whole,
            padded,
        }
    }

    // The same, with a block encrypted under the key beside the block of which the subkeys are made.
    #[tactic(auto, unfolding(crate::specs::Cmac::first_subkey, crate::specs::Cmac::second_subkey))]
    pub(crate) fn new_beside(key: &[u8; 16], block: &mut [u8; 16]) -> CmacKey
        ensures key { result ≡ key.now }
        ensures block { block.new ≡ aes key.now block.old }
    {
        let cipher = Aes::new(key);
        let mut zeros = [0; 16];
        cipher.encrypt_both(&mut zeros, &cipher, block);
        let whole = block_double(&zeros);
        let padded = block_double(&whole);
        CmacKey {
            cipher,
            whole,
            padded,
        }
    }

    /// The tag, of 16 bytes, of a message under the key (RFC 4493 2.4).
    #[tactic(auto, unfolding(crate::specs::Cmac::cmac))]
    pub fn tag(&self, message: &[u8]) -> [u8; 16]
        ensures { result ≡ cmac self.now message.now }
    {
        self.tag_from([0; 16], message)
    }

    /// The tags, of 16 bytes each, of a message under this key and of another under another key. Each message is of two blocks,
    /// 17 to 32 bytes. The two are made side by side, in less time than one after the other.
    pub fn tag_both(&self, one: &[u8], other: &CmacKey, two: &[u8]) -> ([u8; 16], [u8; 16])
        requires one_more { 16 < length one.now }
        requires one_most { length one.now ≤ 32 }
        requires two_more { 16 < length two.now }
        requires two_most { length two.now ≤ 32 }
        ensures first { result.0 ≡ cmac self.now one.now }
        ensures second { result.1 ≡ cmac other.now two.now }
    {
        let blocks_one = self.two_blocks(one);
        let blocks_two = other.two_blocks(two);
        let mut x = blocks_one.0;
        let mut y = blocks_two.0;
        self.cipher.encrypt_both(&mut x, &other.cipher, &mut y);
        let mut last_x = block_sum(&x, &blocks_one.1);
        let mut last_y = block_sum(&y, &blocks_two.1);
        self.cipher
            .encrypt_both(&mut last_x, &other.cipher, &mut last_y);
        (last_x, last_y)
    }

    // The two blocks of a message of 17 to 32 bytes, as they go into the chain.
    fn two_blocks(&self, message: &[u8]) -> ([u8; 16], [u8; 16])
        requires more { 16 < length message.now }
        requires most { length message.now ≤ 32 }
        ensures { aes self.now (block_sum (aes self.now result.0) result.1) ≡ cmac self.now message.now }
    {
        let (front, rest) = message.split_at(16);
        (first_sum(front), self.last_block(rest))
    }

    // The tag from the state of the chain before a message, or before the rest of one.
    pub(crate) fn tag_from(&self, x: [u8; 16], message: &[u8]) -> [u8; 16]
        ensures { result ≡ chain self.now x (blocks self.now message.now) }
    {
        let mut x = x;
        let (front, rest) = message.split_at(16 * (message.len().saturating_sub(1) / 16));
        let (blocks, _) = front.as_chunks::<16>();
        // The last block is ready before the chain comes to it.
        let last = self.last_block(rest);
        self.chain(&mut x, blocks);
        self.close(x, &last)
    }

    // Takes blocks before the last into the state of the chain.
    pub(crate) fn chain(&self, x: &mut [u8; 16], blocks: &[[u8; 16]])
        ensures { x.new ≡ chain self.now x.old blocks.now }
    {
        self.cipher.chain(x, blocks);
    }

    // The tag of a message from the state of the chain before its last block, and from that block, the 0 to 16 bytes of
    // `rest`.
    pub(crate) fn end(&self, x: [u8; 16], rest: &[u8]) -> [u8; 16]
        requires { length rest.now ≤ 16 }
        ensures { result ≡ aes self.now (block_sum x (last_block self.now rest.now)) }
    {
        self.close(x, &self.last_block(rest))
    }

    // The tag from the state of the chain before its last block, and from that block as it goes into the chain.
    fn close(&self, x: [u8; 16], last: &[u8; 16]) -> [u8; 16]
        ensures { result ≡ aes self.now (block_sum x last.now) }
    {
        let mut block = block_sum(&x, last);
        self.cipher.encrypt(&mut block);
        block
    }

    // The last block as it goes into the chain.
    #[tactic(auto, unfolding(crate::specs::Cmac::last_block))]
    fn last_block(&self, rest: &[u8]) -> [u8; 16]
        requires { length rest.now ≤ 16 }
        ensures { result ≡ last_block self.now rest.now }
    {
        match rest.first_chunk::<16>() {
            Some(whole) => block_sum(whole, &self.whole),
            None => block_sum(&padded_block(rest), &self.padded),
        }
    }
}

/// The first block of a message as it goes into the chain, which begins with the block of zeros.
pub(crate) fn first_sum(block: &[u8]) -> [u8; 16]
    requires { length block.now ≡ 16 }
    ensures { result ≡ block_sum zero_block block.now }
{
    let mut first = [0; 16];
    first.copy_from_slice(block);
    block_sum(&[0; 16], &first)
}
