//! The subkeys of a key, and the padding of a message's last block.

ghost use Rattle.std.specs.Prelude.{◌≡◌, ◌<◌, length};
ghost use Rattle.epic_cmac.specs.Cmac.{block_double, bits_double, first_subkey, padded_block};

use epic_aes::Aes;

fn bits_double(bits: u128) -> u128
    ensures { result ≡ bits_double bits }
{
    let shifted = bits << 1;
    if bits < 1 << 127 {
        shifted
    } else {
        shifted ^ 0x87
    }
}

/// A block doubled in the field of 2^128 elements (RFC 4493 2.3).
#[tactic(auto, unfolding(crate::specs::Cmac::block_double))]
pub(crate) fn block_double(block: &[u8; 16]) -> [u8; 16]
    ensures { result ≡ block_double block.now }
{
    bits_double(u128::from_be_bytes(*block)).to_be_bytes()
}

/// The subkey for a whole last block (RFC 4493 2.3). The other one is its double.
#[tactic(auto, unfolding(crate::specs::Cmac::first_subkey))]
pub(crate) fn first_subkey(cipher: &Aes) -> [u8; 16]
    ensures { result ≡ first_subkey cipher.now }
{
    let mut block = [0; 16];
    cipher.encrypt(&mut block);
    block_double(&block)
}

/// Fewer than 16 bytes made a block (RFC 4493 2.4).
pub(crate) fn padded_block(rest: &[u8]) -> [u8; 16]
    requires { length rest.now < 16 }
    ensures { result ≡ padded_block rest.now }
{
    let mut block = [0; 16];
    block[..rest.len()].copy_from_slice(rest);
    block[rest.len()] = 0x80;
    block
}
