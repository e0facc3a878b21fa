//! The chain and the buffer of a message that comes in pieces.

ghost use Rattle.std.specs.Prelude.{◌≡◌, ℕ, ◌+◌, ◌<◌, ◌≤◌, List, ◌++◌, length, take};
ghost use Rattle.epic_cmac.specs.Pieces.{IsHeld};

use crate::key::CmacKey;

// Puts a piece behind the first `used` bytes of the buffer.
fn put(buffer: &mut [u8; 16], used: usize, piece: &[u8])
    requires { used + length piece.now ≤ 16 }
    ensures { take (used + length piece.now) buffer.new ≡ take used buffer.old ++ piece.now }
{
    buffer[used..used + piece.len()].copy_from_slice(piece);
}

// Takes a piece that the buffer has no room for: all blocks but the last go into the chain, those within the piece as they lie there.
fn spill(
    key: &CmacKey,
    chain: &mut [u8; 16],
    buffer: &mut [u8; 16],
    used: usize,
    piece: &[u8],
) -> usize
    requires room { used ≤ 16 }
    requires over { 16 < used + length piece.now }
    ensures { (message : List ℕ) → IsHeld key.now chain.old buffer.old used message → IsHeld key.now chain.new buffer.new result (message ++ piece.now) }
{
    let (front, rest) = piece.split_at(16 - used);
    put(buffer, used, front);
    key.chain(chain, &[*buffer]);
    let (whole, last) = rest.split_at(16 * ((rest.len() - 1) / 16));
    let (blocks, _) = whole.as_chunks::<16>();
    key.chain(chain, blocks);
    put(buffer, 0, last);
    last.len()
}

/// Takes a piece, and answers how many bytes the buffer holds then, where it held `used`.
pub(crate) fn feed(
    key: &CmacKey,
    chain: &mut [u8; 16],
    buffer: &mut [u8; 16],
    used: usize,
    piece: &[u8],
) -> usize
    requires { used ≤ 16 }
    ensures { (message : List ℕ) → IsHeld key.now chain.old buffer.old used message → IsHeld key.now chain.new buffer.new result (message ++ piece.now) }
{
    if piece.len() > 16 - used {
        return spill(key, chain, buffer, used, piece);
    }
    put(buffer, used, piece);
    used + piece.len()
}
