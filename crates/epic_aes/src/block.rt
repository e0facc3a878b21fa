//! Sums of blocks.

ghost use Rattle.std.specs.Prelude.{◌≡◌};
ghost use Rattle.epic_aes.specs.Chain.{block_sum};

/// The sum of two blocks of 16 bytes: byte by byte, each bit modulo 2.
#[tactic(auto, unfolding(crate::specs::Chain::block_sum))]
pub fn block_sum(a: &[u8; 16], b: &[u8; 16]) -> [u8; 16]
    ensures { result ≡ block_sum a.now b.now }
{
    [
        a[0] ^ b[0],
        a[1] ^ b[1],
        a[2] ^ b[2],
        a[3] ^ b[3],
        a[4] ^ b[4],
        a[5] ^ b[5],
        a[6] ^ b[6],
        a[7] ^ b[7],
        a[8] ^ b[8],
        a[9] ^ b[9],
        a[10] ^ b[10],
        a[11] ^ b[11],
        a[12] ^ b[12],
        a[13] ^ b[13],
        a[14] ^ b[14],
        a[15] ^ b[15],
    ]
}
