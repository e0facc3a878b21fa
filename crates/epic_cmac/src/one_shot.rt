//! The tag of a message that lies in one place, under a key that is used once.

ghost use Rattle.std.specs.Prelude.{◌≡◌};
ghost use Rattle.epic_cmac.specs.Cmac.{cmac};

use crate::key::{CmacKey, first_sum};

/// The tag, of 16 bytes, of a message under a key of 16 bytes (RFC 4493 2.4).
pub fn cmac(key: &[u8; 16], message: &[u8]) -> [u8; 16]
    ensures { result ≡ cmac key.now message.now }
{
    if message.len() <= 16 {
        return CmacKey::new(key).tag(message);
    }
    // The first block is encrypted beside the one of which the subkeys are made.
    let (front, rest) = message.split_at(16);
    let mut x = first_sum(front);
    let ready = CmacKey::new_beside(key, &mut x);
    if rest.len() <= 16 {
        return ready.end(x, rest);
    }
    ready.tag_from(x, rest)
}
