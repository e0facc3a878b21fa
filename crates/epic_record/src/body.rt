//! A hop's body from its 18 bytes.

ghost use Rattle.std.specs.Prelude.{◌≡◌};
ghost use Rattle.epic_record.specs.Words.{body_named, body_of};

use epic_num::Body;
use hex::FromHex;

/// The body that 18 bytes spell.
#[tactic(auto, unfolding(crate::specs::Words::body_of))]
fn body_from_bytes(bytes: &[u8; 18]) -> Body
    ensures { result ≡ body_of bytes.now }
{
    let [
        pos,
        exp,
        t0,
        t1,
        t2,
        t3,
        i0,
        i1,
        o0,
        o1,
        l0,
        l1,
        l2,
        l3,
        l4,
        l5,
        l6,
        l7,
    ] = *bytes;
    Body {
        pos,
        exp,
        ts_path: u32::from_be_bytes([t0, t1, t2, t3]),
        inn: u16::from_be_bytes([i0, i1]),
        out: u16::from_be_bytes([o0, o1]),
        link: [l0, l1, l2, l3, l4, l5, l6, l7],
    }
}

/// The body that 36 hexadecimal digits spell, in either case.
#[tactic(auto, unfolding(crate::specs::Words::body_named))]
pub fn body_named(text: &[u8]) -> Option<Body>
    ensures { result ≡ body_named text.now }
{
    match <[u8; 18] as FromHex>::from_hex(text) {
        Ok(bytes) => Some(body_from_bytes(&bytes)),
        Err(_) => None,
    }
}
