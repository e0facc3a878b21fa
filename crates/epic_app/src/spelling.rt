//! A hop's body from its 18 bytes.

ghost use Rattle.std.specs.Prelude.{◌≡◌};
ghost use Rattle.epic_num.specs.Bodies.{body_bytes};
ghost use Rattle.epic_app.specs.Spelling.{body_of};

use epic_num::Body;

/// The body that 18 bytes spell.
#[tactic(auto, unfolding(crate::specs::Spelling::body_of))]
pub fn body_from_bytes(bytes: &[u8; 18]) -> Body
    ensures value { result ≡ body_of bytes.now }
    ensures bytes { body_bytes result ≡ bytes.now }
{
    let [
        pos,
        exp,
        t0,
        t1,
        t2,
        t3,
        i0,
        i1,
        o0,
        o1,
        l0,
        l1,
        l2,
        l3,
        l4,
        l5,
        l6,
        l7,
    ] = *bytes;
    Body {
        pos,
        exp,
        ts_path: u32::from_be_bytes([t0, t1, t2, t3]),
        inn: u16::from_be_bytes([i0, i1]),
        out: u16::from_be_bytes([o0, o1]),
        link: [l0, l1, l2, l3, l4, l5, l6, l7],
    }
}
