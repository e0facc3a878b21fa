//! Names of hops as parts of keys.
ghost use Rattle.std.specs.Prelude.{◌≡◌};
ghost use Rattle.epic_index.specs.Names.{name_key};

use epic_num::HopName;

/// What a hop of a name is sought by.
#[derive(Clone, Copy, PartialEq, Eq, PartialOrd, Ord)]
pub struct NameKey {
    pub ts_path: u32,
    pub asn: u64,
    pub generation: u32,
    pub pos: u8,
    pub exp: u8,
    pub inn: u16,
    pub out: u16,
    pub link: [u8; 8],
}

/// What a hop of this name is sought by.
#[tactic(auto, unfolding(crate::specs::Names::name_key))]
pub fn key_of(x: &HopName) -> NameKey
    ensures { result ≡ name_key x.now }
{
    NameKey {
        ts_path: x.body.ts_path,
        asn: x.asn.0,
        generation: x.generation,
        pos: x.body.pos,
        exp: x.body.exp,
        inn: x.body.inn,
        out: x.body.out,
        link: x.body.link,
    }
}
