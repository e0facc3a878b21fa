//! The names of the issues, in a tree.
ghost use Rattle.std.specs.Prelude.{◌≡◌, ◌<◌, length, position, IfSome};
ghost use Rattle.std.specs.Int.{w32};
ghost use Rattle.epic_layout.specs.Pieces.{number};
ghost use Rattle.epic_num.specs.Chains.{no_name};
ghost use Rattle.epic_num.specs.Same.{same_name};
ghost use Rattle.epic_tree.specs.Index.{IsTagged};
ghost use Rattle.epic_ledger.specs.Ranks.{name_cmp, name_tag, names_of};

use crate::log::Issued;
use crate::ranks::name_order;
use epic_layout::u32_at;
use epic_num::HopName;
use epic_tree::{Aim, Tree};
use std::cmp::Ordering;

/// The first half of a link tag.
fn first_half(link: [u8; 8]) -> u32
    ensures { result ≡ number w32 link 0 }
{
    u32_at(&link, 0)
}

/// A name that is sought among issues.
#[derive(Drop)]
pub struct Named<'a> {
    pub issues: &'a [Issued],
    pub name: HopName,
}

impl Aim for Named<'_> {
    ghost use Rattle.std.specs.Prelude.{◌<◌, length};
    ghost use Rattle.epic_tree.specs.Index.{key_side};
    ghost use Rattle.epic_ledger.specs.Ranks.{name_cmp, name_tag, names_of};

    ghost knows = { λ s p. p < length s.issues.now };

    ghost side = { λ s p. key_side name_cmp no_name (names_of s.issues.now) s.name p };

    ghost tag = { λ s. name_tag s.name };

    #[tactic(auto, using(crate::proofs::RankLaws::named_at))]
    fn side(&self, at: u32) -> Ordering {
        name_order(&self.name, &self.issues[at as usize].name)
    }

    #[tactic(auto, unfolding(crate::specs::Ranks::name_tag))]
    fn tag(&self) -> u32 {
        first_half(self.name.body.link)
    }
}

/// The place of the first issue of a name, from 0.
pub fn place_of(issues: &[Issued], names: &Tree, name: &HopName) -> Option<u32>
    requires { IsTagged name_cmp name_tag no_name (names_of issues.now) names.now }
    ensures value { result ≡ position (λ i. same_name i.name name.now) issues.now }
    ensures within { IfSome result (λ i. i < length issues.now) }
{
    let named = Named {
        issues,
        name: *name,
    };
    names.find(&named)
}
