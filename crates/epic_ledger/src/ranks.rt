//! Orders of what is sought in a ledger.
ghost use Rattle.std.specs.Prelude.{◌≡◌};
ghost use Rattle.epic_ledger.specs.Ranks.{as_cmp, host_cmp, holder_cmp, body_cmp, name_cmp};

use epic_num::{AsId, Body, Holder, HopName, HostId};
use std::cmp::Ordering;

#[tactic(auto, unfolding(crate::specs::Ranks::as_cmp))]
fn as_order(a: AsId, b: AsId) -> Ordering
    ensures { result ≡ as_cmp a b }
{
    a.0.cmp(&b.0)
}

#[tactic(auto, unfolding(crate::specs::Ranks::host_cmp))]
pub fn host_order(h: HostId, k: HostId) -> Ordering
    ensures { result ≡ host_cmp h k }
{
    as_order(h.asn, k.asn).then(h.host.cmp(&k.host))
}

#[tactic(auto, using(crate::proofs::RankLaws::holders_ordered), unfolding(crate::specs::Ranks::holder_cmp))]
pub fn holder_order(x: Holder, y: Holder) -> Ordering
    ensures { result ≡ holder_cmp x y }
{
    match x {
        Holder::As(a) => match y {
            Holder::As(b) => as_order(a, b),
            Holder::Host(_) => Ordering::Less,
        },
        Holder::Host(h) => match y {
            Holder::As(_) => Ordering::Greater,
            Holder::Host(k) => host_order(h, k),
        },
    }
}

#[tactic(auto, unfolding(crate::specs::Ranks::body_cmp))]
fn body_order(b: &Body, c: &Body) -> Ordering
    ensures { result ≡ body_cmp b.now c.now }
{
    b.pos
        .cmp(&c.pos)
        .then(b.exp.cmp(&c.exp))
        .then(b.ts_path.cmp(&c.ts_path))
        .then(b.inn.cmp(&c.inn))
        .then(b.out.cmp(&c.out))
        .then(b.link.as_slice().cmp(&c.link.as_slice()))
}

#[tactic(auto, unfolding(crate::specs::Ranks::name_cmp))]
pub fn name_order(x: &HopName, y: &HopName) -> Ordering
    ensures { result ≡ name_cmp x.now y.now }
{
    as_order(x.asn, y.asn)
        .then(x.generation.cmp(&y.generation))
        .then(body_order(&x.body, &y.body))
}
