//! Searches among the hops that were issued.
ghost use Rattle.std.specs.Prelude.{◌≡◌, ◌+◌, ◌<◌, ◌^◌, ◌∷◌, length, drop, find, option_map, Some, IsTrue};
ghost use Rattle.std.specs.List.{list_any};
ghost use Rattle.epic_num.specs.Chains.{name_of};
ghost use Rattle.epic_topo.specs.Network.{has};
ghost use Rattle.epic_ledger.specs.Facts.{facts_of};
ghost use Rattle.epic_ledger.specs.Queries.{issue_of};
ghost use Rattle.epic_audit.specs.Searches as searches;
ghost use Rattle.epic_audit.specs.Verdicts as verdicts;

use crate::twins::is_twin;
use epic_fields::sigma;
use epic_ledger::Ledger;
use epic_num::{HopName, same_name};
use epic_topo::Topology;

/// The issue at an index, from 0: its name, and the number of its parent.
fn issue_at(ledger: &Ledger, index: u32) -> (HopName, u32)
    requires there { index < length (facts_of ledger.now.history).issues }
    requires fits { index + 1 < 2 ^ 32 }
    ensures { drop index (facts_of ledger.now.history).issues ≡ record { name = result.0; parent = result.1 } ∷ drop (index + 1) (facts_of ledger.now.history).issues }
{
    match ledger.issue(index + 1) {
        Some(issue) => issue,
        None => unreachable!(),
    }
}

/// The name of the first issue that is of the AS of `x` and has its authenticator.
pub fn first_twin(ledger: &Ledger, topo: &Topology, x: &HopName) -> Option<HopName>
    requires { IsTrue (has topo.now x.now.asn) }
    ensures { result ≡ option_map (λ i. i.name) (find (λ i. verdicts.is_twin topo.now x.now i.name) (facts_of ledger.now.history).issues) }
{
    let own = sigma(topo, x);
    for index in 0..ledger.issues() {
        let (name, _) = issue_at(ledger, index);
        if is_twin(topo, x, &own, &name) {
            return Some(name);
        }
    }
    None
}

/// Whether the issue of a number has a name.
#[tactic(auto, unfolding(epic_num::specs::Chains::name_of))]
fn is_named(ledger: &Ledger, number: u32, z: &HopName) -> bool
    ensures { result ≡ verdicts.is_named z.now (name_of (facts_of ledger.now.history).issues number) }
{
    match ledger.issue(number) {
        Some((name, _)) => same_name(&name, z),
        None => false,
    }
}

/// Whether the issue of a number goes on from one of `z`.
#[tactic(auto, unfolding(crate::specs::Searches::is_linked))]
fn is_linked(ledger: &Ledger, number: u32, z: &HopName) -> bool
    ensures { result ≡ searches.is_linked (facts_of ledger.now.history).issues number z.now }
{
    match ledger.issue(number) {
        Some((_, parent)) => is_named(ledger, parent, z),
        None => false,
    }
}

/// Whether some issue of `y`, of which this is the first, goes on from one of `z`. The others are looked at only where the
/// first doesn't, which takes two hops with one link tag.
#[tactic(auto, using(crate::proofs::Linked::linked_first))]
fn goes_on(ledger: &Ledger, number: u32, y: &HopName, z: &HopName) -> bool
    requires { Some number ≡ issue_of (facts_of ledger.now.history).issues y.now }
    ensures { result ≡ list_any (verdicts.is_child (facts_of ledger.now.history).issues y.now z.now) (facts_of ledger.now.history).issues }
{
    if is_linked(ledger, number, z) {
        return true;
    }
    any_goes_on(ledger, y, z)
}

/// The same by a walk along all issues.
#[tactic(auto, unfolding(crate::specs::Verdicts::is_child))]
fn any_goes_on(ledger: &Ledger, y: &HopName, z: &HopName) -> bool
    ensures { result ≡ list_any (verdicts.is_child (facts_of ledger.now.history).issues y.now z.now) (facts_of ledger.now.history).issues }
{
    for index in 0..ledger.issues() {
        let (name, parent) = issue_at(ledger, index);
        if same_name(&name, y) && is_named(ledger, parent, z) {
            return true;
        }
    }
    false
}

/// The name of the parent of an issue.
#[tactic(auto, unfolding(crate::specs::Verdicts::parent_name, epic_num::specs::Chains::name_of))]
fn parent_name(ledger: &Ledger, number: u32) -> HopName
    ensures { result ≡ verdicts.parent_name (facts_of ledger.now.history).issues number }
{
    if let Some((_, parent)) = ledger.issue(number) {
        if let Some((name, _)) = ledger.issue(parent) {
            return name;
        }
    }
    HopName::default()
}

/// `z`, and the parent of the first issue of `y`, where `y` was issued and none of its issues goes on from `z`.
#[tactic(auto, unfolding(crate::specs::Verdicts::broken_between))]
pub fn broken_between(ledger: &Ledger, y: &HopName, z: &HopName) -> Option<(HopName, HopName)>
    ensures { result ≡ verdicts.broken_between (facts_of ledger.now.history).issues y.now z.now }
{
    let number = ledger.issue_of(y)?;
    if goes_on(ledger, number, y, z) {
        return None;
    }
    Some((*z, parent_name(ledger, number)))
}
