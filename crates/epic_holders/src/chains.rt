//! Whether a hop stands in the chains of issues.
ghost use Rattle.std.specs.Prelude.{◌≡◌, ◌+◌, ◌<◌, ◌^◌, ◌∷◌, length, drop};
ghost use Rattle.std.specs.List.{list_any};
ghost use Rattle.epic_num.specs.Chains.{chain, last_names};
ghost use Rattle.epic_ledger.specs.Facts.{facts_of};
ghost use Rattle.epic_holders.specs.Holders as spec;

use epic_ledger::Ledger;
use epic_num::{Holder, HopName, same_holder, same_name};

/// Whether `x` stands among at most so many issues, of which this is the last and each goes on from the one before.
fn is_in_last(ledger: &Ledger, x: &HopName, most: u8, number: u32) -> bool
    ensures { result ≡ spec.is_in x.now (last_names (facts_of ledger.now.history).issues most number) }
{
    let mut at = number;
    for i in 0..most {
        match ledger.issue(at) {
            Some((name, parent)) => {
                if same_name(&name, x) {
                    return true;
                }
                at = parent;
            }
            None => return false,
        }
    }
    false
}

/// Whether `x` stands in the chain of the issue of a number.
fn is_in_chain(ledger: &Ledger, x: &HopName, number: u32) -> bool
    ensures { result ≡ spec.is_in x.now (chain (facts_of ledger.now.history).issues number) }
{
    match ledger.issue(number) {
        Some((name, _)) => is_in_last(ledger, x, name.body.pos, number),
        None => false,
    }
}

/// Whether `x` stands in the chain of one of these issues.
pub fn is_in_chains(ledger: &Ledger, x: &HopName, numbers: &[u32]) -> bool
    ensures { result ≡ list_any (λ number. spec.is_in x.now (chain (facts_of ledger.now.history).issues number)) numbers.now }
{
    match numbers {
        [] => false,
        [number, rest @ ..] => { is_in_chain(ledger, x, *number) || is_in_chains(ledger, x, rest) }
    }
}

/// The issue at an index, from 0: its name, and the number of its parent.
fn issue_at(ledger: &Ledger, index: u32) -> (HopName, u32)
    requires there { index < length (facts_of ledger.now.history).issues }
    requires fits { index + 1 < 2 ^ 32 }
    ensures { drop index (facts_of ledger.now.history).issues ≡ record { name = result.0; parent = result.1 } ∷ drop (index + 1) (facts_of ledger.now.history).issues }
{
    match ledger.issue(index + 1) {
        Some(issue) => issue,
        None => unreachable!(),
    }
}

/// Whether the AS of an issue is the holder, and `x` stands in its chain before it.
#[tactic(auto, unfolding(crate::specs::Holders::is_handed, crate::specs::Holders::names_before))]
fn is_handed(ledger: &Ledger, x: &HopName, holder: &Holder, name: &HopName, parent: u32) -> bool
    ensures { result ≡ spec.is_handed (facts_of ledger.now.history).issues x.now holder.now (record { name = name.now; parent = parent }) }
{
    same_holder(holder, &Holder::As(name.asn))
        && is_in_last(ledger, x, name.body.pos.saturating_sub(1), parent)
}

/// Whether this is so of some issue. It walks along all issues, and along the chains of those of the holder.
pub fn any_handed(ledger: &Ledger, x: &HopName, holder: &Holder) -> bool
    ensures { result ≡ list_any (spec.is_handed (facts_of ledger.now.history).issues x.now holder.now) (facts_of ledger.now.history).issues }
{
    for index in 0..ledger.issues() {
        let (name, parent) = issue_at(ledger, index);
        if is_handed(ledger, x, holder, &name, parent) {
            return true;
        }
    }
    false
}
