//! Whose keys became known to all.
ghost use Rattle.std.specs.Prelude.{◌≡◌};
ghost use Rattle.epic_ledger.specs.Facts.{facts_of};
ghost use Rattle.epic_audit.specs.Reveals as reveals;

use epic_ledger::Ledger;
use epic_num::Holder;

/// Whether the keys of a holder are known to all.
#[tactic(auto, unfolding(crate::specs::Reveals::is_revealed))]
pub fn is_revealed(ledger: &Ledger, holder: &Holder) -> bool
    ensures { result ≡ reveals.is_revealed (facts_of ledger.now.history).reveals holder.now }
{
    ledger.revealed(holder).is_some()
}

/// The step at which they became so.
#[tactic(auto, unfolding(crate::specs::Reveals::reveal_step))]
pub fn reveal_step(ledger: &Ledger, holder: &Holder) -> Option<u32>
    ensures { result ≡ reveals.reveal_step (facts_of ledger.now.history).reveals holder.now }
{
    ledger.revealed(holder)
}

/// The smaller of two steps, where they are there.
fn lesser(left: Option<u32>, right: Option<u32>) -> Option<u32>
    ensures { result ≡ reveals.lesser left right }
{
    match (left, right) {
        (left, None) => left,
        (None, right) => right,
        (Some(m), Some(n)) => Some(m.min(n)),
    }
}

/// The least step at which the keys of one of the holders became known to all.
pub fn least_step(ledger: &Ledger, holders: &[Holder]) -> Option<u32>
    ensures { result ≡ reveals.least_step (facts_of ledger.now.history).reveals holders.now }
{
    match holders {
        [] => None,
        [holder, rest @ ..] => lesser(reveal_step(ledger, holder), least_step(ledger, rest)),
    }
}
