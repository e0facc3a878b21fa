//! Which holders of a hop's authenticator were revealed.
ghost use Rattle.std.specs.Prelude.{◌≡◌};
ghost use Rattle.epic_ledger.specs.Facts.{facts_of};
ghost use Rattle.epic_audit.specs.Reveals.{lesser};
ghost use Rattle.epic_holders.specs.Found as found;
ghost use Rattle.epic_holders.specs.Makers as makers;

use crate::events::event_at;
use crate::holding::holds;
use epic_ledger::{Event, Ledger};
use epic_num::{Holder, HopName};

/// The smaller of a step and that of a reveal, where the reveal is of a holder of `x`. Who holds it isn't asked where the
/// step is the smaller anyway.
#[tactic(auto, unfolding(crate::specs::Makers::opened_by))]
fn sooner(
    ledger: &Ledger,
    x: &HopName,
    least: Option<u32>,
    step: u32,
    holder: &Holder,
) -> Option<u32>
    ensures { result ≡ lesser least (makers.opened_by (facts_of ledger.now.history) x.now (record { step = step; holder = holder.now })) }
{
    if let Some(before) = least {
        if before <= step {
            return least;
        }
    }
    if holds(ledger, x, holder) {
        return Some(step);
    }
    least
}

/// The smaller of a step and that of the event, where it is the reveal of a holder of `x`.
#[tactic(auto, unfolding(crate::specs::Found::opened_at, epic_ledger::specs::Facts::as_reveal))]
fn sooner_at(ledger: &Ledger, x: &HopName, least: Option<u32>, event: &Event) -> Option<u32>
    ensures { result ≡ lesser least (found.opened_at (facts_of ledger.now.history) x.now event.now) }
{
    if let Event::Reveal { step, holder } = event {
        return sooner(ledger, x, least, *step, holder);
    }
    least
}

/// The least step at which a holder of `x` was revealed. It walks once along the events; who holds `x` is asked for each
/// holder that was revealed, until one holds it.
pub fn opened_step(ledger: &Ledger, x: &HopName) -> Option<u32>
    ensures { let f = facts_of ledger.now.history in result ≡ makers.least_opened f x.now f.reveals }
{
    let mut least = None;
    for index in 0..ledger.events() {
        least = sooner_at(ledger, x, least, event_at(ledger, index));
    }
    least
}
