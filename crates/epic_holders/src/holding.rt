//! Who holds the authenticator of a hop.
ghost use Rattle.std.specs.Prelude.{◌≡◌, ◌||◌};
ghost use Rattle.std.specs.List.{list_any};
ghost use Rattle.epic_num.specs.declared.key_name.Holder.TheVariants.{As, Host};
ghost use Rattle.epic_num.specs.Same.{same_holder};
ghost use Rattle.epic_ledger.specs.Facts.{facts_of};
ghost use Rattle.epic_holders.specs.Found as found;
ghost use Rattle.epic_holders.specs.Found.{SendFits};
ghost use Rattle.epic_holders.specs.Holders as spec;

use crate::chains::{any_handed, is_in_chains};
use crate::events::{event_at, packet_of};
use epic_ledger::{Event, Ledger};
use epic_num::{Holder, HopName, HostId, same_holder};

/// Whether a host, or its AS, is the holder.
fn is_of(holder: &Holder, host: HostId) -> bool
    ensures { result ≡ (same_holder holder.now (Host host) || same_holder holder.now (As host.asn)) }
{
    same_holder(holder, &Holder::Host(host)) || same_holder(holder, &Holder::As(host.asn))
}

/// Whether the event says that the holder sent a packet over `x`.
#[tactic(auto, unfolding(crate::specs::Found::is_sender_at, crate::specs::Holders::is_sender, crate::specs::Holders::is_sent_over, epic_ledger::specs::Facts::as_send))]
fn is_sender_at(ledger: &Ledger, x: &HopName, holder: &Holder, event: &Event) -> bool
    requires { SendFits ledger.now.history.emissions event.now }
    ensures { result ≡ found.is_sender_at (facts_of ledger.now.history).issues x.now holder.now ledger.now.history.emissions event.now }
{
    if let Event::Send {
        emission,
        segments,
        ..
    } = event
    {
        return is_of(holder, packet_of(ledger, *emission).src())
            && is_in_chains(ledger, x, segments.as_slice());
    }
    false
}

/// Whether the holder sent a packet over `x`. It walks along all events, and along the paths of the holder's packets.
fn any_sender(ledger: &Ledger, x: &HopName, holder: &Holder) -> bool
    ensures { let f = facts_of ledger.now.history in result ≡ list_any (spec.is_sender f.issues x.now holder.now) f.sends }
{
    for index in 0..ledger.events() {
        if is_sender_at(ledger, x, holder, event_at(ledger, index)) {
            return true;
        }
    }
    false
}

/// Whether the holder is one of those that hold the authenticator of the hop `name`: its AS; each AS to which it was handed on
/// in a beacon; and each source of a packet over it, as a host and as its AS. It takes no memory. Where the holder isn't the
/// hop's AS, it walks once along the issues, and once along the events.
#[tactic(auto, unfolding(crate::specs::Holders::is_holder))]
pub fn holds(ledger: &Ledger, name: &HopName, holder: &Holder) -> bool
    ensures { result ≡ spec.is_holder (facts_of ledger.now.history) name.now holder.now }
{
    same_holder(holder, &Holder::As(name.asn))
        || any_handed(ledger, name, holder)
        || any_sender(ledger, name, holder)
}
