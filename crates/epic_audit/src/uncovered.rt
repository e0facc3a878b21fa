//! Hops that a packet was sent over and that no router is known to have passed it on at.
ghost use Rattle.std.specs.Prelude.{◌≡◌, find, option_map};
ghost use Rattle.std.specs.List.{range_with_len};
ghost use Rattle.epic_ledger.specs.Facts.{facts_of};
ghost use Rattle.epic_audit.specs.Searches as searches;

use crate::reveals::is_revealed;
use crate::sources::name_sent;
use epic_ledger::Ledger;
use epic_num::{Holder, HopName, is_updated};
use epic_view::PacketRef;

/// A hop that the source sent the packet over: its AS wasn't revealed, and didn't accept the hop.
#[derive(Clone, Copy, Debug, PartialEq, Eq)]
pub struct Uncovered {
    /// The hop's index in travel order, from 0.
    pub hop: u8,
    pub name: HopName,
}

/// Whether a hop of this name was accepted at the index of a packet with the first byte, source and timestamp of this one.
#[tactic(auto, using(crate::proofs::Passed::passed_is), unfolding(crate::specs::Searches::is_passed))]
fn is_passed(ledger: &Ledger, name: &HopName, packet: &PacketRef<'_>, hop: u8) -> bool
    ensures { result ≡ searches.is_passed (facts_of ledger.now.history) name.now packet.now hop }
{
    ledger
        .pass_of(packet.first_byte(), name, packet.src(), packet.ts(), hop)
        .is_some()
}

/// The first of so many hops of the packet that was sent whose AS wasn't revealed and didn't accept it.
#[tactic(auto, using(crate::proofs::Walked::range_here, crate::proofs::Walked::range_over), unfolding(crate::specs::Searches::is_open))]
fn first_open_hop(ledger: &Ledger, packet: &PacketRef<'_>, hops: u8) -> Option<Uncovered>
    ensures { let f = facts_of ledger.now.history in result ≡ option_map (searches.open_hop f packet.now) (find (searches.is_open f packet.now) (range_with_len 0 hops)) }
{
    for hop in 0..hops {
        if let Some(name) = name_sent(ledger, packet, hop) {
            if !(is_revealed(ledger, &Holder::As(name.asn))
                || is_passed(ledger, &name, packet, hop))
            {
                return Some(Uncovered { hop, name });
            }
        }
    }
    None
}

/// The same at level 3, where the source wasn't revealed either.
#[tactic(auto, unfolding(crate::specs::Searches::first_open))]
pub fn first_open(ledger: &Ledger, packet: &PacketRef<'_>, hops: u8) -> Option<Uncovered>
    ensures { result ≡ searches.first_open (facts_of ledger.now.history) packet.now hops }
{
    let src = packet.src();
    if !is_updated(packet.first_byte())
        || is_revealed(ledger, &Holder::Host(src))
        || is_revealed(ledger, &Holder::As(src.asn))
    {
        return None;
    }
    first_open_hop(ledger, packet, hops)
}
