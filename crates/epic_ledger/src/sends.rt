//! What sources sent.
ghost use Rattle.std.specs.Prelude.{◌≡◌, option_map, slice_index_or, IsSome};
ghost use Rattle.epic_ledger.specs.Facts.{facts_of, issues_in};
ghost use Rattle.epic_ledger.specs.History.{emission_at};
ghost use Rattle.epic_ledger.specs.Queries as queries;
ghost use Rattle.epic_ledger.specs.Walks.{issue_of_hop, sent_with};

use crate::Ledger;
use crate::emissions::Emissions;
use crate::log::Log;
use crate::send_index::{Origin, first_send};
use crate::spot::spot_of;
use epic_num::HostId;

/// A packet that was sent: its emission, and the last issue of each segment of its path.
#[derive(Clone, Copy)]
pub struct Sending<'a> {
    pub emission: u32,
    pub segments: &'a [u32],
}

/// The last issue of a segment, 0 where there is no such segment.
fn last_issue(segments: &[u32], segment: u8) -> u32
    ensures { result ≡ slice_index_or segments.now segment 0 }
{
    segments.get(segment as usize).copied().unwrap_or(0)
}

/// The number of the issue that a sent packet has at a hop, where it has the hop.
#[tactic(auto, using(crate::proofs::Spots::spots_sent), unfolding(crate::specs::Facts::packet_at, crate::specs::Walks::sent_with))]
fn issue_at_hop(log: &Log, emissions: &Emissions, sending: Sending<'_>, hop: u8) -> Option<u32>
    requires { IsSome (emission_at emissions.now.emissions sending.emission) }
    ensures { result ≡ issue_of_hop (issues_in log.now.events) (sent_with emissions.now.emissions sending.entry) hop }
{
    match spot_of(emissions.bytes_of(sending.emission), hop) {
        Some(spot) => {
            let last = last_issue(sending.segments, spot.segment);
            Some(log.ancestor(last, spot.after))
        }
        None => None,
    }
}

impl Ledger {
    /// The emission of the first packet that a source sent with a timestamp.
    #[tactic(auto, unfolding(crate::specs::Facts::facts_of, crate::specs::Walks::sent_with))]
    pub fn send_of(&self, src: HostId, ts: u64) -> Option<u32>
        ensures { result ≡ option_map (λ s. s.emission) (queries.send_of (facts_of self.now.history).sends src ts) }
    {
        match first_send(
            &self.sends,
            self.log.events(),
            &self.emissions,
            Origin { src, ts },
        ) {
            Some(sending) => Some(sending.emission),
            None => None,
        }
    }

    /// The number of the issue that this packet has at a hop, from 0 in travel order.
    #[tactic(auto, unfolding(crate::specs::Facts::facts_of, crate::specs::Queries::send_hop, crate::specs::Walks::issue_of_hop, crate::specs::Walks::sent_with))]
    pub fn send_hop(&self, src: HostId, ts: u64, hop: u8) -> Option<u32>
        ensures { result ≡ queries.send_hop (facts_of self.now.history) src ts hop }
    {
        match first_send(
            &self.sends,
            self.log.events(),
            &self.emissions,
            Origin { src, ts },
        ) {
            Some(sending) => issue_at_hop(&self.log, &self.emissions, sending, hop),
            None => None,
        }
    }
}
