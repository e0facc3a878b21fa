//! The hops that routers accepted.
ghost use Rattle.std.specs.Prelude.{◌≡◌, option_map};
ghost use Rattle.epic_ledger.specs.Facts.{facts_of};
ghost use Rattle.epic_ledger.specs.Queries as queries;

use crate::Ledger;
use crate::pass_index::first_pass;
use crate::path_index::first_on_path;
use epic_num::{AsId, HopName, HostId};
use epic_view::PacketRef;

/// A hop that was accepted, and the emission of its packet as it left.
#[derive(Clone, Copy)]
pub struct Passing {
    pub asn: AsId,
    pub generation: u32,
    pub hop: u8,
    pub emission: u32,
}

/// What a hop that was accepted is sought by.
#[derive(Clone, Copy)]
pub struct Sought {
    pub first: u8,
    pub name: HopName,
    pub src: HostId,
    pub ts: u64,
    pub hop: u8,
}

impl Ledger {
    /// The number of the first event by which a router accepted a hop of this name at this index, from 0 in travel
    /// order, of a packet with this first byte, source and timestamp.
    pub fn pass_of(&self, first: u8, name: &HopName, src: HostId, ts: u64, hop: u8) -> Option<u64>
        ensures { result ≡ queries.pass_of self.now.history first name.now src ts hop }
    {
        let sought = Sought {
            first,
            name: *name,
            src,
            ts,
            hop,
        };
        match first_pass(&self.passes, self.log.events(), &self.emissions, sought) {
            Some(number) => Some(number as u64),
            None => None,
        }
    }

    /// The AS, the generation and the emission of the first hop that was accepted at this index, from 0 in travel
    /// order, of a packet with the same path bytes.
    #[tactic(auto, unfolding(crate::specs::Facts::facts_of, crate::specs::Walks::pass_with))]
    pub fn chain_pass(&self, packet: &PacketRef<'_>, hop: u8) -> Option<(AsId, u32, u32)>
        ensures { result ≡ option_map (λ w. (w.asn, w.generation, w.emission)) (queries.chain_pass (facts_of self.now.history).passes packet.now.route hop) }
    {
        match first_on_path(&self.paths, self.log.events(), &self.emissions, packet, hop) {
            Some(pass) => Some((pass.asn, pass.generation, pass.emission)),
            None => None,
        }
    }
}
