//! The events of an index, one by one.
ghost use Rattle.std.specs.Prelude.{◌≡◌, ◌<◌, length};
ghost use Rattle.epic_ledger.specs.Facts.{facts_of};
ghost use Rattle.epic_audit.specs.Searches as searches;
ghost use Rattle.epic_index.specs.Events.{passed_at, sent_at, sent_name_at};
ghost use Rattle.epic_layout.specs.Contents.{hop_count};

use crate::Index;
use crate::happened::{hop_before, name_sent, passed, sent};
use epic_num::HopName;
use epic_topo::Topology;
use epic_view::PacketRef;

impl<'a> Index<'a> {
    /// The topology whose keys its tags are made under.
    pub fn topology(&self) -> &'a Topology
        ensures { result.now ≡ self.now.network }
    {
        self.topo
    }

    /// How many issues there are.
    pub fn issues(&self) -> u32
        ensures { result ≡ length (facts_of self.now.history).issues }
    {
        self.ledger.issues()
    }

    /// How many events there are.
    pub fn events(&self) -> u64
        ensures { result ≡ length self.now.history.events }
    {
        self.ledger.events()
    }

    /// The emission and the packet that a source sent by the event of a number, from 0.
    pub fn sent_at(&self, no: u64) -> Option<(u32, PacketRef<'_>)>
        ensures { result ≡ sent_at self.now.history no }
    {
        sent(&self.ledger, no)
    }

    /// The name of the packet's hop, from 0 in travel order.
    pub fn sent_name_at(&self, no: u64, hop: u8) -> Option<HopName>
        ensures { result ≡ sent_name_at self.now.history no hop }
    {
        name_sent(&self.ledger, no, hop)
    }

    /// The name and the index of the hop that a router accepted by the event of a number, from 0, and the packet.
    pub fn passed_at(&self, no: u64) -> Option<(HopName, u8, PacketRef<'_>)>
        ensures { result ≡ passed_at self.now.history no }
    {
        passed(&self.ledger, no)
    }

    /// The hop that was passed before a packet's hop in its segment: the first that was accepted on a packet with these
    /// path bytes.
    pub fn passed_before(&self, packet: &PacketRef<'_>, hop: u8) -> Option<HopName>
        requires { hop < hop_count packet.now }
        ensures { result ≡ searches.passed_before (facts_of self.now.history) packet.now hop }
    {
        hop_before(&self.ledger, packet, hop)
    }
}
