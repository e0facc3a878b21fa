//! What an index answers.
ghost use Rattle.std.specs.Prelude.{◌≡◌, find, option_map, option_and_then, slice_get, IsTrue};
ghost use Rattle.std.specs.List.{list_any};
ghost use Rattle.epic_num.specs.Chains.{issue_at};
ghost use Rattle.epic_layout.specs.Layout.{parse};
ghost use Rattle.epic_ledger.specs.Facts.{facts_of, sent_name};
ghost use Rattle.epic_ledger.specs.History.{emission_at};
ghost use Rattle.epic_ledger.specs.Queries as queries;
ghost use Rattle.epic_topo.specs.Network.{has};
ghost use Rattle.epic_audit.specs.Clauses.{is_sent_like, sent_as};
ghost use Rattle.epic_audit.specs.Reveals.{is_revealed};
ghost use Rattle.epic_audit.specs.Verdicts as verdicts;
ghost use Rattle.epic_audit.specs.Verdicts.{is_child, is_twin};
ghost use Rattle.epic_index.specs.Events.{send_at};
ghost use Rattle.epic_judging.specs.Given as given;
ghost use Rattle.epic_judging.specs.Given.{is_revealed_at};

use crate::Index;
use crate::children::key_of as child_key_of;
use crate::fields::key_of as field_key_of;
use crate::happened::{emission_sent, name_named, name_passed};
use crate::likes::key_of as like_key_of;
use crate::origins::key_of as origin_key_of;
use crate::passes::key_of as pass_key_of;
use crate::reveals::key_of;
use crate::sent_as::first_sent_as;
use crate::sources::key_of as source_key_of;
use crate::twins::key_of as twin_key_of;
use epic_num::{AsId, Holder, HopName, HostId};
use epic_view::PacketRef;

impl<'a> Index<'a> {
    /// The packet of the emission of a number, from 1.
    pub fn packet(&self, no: u32) -> Option<PacketRef<'_>>
        ensures { result ≡ option_map (λ e. parse e.bytes) (emission_at self.now.history.emissions no) }
    {
        self.ledger.packet(no)
    }

    /// The name of the issue of a number, from 1, and the number of the issue that it goes on from, 0 for none.
    pub fn issue(&self, no: u32) -> Option<(HopName, u32)>
        ensures { result ≡ option_map (λ i. (i.name, i.parent)) (issue_at (facts_of self.now.history).issues no) }
    {
        self.ledger.issue(no)
    }

    /// The number of the first issue of a name, from 1.
    pub fn issue_of(&self, name: &HopName) -> Option<u32>
        ensures { result ≡ queries.issue_of (facts_of self.now.history).issues name.now }
    {
        self.ledger.issue_of(name)
    }

    /// The emission of the first packet that a source sent with a timestamp.
    pub fn send_of(&self, src: HostId, ts: u64) -> Option<u32>
        ensures { result ≡ option_map (λ s. s.emission) (queries.send_of (facts_of self.now.history).sends src ts) }
    {
        self.ledger.send_of(src, ts)
    }

    /// The number of the issue that this packet has at a hop, from 0 in travel order.
    pub fn send_hop(&self, src: HostId, ts: u64, hop: u8) -> Option<u32>
        ensures { result ≡ queries.send_hop (facts_of self.now.history) src ts hop }
    {
        self.ledger.send_hop(src, ts, hop)
    }

    /// The number of the first event by which a router accepted a hop of this name at this index, from 0 in travel
    /// order, of a packet with this first byte, source and timestamp.
    pub fn pass_of(&self, first: u8, name: &HopName, src: HostId, ts: u64, hop: u8) -> Option<u64>
        ensures { result ≡ queries.pass_of self.now.history first name.now src ts hop }
    {
        self.ledger.pass_of(first, name, src, ts, hop)
    }

    /// The AS, the generation and the emission of the first hop that was accepted at this index, from 0 in travel
    /// order, of a packet with the same path bytes.
    pub fn chain_pass(&self, packet: &PacketRef<'_>, hop: u8) -> Option<(AsId, u32, u32)>
        ensures { result ≡ option_map (λ w. (w.asn, w.generation, w.emission)) (queries.chain_pass (facts_of self.now.history).passes packet.now.route hop) }
    {
        self.ledger.chain_pass(packet, hop)
    }

    /// Whether some issue of `y` goes on from one of `z`.
    pub fn is_child(&self, y: &HopName, z: &HopName) -> bool
        ensures { let issues = (facts_of self.now.history).issues in result ≡ list_any (is_child issues y.now z.now) issues }
    {
        self.tables.first_child(child_key_of(y, z)).is_some()
    }

    /// The emission of the first packet that the packet's source sent with its first byte and timestamp over the hop `x` in
    /// the place of the packet's hop, from 0.
    pub fn source_of(&self, x: &HopName, packet: &PacketRef<'_>, hop: u8) -> Option<u32>
        ensures { result ≡ option_map (λ s. s.emission) (verdicts.source_of (facts_of self.now.history) x.now packet.now hop) }
    {
        let number = self.tables.first_source(source_key_of(packet, hop, x));
        emission_sent(&self.ledger, number)
    }

    /// The name of the hop of an index, from 0, of the first packet that the packet's source sent with its first byte and
    /// timestamp.
    pub fn name_sent_like(&self, packet: &PacketRef<'_>, hop: u8) -> Option<HopName>
        ensures { let f = facts_of self.now.history in result ≡ option_and_then (λ s. sent_name f.issues s hop) (find (is_sent_like packet.now) f.sends) }
    {
        let number = self.tables.first_like(like_key_of(packet));
        name_named(&self.ledger, number, hop)
    }

    /// The name of the first hop that was accepted at an index, from 0, of a packet with the first byte, source and timestamp
    /// of this one, and that is of the AS of `x`, which is of the topology, and has its authenticator.
    pub fn twin_pass(&self, packet: &PacketRef<'_>, hop: u8, x: &HopName) -> Option<HopName>
        requires { IsTrue (has self.now.network x.now.asn) }
        ensures { result ≡ verdicts.twin_pass self.now.network (facts_of self.now.history) packet.now (record { hop = hop; name = x.now }) }
    {
        let number = self
            .tables
            .first_pass(pass_key_of(self.topo, packet, hop, x));
        name_passed(&self.ledger, number)
    }

    /// Whether a source made a field for an AS over a message in an epoch.
    pub fn made_field(&self, a: AsId, src: HostId, epoch: u64, message: &[u8; 38]) -> bool
        ensures { result ≡ given.made_field self.now.network (facts_of self.now.history) a src epoch message.now }
    {
        let key = field_key_of(a, src, epoch, message);
        self.tables.first_field(key).is_some()
    }

    /// Whether a router of an AS gave out an update over a message in an epoch on a packet of a source.
    pub fn given_out(&self, a: AsId, src: HostId, epoch: u64, message: &[u8; 38]) -> bool
        ensures { result ≡ given.given_out self.now.network (facts_of self.now.history).passes a src epoch message.now }
    {
        let key = field_key_of(a, src, epoch, message);
        self.tables.first_update(key).is_some()
    }

    /// The number of the event by which the first packet was sent that has this one's first byte, source, destination,
    /// timestamp, path bytes and payload.
    pub fn sent_as(&self, packet: &PacketRef<'_>) -> Option<u32>
        ensures { option_and_then (send_at self.now.history) result ≡ sent_as (facts_of self.now.history).sends packet.now }
    {
        first_sent_as(&self.sent, &self.ledger, packet)
    }

    /// The number of the event by which the packet's source sent the one packet of this one's timestamp, where it sent just
    /// one.
    pub fn only_send(&self, packet: &PacketRef<'_>) -> Option<u32>
        ensures { option_and_then (send_at self.now.history) result ≡ given.only_send (facts_of self.now.history).sends packet.now }
    {
        let key = origin_key_of(packet);
        if self.tables.is_repeated(key) {
            return None;
        }
        self.tables.first_origin(key)
    }

    /// Whether the keys of a holder became known to all.
    pub fn is_revealed(&self, holder: &Holder) -> bool
        ensures { result ≡ is_revealed (facts_of self.now.history).reveals holder.now }
    {
        self.ledger.revealed(holder).is_some()
    }

    /// Whether the keys of a holder became known to all at this step.
    pub fn is_revealed_at(&self, holder: &Holder, step: u32) -> bool
        ensures { result ≡ is_revealed_at (facts_of self.now.history).reveals step holder.now }
    {
        self.tables.first_reveal(key_of(holder, step)).is_some()
    }

    /// The name of an issue, the first of which is 0.
    fn name_at(&self, row: u32) -> Option<HopName>
        ensures { result ≡ option_map (λ i. i.name) (slice_get (facts_of self.now.history).issues row) }
    {
        if row >= self.ledger.issues() {
            return None;
        }
        match self.ledger.issue(row + 1) {
            Some((name, _)) => Some(name),
            None => None,
        }
    }

    /// The name of the first issue that is of the AS of `x`, which is of the topology, and has its authenticator.
    pub fn twin_of(&self, x: &HopName) -> Option<HopName>
        requires { IsTrue (has self.now.network x.now.asn) }
        ensures { result ≡ option_map (λ i. i.name) (find (λ i. is_twin self.now.network x.now i.name) (facts_of self.now.history).issues) }
    {
        match self.tables.first_twin(twin_key_of(self.topo, x)) {
            Some(row) => self.name_at(row),
            None => None,
        }
    }
}
