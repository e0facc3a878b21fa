//! Where a line of a ledger file may stand.

ghost use Rattle.std.specs.Prelude.{◌≡◌, ◌&&◌, nat_lt, [], IfOk, IsTrue, OnOk};
ghost use Rattle.epic_layout.specs.Contents.{hop_count};
ghost use Rattle.epic_layout.specs.Layout.{parse};
ghost use Rattle.epic_num.specs.Same.{same_host};
ghost use Rattle.epic_topo.specs.Network.{has};
ghost use Rattle.epic_record.specs.declared.item.Item.TheVariants as items;
ghost use Rattle.epic_record.specs.LedgerFile.{due_as, holder_as, is_packet};
ghost use Rattle.epic_record.specs.Places.{are_ends, continues, counts_of, event_fits, is_newest_seen, item_fits, position_at, seen_after, seen_event};

use crate::Item;
use arrayvec::ArrayVec;
use epic_ledger::Event;
use epic_num::{AsId, Holder, HostId, OutOfMemory, Place, same_host};
use epic_topo::Topology;
use epic_view::PacketRef;
use std::alloc::Global;
use std::marker::Model;

/// What has to be known of the lines before a line to tell whether it may follow them.
#[derive(Drop)]
pub struct Places {
    /// The position of each issue, in order.
    positions: Vec<u8>,
    /// The number of emissions.
    emissions: u32,
    /// How many hops each segment of the newest emission has.
    counts: ArrayVec<u8, 3>,
    /// How many hops the newest emission has.
    hops: u8,
}

impl Model for Places {
    ghost use Rattle.epic_record.specs.Places.{Seen};

    ghost Value = { Seen };

    ghost view = { λ p. record { positions = p.positions.items; emissions = p.emissions; counts = p.counts.items; hops = p.hops } };
}

/// The position of the issue with a number, from 1.
fn position_at(positions: &[u8], number: u32) -> Option<u8>
    ensures { result ≡ position_at positions.now number }
{
    match number.checked_sub(1) {
        Some(place) => positions.get(place as usize).copied(),
        None => None,
    }
}

/// Whether a hop at a position may go on from an issue, or from none.
fn continues(positions: &[u8], position: u8, parent: u32) -> bool
    ensures { result ≡ continues positions.now position parent }
{
    if parent == 0 {
        return position == 1;
    }
    match position_at(positions, parent) {
        Some(before) => u16::from(position) == u16::from(before) + 1,
        None => false,
    }
}

/// Whether issues are there, one a segment, and the position of each is the number of the segment's hops.
fn are_ends(positions: &[u8], numbers: &[u32], counts: &[u8]) -> bool
    ensures { result ≡ are_ends positions.now numbers.now counts.now }
{
    match numbers {
        [] => counts.is_empty(),
        [number, more @ ..] => match counts {
            [] => false,
            [count, others @ ..] => match position_at(positions, *number) {
                Some(position) => position == *count && are_ends(positions, more, others),
                None => false,
            },
        },
    }
}

/// The AS of a holder.
fn holder_as(holder: &Holder) -> AsId
    ensures { result ≡ holder_as holder.now }
{
    match holder {
        Holder::As(a) => *a,
        Holder::Host(host) => host.asn,
    }
}

/// The AS where a packet is due.
fn due_as(place: &Place) -> AsId
    ensures { result ≡ due_as place.now }
{
    match place {
        Place::Router { asn, .. } => *asn,
        Place::Host(host) => host.asn,
    }
}

/// How many hops each segment of a packet has.
#[tactic(auto, using(crate::proofs::SegmentCounts::counts_more, crate::proofs::SegmentCounts::counts_all), unfolding(epic_layout::specs::Spelling::segment_bytes))]
fn counts_of(packet: &PacketRef<'_>) -> ArrayVec<u8, 3>
    ensures { result.items ≡ counts_of packet.now }
{
    let mut counts = ArrayVec::new();
    for i in 0..packet.shape().segments {
        counts.push(packet.segment_head(i)[1]);
    }
    counts
}

/// Whether the router of an AS may accept a hop of what these bytes are.
fn hop_fits(topo: &Topology, a: AsId, hop: u8, bytes: &[u8]) -> bool
    ensures { result ≡ (has topo.now a && is_packet bytes.now && nat_lt hop (hop_count (parse bytes.now))) }
{
    if !topo.has(a) {
        return false;
    }
    match PacketRef::look(bytes) {
        Ok(packet) => hop < packet.shape().hops,
        Err(_) => false,
    }
}

/// Whether a destination may take what these bytes are.
fn dest_fits(topo: &Topology, host: HostId, bytes: &[u8]) -> bool
    ensures { result ≡ (has topo.now host.asn && is_packet bytes.now && same_host (parse bytes.now).dst host) }
{
    if !topo.has(host.asn) {
        return false;
    }
    match PacketRef::look(bytes) {
        Ok(packet) => same_host(packet.dst(), host),
        Err(_) => false,
    }
}

impl Places {
    /// Before the first line.
    pub fn new(alloc: Global) -> Places
        ensures positions { result.positions ≡ [] }
        ensures emissions { result.emissions ≡ 0 }
    {
        Places {
            positions: Vec::new(alloc),
            emissions: 0,
            counts: ArrayVec::new(),
            hops: 0,
        }
    }

    /// Whether this is the number of the newest emission.
    fn is_newest(&self, emission: u32) -> bool
        ensures { result ≡ is_newest_seen self.now emission }
    {
        0 < emission && emission == self.emissions
    }

    /// Whether an event may follow.
    #[tactic(auto, unfolding(crate::specs::Places::event_fits))]
    fn event_fits(&self, topo: &Topology, event: &Event) -> bool
        ensures { result ≡ event_fits topo.now self.now event.now }
    {
        match event {
            Event::Issue {
                no,
                name,
                parent,
                ..
            } => {
                *no as usize == self.positions.len() + 1
                    && topo.has(name.asn)
                    && name.body.pos <= 16
                    && continues(&self.positions, name.body.pos, *parent)
            }
            Event::Fetch { source, owner, .. } => topo.has(*source) && topo.has(*owner),
            Event::Send {
                emission,
                segments,
                ..
            } => { self.is_newest(*emission) && are_ends(&self.positions, segments, &self.counts) }
            Event::Pass {
                a,
                hop,
                emission,
                ..
            } => topo.has(*a) && self.is_newest(*emission) && *hop < self.hops,
            Event::Arrive { host, hops, .. } => topo.has(host.asn) && 2 <= *hops && *hops <= 32,
            Event::Reveal { holder, .. } => topo.has(holder_as(holder)),
            Event::Roll { a, .. } => topo.has(*a),
        }
    }

    /// Notes an event that followed.
    #[tactic(auto, unfolding(crate::specs::Places::seen_event))]
    fn note_event(&mut self, event: &Event) -> Result<(), OutOfMemory>
        ensures { OnOk result (self.new ≡ seen_event self.old event.now) }
    {
        match event {
            Event::Issue { name, .. } => match self.positions.push(name.body.pos) {
                Ok(()) => Ok(()),
                Err(_) => Err(OutOfMemory),
            },
            _ => Ok(()),
        }
    }

    /// Notes a packet under way, if its line may follow.
    #[tactic(auto, unfolding(crate::specs::Places::item_fits, crate::specs::Places::seen_after))]
    fn place_emission(&mut self, topo: &Topology, no: u32, place: &Place, bytes: &[u8]) -> bool
        ensures fits { result ≡ item_fits topo.now self.old (items.Emission no place.now bytes.now) }
        ensures after { IsTrue result → self.new ≡ seen_after self.old (items.Emission no place.now bytes.now) }
    {
        if u64::from(no) != u64::from(self.emissions) + 1 || !topo.has(due_as(place)) {
            return false;
        }
        match PacketRef::look(bytes) {
            Ok(packet) => {
                self.emissions = no;
                self.counts = counts_of(&packet);
                self.hops = packet.shape().hops;
                true
            }
            Err(_) => false,
        }
    }

    /// Whether what a line tells may follow, and notes it if it may. On an error nothing is said of what is known.
    #[tactic(auto, unfolding(crate::specs::Places::item_fits, crate::specs::Places::seen_after))]
    pub fn place(&mut self, topo: &Topology, item: &Item) -> Result<bool, OutOfMemory>
        ensures fits { IfOk result (λ fits. fits ≡ item_fits topo.now self.old item.now) }
        ensures after { IfOk result (λ fits. IsTrue fits → self.new ≡ seen_after self.old item.now) }
    {
        match item {
            Item::Event(event) => {
                if !self.event_fits(topo, event) {
                    return Ok(false);
                }
                self.note_event(event)?;
                Ok(true)
            }
            Item::Emission { no, place, bytes } => {
                Ok(self.place_emission(topo, *no, place, bytes.as_slice()))
            }
            Item::AcceptHop { a, hop, bytes, .. } => {
                Ok(hop_fits(topo, *a, *hop, bytes.as_slice()))
            }
            Item::AcceptDest { host, bytes } => Ok(dest_fits(topo, *host, bytes.as_slice())),
        }
    }
}
