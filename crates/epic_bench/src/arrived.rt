//! Arrivals at a host, of packets of level 3 that come to it for the first time.

ghost use Rattle.std.specs.Prelude.{◌≡◌, ◌≤◌, Ok, IsTrue, IfOk, IfErr, if◌then◌else◌};
ghost use Rattle.epic_topo.specs.Network.{has};
ghost use Rattle.epic_topo.specs.Reading.{topology};
ghost use Rattle.epic_ends.specs.Destinations.{is_accepted};
ghost use Rattle.epic_bench.specs.Arrived.{IsArrivedDigest, taken_of};
ghost use Rattle.epic_bench.specs.Run.{MakesNothing};
ghost use Rattle.epic_bench.specs.declared.arrived.TheConstants.{HOST};
ghost use Rattle.epic_bench.specs.declared.top.End.TheVariants.{OutOfMemory};
ghost use Rattle.epic_bench.specs.declared.way.TheConstants.{CHAIN, NOW};

use crate::digests::digest;
use crate::routed::{LEN, NO_PACKET, packet_at};
use crate::top::End;
use crate::way::{CHAIN, NOW, chain, has_all, packet, segment};
use crate::work::KEY;
use epic_ends::Dest;
use epic_fields::{are_updates, dest_name, dest_tag};
use epic_keys::derive;
use epic_layout::wire::{CURRENT_AT, TS_AT};
use epic_num::{Arrival, AsId, Field, HostId, Level, is_tagged};
use epic_topo::Topology;
use epic_view::PacketRef;
use std::alloc::Global;

/// The host, in the last AS of the chain.
pub(crate) const HOST: HostId = HostId {
    asn: AsId(0x0001_0000_0000_0008),
    host: 2,
};

/// Where the first hop's field begins, and how many bytes further each other one.
const FIELDS_AT: usize = 61;

const HOP_LEN: usize = 16;

/// How many hops each packet has, and where its destination field begins.
const HOPS: usize = 8;

const DEST_AT: usize = LEN - 16;

/// The destination field of a packet whose hops all have the update of zeros.
#[tactic(auto, unfolding(epic_fields::specs::PacketTags::dest_name, epic_keys::specs::Keys::owner))]
fn tag(topo: &Topology, packet: &PacketRef<'_>) -> Result<[u8; 16], End>
    ensures { IfErr result MakesNothing }
{
    let zeros = Field {
        bytes: [0; 6],
        width: 3,
    };
    let updates = [zeros; HOPS];
    if !topo.has(packet.dst().asn)
        || !is_tagged(packet.first_byte())
        || !are_updates(packet, &updates)
    {
        return Err(End::NoPacket);
    }
    let key = derive(topo, &dest_name(topo, packet));
    Ok(dest_tag(&key, packet, &updates))
}

/// A packet of a number behind its last hop: its timestamp lies so many microseconds past the moment of the arrivals.
fn stamped(topo: &Topology, template: &[u8], i: u32) -> Result<[u8; LEN], End>
    ensures { IfErr result MakesNothing }
{
    let mut bytes = NO_PACKET;
    if template.len() != LEN {
        return Err(End::NoPacket);
    }
    bytes.copy_from_slice(template);
    bytes[TS_AT..TS_AT + 8].copy_from_slice(&(NOW + u64::from(i)).to_be_bytes());
    bytes[CURRENT_AT] = HOPS as u8;
    for hop in 0..HOPS {
        let at = FIELDS_AT + HOP_LEN * hop;
        bytes[at..at + 3].copy_from_slice(&[0; 3]);
    }
    let Ok(packet) = PacketRef::look(&bytes) else {
        return Err(End::NoPacket);
    };
    let tag = tag(topo, &packet)?;
    bytes[DEST_AT..].copy_from_slice(&tag);
    Ok(bytes)
}

/// So many packets.
fn stamped_packets(
    alloc: Global,
    topo: &Topology,
    template: &[u8],
    n: u32,
) -> Result<Vec<[u8; LEN]>, End>
    ensures { IfErr result MakesNothing }
{
    let mut packets = Vec::new(alloc);
    for i in 0..n {
        let packet = stamped(topo, template, i)?;
        if packets.push(packet).is_err() {
            return Err(End::OutOfMemory);
        }
    }
    Ok(packets)
}

/// 1 for a packet that is accepted, else 0.
fn accepted_by(answer: Arrival) -> u64
    ensures { result ≡ (if is_accepted answer then 1 else 0) }
{
    match answer {
        Arrival::Accepted => 1,
        Arrival::Unchecked | Arrival::Refused(_) => 0,
    }
}

/// How many of so many packets the host accepts, which come to it one after the other.
#[tactic(auto, using(crate::proofs::Taking::taken_more))]
fn arrivals(topo: &Topology, dest: &mut Dest, packets: &[[u8; LEN]], rounds: u32) -> u64
    requires known { IsTrue (has topo.now HOST.asn) }
    requires host { dest.old.host ≡ HOST }
    requires profile { dest.old.window.profile ≡ topo.now.profile }
    requires latest { dest.old.window.latest ≤ NOW }
    requires room { rounds ≤ dest.old.window.spare }
    ensures value { result ≡ taken_of topo.now dest.old.window.entries packets.now rounds }
    ensures host { dest.new.host ≡ HOST }
    ensures profile { dest.new.window.profile ≡ topo.now.profile }
    ensures latest { dest.new.window.latest ≤ NOW }
{
    let mut accepted = 0;
    for i in 0..rounds {
        let bytes = packet_at(packets, i);
        let answer = dest.arrive(topo, &bytes, NOW, i);
        accepted += accepted_by(answer);
    }
    accepted
}

/// A host at the end of the chain, and packets that come to it.
#[derive(Drop)]
pub(crate) struct Arrived {
    topo: Topology,
    dest: Dest,
    packets: Vec<[u8; LEN]>,
    pub ghost of_chain: { topology CHAIN.now ≡ Ok topo },
    pub ghost known: { IsTrue (has topo HOST.asn) },
    pub ghost host: { dest.host ≡ HOST },
    pub ghost profile: { dest.window.profile ≡ topo.profile },
    pub ghost latest: { dest.window.latest ≤ NOW },
}

impl Arrived {
    /// The host, and so many packets.
    pub(crate) fn new(alloc: Global, rounds: u32) -> Result<Arrived, End>
        ensures { IfErr result MakesNothing }
    {
        let topo = chain(alloc)?;
        if !has_all(&topo) || !topo.has(HOST.asn) {
            return Err(End::NoPacket);
        }
        let segment = segment(alloc, &topo)?;
        let template = packet(alloc, &segment, Level::L3, &[])?;
        let packets = stamped_packets(alloc, &topo, &template, rounds)?;
        let mut dest = Dest::new(alloc, &topo.profile(), HOST, &KEY);
        if dest.reserve(rounds).is_err() {
            return Err(End::OutOfMemory);
        }
        Ok(Arrived {
            topo,
            dest,
            packets,
        })
    }

    /// The tag of how many of so many packets the host accepts.
    pub(crate) fn run(&mut self, rounds: u32) -> Result<[u8; 16], End>
        ensures ok { IfOk result (IsArrivedDigest rounds) }
        ensures err { IfErr result (λ end. end ≡ OutOfMemory) }
    {
        if self.dest.reserve(rounds).is_err() {
            return Err(End::OutOfMemory);
        }
        let accepted = arrivals(&self.topo, &mut self.dest, &self.packets, rounds);
        Ok(digest(accepted, &[]))
    }
}
