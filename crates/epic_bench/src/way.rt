//! A chain of ASes, and packets that go down it.

ghost use Rattle.std.specs.Prelude.{◌≡◌, Ok, IsTrue, IfOk, IfErr};
ghost use Rattle.std.specs.List.{list_all};
ghost use Rattle.epic_topo.specs.Network.{has};
ghost use Rattle.epic_topo.specs.Reading.{topology};
ghost use Rattle.epic_bench.specs.declared.way.TheConstants.{ASES, CHAIN};
ghost use Rattle.epic_bench.specs.Run.{MakesNothing};

use crate::top::End;
use arrayvec::ArrayVec;
use epic_beacon::Beacons;
use epic_fields::field0;
use epic_layout::{Packet, PacketHop, PacketSegment, Segments, encode, is_valid};
use epic_num::{AsId, BeaconError, Bytes, Field, HostId, Level, SegHop, Segment};
use epic_topo::{TopoError, Topology, read_topology};
use std::alloc::{AllocError, Global};

/// Eight ASes, each the parent of the next.
pub(crate) const CHAIN: &[u8] = b"profile = { window = 65536 }\n\
    as = [\n\
      { name = '1-1', core = true, key = '01010101010101010101010101010101' },\n\
      { name = '1-2', key = '02020202020202020202020202020202' },\n\
      { name = '1-3', key = '03030303030303030303030303030303' },\n\
      { name = '1-4', key = '04040404040404040404040404040404' },\n\
      { name = '1-5', key = '05050505050505050505050505050505' },\n\
      { name = '1-6', key = '06060606060606060606060606060606' },\n\
      { name = '1-7', key = '07070707070707070707070707070707' },\n\
      { name = '1-8', key = '08080808080808080808080808080808' },\n\
    ]\n\
    link = [\n\
      { kind = 'child', a = '1-1', a_if = 2, b = '1-2', b_if = 1 },\n\
      { kind = 'child', a = '1-2', a_if = 2, b = '1-3', b_if = 1 },\n\
      { kind = 'child', a = '1-3', a_if = 2, b = '1-4', b_if = 1 },\n\
      { kind = 'child', a = '1-4', a_if = 2, b = '1-5', b_if = 1 },\n\
      { kind = 'child', a = '1-5', a_if = 2, b = '1-6', b_if = 1 },\n\
      { kind = 'child', a = '1-6', a_if = 2, b = '1-7', b_if = 1 },\n\
      { kind = 'child', a = '1-7', a_if = 2, b = '1-8', b_if = 1 },\n\
    ]\n";

/// The first of them.
const FIRST: AsId = AsId(0x0001_0000_0000_0001);

/// All, in order.
pub(crate) const ASES: [AsId; 8] = [
    AsId(0x0001_0000_0000_0001),
    AsId(0x0001_0000_0000_0002),
    AsId(0x0001_0000_0000_0003),
    AsId(0x0001_0000_0000_0004),
    AsId(0x0001_0000_0000_0005),
    AsId(0x0001_0000_0000_0006),
    AsId(0x0001_0000_0000_0007),
    AsId(0x0001_0000_0000_0008),
];

/// The moment of all issues and turns, in microseconds.
pub(crate) const NOW: u64 = 1_700_000_000_000_000;

/// The interface of each AS towards the next.
const DOWN: u16 = 2;

/// The expiry byte of all hops.
const EXPIRY: u8 = 63;

/// The chain's topology.
pub(crate) fn chain(alloc: Global) -> Result<Topology, End>
    ensures ok { IfOk result (λ topo. topology CHAIN.now ≡ Ok topo) }
    ensures err { IfErr result MakesNothing }
{
    match read_topology(alloc, CHAIN) {
        Ok(topo) => Ok(topo),
        Err(TopoError::OutOfMemory) => Err(End::OutOfMemory),
        Err(TopoError::Bad { .. }) => Err(End::NoPacket),
    }
}

/// Whether all ASes of the chain are in the topology.
pub(crate) fn has_all(topo: &Topology) -> bool
    ensures { result ≡ list_all (λ a. has topo.now a) ASES }
{
    ASES.iter().all(|a| topo.has(*a))
}

/// Why a hop wasn't issued, or a chain has no segment.
fn unissued(error: BeaconError) -> End
    ensures { MakesNothing result }
{
    match error {
        BeaconError::OutOfMemory => End::OutOfMemory,
        _ => End::NoPacket,
    }
}

/// The segment down the chain.
pub(crate) fn segment(alloc: Global, topo: &Topology) -> Result<Segment, End>
    requires { IsTrue (has topo.now FIRST) }
    ensures { IfErr result MakesNothing }
{
    let mut store = Beacons::new(alloc);
    let mut last = store
        .originate(topo, FIRST, DOWN, EXPIRY, NOW)
        .map_err(unissued)?;
    for i in 1..ASES.len() {
        let out = if i + 1 < ASES.len() { DOWN } else { 0 };
        last = store
            .extend(topo, last, out, EXPIRY, NOW)
            .map_err(unissued)?;
    }
    store.segment(last).map_err(|_| End::NoPacket)
}

/// A hop in a packet of level 0.
fn packet_hop(hop: &SegHop) -> PacketHop {
    let field = field0(&hop.sigma);
    PacketHop {
        exp: hop.body.exp,
        inn: hop.body.inn,
        out: hop.body.out,
        link: hop.body.link,
        field: Field {
            bytes: [field[0], field[1], field[2], 0, 0, 0],
            width: 3,
        },
    }
}

/// A packet of a level down the segment, from a host of its first AS to one of its last. Its fields are those of level 0.
pub(crate) fn packet(
    alloc: Global,
    segment: &Segment,
    level: Level,
    payload: &[u8],
) -> Result<Vec<u8>, End>
    ensures { IfErr result MakesNothing }
{
    let mut hops = ArrayVec::new();
    for hop in segment.hops.as_slice() {
        hops.push(packet_hop(hop));
    }
    let mut segments = Vec::new(alloc);
    let segment = PacketSegment {
        against: false,
        ts_path: (NOW / 1_000_000) as u32,
        hops,
    };
    segments.push(segment).map_err(AllocError::from)?;
    let packet = Packet {
        version: 1,
        level,
        current: 0,
        src: HostId {
            asn: ASES[0],
            host: 1,
        },
        dst: HostId {
            asn: ASES[7],
            host: 2,
        },
        ts: NOW,
        segments: Segments::from_vec(segments),
        dest_field: [0; 16],
        payload: Bytes::from_vec(payload.to_vec(alloc)?),
    };
    if !is_valid(&packet) {
        return Err(End::NoPacket);
    }
    encode(alloc, &packet).map_err(|_| End::OutOfMemory)
}
