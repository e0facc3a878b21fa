//! Turns of one router, of packets that come to it for the first time.

ghost use Rattle.std.specs.Prelude.{◌≡◌, ◌≤◌, Ok, IsTrue, IfOk, IfErr, slice_index_or};
ghost use Rattle.epic_topo.specs.Network.{has};
ghost use Rattle.epic_topo.specs.Reading.{topology};
ghost use Rattle.epic_bench.specs.Routed.{IsRoutedDigest, accepted_by, accepted_of};
ghost use Rattle.epic_bench.specs.Run.{MakesNothing};
ghost use Rattle.epic_bench.specs.declared.routed.TheConstants.{ROUTER};
ghost use Rattle.epic_bench.specs.declared.top.End.TheVariants.{OutOfMemory};
ghost use Rattle.epic_bench.specs.declared.way.TheConstants.{CHAIN, NOW};

use crate::digests::digest;
use crate::top::End;
use crate::way::{CHAIN, NOW, chain, has_all, packet, segment};
use crate::work::KEY;
use epic_fields::field_of;
use epic_layout::check;
use epic_layout::wire::{CURRENT_AT, TS_AT};
use epic_num::{AsId, HopName, Level, Turn};
use epic_router::Router;
use epic_topo::Topology;
use epic_view::{PacketRef, PacketView};
use std::alloc::Global;

/// The router: that of the second AS of the chain.
pub(crate) const ROUTER: AsId = AsId(0x0001_0000_0000_0002);

/// The interface by which packets come to it from the first.
pub(crate) const IFACE: u16 = 1;

/// How many bytes each packet has: eight hops of one segment, and a payload or a destination field of 16 bytes.
pub(crate) const LEN: usize = 192;

/// The packet that comes where there is no other.
pub(crate) const NO_PACKET: [u8; LEN] = [0; LEN];

/// Brings a packet to the router's hop, with this timestamp and the hop's field.
fn stamp(topo: &Topology, bytes: &mut [u8], ts: u64) -> Result<(), End>
    requires { IsTrue (has topo.now ROUTER) }
    ensures { IfErr result MakesNothing }
{
    if bytes.len() != LEN {
        return Err(End::NoPacket);
    }
    bytes[TS_AT..TS_AT + 8].copy_from_slice(&ts.to_be_bytes());
    bytes[CURRENT_AT] = 1;
    let Ok(sizes) = check(bytes) else {
        return Err(End::NoPacket);
    };
    let packet = PacketRef::of(bytes, sizes);
    if packet.shape().hops < 2 {
        return Err(End::NoPacket);
    }
    let name = HopName {
        asn: ROUTER,
        generation: 0,
        body: packet.body(1),
    };
    let field = field_of(topo, &name, &packet, 1);
    let mut view = PacketView::of(bytes, sizes);
    view.set_field(1, &field);
    Ok(())
}

/// The packet of a number at the router's hop: its timestamp lies so many microseconds past the moment of the turns.
fn stamped(topo: &Topology, template: &[u8], i: u32) -> Result<[u8; LEN], End>
    requires { IsTrue (has topo.now ROUTER) }
    ensures { IfErr result MakesNothing }
{
    if template.len() != LEN {
        return Err(End::NoPacket);
    }
    let mut bytes = NO_PACKET;
    bytes.copy_from_slice(template);
    stamp(topo, &mut bytes, NOW + u64::from(i))?;
    Ok(bytes)
}

/// So many packets of a level.
fn stamped_packets(
    alloc: Global,
    topo: &Topology,
    template: &[u8],
    n: u32,
) -> Result<Vec<[u8; LEN]>, End>
    requires { IsTrue (has topo.now ROUTER) }
    ensures { IfErr result MakesNothing }
{
    let mut packets = Vec::new(alloc);
    for i in 0..n {
        let packet = stamped(topo, template, i)?;
        if packets.push(packet).is_err() {
            return Err(End::OutOfMemory);
        }
    }
    Ok(packets)
}

/// The packet of a number.
pub(crate) fn packet_at(packets: &[[u8; LEN]], i: u32) -> [u8; LEN]
    ensures { result ≡ slice_index_or packets.now i NO_PACKET }
{
    match packets.get(i as usize) {
        Some(packet) => *packet,
        None => NO_PACKET,
    }
}

/// 1 for a packet that goes on, else 0.
fn accepted_by(answer: &Turn) -> u64
    ensures value { result ≡ accepted_by answer.now }
    ensures bound { result ≤ 1 }
{
    match answer {
        Turn::Forward { .. } | Turn::Deliver { .. } => 1,
        Turn::Refused { .. } => 0,
    }
}

/// How many of so many packets the router accepts, which come to it one after the other.
fn turns(topo: &Topology, router: &mut Router, packets: &[[u8; LEN]], rounds: u32) -> u64
    requires known { IsTrue (has topo.now ROUTER) }
    requires asn { router.old.asn ≡ ROUTER }
    requires profile { router.old.window.profile ≡ topo.now.profile }
    requires latest { router.old.window.latest ≤ NOW }
    requires room { rounds ≤ router.old.window.spare }
    ensures value { result ≡ accepted_of topo.now router.old.window.entries packets.now rounds }
    ensures asn { router.new.asn ≡ ROUTER }
    ensures profile { router.new.window.profile ≡ topo.now.profile }
    ensures latest { router.new.window.latest ≤ NOW }
{
    let mut accepted = 0;
    for i in 0..rounds {
        let mut bytes = packet_at(packets, i);
        let answer = router.turn(topo, &mut bytes, IFACE, 0, NOW, i);
        accepted += accepted_by(&answer);
    }
    accepted
}

/// A router of the chain, and packets that come to it.
#[derive(Drop)]
pub(crate) struct Routed {
    topo: Topology,
    router: Router,
    packets: Vec<[u8; LEN]>,
    pub ghost of_chain: { topology CHAIN.now ≡ Ok topo },
    pub ghost known: { IsTrue (has topo ROUTER) },
    pub ghost asn: { router.asn ≡ ROUTER },
    pub ghost profile: { router.window.profile ≡ topo.profile },
    pub ghost latest: { router.window.latest ≤ NOW },
}

impl Routed {
    /// The second router of the chain, and so many packets of a level.
    pub(crate) fn new(alloc: Global, level: Level, rounds: u32) -> Result<Routed, End>
        ensures { IfErr result MakesNothing }
    {
        let topo = chain(alloc)?;
        if !has_all(&topo) || !topo.has(ROUTER) {
            return Err(End::NoPacket);
        }
        let segment = segment(alloc, &topo)?;
        let payload: &[u8] = match level {
            Level::L0 | Level::L1 => &[0; 16],
            Level::L2 | Level::L3 => &[],
        };
        let template = packet(alloc, &segment, level, payload)?;
        let packets = stamped_packets(alloc, &topo, &template, rounds)?;
        let mut router = Router::new(alloc, &topo.profile(), ROUTER, &KEY);
        if router.reserve(rounds).is_err() {
            return Err(End::OutOfMemory);
        }
        Ok(Routed {
            topo,
            router,
            packets,
        })
    }

    /// The tag of how many of so many packets the router accepts.
    pub(crate) fn run(&mut self, rounds: u32) -> Result<[u8; 16], End>
        ensures ok { IfOk result (IsRoutedDigest rounds) }
        ensures err { IfErr result (λ end. end ≡ OutOfMemory) }
    {
        if self.router.reserve(rounds).is_err() {
            return Err(End::OutOfMemory);
        }
        let accepted = turns(&self.topo, &mut self.router, &self.packets, rounds);
        Ok(digest(accepted, &[]))
    }
}
