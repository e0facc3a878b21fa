//! Packets that are carried: memory for the whole way first, then one place after the other.
ghost use Rattle.std.specs.Prelude.{◌≡◌, ℕ, ◌+◌, ◌*◌, ◌-◌, ◌^◌, ◌<◌, ◌≤◌, ◌≢◌, ◌++◌, length, map, None, Some, IfSome, vec_len, vec_capacity, IfErr, IfOk, IsTrue, OnOk};
ghost use Rattle.epic_num.specs.declared.name.AsId.{AsId};
ghost use Rattle.epic_num.specs.Levels.{is_first_byte};
ghost use Rattle.epic_layout.specs.Contents.{hop_count};
ghost use Rattle.epic_layout.specs.Layout.{fault, parse};
ghost use Rattle.epic_topo.specs.Network.{has};
ghost use Rattle.epic_beacon.specs.Store.{store_of};
ghost use Rattle.epic_ledger.specs.History.{History, emission_at, emitted};
ghost use Rattle.epic_model.specs.Keeping.{Inv, IsDue, store_in};
ghost use Rattle.epic_model.specs.Passing.{carried, last_history, most_emitted, passed_on};
ghost use Rattle.epic_model.specs.Steps.{passages_of};
ghost use Rattle.epic_model.specs.Traces.{shown};
ghost use Rattle.epic_actors.specs.Hosts.{HostsStandFor};
ghost use Rattle.epic_actors.specs.Routers.{HasRoom, RoutersStandFor, router_of};
ghost use Rattle.epic_actors.specs.Telling.{as_passed};
ghost use Rattle.epic_world.specs.Way.{IsReady, PlaceHasRoom, WayHasRoom, last_hop};

use crate::commands::are_bytes;
use crate::laws::is_topology;
use crate::places::copied;
use epic_actors::{Hosts, Routers, arrive_at, turn_at};
use epic_beacon::Beacons;
use epic_layout::shape_of;
use epic_ledger::Ledger;
use epic_num::{AsId, OutOfMemory, Passed, Place};
use epic_topo::Topology;
use epic_view::PacketRef;
use std::alloc::Global;

/// At how many places a packet comes at most: a router's for each of 32 hops, and the destination's.
const MOST_PLACES: u32 = 33;

/// The last of the hops that a router handles from hop `j` on.
#[tactic(auto, unfolding(crate::specs::Way::last_hop, epic_layout::specs::Contents::hop_count))]
fn last_hop(packet: &PacketRef<'_>, j: u8) -> u8
    requires { j < hop_count packet.now }
    ensures value { result ≡ last_hop packet.now.route j }
    ensures there { result < hop_count packet.now }
{
    let hops = packet.shape().hops;
    if packet.is_last(j) && j + 1 != hops {
        j + 1
    } else {
        j
    }
}

/// Makes each router on a packet's way from hop `j` on, `most` at most, and room in it for so many packets. Out of memory, nothing
/// that is remembered has changed.
fn ready_way(
    alloc: Global,
    topo: &Topology,
    routers: &mut Routers,
    a: AsId,
    packet: &PacketRef<'_>,
    j: u8,
    most: u32,
) -> Result<(), OutOfMemory>
    requires known { IsTrue (has topo.now a) }
    ensures room { OnOk result (WayHasRoom 33 topo.now routers.new most a packet.now.route j) }

    // Whatever the result, no room is lost, and the routers stand for what they stood for.
    ensures kept { (b : AsId) (m : ℕ) → HasRoom m (router_of routers.old b) → HasRoom m (router_of routers.new b) }
    ensures stand { (now : ℕ) (h : History) → RoutersStandFor topo.now now routers.old h → RoutersStandFor topo.now now routers.new h }
{
    if most == 0 {
        return Ok(());
    }
    routers.ready(alloc, topo, a, MOST_PLACES)?;
    if j >= packet.shape().hops {
        return Ok(());
    }
    let last = last_hop(packet, j);
    match topo.neighbour(a, packet.egress(last)) {
        Some((b, _, _)) => ready_way(alloc, topo, routers, b, packet, last + 1, most - 1),
        None => Ok(()),
    }
}

/// Copies the bytes of an emission into two slices as long, and answers the place where it is due.
fn copy_emission(ledger: &Ledger, number: u32, came: &mut [u8], outgoing: &mut [u8]) -> Place
    requires there { emission_at ledger.now.history.emissions number ≢ None }
    requires size { IfSome (emission_at ledger.now.history.emissions number) (λ e. length e.bytes ≡ length came.old) }
    requires same { length outgoing.old ≡ length came.old }
    ensures emission { emission_at ledger.now.history.emissions number ≡ Some (record { place = result; bytes = came.new }) }
    ensures copy { outgoing.new ≡ came.new }
{
    match ledger.emission(number) {
        Some((place, bytes)) => {
            came.copy_from_slice(bytes);
            outgoing.copy_from_slice(bytes);
            place
        }
        None => unreachable!(),
    }
}

/// An emission comes to the place where it is due, one of at most `most`, for each of which there is room. What it makes is ready to be
/// carried on.
fn pass_on(
    topo: &Topology,
    ledger: &mut Ledger,
    routers: &mut Routers,
    hosts: &mut Hosts,
    beacons: &Beacons,
    number: u32,
    came: &mut [u8],
    outgoing: &mut [u8],
    most: u32,
    now: u64,
    step: u32,
) -> Passed
    requires ready { IsReady topo.now now step most (length came.old) ledger.old routers.old hosts.old number }
    requires some { 1 ≤ most }
    requires stored { store_of beacons.now ≡ store_in topo.now ledger.old.history }
    requires same { length outgoing.old ≡ length came.old }
    ensures passed { IfSome (emission_at ledger.old.history.emissions number) (λ e. result ≡ as_passed e.place (passed_on topo.now step now ledger.old.history number)) }
    ensures history { ledger.new.history ≡ (passed_on topo.now step now ledger.old.history number).history }
    ensures routed { RoutersStandFor topo.now now routers.new ledger.new.history }
    ensures hosted { HostsStandFor topo.now now hosts.new ledger.new.history }
    ensures stored { store_of beacons.now ≡ store_in topo.now ledger.new.history }
    ensures ready { result.emission ≢ 0 → IsReady topo.now now step (most - 1) (length came.old) ledger.new routers.new hosts.new result.emission }
{
    is_topology(topo);
    let place = copy_emission(ledger, number, came, outgoing);
    are_bytes(came);
    match place {
        Place::Router { asn, iface } => turn_at(
            topo,
            ledger,
            routers,
            asn,
            iface,
            came,
            outgoing,
            beacons.generation(asn),
            now,
            step,
        ),
        Place::Host(host) => arrive_at(topo, ledger, hosts, host, came, now, step),
    }
}

/// An emission is carried on over at most `most` places, for each of which there is room. What became of it at each is told.
fn carry_on(
    topo: &Topology,
    ledger: &mut Ledger,
    routers: &mut Routers,
    hosts: &mut Hosts,
    beacons: &Beacons,
    number: u32,
    came: &mut [u8],
    outgoing: &mut [u8],
    most: u32,
    now: u64,
    step: u32,
    told: &mut Vec<Passed>,
)
    requires ready { IsReady topo.now now step most (length came.old) ledger.old routers.old hosts.old number }
    requires stored { store_of beacons.now ≡ store_in topo.now ledger.old.history }
    requires same { length outgoing.old ≡ length came.old }
    requires room { vec_len told.old + most ≤ vec_capacity told.old }
    ensures told { told.new.items ≡ told.old.items ++ map shown (passages_of ledger.old.history number (carried topo.now step now most ledger.old.history number)) }
    ensures history { ledger.new.history ≡ last_history ledger.old.history (carried topo.now step now most ledger.old.history number) }
    ensures routed { RoutersStandFor topo.now now routers.new ledger.new.history }
    ensures hosted { HostsStandFor topo.now now hosts.new ledger.new.history }
{
    if most == 0 {
        return;
    }
    let passed = pass_on(
        topo, ledger, routers, hosts, beacons, number, came, outgoing, most, now, step,
    );
    let next = passed.emission;
    told.push_reserved(passed);
    if next != 0 {
        carry_on(
            topo,
            ledger,
            routers,
            hosts,
            beacons,
            next,
            came,
            outgoing,
            most - 1,
            now,
            step,
            told,
        );
    }
}

/// Makes what a packet's way from a place needs: routers and the host where it ends, with room for it. Out of memory, nothing that is
/// remembered has changed.
fn ready_place(
    alloc: Global,
    topo: &Topology,
    routers: &mut Routers,
    hosts: &mut Hosts,
    place: Place,
    bytes: &[u8],
) -> Result<(), OutOfMemory>
    requires due { IsDue topo.now place }
    requires faultless { fault is_first_byte bytes.now ≡ None }
    ensures room { OnOk result (PlaceHasRoom 33 topo.now routers.new hosts.new place (parse bytes.now)) }

    // Whatever the result, they stand for what they stood for.
    ensures routed { (now : ℕ) (h : History) → RoutersStandFor topo.now now routers.old h → RoutersStandFor topo.now now routers.new h }
    ensures hosted { (now : ℕ) (h : History) → HostsStandFor topo.now now hosts.old h → HostsStandFor topo.now now hosts.new h }
{
    match place {
        Place::Router { asn, .. } => {
            let packet = PacketRef::of(bytes, shape_of(bytes));
            let dst = packet.dst();
            ready_way(
                alloc,
                topo,
                routers,
                asn,
                &packet,
                packet.current(),
                MOST_PLACES,
            )?;
            if topo.has(dst.asn) {
                return hosts.ready(alloc, topo, dst, 1);
            }
            Ok(())
        }
        Place::Host(host) => hosts.ready(alloc, topo, host, 1),
    }
}

/// An emission is carried on from the place where it is due, at the moment `now` in microseconds, in a step. Out of memory, nothing
/// happened.
pub(crate) fn carry_here(
    alloc: Global,
    topo: &Topology,
    ledger: &mut Ledger,
    routers: &mut Routers,
    hosts: &mut Hosts,
    beacons: &Beacons,
    number: u32,
    place: Place,
    came: &mut [u8],
    now: u64,
    step: u32,
) -> Result<Vec<Passed>, OutOfMemory>
    requires there { emission_at ledger.old.history.emissions number ≡ Some (record { place = place; bytes = came.old }) }
    requires inv { Inv topo.now ledger.old.history now step }
    requires routed { RoutersStandFor topo.now now routers.old ledger.old.history }
    requires hosted { HostsStandFor topo.now now hosts.old ledger.old.history }
    requires stored { store_of beacons.now ≡ store_in topo.now ledger.old.history }
    requires few_events { length ledger.old.history.events + 66 < 2 ^ 31 }
    requires few_emissions { length ledger.old.history.emissions + 33 < 2 ^ 31 }
    requires few_bytes { emitted ledger.old.history.emissions ≤ most_emitted }
    ensures told { IfOk result (λ v. v.items ≡ map shown (passages_of ledger.old.history number (carried topo.now step now 33 ledger.old.history number))) }
    ensures history { IfOk result (λ _. ledger.new.history ≡ last_history ledger.old.history (carried topo.now step now 33 ledger.old.history number)) }
    ensures unchanged { IfErr result (λ _. ledger.new.history ≡ ledger.old.history) }
    ensures routed { RoutersStandFor topo.now now routers.new ledger.new.history }
    ensures hosted { HostsStandFor topo.now now hosts.new ledger.new.history }
{
    ready_place(alloc, topo, routers, hosts, place, came)?;
    ledger.reserve(66, MOST_PLACES, 33 * came.len() as u64)?;
    let Ok(mut outgoing) = copied(alloc, came) else {
        return Err(OutOfMemory);
    };
    let mut told = Vec::new(alloc);
    if told.reserve(33).is_err() {
        return Err(OutOfMemory);
    }
    carry_on(
        topo,
        ledger,
        routers,
        hosts,
        beacons,
        number,
        came,
        outgoing.as_mut_slice(),
        MOST_PLACES,
        now,
        step,
        &mut told,
    );
    Ok(told)
}
