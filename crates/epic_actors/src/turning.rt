//! What becomes of a packet's bytes at the router of an AS, and what the ledger records of it.
ghost use Rattle.std.specs.Prelude.{◌≡◌, ℕ, ◌+◌, ◌<◌, ◌≤◌, [], ◌++◌, nat_lt, length, take, slice_index, IsSome, IsTrue};
ghost use Rattle.epic_num.specs.declared.passed.PassResult.TheVariants.{Full, Turned};
ghost use Rattle.epic_num.specs.declared.passed.Place.TheVariants.{Router};
ghost use Rattle.epic_layout.specs.Contents.{hop_count};
ghost use Rattle.epic_layout.specs.Layout.{parse};
ghost use Rattle.epic_layout.specs.Spelling.{spelling};
ghost use Rattle.epic_topo.specs.Network.{has};
ghost use Rattle.epic_router.specs.Leaving.{packet_after};
ghost use Rattle.epic_ledger.specs.History.{emission_at, emitted};
ghost use Rattle.epic_ledger.specs.Facts.{facts_of, packet_at};
ghost use Rattle.epic_ledger.specs.Lawful.{IsLast};
ghost use Rattle.epic_audit.specs.Kept.{Kept};
ghost use Rattle.epic_model.specs.Passing.{due_behind, hop_verdicts, left, most_emitted, nothing, passes_from, rolls, turned_at};
ghost use Rattle.epic_model.specs.Sound.{IsSound};
ghost use Rattle.epic_actors.specs.Routers.{HasRoom, RoutersStandFor, router_of};
ghost use Rattle.epic_actors.specs.Telling.{IsAcceptedAt, IsHopAccepted, as_passed};

use crate::Routers;
use arrayvec::ArrayVec;
use epic_audit::verdict_hop;
use epic_layout::shape_of;
use epic_ledger::{Event, Ledger};
use epic_num::{AsId, HostId, PassResult, Passed, Place, Turn, Verdict};
use epic_topo::Topology;
use epic_view::PacketRef;

/// How many bytes all emissions may have.
pub const MOST_EMITTED: u64 = 268_435_456;

/// Whether the ledger has no room for what a router may emit of these bytes, so that the router isn't asked.
pub fn is_full(ledger: &Ledger, bytes: &[u8]) -> bool
    ensures { result ≡ nat_lt most_emitted (emitted ledger.now.history.emissions + length bytes.now) }
{
    MOST_EMITTED < ledger.emitted().saturating_add(bytes.len() as u64)
}

/// The other end of the link at an interface.
#[tactic(auto, unfolding(epic_model::specs::Passing::due_behind))]
fn due_behind(topo: &Topology, a: AsId, out: u16) -> Place
    ensures { result ≡ due_behind topo.now a out }
{
    match topo.neighbour(a, out) {
        Some((asn, iface, _)) => Place::Router { asn, iface },
        None => Place::Router { asn: a, iface: out },
    }
}

/// A packet that made no emission.
fn not_passed(ledger: &Ledger, a: AsId, iface: u16, outcome: PassResult) -> Passed
    ensures { result ≡ as_passed (Router a iface) (nothing ledger.now.history outcome) }
{
    Passed {
        place: Place::Router { asn: a, iface },
        result: outcome,
        emission: 0,
        verdicts: ArrayVec::new(),
    }
}

/// The verdicts on so many hops of a packet, 1 or 2, as it came in, over the ledger so far.
fn judged(
    ledger: &Ledger,
    topo: &Topology,
    a: AsId,
    packet: &PacketRef<'_>,
    hops: u8,
    generations: &[u32; 2],
) -> ArrayVec<Verdict, 2>
    requires kept { Kept topo.now (facts_of ledger.now.history) }
    requires known { IsTrue (has topo.now a) }
    requires some { 1 ≤ hops }
    requires few { hops ≤ 2 }
    requires within { packet.now.current + hops ≤ hop_count packet.now }
    requires accepted { (i : ℕ) → i < hops → IsHopAccepted topo.now a (slice_index generations.now i) packet.now (packet.now.current + i) }
    ensures { result.items ≡ hop_verdicts topo.now (facts_of ledger.now.history) a packet.now packet.now.current (take hops generations.now) }
{
    let _shape = packet.shape();
    let hop = packet.current();
    let mut verdicts = ArrayVec::new();
    verdicts.push(verdict_hop(ledger, topo, a, generations[0], packet, hop));
    if hops > 1 {
        verdicts.push(verdict_hop(ledger, topo, a, generations[1], packet, hop + 1));
    }
    verdicts
}

/// Records that so many hops of an emission, 1 or 2, were passed, from `hop` on.
fn record_passes(
    ledger: &mut Ledger,
    step: u32,
    a: AsId,
    hop: u8,
    hops: u8,
    generations: &[u32; 2],
    emission: u32,
)
    requires room { 2 ≤ ledger.old.spare.events }
    requires some { 1 ≤ hops }
    requires few { hops ≤ 2 }
    requires fits { hop + hops < 256 }
    requires there { IsSome (emission_at ledger.old.history.emissions emission) }
    requires within { hop + hops ≤ hop_count (packet_at ledger.old.history.emissions emission) }
    requires last { IsLast ledger.old.history.events step }
    ensures events { ledger.new.history.events ≡ ledger.old.history.events ++ passes_from step a emission hop (take hops generations.now) }
    ensures emissions { ledger.new.history.emissions ≡ ledger.old.history.emissions }
    ensures spare { ledger.old.spare.events ≤ ledger.new.spare.events + 2 }
    ensures emissions_spare { ledger.new.spare.emissions ≡ ledger.old.spare.emissions }
    ensures bytes_spare { ledger.new.spare.bytes ≡ ledger.old.spare.bytes }
{
    ledger.push(Event::Pass {
        step,
        a,
        hop,
        generation: generations[0],
        emission,
    });
    if hops > 1 {
        ledger.push(Event::Pass {
            step,
            a,
            hop: hop + 1,
            generation: generations[1],
            emission,
        });
    }
}

/// A packet that the router accepted leaves: `outgoing` are its bytes after that, and it is due at a place.
fn sent_on(
    topo: &Topology,
    ledger: &mut Ledger,
    a: AsId,
    iface: u16,
    bytes: &[u8],
    outgoing: &[u8],
    answer: Turn,
    due: Place,
    hops: u8,
    generations: &[u32; 2],
    now: u64,
    step: u32,
) -> Passed
    requires sound { IsSound topo.now ledger.old.history step }
    requires known { IsTrue (has topo.now a) }
    requires events { 2 ≤ ledger.old.spare.events }
    requires emissions { 1 ≤ ledger.old.spare.emissions }
    requires bytes { length outgoing.now ≤ ledger.old.spare.bytes }
    requires accepted { IsAcceptedAt topo.now now ledger.old.history a iface bytes.now answer hops generations.now }
    requires outgoing { outgoing.now ≡ spelling (packet_after topo.now a answer (parse bytes.now)) }
    ensures passed { result ≡ as_passed (Router a iface) (left topo.now step ledger.old.history a bytes.now answer due (take hops generations.now)) }
    ensures history { ledger.new.history ≡ (left topo.now step ledger.old.history a bytes.now answer due (take hops generations.now)).history }
    ensures events_spare { ledger.old.spare.events ≤ ledger.new.spare.events + 2 }
    ensures emissions_spare { ledger.old.spare.emissions ≤ ledger.new.spare.emissions + 1 }
    ensures bytes_spare { ledger.old.spare.bytes ≤ ledger.new.spare.bytes + length outgoing.now }
{
    let packet = PacketRef::of(bytes, shape_of(bytes));
    let verdicts = judged(ledger, topo, a, &packet, hops, generations);
    let emission = ledger.emit(due, outgoing);
    record_passes(
        ledger,
        step,
        a,
        packet.current(),
        hops,
        generations,
        emission,
    );
    Passed {
        place: Place::Router { asn: a, iface },
        result: PassResult::Turned(answer),
        emission,
        verdicts,
    }
}

/// Bytes come to the router of the AS `a` by an interface, 0 from inside the AS, at the moment `now` in microseconds, in a step.
/// `outgoing` has the same bytes, and afterwards those that leave; `generation` is the present one of the AS's forwarding key.
///
/// Before, room was made: in the AS's router for one packet, in the ledger for two events, an emission and its bytes. The ledger
/// is sound, and the routers stand for it. Where the ledger `is_full`, the router isn't asked. What became of the packet, the
/// verdicts on its hops and the ledger after it are the model's (`turned_at`), and the routers stand for that ledger. It takes no
/// memory.
#[tactic(auto, unfolding(epic_model::specs::Passing::turned_at, epic_model::specs::Passing::turned_by))]
pub fn turn_at(
    topo: &Topology,
    ledger: &mut Ledger,
    routers: &mut Routers,
    a: AsId,
    iface: u16,
    bytes: &[u8],
    outgoing: &mut [u8],
    generation: u32,
    now: u64,
    step: u32,
) -> Passed
    requires sound { IsSound topo.now ledger.old.history step }
    requires known { IsTrue (has topo.now a) }
    requires stand { RoutersStandFor topo.now now routers.old ledger.old.history }
    requires generation { generation ≡ rolls ledger.old.history.events a }
    requires copy { outgoing.old ≡ bytes.now }
    requires room { HasRoom 1 (router_of routers.old a) }
    requires events { 2 ≤ ledger.old.spare.events }
    requires emissions { 1 ≤ ledger.old.spare.emissions }
    requires bytes { length bytes.now ≤ ledger.old.spare.bytes }
    ensures passed { result ≡ as_passed (Router a iface) (turned_at topo.now step now ledger.old.history a iface bytes.now) }
    ensures history { ledger.new.history ≡ (turned_at topo.now step now ledger.old.history a iface bytes.now).history }
    ensures stand { RoutersStandFor topo.now now routers.new ledger.new.history }

    // It uses up no more room than was made for it.
    ensures rooms { (b : AsId) (m : ℕ) → HasRoom (m + 1) (router_of routers.old b) → HasRoom m (router_of routers.new b) }
    ensures events_spare { ledger.old.spare.events ≤ ledger.new.spare.events + 2 }
    ensures emissions_spare { ledger.old.spare.emissions ≤ ledger.new.spare.emissions + 1 }
    ensures bytes_spare { ledger.old.spare.bytes ≤ ledger.new.spare.bytes + length bytes.now }
{
    if is_full(ledger, bytes) {
        return not_passed(ledger, a, iface, PassResult::Full);
    }
    let answer = routers.turn(topo, ledger, a, iface, outgoing, generation, now, step);
    match answer {
        Turn::Forward {
            out,
            hops,
            generations,
        } => sent_on(
            topo,
            ledger,
            a,
            iface,
            bytes,
            outgoing,
            answer,
            due_behind(topo, a, out),
            hops,
            &generations,
            now,
            step,
        ),
        Turn::Deliver {
            host,
            hops,
            generations,
        } => sent_on(
            topo,
            ledger,
            a,
            iface,
            bytes,
            outgoing,
            answer,
            Place::Host(HostId { asn: a, host }),
            hops,
            &generations,
            now,
            step,
        ),
        Turn::Refused { .. } => not_passed(ledger, a, iface, PassResult::Turned(answer)),
    }
}
