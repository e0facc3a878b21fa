//! What becomes of a packet's bytes at a host, and what the ledger records of it.
ghost use Rattle.std.specs.Prelude.{◌≡◌, ℕ, ◌+◌, ◌≤◌, None, IsTrue};
ghost use Rattle.epic_num.specs.Levels.{is_first_byte, is_tagged};
ghost use Rattle.epic_num.specs.declared.passed.PassResult.TheVariants.{Arrived};
ghost use Rattle.epic_num.specs.declared.passed.Place.TheVariants.{Host};
ghost use Rattle.epic_layout.specs.Layout.{fault, parse};
ghost use Rattle.epic_layout.specs.Updates.{own_updates};
ghost use Rattle.epic_topo.specs.Network.{has};
ghost use Rattle.epic_fields.specs.PacketTags.{dest_field_of};
ghost use Rattle.epic_model.specs.Passing.{arrived_at, arrives, nothing};
ghost use Rattle.epic_model.specs.Sound.{IsSound};
ghost use Rattle.epic_actors.specs.Hosts.{HasHostRoom, HostsStandFor, host_of};
ghost use Rattle.epic_actors.specs.Telling.{as_passed};

use crate::Hosts;
use arrayvec::ArrayVec;
use epic_audit::verdict_dest;
use epic_layout::shape_of;
use epic_ledger::{Event, Ledger};
use epic_num::{Arrival, HostId, PassResult, Passed, Place};
use epic_topo::Topology;
use epic_view::PacketRef;

/// A packet that the host refused.
fn not_taken(ledger: &Ledger, host: HostId, answer: Arrival) -> Passed
    ensures { result ≡ as_passed (Host host) (nothing ledger.now.history (Arrived answer)) }
{
    Passed {
        place: Place::Host(host),
        result: PassResult::Arrived(answer),
        emission: 0,
        verdicts: ArrayVec::new(),
    }
}

/// A packet that the host took, `checked` where its content was checked. The arrival is recorded.
#[tactic(auto, unfolding(epic_model::specs::Passing::arrives, epic_ledger::specs::History::step_of))]
fn taken(
    topo: &Topology,
    ledger: &mut Ledger,
    host: HostId,
    bytes: &[u8],
    answer: Arrival,
    checked: bool,
    step: u32,
) -> Passed
    requires sound { IsSound topo.now ledger.old.history step }
    requires known { IsTrue (has topo.now host.asn) }
    requires events { 1 ≤ ledger.old.spare.events }
    requires faultless { fault is_first_byte bytes.now ≡ None }
    requires here { (parse bytes.now).dst ≡ host }
    requires field { IsTrue (is_tagged (parse bytes.now).first) → (parse bytes.now).dest_field ≡ dest_field_of topo.now (parse bytes.now) (own_updates (parse bytes.now)) }
    ensures passed { result ≡ as_passed (Host host) (arrives topo.now step ledger.old.history host (parse bytes.now) answer checked) }
    ensures history { ledger.new.history ≡ (arrives topo.now step ledger.old.history host (parse bytes.now) answer checked).history }
    ensures events_spare { ledger.old.spare.events ≤ ledger.new.spare.events + 1 }
    ensures emissions_spare { ledger.new.spare.emissions ≡ ledger.old.spare.emissions }
    ensures bytes_spare { ledger.new.spare.bytes ≡ ledger.old.spare.bytes }
{
    let packet = PacketRef::of(bytes, shape_of(bytes));
    let mut verdicts = ArrayVec::new();
    verdicts.push(verdict_dest(ledger, topo, &packet));
    ledger.push(Event::Arrive {
        step,
        host,
        src: packet.src(),
        ts: packet.ts(),
        hops: packet.shape().hops,
        checked,
    });
    Passed {
        place: Place::Host(host),
        result: PassResult::Arrived(answer),
        emission: 0,
        verdicts,
    }
}

/// Bytes come to a host at the moment `now` in microseconds, in a step.
///
/// Before, room was made: in the host for one packet, in the ledger for one event. The ledger is sound, and the hosts stand for
/// it. What became of the packet, the verdict on it and the ledger after it are the model's (`arrived_at`), and the hosts stand for
/// that ledger. It takes no memory.
#[tactic(auto, unfolding(epic_model::specs::Passing::arrived_at, epic_model::specs::Passing::arrived_by))]
pub fn arrive_at(
    topo: &Topology,
    ledger: &mut Ledger,
    hosts: &mut Hosts,
    host: HostId,
    bytes: &[u8],
    now: u64,
    step: u32,
) -> Passed
    requires sound { IsSound topo.now ledger.old.history step }
    requires known { IsTrue (has topo.now host.asn) }
    requires stand { HostsStandFor topo.now now hosts.old ledger.old.history }
    requires room { HasHostRoom 1 (host_of hosts.old host) }
    requires events { 1 ≤ ledger.old.spare.events }
    ensures passed { result ≡ as_passed (Host host) (arrived_at topo.now step now ledger.old.history host bytes.now) }
    ensures history { ledger.new.history ≡ (arrived_at topo.now step now ledger.old.history host bytes.now).history }
    ensures stand { HostsStandFor topo.now now hosts.new ledger.new.history }

    // It uses up no more room than was made for it.
    ensures rooms { (d : HostId) (m : ℕ) → HasHostRoom (m + 1) (host_of hosts.old d) → HasHostRoom m (host_of hosts.new d) }
    ensures events_spare { ledger.old.spare.events ≤ ledger.new.spare.events + 1 }
    ensures emissions_spare { ledger.new.spare.emissions ≡ ledger.old.spare.emissions }
    ensures bytes_spare { ledger.new.spare.bytes ≡ ledger.old.spare.bytes }
{
    match hosts.arrive(topo, ledger, host, bytes, now, step) {
        Arrival::Accepted => taken(topo, ledger, host, bytes, Arrival::Accepted, true, step),
        Arrival::Unchecked => taken(topo, ledger, host, bytes, Arrival::Unchecked, false, step),
        Arrival::Refused(check) => not_taken(ledger, host, Arrival::Refused(check)),
    }
}
