//! A packet's bytes at a place: memory first, then what becomes of them.
ghost use Rattle.std.specs.Prelude.{◌≡◌, ◌+◌, ◌^◌, ◌<◌, ◌≤◌, length, IfOk, IsTrue};
ghost use Rattle.epic_num.specs.declared.passed.PassResult.TheVariants.{Full};
ghost use Rattle.epic_num.specs.declared.passed.Place.TheVariants.{Host, Router};
ghost use Rattle.epic_topo.specs.Network.{has};
ghost use Rattle.epic_model.specs.Passing.{arrived_at, nothing, rolls, turned_at};
ghost use Rattle.epic_ledger.specs.History.{emitted};
ghost use Rattle.epic_model.specs.Sound.{IsSound};
ghost use Rattle.epic_actors.specs.Hosts.{HostsStandFor};
ghost use Rattle.epic_actors.specs.Routers.{RoutersStandFor};
ghost use Rattle.epic_actors.specs.Telling.{as_passed};
ghost use Rattle.epic_world.specs.Passing.{Ends};

use arrayvec::ArrayVec;
use epic_actors::{Hosts, Routers, arrive_at, is_full, turn_at};
use epic_ledger::Ledger;
use epic_num::{AsId, HostId, OutOfMemory, PassResult, Passed, Place};
use epic_topo::Topology;
use std::alloc::{AllocError, Global};

/// The bytes once more.
pub(crate) fn copied(alloc: Global, bytes: &[u8]) -> Result<Vec<u8>, AllocError>
    ensures { IfOk result (λ v. v.items ≡ bytes.now) }
{
    bytes.to_vec(alloc)
}

/// A packet for which the ledger has no room.
fn not_asked(ledger: &Ledger, a: AsId, iface: u16) -> Passed
    ensures { result ≡ as_passed (Router a iface) (nothing ledger.now.history Full) }
{
    Passed {
        place: Place::Router { asn: a, iface },
        result: PassResult::Full,
        emission: 0,
        verdicts: ArrayVec::new(),
    }
}

/// Bytes come to the router of the AS `a` by an interface, 0 from inside the AS, at the moment `now` in microseconds, in a step.
/// `generation` is the present one of the AS's forwarding key. Out of memory, nothing happened.
#[tactic(auto, unfolding(epic_model::specs::Passing::turned_at))]
pub(crate) fn turn_here(
    alloc: Global,
    topo: &Topology,
    ledger: &mut Ledger,
    routers: &mut Routers,
    a: AsId,
    iface: u16,
    bytes: &[u8],
    generation: u32,
    now: u64,
    step: u32,
) -> Result<Passed, OutOfMemory>
    requires sound { IsSound topo.now ledger.old.history step }
    requires known { IsTrue (has topo.now a) }
    requires stand { RoutersStandFor topo.now now routers.old ledger.old.history }
    requires generation { generation ≡ rolls ledger.old.history.events a }
    requires few_events { length ledger.old.history.events + 2 < 2 ^ 31 }
    requires few_emissions { length ledger.old.history.emissions + 1 < 2 ^ 31 }
    ensures ends { Ends (Router a iface) (turned_at topo.now step now ledger.old.history a iface bytes.now) result ledger.old.history ledger.new.history }
    ensures stand { RoutersStandFor topo.now now routers.new ledger.new.history }
{
    if is_full(ledger, bytes) {
        return Ok(not_asked(ledger, a, iface));
    }
    routers.ready(alloc, topo, a, 1)?;
    ledger.reserve(2, 1, bytes.len() as u64)?;
    let Ok(mut outgoing) = copied(alloc, bytes) else {
        return Err(OutOfMemory);
    };
    Ok(turn_at(
        topo,
        ledger,
        routers,
        a,
        iface,
        bytes,
        outgoing.as_mut_slice(),
        generation,
        now,
        step,
    ))
}

/// Bytes come to a host at the moment `now` in microseconds, in a step. Out of memory, nothing happened.
pub(crate) fn arrive_here(
    alloc: Global,
    topo: &Topology,
    ledger: &mut Ledger,
    hosts: &mut Hosts,
    host: HostId,
    bytes: &[u8],
    now: u64,
    step: u32,
) -> Result<Passed, OutOfMemory>
    requires sound { IsSound topo.now ledger.old.history step }
    requires known { IsTrue (has topo.now host.asn) }
    requires stand { HostsStandFor topo.now now hosts.old ledger.old.history }
    requires few_events { length ledger.old.history.events + 1 < 2 ^ 31 }
    requires few_emissions { length ledger.old.history.emissions < 2 ^ 31 }
    requires few_bytes { emitted ledger.old.history.emissions < 2 ^ 30 }
    ensures ends { Ends (Host host) (arrived_at topo.now step now ledger.old.history host bytes.now) result ledger.old.history ledger.new.history }
    ensures stand { HostsStandFor topo.now now hosts.new ledger.new.history }
{
    hosts.ready(alloc, topo, host, 1)?;
    ledger.reserve(1, 0, 0)?;
    Ok(arrive_at(topo, ledger, hosts, host, bytes, now, step))
}
