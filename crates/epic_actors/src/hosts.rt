//! The hosts that packets come to.
ghost use Rattle.std.specs.Prelude.{◌≡◌, ℕ, ◌+◌, None, IsOk, IsTrue, OnOk};
ghost use Rattle.epic_topo.specs.Network.{has};
ghost use Rattle.epic_ledger.specs.History.{History};
ghost use Rattle.epic_model.specs.Passing.{arrival_at, arrived_at};
ghost use Rattle.epic_actors.specs.Hosts.{HasHostRoom, HostsStandFor, host_of};
ghost use Rattle.epic_actors.specs.Telling.{IsRightArrivalAt};

use crate::routers::window_seed;
use epic_ends::Dest;
use epic_ledger::Ledger;
use epic_num::{Arrival, HostId, OutOfMemory};
use epic_topo::Topology;
use std::alloc::Global;
use std::collections::BTreeMap;
use std::marker::Model;

/// The hosts that packets came to so far.
#[derive(Drop)]
pub struct Hosts {
    pub(crate) by_name: BTreeMap<(u64, u32), Dest>,
}

impl Model for Hosts {
    ghost use Rattle.epic_actors.specs.Hosts.{HostTable};

    ghost Value = { HostTable };

    ghost view = { λ h. record { entries = h.by_name.entries } };
}

impl Hosts {
    /// No host was made yet. It takes no memory.
    #[tactic(auto, unfolding(crate::specs::Hosts::host_of))]
    pub fn new(alloc: Global) -> Hosts
        ensures { (d : HostId) → host_of result d ≡ None }
    {
        Hosts {
            by_name: BTreeMap::new(alloc),
        }
    }

    /// Makes the host, where it isn't there, and room in it for so many more packets. Out of memory, nothing that is remembered
    /// has changed.
    pub fn ready(
        &mut self,
        alloc: Global,
        topo: &Topology,
        host: HostId,
        n: u32,
    ) -> Result<(), OutOfMemory>
        requires { IsTrue (has topo.now host.asn) }
        ensures room { OnOk result (HasHostRoom n (host_of self.new host)) }

        // It fails only where there wasn't room already.
        ensures succeeds { HasHostRoom n (host_of self.old host) → IsOk result }

        // Whatever the result, no room is lost, and the hosts stand for what they stood for.
        ensures kept { (d : HostId) (m : ℕ) → HasHostRoom m (host_of self.old d) → HasHostRoom m (host_of self.new d) }
        ensures stand { (now : ℕ) (h : History) → HostsStandFor topo.now now self.old h → HostsStandFor topo.now now self.new h }
    {
        match self.by_name.get_mut(&(host.asn.0, host.host)) {
            Some(there) => there.reserve(n),
            None => {
                let seed = window_seed(topo, host.asn);
                let mut made = Dest::new(alloc, &topo.profile(), host, &seed);
                made.reserve(n)?;
                match self.by_name.insert((host.asn.0, host.host), made) {
                    Ok(_) => Ok(()),
                    Err(_) => Err(OutOfMemory),
                }
            }
        }
    }

    /// Bytes come to the host at the moment `now`, in a step, over the ledger so far: there is room in the host for one packet. It
    /// takes no memory.
    pub(crate) fn arrive(
        &mut self,
        topo: &Topology,
        ledger: &Ledger,
        host: HostId,
        bytes: &[u8],
        now: u64,
        step: u32,
    ) -> Arrival
        requires known { IsTrue (has topo.now host.asn) }
        requires room { HasHostRoom 1 (host_of self.old host) }
        requires stand { HostsStandFor topo.now now self.old ledger.now.history }
        ensures answer { result ≡ arrival_at topo.now now ledger.now.history host bytes.now }
        ensures right { IsRightArrivalAt topo.now now ledger.now.history host bytes.now result }
        ensures stand { HostsStandFor topo.now now self.new (arrived_at topo.now step now ledger.now.history host bytes.now).history }
        ensures rooms { (d : HostId) (m : ℕ) → HasHostRoom (m + 1) (host_of self.old d) → HasHostRoom m (host_of self.new d) }
    {
        match self.by_name.get_mut(&(host.asn.0, host.host)) {
            Some(there) => there.arrive(topo, bytes, now, step),
            None => unreachable!(),
        }
    }
}
