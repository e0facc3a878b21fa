//! The routers of all ASes.
ghost use Rattle.std.specs.Prelude.{◌≡◌, ℕ, ◌+◌, nat_lt, false, None, length, IsOk, IsTrue, OnOk};
ghost use Rattle.epic_layout.specs.Contents.{IsBytes};
ghost use Rattle.epic_topo.specs.Network.{has};
ghost use Rattle.epic_router.specs.Routers.{bytes_after};
ghost use Rattle.epic_ledger.specs.History.{History, emitted};
ghost use Rattle.epic_ledger.specs.Lawful.{IsLawful};
ghost use Rattle.epic_model.specs.Passing.{answer_at, most_emitted, rolls, turned_at};
ghost use Rattle.epic_actors.specs.Routers.{HasRoom, RoutersStandFor, router_of};
ghost use Rattle.epic_actors.specs.Telling.{IsRightAt};

use epic_cmac::cmac;
use epic_keys::{forwarding_key, master_key};
use epic_ledger::Ledger;
use epic_num::{AsId, OutOfMemory, Turn};
use epic_router::Router;
use epic_topo::Topology;
use std::alloc::Global;
use std::collections::BTreeMap;
use std::marker::Model;

/// The routers that were asked so far, one an AS.
#[derive(Drop)]
pub struct Routers {
    pub(crate) by_as: BTreeMap<u64, Router>,
}

impl Model for Routers {
    ghost use Rattle.epic_actors.specs.Routers.{RouterTable};

    ghost Value = { RouterTable };

    ghost view = { λ r. record { entries = r.by_as.entries } };
}

/// The secret with which a window of the AS hashes: a tag under its first forwarding key. No other message begins with this
/// byte.
pub(crate) fn window_seed(topo: &Topology, a: AsId) -> [u8; 16]
    requires { IsTrue (has topo.now a) }
{
    cmac(&forwarding_key(&master_key(topo, a), 0), &[0xff])
}

/// What a slice of bytes holds are bytes.
fn are_bytes(_bytes: &[u8])
    ensures { IsBytes _bytes.now }
{}

impl Routers {
    /// No AS has a router yet. It takes no memory.
    #[tactic(auto, unfolding(crate::specs::Routers::router_of))]
    pub fn new(alloc: Global) -> Routers
        ensures { (a : AsId) → router_of result a ≡ None }
    {
        Routers {
            by_as: BTreeMap::new(alloc),
        }
    }

    /// Makes the router of the AS `a`, where it has none, and room in it for so many more packets. Out of memory, nothing that is
    /// remembered has changed.
    pub fn ready(
        &mut self,
        alloc: Global,
        topo: &Topology,
        a: AsId,
        n: u32,
    ) -> Result<(), OutOfMemory>
        requires { IsTrue (has topo.now a) }
        ensures room { OnOk result (HasRoom n (router_of self.new a)) }

        // It fails only where there wasn't room already.
        ensures succeeds { HasRoom n (router_of self.old a) → IsOk result }

        // Whatever the result, no room is lost, and the routers stand for what they stood for.
        ensures kept { (b : AsId) (m : ℕ) → HasRoom m (router_of self.old b) → HasRoom m (router_of self.new b) }
        ensures stand { (now : ℕ) (h : History) → RoutersStandFor topo.now now self.old h → RoutersStandFor topo.now now self.new h }
    {
        match self.by_as.get_mut(&a.0) {
            Some(router) => router.reserve(n),
            None => {
                let mut router = Router::new(alloc, &topo.profile(), a, &window_seed(topo, a));
                router.reserve(n)?;
                match self.by_as.insert(a.0, router) {
                    Ok(_) => Ok(()),
                    Err(_) => Err(OutOfMemory),
                }
            }
        }
    }

    /// The router of the AS `a` gets bytes on its interface `iface` at the moment `now`, in a step, over the ledger so far: there
    /// is room in the router for one packet, and for what it may emit. It takes no memory.
    pub(crate) fn turn(
        &mut self,
        topo: &Topology,
        ledger: &Ledger,
        a: AsId,
        iface: u16,
        bytes: &mut [u8],
        generation: u32,
        now: u64,
        step: u32,
    ) -> Turn
        requires known { IsTrue (has topo.now a) }
        requires room { HasRoom 1 (router_of self.old a) }
        requires lawful { IsLawful ledger.now.history }
        requires generation { generation ≡ rolls ledger.now.history.events a }
        requires emits { nat_lt most_emitted (emitted ledger.now.history.emissions + length bytes.old) ≡ false }
        requires stand { RoutersStandFor topo.now now self.old ledger.now.history }
        ensures answer { result ≡ answer_at topo.now now ledger.now.history a iface bytes.old }
        ensures bytes { bytes.new ≡ bytes_after topo.now a result bytes.old }
        ensures right { IsRightAt topo.now now ledger.now.history a iface bytes.old result }
        ensures stand { RoutersStandFor topo.now now self.new (turned_at topo.now step now ledger.now.history a iface bytes.old).history }
        ensures rooms { (b : AsId) (m : ℕ) → HasRoom (m + 1) (router_of self.old b) → HasRoom m (router_of self.new b) }
    {
        are_bytes(bytes);
        match self.by_as.get_mut(&a.0) {
            Some(router) => router.turn(topo, bytes, iface, generation, now, step),
            None => unreachable!(),
        }
    }
}
