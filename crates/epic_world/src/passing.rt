//! Packets that come to routers and hosts.
ghost use Rattle.std.specs.Prelude.{◌≡◌, ◌-◌, ◌^◌, ◌<◌, option_map, IfOk, Some, IsTrue};
ghost use Rattle.epic_num.specs.declared.passed.Place.TheVariants.{Host as HostPlace, Router as RouterPlace};
ghost use Rattle.epic_topo.specs.Network.{has};
ghost use Rattle.epic_ledger.specs.History.{Emission, emission_at};
ghost use Rattle.epic_model.specs.Keeping.{IsDue};

use crate::World;
use crate::commands::are_bytes;
use crate::laws::is_topology;
use crate::places::{arrive_here, copied, turn_here};
use epic_ledger::Ledger;
use epic_num::{Answer, AsId, HostId, OutOfMemory, Place, Refusal};
use std::alloc::{AllocError, Global};

/// The place and the bytes of the emission of a number, if there is one.
pub(crate) fn emission(
    alloc: Global,
    ledger: &Ledger,
    number: u32,
) -> Result<Option<(Place, Vec<u8>)>, AllocError>
    ensures { IfOk result (λ o. option_map {U = Emission} (λ e. record { place = e.0; bytes = e.1.items }) o ≡ emission_at ledger.now.history.emissions number) }
{
    match ledger.emission(number) {
        Some((place, bytes)) => Ok(Some((place, copied(alloc, bytes)?))),
        None => Ok(None),
    }
}

impl World {
    ghost use Rattle.epic_model.specs.Steps.{next_arrive, next_pass, next_turn, passing};
    ghost use Rattle.epic_world.specs.Stepped.{Steps};

    // Bytes come to the router of an AS that is there.
    #[tactic(auto, unfolding(epic_model::specs::Steps::passing, epic_model::specs::Passing::pass_at, epic_model::specs::Traces::shown))]
    fn at_router(
        &mut self,
        alloc: Global,
        a: AsId,
        iface: u16,
        bytes: &[u8],
    ) -> Result<Answer, OutOfMemory>
        requires few { self.old.state.steps < 2 ^ 30 - 1 }
        requires known { IsTrue (has self.old.network a) }
        ensures step { Steps (passing self.old.network self.old.state (RouterPlace a iface) bytes.now) result self.old.state self.new.state }
        ensures network { self.new.network ≡ self.old.network }
    {
        is_topology(&self.topo);
        are_bytes(bytes);
        let generation = self.beacons.generation(a);
        let step = self.steps + 1;
        let passed = turn_here(
            alloc,
            &self.topo,
            &mut self.ledger,
            &mut self.routers,
            a,
            iface,
            bytes,
            generation,
            self.moment,
            step,
        )?;
        self.steps = step;
        Ok(Answer::Passed(passed))
    }

    // Bytes come to a host of an AS that is there.
    #[tactic(auto, unfolding(epic_model::specs::Steps::passing, epic_model::specs::Passing::pass_at, epic_model::specs::Traces::shown))]
    fn at_host(&mut self, alloc: Global, host: HostId, bytes: &[u8]) -> Result<Answer, OutOfMemory>
        requires few { self.old.state.steps < 2 ^ 30 - 1 }
        requires known { IsTrue (has self.old.network host.asn) }
        ensures step { Steps (passing self.old.network self.old.state (HostPlace host) bytes.now) result self.old.state self.new.state }
        ensures network { self.new.network ≡ self.old.network }
    {
        is_topology(&self.topo);
        are_bytes(bytes);
        let step = self.steps + 1;
        let passed = arrive_here(
            alloc,
            &self.topo,
            &mut self.ledger,
            &mut self.hosts,
            host,
            bytes,
            self.moment,
            step,
        )?;
        self.steps = step;
        Ok(Answer::Passed(passed))
    }

    // Bytes come to a place of the topology.
    fn at_place(&mut self, alloc: Global, place: Place, bytes: &[u8]) -> Result<Answer, OutOfMemory>
        requires few { self.old.state.steps < 2 ^ 30 - 1 }
        requires due { IsDue self.old.network place }
        ensures step { Steps (passing self.old.network self.old.state place bytes.now) result self.old.state self.new.state }
        ensures network { self.new.network ≡ self.old.network }
    {
        match place {
            Place::Router { asn, iface } => self.at_router(alloc, asn, iface, bytes),
            Place::Host(host) => self.at_host(alloc, host, bytes),
        }
    }

    // The router of the AS `a` gets bytes by an interface; 0 is from inside the AS.
    #[tactic(auto, unfolding(epic_model::specs::Steps::next_turn))]
    pub(crate) fn turn(
        &mut self,
        alloc: Global,
        a: AsId,
        iface: u16,
        bytes: &[u8],
    ) -> Result<Answer, OutOfMemory>
        requires { self.old.state.steps < 2 ^ 30 - 1 }
        ensures step { Steps (next_turn self.old.network self.old.state a iface bytes.now) result self.old.state self.new.state }
        ensures network { self.new.network ≡ self.old.network }
    {
        if !self.topo.has(a) {
            return Ok(self.refused(Refusal::UnknownAs(a)));
        }
        self.at_router(alloc, a, iface, bytes)
    }

    // A host gets bytes.
    #[tactic(auto, unfolding(epic_model::specs::Steps::next_arrive))]
    pub(crate) fn arrive(
        &mut self,
        alloc: Global,
        host: HostId,
        bytes: &[u8],
    ) -> Result<Answer, OutOfMemory>
        requires { self.old.state.steps < 2 ^ 30 - 1 }
        ensures step { Steps (next_arrive self.old.network self.old.state host bytes.now) result self.old.state self.new.state }
        ensures network { self.new.network ≡ self.old.network }
    {
        if !self.topo.has(host.asn) {
            return Ok(self.refused(Refusal::UnknownAs(host.asn)));
        }
        self.at_host(alloc, host, bytes)
    }

    // An emission comes to the place where it is due.
    #[tactic(auto, unfolding(epic_model::specs::Steps::next_pass))]
    pub(crate) fn pass(&mut self, alloc: Global, number: u32) -> Result<Answer, OutOfMemory>
        requires { self.old.state.steps < 2 ^ 30 - 1 }
        ensures step { Steps (next_pass self.old.network self.old.state number) result self.old.state self.new.state }
        ensures network { self.new.network ≡ self.old.network }
    {
        match emission(alloc, &self.ledger, number) {
            Ok(Some((place, bytes))) => self.at_place(alloc, place, bytes.as_slice()),
            Ok(None) => Ok(self.refused(Refusal::UnknownEmission(number))),
            Err(_) => Err(OutOfMemory),
        }
    }
}
