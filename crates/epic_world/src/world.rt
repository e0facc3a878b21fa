//! The world as its callers see it, and its step.
ghost use Rattle.std.specs.Prelude.{◌≡◌, ◌-◌, ◌^◌, ◌<◌, ◌≤◌, IsTrue};

use crate::commands::fits;
use crate::laws::is_topology;
use epic_actors::{Hosts, Routers, Sources, actors_stand, senders_stand};
use epic_beacon::Beacons;
use epic_keys::KeyStore;
use epic_ledger::Ledger;
use epic_model::{verdicts_are_right, worlds_go_on};
use epic_num::{Answer, Command, MAX_MOMENT, OutOfMemory};
use epic_topo::Topology;
use std::alloc::Global;
use std::marker::Model;

/// The actors of a topology, and the ledger of what they did.
#[derive(Drop)]
pub struct World {
    pub(crate) topo: Topology,
    pub(crate) beacons: Beacons,
    pub(crate) keys: KeyStore,
    pub(crate) ledger: Ledger,
    pub(crate) routers: Routers,
    pub(crate) hosts: Hosts,
    pub(crate) sources: Sources,
    // The present moment, in microseconds.
    pub(crate) moment: u64,
    pub(crate) steps: u32,
}

impl Model for World {
    ghost use Rattle.epic_beacon.specs.Store.{store_of};
    ghost use Rattle.epic_world.specs.Refining.{Refines};
    ghost use Rattle.epic_world.specs.Standing.{Standing};

    ghost Value = { Standing };

    ghost view = { λ w. record { network = w.topo; state = record { moment = w.moment; steps = w.steps; history = w.ledger.history } } };

    ghost invariant = { λ w. Refines w.topo (store_of w.beacons) w.keys w.routers w.hosts w.sources w.moment w.steps w.ledger.history };
}

impl World {
    ghost use Rattle.epic_model.specs.Judged.{VerdictsHold};
    ghost use Rattle.epic_model.specs.State.{start};
    ghost use Rattle.epic_model.specs.Steps.{next};
    ghost use Rattle.epic_model.specs.World.{IsWorld};
    ghost use Rattle.epic_world.specs.Stepped.{IsPossible, Steps};

    /// A world in which nothing has happened. It takes no memory.
    pub fn new(alloc: Global, topo: Topology) -> World
        ensures network { result.network ≡ topo }
        ensures state { result.state ≡ start }
    {
        worlds_go_on();
        actors_stand();
        senders_stand();
        World {
            topo,
            beacons: Beacons::new(alloc),
            keys: KeyStore::new(alloc),
            ledger: Ledger::new(alloc),
            routers: Routers::new(alloc),
            hosts: Hosts::new(alloc),
            sources: Sources::new(alloc),
            moment: 0,
            steps: 0,
        }
    }

    /// How many steps there were.
    pub fn steps(&self) -> u32
        ensures { result ≡ self.now.state.steps }
    {
        self.steps
    }

    /// The present moment, in microseconds.
    pub fn now(&self) -> u64
        ensures value { result ≡ self.now.state.moment }
        ensures fits { result ≤ MAX_MOMENT }
    {
        self.moment
    }

    /// The topology, which never changes.
    pub fn topology(&self) -> &Topology
        ensures { result.now ≡ self.now.network }
    {
        &self.topo
    }

    /// What happened.
    pub fn ledger(&self) -> &Ledger
        ensures history { result.now.history ≡ self.now.state.history }
        ensures world { IsWorld self.now.network self.now.state }
    {
        &self.ledger
    }

    /// One step, of a command whose moment is at most `MAX_MOMENT` and whose level and version exist (`is_possible`), in a world of
    /// fewer than 2^30 - 1 steps. The answer and the state after it are those of the model's step (`next`), which tells a refusal as
    /// an answer, and each verdict in it is right over the ledger before its passage.
    ///
    /// # Errors
    /// `OutOfMemory` alone; it is no step, and nothing has changed.
    #[tactic(auto, unfolding(epic_model::specs::Steps::next, crate::specs::Stepped::IsPossible))]
    pub fn step(&mut self, alloc: Global, command: &Command) -> Result<Answer, OutOfMemory>
        requires possible { IsPossible command.now }
        requires few { self.old.state.steps < 2 ^ 30 - 1 }
        ensures step { Steps (next self.old.network self.old.state command.now) result self.old.state self.new.state }
        ensures verdicts { let n = next self.old.network self.old.state command.now in VerdictsHold self.old.network n.answer n.passages }
        ensures network { self.new.network ≡ self.old.network }
    {
        self.judges(command);
        match command {
            Command::At { moment } => Ok(self.at(*moment)),
            Command::Originate { a, out, exp } => self.originate(*a, *out, *exp),
            Command::Extend { parent, out, exp } => self.extend(*parent, *out, *exp),
            Command::Fetch {
                source,
                owner,
                epoch,
            } => self.fetch(*source, *owner, *epoch),
            Command::Paths { from, to } => self.paths(alloc, *from, *to),
            Command::Send {
                version,
                level,
                src,
                dst,
                segments,
                payload,
            } => self.send(
                alloc,
                *version,
                *level,
                *src,
                *dst,
                segments,
                payload.as_slice(),
            ),
            Command::Turn { a, iface, bytes } => self.turn(alloc, *a, *iface, bytes.as_slice()),
            Command::Arrive { host, bytes } => self.arrive(alloc, *host, bytes.as_slice()),
            Command::Pass { emission } => self.pass(alloc, *emission),
            Command::Carry { emission } => self.carry_known(alloc, *emission),
            Command::Reveal { holder } => self.reveal(*holder),
            Command::Roll { a } => self.roll(*a),
        }
    }

    // Whatever a step answers, its verdicts are right.
    pub(crate) fn judges(&self, command: &Command)
        requires { IsPossible command.now }
        ensures { let n = next self.now.network self.now.state command.now in VerdictsHold self.now.network n.answer n.passages }
    {
        verdicts_are_right();
        is_topology(&self.topo);
        fits(command);
    }
}
