//! What holds as a world goes on.
ghost use Rattle.epic_num.specs.Messages.{IsHost};
ghost use Rattle.epic_layout.specs.Contents.{IsBytes};
ghost use Rattle.epic_topo.specs.Lawful.{IsTopology};
ghost use Rattle.epic_model.specs.World.{WorldsGoOn};
ghost use Rattle.epic_actors.specs.Lasting.{StandByOthers, StandBySends};
ghost use Rattle.epic_actors.specs.Sources.{KeysStandByFetches, KeysStandBySends, SendersStandByOthers};
ghost use Rattle.epic_world.specs.Sound.{RunsHold};

use epic_actors::{actors_stand, senders_stand};
use epic_audit::{ledgers, whole_chains};
use epic_model::{honest_carries_arrive, honest_sends_arrive, verdicts_are_right, worlds_go_on};
use epic_num::HostId;
use epic_topo::Topology;

/// What is read of a topology is one.
pub(crate) fn is_topology(topo: &Topology)
    ensures { IsTopology topo.now }
{
    let _profile = topo.profile();
}

/// A world over a topology goes on by steps, and its actors go on to stand for the ledger as one thing more is recorded.
pub(crate) fn goes_on(topo: &Topology)
    ensures topology { IsTopology topo.now }
    ensures steps { WorldsGoOn }
    ensures actors { StandByOthers }
    ensures senders { SendersStandByOthers }
    ensures fetches { KeysStandByFetches }
{
    is_topology(topo);
    worlds_go_on();
    actors_stand();
    senders_stand();
}

/// So as a packet is sent from a host to another, whose parts fit their types.
pub(crate) fn sends_go_on(topo: &Topology, _src: HostId, _dst: HostId, _payload: &[u8])
    ensures topology { IsTopology topo.now }
    ensures steps { WorldsGoOn }
    ensures actors { StandBySends }
    ensures keys { KeysStandBySends }
    ensures source { IsHost _src }
    ensures destination { IsHost _dst }
    ensures payload { IsBytes _payload.now }
{
    is_topology(topo);
    worlds_go_on();
    actors_stand();
    senders_stand();
}

/// A law: each step of a run goes on from a state that holds, its verdicts are right, and honest packets are carried; and the state
/// at the end of the run holds.
pub fn runs_hold()
    ensures { RunsHold }
{
    worlds_go_on();
    verdicts_are_right();
    honest_carries_arrive();
    honest_sends_arrive();
    whole_chains();
    ledgers();
}
