//! Carries as calls of a world of two ASes.
ghost use Rattle.std.specs.Prelude.{◌≡◌};

use super::*;
use arrayvec::ArrayVec;
use epic_num::{
    Arrival, AsId, Bytes, Command, HostId, Level, PassResult, Passed, PassedList, Turn, Verdict,
};
use epic_topo::read_topology;
use std::alloc::Global;
use std::process::Abort;
use std::test::Fail;

/// A core AS and its child.
const TEXT: &[u8] = b"as = [\n\
      { name = '1-1', core = true, key = '01010101010101010101010101010101' },\n\
      { name = '1-2', key = '02020202020202020202020202020202' },\n\
    ]\n\
    link = [{ kind = 'child', a = '1-1', a_if = 2, b = '1-2', b_if = 1 }]\n";

const CORE: AsId = AsId(0x0001_0000_0000_0001);

const CHILD: AsId = AsId(0x0001_0000_0000_0002);

const NOW: u64 = 1_700_000_000_000_000;

/// A world in which nothing has happened.
fn start(rt: &impl Abort, alloc: Global) -> Result<World, Fail> {
    assert!(rt; TEXT.len() <= 1_048_576);
    Ok(World::new(alloc, read_topology(alloc, TEXT)?))
}

/// One step, in a world of few.
fn step(rt: &impl Abort, alloc: Global, world: &mut World, command: &Command) -> Result<(), Fail>
    ensures { world.new.network ≡ world.old.network }
{
    assert!(rt; world.steps() < 100);
    assert!(rt; is_possible(command));
    world.step(alloc, command)?;
    Ok(())
}

/// The core AS issues the first hop of a segment.
fn originate(rt: &impl Abort, alloc: Global, world: &mut World) -> Result<(), Fail>
    ensures { world.new.network ≡ world.old.network }
{
    step(rt, alloc, world, &Command::At { moment: NOW })?;
    let command = Command::Originate {
        a: CORE,
        out: 2,
        exp: 63,
    };
    step(rt, alloc, world, &command)
}

/// Its child issues the second and last.
fn extend(rt: &impl Abort, alloc: Global, world: &mut World) -> Result<(), Fail>
    ensures { world.new.network ≡ world.old.network }
{
    let command = Command::Extend {
        parent: 1,
        out: 0,
        exp: 63,
    };
    step(rt, alloc, world, &command)
}

/// The child gets the core AS's key for a day.
fn fetch(rt: &impl Abort, alloc: Global, world: &mut World) -> Result<(), Fail>
    ensures { world.new.network ≡ world.old.network }
{
    let command = Command::Fetch {
        source: CHILD,
        owner: CORE,
        epoch: 19_675,
    };
    step(rt, alloc, world, &command)
}

/// A packet of level 3 from the child to the core AS, over the segment.
fn packet(alloc: Global) -> Command {
    let mut segments = ArrayVec::new();
    segments.push(2);
    Command::Send {
        version: 1,
        level: Level::L3,
        src: HostId {
            asn: CHILD,
            host: 1,
        },
        dst: HostId { asn: CORE, host: 2 },
        segments,
        payload: Bytes::from_vec(Vec::new(alloc)),
    }
}

/// The child sends that packet over the segment.
fn send(rt: &impl Abort, alloc: Global, world: &mut World) -> Result<(), Fail>
    ensures { world.new.network ≡ world.old.network }
{
    originate(rt, alloc, world)?;
    extend(rt, alloc, world)?;
    fetch(rt, alloc, world)?;
    step(rt, alloc, world, &packet(alloc))
}

/// The first emission is carried, in a world of few steps.
fn carried(rt: &impl Abort, alloc: Global, world: &mut World) -> Result<PassedList, Fail>
    ensures network { world.new.network ≡ world.old.network }
{
    assert!(rt; world.steps() < 100);
    assert!(rt; world.ledger().emission(1).is_some());
    Ok(world.carry(alloc, 1)?)
}

/// What became of a packet at a place.
fn told(of: &PassResult) -> &'static str {
    match of {
        PassResult::Turned(Turn::Forward { .. }) => "forward",
        PassResult::Turned(Turn::Deliver { .. }) => "deliver",
        PassResult::Turned(Turn::Refused { .. }) => "refused",
        PassResult::Arrived(Arrival::Accepted) => "accepted",
        PassResult::Arrived(_) => "arrived",
        PassResult::Full => "full",
    }
}

/// Whether a packet's result at a place has this word. All verdicts of it say proved, and there is one unless it was refused.
fn is_told(pass: &Passed, word: &str) -> bool {
    let verdicts = pass.verdicts.as_slice();
    told(&pass.result) == word
        && verdicts.is_empty() == (word == "refused")
        && verdicts
            .iter()
            .all(|verdict| matches!(verdict, Verdict::Proved { .. }))
}

/// A carry tells these results and no others.
fn check(rt: &impl Abort, passes: &PassedList, words: &[&str]) {
    let passes = passes.as_slice();
    assert_eq!(rt; passes.len(), words.len());
    for (pass, word) in passes.iter().zip(words) {
        assert!(rt; is_told(pass, word));
    }
}

#[test]
fn carries_a_packet_to_its_destination(rt: HostRuntime) -> Result<(), Fail> {
    let mut world = start(&rt, rt.alloc())?;
    send(&rt, rt.alloc(), &mut world)?;
    let passes = carried(&rt, rt.alloc(), &mut world)?;
    check(&rt, &passes, &["forward", "deliver", "accepted"]);
    assert_eq!(rt; world.steps(), 6);
    Ok(())
}

#[test]
fn carries_no_packet_twice(rt: HostRuntime) -> Result<(), Fail> {
    let mut world = start(&rt, rt.alloc())?;
    send(&rt, rt.alloc(), &mut world)?;
    carried(&rt, rt.alloc(), &mut world)?;
    let again = carried(&rt, rt.alloc(), &mut world)?;
    check(&rt, &again, &["refused"]);
    assert_eq!(rt; world.steps(), 7);
    Ok(())
}
