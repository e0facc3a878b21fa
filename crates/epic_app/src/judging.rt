//! What a step tells in the verdict file.

ghost use Rattle.std.specs.Prelude.{◌≡◌, ◌+◌, ◌<◌, ◌≤◌, ◌∷◌, ◌++◌, [], None, IfOk, OnOk, length, take};
ghost use Rattle.std.specs.List.{All};
ghost use Rattle.epic_num.specs.Levels.{is_first_byte};
ghost use Rattle.epic_layout.specs.Contents.{hop_count};
ghost use Rattle.epic_layout.specs.Layout.{fault, parse};
ghost use Rattle.epic_record.specs.declared.item.Item.TheVariants.{AcceptDest};
ghost use Rattle.epic_record.specs.Passing.{accepted_items, generations_of, hops_from};
ghost use Rattle.epic_record.specs.VerdictLines.{acceptances, verdict_text};
ghost use Rattle.epic_text.specs.Report.{IsToldPass, emission_bytes as bytes_emitted};
ghost use Rattle.epic_text.specs.VerdictText.{IsTellable};
ghost use Rattle.epic_app.specs.Noting.{coming, passes_after};
ghost use Rattle.epic_app.specs.Policed.{IsNotableAt, IsNotablePass, IsNotableTurn};
ghost use Rattle.epic_app.specs.Telling as spec;

use crate::noting::passes_told;
use epic_layout::shape_of;
use epic_ledger::Ledger;
use epic_num::{
    Answer, Arrival, AsId, Command, HostId, OutOfMemory, PassResult, Passed, Place, Turn, Verdict,
};
use epic_record::{print_dest_verdict, print_hop_verdict};
use epic_text::{bytes_in, emission_bytes};
use epic_topo::Topology;
use epic_view::PacketRef;
use epic_world::World;
use std::alloc::Global;

/// Appends the lines of the verdicts on so many hops, at most two, from the packet's current one
/// on.
#[tactic(auto, unfolding(crate::specs::Telling::hop_lines))]
fn print_lines(
    to: &mut Vec<u8>,
    topo: &Topology,
    came: &[u8],
    hops: u8,
    verdicts: &[Verdict],
) -> Result<(), OutOfMemory>
    requires few { hops ≤ 2 }
    requires faultless { 0 < length verdicts.now → fault is_first_byte came.now ≡ None }
    requires within { (parse came.now).current + hops ≤ hop_count (parse came.now) }
    requires told { All (IsTellable topo.now (parse came.now)) verdicts.now }
    ensures { OnOk result (to.new.items ≡ to.old.items
        ++ spec.hop_lines topo.now (parse came.now) (parse came.now).current hops verdicts.now) }
{
    if hops == 0 {
        return Ok(());
    }
    let [first, rest @ ..] = verdicts else {
        return Ok(());
    };
    let packet = PacketRef::of(came, shape_of(came));
    let _shape = packet.shape();
    let hop = packet.current();
    print_hop_verdict(to, topo, &packet, hop, first)?;
    if hops == 1 {
        return Ok(());
    }
    let [second, ..] = rest else {
        return Ok(());
    };
    print_hop_verdict(to, topo, &packet, hop + 1, second)?;
    Ok(())
}

/// Appends the lines of the verdicts on the hops that the router of an AS accepted, each under a
/// generation of its key.
fn print_hops(
    to: &mut Vec<u8>,
    topo: &Topology,
    came: &[u8],
    hops: u8,
    generations: &[u32; 2],
    verdicts: &[Verdict],
) -> Result<(), OutOfMemory>
    requires few { hops ≤ 2 }
    requires faultless { 0 < length verdicts.now → fault is_first_byte came.now ≡ None }
    requires within { (parse came.now).current + hops ≤ hop_count (parse came.now) }
    requires told { All (IsTellable topo.now (parse came.now)) verdicts.now }
    ensures { (a : AsId) → OnOk result (to.new.items ≡ to.old.items
        ++ verdict_text topo.now (acceptances (hops_from a (parse came.now).current came.now (take hops generations.now))) verdicts.now) }
{
    print_lines(to, topo, came, hops, verdicts)
}

/// Appends the line of the verdict on a packet that its destination took.
#[tactic(auto, unfolding(epic_record::specs::VerdictLines::verdict_text, epic_record::specs::VerdictLines::verdict_line, epic_record::specs::VerdictLines::acceptances))]
fn print_dest(
    to: &mut Vec<u8>,
    topo: &Topology,
    came: &[u8],
    host: HostId,
    verdicts: &[Verdict],
) -> Result<(), OutOfMemory>
    requires faultless { 0 < length verdicts.now → fault is_first_byte came.now ≡ None }
    requires told { All (IsTellable topo.now (parse came.now)) verdicts.now }
    ensures { OnOk result (to.new.items ≡ to.old.items
        ++ verdict_text topo.now (acceptances (AcceptDest host came.now ∷ [])) verdicts.now) }
{
    let [verdict, ..] = verdicts else {
        return Ok(());
    };
    let packet = PacketRef::of(came, shape_of(came));
    print_dest_verdict(to, topo, &packet, verdict)
}

/// Appends the lines of the verdicts on the hops that the router of an AS accepted.
#[tactic(auto, unfolding(epic_record::specs::Passing::generations_of, epic_record::specs::VerdictLines::verdict_text, epic_record::specs::VerdictLines::acceptances))]
fn print_turned(
    to: &mut Vec<u8>,
    topo: &Topology,
    a: AsId,
    turn: &Turn,
    came: &[u8],
    verdicts: &[Verdict],
) -> Result<(), OutOfMemory>
    requires faultless { 0 < length verdicts.now → fault is_first_byte came.now ≡ None }
    requires told { All (IsTellable topo.now (parse came.now)) verdicts.now }
    requires notable { IsNotableTurn topo.now a came.now turn.now }
    ensures { OnOk result (to.new.items ≡ to.old.items
        ++ verdict_text topo.now (acceptances (hops_from a (parse came.now).current came.now (generations_of turn.now))) verdicts.now) }
{
    match turn {
        Turn::Forward {
            hops,
            generations,
            ..
        } => print_hops(to, topo, came, *hops, generations, verdicts),
        Turn::Deliver {
            hops,
            generations,
            ..
        } => print_hops(to, topo, came, *hops, generations, verdicts),
        Turn::Refused { .. } => Ok(()),
    }
}

/// Appends the lines of the verdicts on what was accepted of the bytes that came to a place.
#[tactic(auto, unfolding(epic_record::specs::Passing::accepted_items, epic_record::specs::VerdictLines::verdict_text, epic_record::specs::VerdictLines::acceptances))]
fn print_accepted(
    to: &mut Vec<u8>,
    topo: &Topology,
    place: &Place,
    came: &[u8],
    outcome: &PassResult,
    verdicts: &[Verdict],
) -> Result<(), OutOfMemory>
    requires faultless { 0 < length verdicts.now → fault is_first_byte came.now ≡ None }
    requires told { All (IsTellable topo.now (parse came.now)) verdicts.now }
    requires notable { IsNotableAt topo.now came.now outcome.now place.now }
    ensures { OnOk result (to.new.items ≡ to.old.items
        ++ verdict_text topo.now (acceptances (accepted_items place.now came.now outcome.now)) verdicts.now) }
{
    match (place, outcome) {
        (Place::Router { asn, .. }, PassResult::Turned(turn)) => {
            print_turned(to, topo, *asn, turn, came, verdicts)
        }
        (Place::Host(host), PassResult::Arrived(Arrival::Accepted | Arrival::Unchecked)) => {
            print_dest(to, topo, came, *host, verdicts)
        }
        _ => Ok(()),
    }
}

/// Appends the lines of the verdicts of a pass, over the bytes that came in.
fn print_verdicts(
    to: &mut Vec<u8>,
    topo: &Topology,
    came: &[u8],
    passed: &Passed,
) -> Result<(), OutOfMemory>
    requires told { IsToldPass topo.now came.now passed.now }
    requires notable { IsNotablePass topo.now (record { came = came.now; passed = passed.now }) }
    ensures { OnOk result (to.new.items ≡ to.old.items
        ++ spec.pass_verdicts topo.now (record { came = came.now; passed = passed.now })) }
{
    let verdicts = passed.verdicts.as_slice();
    print_accepted(to, topo, &passed.place, came, &passed.result, verdicts)
}

/// Appends the lines of the verdicts of passes, of which the first is of the bytes that came in,
/// and each other of what the pass before it emitted.
fn print_all(
    to: &mut Vec<u8>,
    topo: &Topology,
    ledger: &Ledger,
    came: &[u8],
    passes: &[Passed],
) -> Result<(), OutOfMemory>
    requires told { spec.AreTold topo.now (coming (bytes_emitted ledger.now.history.emissions) came.now passes.now) }
    ensures { OnOk result (to.new.items ≡ to.old.items
        ++ spec.passes_verdicts topo.now (coming (bytes_emitted ledger.now.history.emissions) came.now passes.now)) }
{
    let mut next = came;
    for passed in passes {
        print_verdicts(to, topo, next, passed)?;
        next = emission_bytes(ledger, passed.emission);
    }
    Ok(())
}

/// The lines that a step adds to the verdict file, over the world after it.
pub(crate) fn verdict_lines(
    alloc: Global,
    world: &World,
    command: &Command,
    answer: &Answer,
) -> Result<Vec<u8>, OutOfMemory>
    requires told { spec.AreTold world.now.network (passes_after command.now answer.now world.now.state) }
    ensures { IfOk result (λ text. text.items
        ≡ spec.passes_verdicts world.now.network (passes_after command.now answer.now world.now.state)) }
{
    let ledger = world.ledger();
    let mut text = Vec::new(alloc);
    let came = bytes_in(ledger, command);
    print_all(
        &mut text,
        world.topology(),
        ledger,
        came,
        passes_told(answer),
    )?;
    Ok(text)
}
