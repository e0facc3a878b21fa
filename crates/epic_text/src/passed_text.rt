//! The lines of passes.

ghost use Rattle.std.specs.Prelude.{◌≡◌, ◌<◌, ◌++◌, length, IfOk, OnOk, None};
ghost use Rattle.std.specs.List.{All};
ghost use Rattle.std.specs.String.{string_bytes};
ghost use Rattle.epic_num.specs.Levels.{is_first_byte};
ghost use Rattle.epic_layout.specs.Layout.{fault, parse};
ghost use Rattle.epic_audit.specs.ForgedText.{words_text};
ghost use Rattle.epic_text.specs.Line.{Prints, step_line};
ghost use Rattle.epic_text.specs.Report as spec;
ghost use Rattle.epic_text.specs.Report.{IsToldPass};
ghost use Rattle.epic_text.specs.VerdictText.{IsTellable};

use crate::line::{allocated, append, print_line, print_packet};
use crate::notes::Notes;
use crate::refusal_words::{arrival_words, turn_words};
use crate::verdict_text::{print_dest, print_hop};
use epic_layout::shape_of;
use epic_num::{Arrival, OutOfMemory, PassResult, Passed, Turn, Verdict};
use epic_topo::Topology;
use epic_view::PacketRef;
use std::alloc::{AllocError, Global};

/// The room that is made for the lines of a pass besides its packet's digits.
const SPARE: usize = 256;

/// Appends the line of what a router did. The bytes are those of the emission that it made.
fn print_turned(
    to: &mut Vec<u8>,
    step: u32,
    emission: u32,
    bytes: &[u8],
    turn: &Turn,
) -> Result<(), OutOfMemory>
    ensures { Prints to.old.items to.new.items
        (step_line step (spec.turned_words emission bytes.now turn.now))
        result }
{
    match turn {
        Turn::Forward { out, .. } => {
            print_packet(to, step, b"forward", u32::from(*out), emission, bytes)
        }
        Turn::Deliver { host, .. } => print_packet(to, step, b"deliver", *host, emission, bytes),
        Turn::Refused { check, hop } => {
            let words = allocated(turn_words(*to.allocator(), check, *hop))?;
            print_line(to, step, words.as_bytes())
        }
    }
}

/// What a destination did.
fn arrived_words(alloc: Global, arrival: &Arrival) -> Result<String, AllocError>
    ensures { IfOk result (λ words. string_bytes words ≡
        words_text (spec.arrived_words arrival.now)) }
{
    match arrival {
        Arrival::Accepted => String::from_str(alloc, "accepted"),
        Arrival::Unchecked => String::from_str(alloc, "unchecked"),
        Arrival::Refused(check) => arrival_words(alloc, check),
    }
}

/// Appends the first line of a pass, which may have made the emission of a number, with these bytes. On an error `to` is
/// as it was.
pub fn print_pass(
    to: &mut Vec<u8>,
    step: u32,
    outcome: &PassResult,
    emission: u32,
    bytes: &[u8],
) -> Result<(), OutOfMemory>
    ensures { Prints to.old.items to.new.items
        (step_line step (spec.pass_words emission bytes.now outcome.now))
        result }
{
    match outcome {
        PassResult::Turned(turn) => print_turned(to, step, emission, bytes, turn),
        PassResult::Arrived(arrival) => {
            let words = allocated(arrived_words(*to.allocator(), arrival))?;
            print_line(to, step, words.as_bytes())
        }
        PassResult::Full => print_line(to, step, b"refused full"),
    }
}

/// Appends a line for each handled hop, the first of which is the packet's current hop, and its
/// note behind it.
fn print_hops(
    to: &mut Vec<u8>,
    step: u32,
    topo: &Topology,
    packet: &PacketRef<'_>,
    notes: &Notes,
    verdicts: &[Verdict],
) -> Result<(), OutOfMemory>
    requires { All (IsTellable topo.now packet.now) verdicts.now }
    ensures { OnOk result (to.new.items ≡ to.old.items
        ++ spec.hop_lines topo.now step packet.now notes.now 0 verdicts.now) }
{
    let first = usize::from(packet.current());
    for (i, verdict) in verdicts.iter().enumerate() {
        print_hop(to, step, topo, packet, first + i, verdict)?;
        append(to, notes.behind(i))?;
    }
    Ok(())
}

/// Appends the line of a destination.
fn print_dests(
    to: &mut Vec<u8>,
    step: u32,
    topo: &Topology,
    packet: &PacketRef<'_>,
    verdicts: &[Verdict],
) -> Result<(), OutOfMemory>
    requires { All (IsTellable topo.now packet.now) verdicts.now }
    ensures { Prints to.old.items to.new.items
        (spec.dest_lines topo.now step packet.now verdicts.now)
        result }
{
    let mut lines = Vec::new(*to.allocator());
    for verdict in verdicts {
        print_dest(&mut lines, step, topo, packet, verdict)?;
    }
    append(to, &lines)
}

/// Appends the lines of a pass's verdicts over the bytes that came in.
fn print_verdicts(
    to: &mut Vec<u8>,
    step: u32,
    topo: &Topology,
    came: &[u8],
    notes: &Notes,
    outcome: &PassResult,
    verdicts: &[Verdict],
) -> Result<(), OutOfMemory>
    requires packet { 0 < length verdicts.now → fault is_first_byte came.now ≡ None }
    requires verdicts { All (IsTellable topo.now (parse came.now)) verdicts.now }
    ensures { OnOk result (to.new.items ≡ to.old.items
        ++ spec.verdict_lines topo.now step (parse came.now) notes.now outcome.now verdicts.now) }
{
    if verdicts.is_empty() {
        return Ok(());
    }
    let packet = PacketRef::of(came, shape_of(came));
    match outcome {
        PassResult::Turned(_) => print_hops(to, step, topo, &packet, notes, verdicts),
        PassResult::Arrived(_) => print_dests(to, step, topo, &packet, verdicts),
        PassResult::Full => Ok(()),
    }
}

/// Appends the lines of a pass: what became of the bytes that came in, with the bytes of the emission that it made, and
/// the verdicts on what was accepted, with the notes of these. On an error `to` is as it was.
#[tactic(auto, unfolding(crate::specs::Report::passed_text))]
pub fn print_passed(
    to: &mut Vec<u8>,
    step: u32,
    topo: &Topology,
    came: &[u8],
    emitted: &[u8],
    notes: &Notes,
    passed: &Passed,
) -> Result<(), OutOfMemory>
    requires { IsToldPass topo.now came.now passed.now }
    ensures { Prints to.old.items to.new.items
        (spec.passed_text topo.now step came.now emitted.now notes.now passed.now)
        result }
{
    let room = SPARE
        .saturating_add(emitted.len())
        .saturating_add(emitted.len());
    let mut lines = allocated(Vec::with_capacity(*to.allocator(), room))?;
    print_pass(&mut lines, step, &passed.result, passed.emission, emitted)?;
    print_verdicts(
        &mut lines,
        step,
        topo,
        came,
        notes,
        &passed.result,
        &passed.verdicts,
    )?;
    append(&mut lines, notes.last())?;
    append(to, &lines)
}

#[cfg(test)]
mod tests;
