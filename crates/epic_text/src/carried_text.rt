//! The bytes that routers and hosts get, and the lines of an emission that is carried on.

ghost use Rattle.std.specs.Prelude.{◌≡◌};
ghost use Rattle.epic_text.specs.Line.{Prints};
ghost use Rattle.epic_text.specs.Report as spec;
ghost use Rattle.epic_text.specs.Notes.{noted_of};
ghost use Rattle.epic_text.specs.Report.{IsToldCarry, IsToldPass, emission_bytes};

use crate::line::append;
use crate::notes::Notes;
use crate::passed_text::print_passed;
use epic_ledger::Ledger;
use epic_num::{Command, OutOfMemory, Passed};
use epic_topo::Topology;

/// The bytes of the emission of a number, none where it isn't there.
#[tactic(auto, unfolding(crate::specs::Report::emission_bytes))]
pub fn emission_bytes(ledger: &Ledger, number: u32) -> &[u8]
    ensures { result.now ≡ emission_bytes ledger.now.history.emissions number }
{
    match ledger.emission(number) {
        Some((_, bytes)) => bytes,
        None => &[],
    }
}

/// The bytes that a command brings to a router or a host, none where it brings none.
#[tactic(auto, unfolding(crate::specs::Report::bytes_in))]
pub fn bytes_in<'a>(ledger: &'a Ledger, command: &'a Command) -> &'a [u8]
    ensures { result.now ≡ spec.bytes_in (emission_bytes ledger.now.history.emissions) command.now }
{
    match command {
        Command::Turn { bytes, .. } => bytes.as_slice(),
        Command::Arrive { bytes, .. } => bytes.as_slice(),
        Command::Pass { emission } => emission_bytes(ledger, *emission),
        Command::Carry { emission } => emission_bytes(ledger, *emission),
        _ => &[],
    }
}

/// Appends the lines of a pass with the notes of the k-th. On an error `to` is as it was.
pub(crate) fn print_noted(
    to: &mut Vec<u8>,
    step: u32,
    topo: &Topology,
    came: &[u8],
    emitted: &[u8],
    notes: &[Notes],
    k: usize,
    passed: &Passed,
) -> Result<(), OutOfMemory>
    requires { IsToldPass topo.now came.now passed.now }
    ensures { Prints to.old.items to.new.items
        (spec.passed_text topo.now step came.now emitted.now (noted_of notes.now k) passed.now)
        result }
{
    match notes.get(k) {
        Some(notes) => print_passed(to, step, topo, came, emitted, notes, passed),
        None => {
            let none = Notes::new(*to.allocator());
            print_passed(to, step, topo, came, emitted, &none, passed)
        }
    }
}

/// Appends the lines of passes one after the other, with the notes of each.
///
/// The first is of the bytes that came in, and each other of the bytes that the pass before it
/// emitted. On an error `to` is as it was.
pub fn print_carried(
    to: &mut Vec<u8>,
    step: u32,
    topo: &Topology,
    ledger: &Ledger,
    came: &[u8],
    notes: &[Notes],
    passes: &[Passed],
) -> Result<(), OutOfMemory>
    requires { IsToldCarry topo.now (emission_bytes ledger.now.history.emissions) came.now passes.now }
    ensures { Prints to.old.items to.new.items
        (spec.carried_text topo.now (emission_bytes ledger.now.history.emissions)
        step came.now notes.now 0 passes.now)
        result }
{
    let mut lines = Vec::new(*to.allocator());
    let mut next = came;
    for (k, passed) in passes.iter().enumerate() {
        let emitted = emission_bytes(ledger, passed.emission);
        print_noted(&mut lines, step, topo, next, emitted, notes, k, passed)?;
        next = emitted;
    }
    append(to, &lines)
}
