//! What a step tells in the ledger file.

ghost use Rattle.std.specs.Prelude.{◌≡◌, ◌+◌, ◌≤◌, ◌++◌, IfOk, OnOk, length};
ghost use Rattle.epic_record.specs.LedgerText.{ledger_text};
ghost use Rattle.epic_text.specs.Report.{emission_bytes as bytes_emitted};
ghost use Rattle.epic_app.specs.Noting.{coming, passes_after};
ghost use Rattle.epic_app.specs.Telling as spec;

use crate::noting::passes_told;
use epic_ledger::Ledger;
use epic_num::{Answer, Command, OutOfMemory, Passed};
use epic_record::{print_accepted, print_emission, print_event};
use epic_text::{bytes_in, emission_bytes};
use epic_world::World;
use std::alloc::Global;

/// How much a ledger holds: how many emissions and events.
#[derive(Clone, Copy)]
pub struct Mark {
    pub emissions: u32,
    pub events: u64,
}

/// How much a ledger holds.
pub(crate) fn held(ledger: &Ledger) -> Mark
    ensures { result ≡ spec.mark_of ledger.now.history }
{
    Mark {
        emissions: ledger.emissions(),
        events: ledger.events(),
    }
}

/// Appends the lines of the emissions behind the first `from`, as far as the one with the number
/// `until`.
fn print_emissions(
    to: &mut Vec<u8>,
    ledger: &Ledger,
    from: u32,
    until: u32,
) -> Result<(), OutOfMemory>
    ensures { OnOk result (to.new.items ≡ to.old.items
        ++ ledger_text (spec.emitted_between ledger.now.history from until)) }
{
    for number in from..until {
        match ledger.emission(number + 1) {
            Some((place, bytes)) => print_emission(to, number + 1, &place, bytes)?,
            None => return Ok(()),
        }
    }
    Ok(())
}

/// Appends the lines of the events behind the first `from`, as far as so many.
fn print_events(to: &mut Vec<u8>, ledger: &Ledger, from: u64, until: u64) -> Result<(), OutOfMemory>
    ensures { OnOk result (to.new.items ≡ to.old.items
        ++ ledger_text (spec.happened_between ledger.now.history from until)) }
{
    for number in from..until {
        match ledger.event(number) {
            Some(event) => print_event(to, event)?,
            None => return Ok(()),
        }
    }
    Ok(())
}

/// Appends the lines of what a ledger got between two marks.
#[tactic(auto, unfolding(epic_record::specs::LedgerText::ledger_text))]
fn print_between(
    to: &mut Vec<u8>,
    ledger: &Ledger,
    from: Mark,
    until: Mark,
) -> Result<(), OutOfMemory>
    ensures { OnOk result (to.new.items ≡ to.old.items
        ++ ledger_text (spec.between ledger.now.history from until)) }
{
    print_emissions(to, ledger, from.emissions, until.emissions)?;
    print_events(to, ledger, from.events, until.events)
}

/// How much the ledger held after a pass.
fn after_pass(mark: Mark, passed: &Passed, ledger: &Ledger) -> Mark
    requires { mark.events + length passed.now.verdicts.items ≤ length ledger.now.history.events }
    ensures { result ≡ spec.after_pass mark passed.now }
{
    let _events = ledger.events();
    let emissions = if passed.emission == 0 {
        mark.emissions
    } else {
        passed.emission
    };
    Mark {
        emissions,
        events: mark.events + passed.verdicts.len() as u64,
    }
}

/// Appends the lines of a pass: what was accepted, the packet that left, and the events.
fn print_pass(
    to: &mut Vec<u8>,
    ledger: &Ledger,
    from: Mark,
    came: &[u8],
    passed: &Passed,
) -> Result<Mark, OutOfMemory>
    requires { from.events + length passed.now.verdicts.items ≤ length ledger.now.history.events }
    ensures text { OnOk result (to.new.items ≡ to.old.items
        ++ ledger_text (spec.told_by_pass ledger.now.history from (record { came = came.now; passed = passed.now }))) }
    ensures mark { IfOk result (λ m. m ≡ spec.after_pass from passed.now) }
{
    let until = after_pass(from, passed, ledger);
    print_accepted(to, &passed.place, came, &passed.result)?;
    print_between(to, ledger, from, until)?;
    Ok(until)
}

/// Appends the lines of passes, of which the first is of the bytes that came in, and each other of
/// what the pass before it emitted.
fn print_passes(
    to: &mut Vec<u8>,
    ledger: &Ledger,
    from: Mark,
    came: &[u8],
    passes: &[Passed],
) -> Result<(), OutOfMemory>
    requires { spec.AreWithin ledger.now.history from (coming (bytes_emitted ledger.now.history.emissions) came.now passes.now) }
    ensures { OnOk result (to.new.items ≡ to.old.items
        ++ ledger_text (spec.told_from ledger.now.history from (coming (bytes_emitted ledger.now.history.emissions) came.now passes.now))) }
{
    let mut mark = from;
    let mut next = came;
    for passed in passes {
        mark = print_pass(to, ledger, mark, next, passed)?;
        next = emission_bytes(ledger, passed.emission);
    }
    Ok(())
}

/// The lines that a step adds to the ledger file, over the world after it. The ledger held so much
/// before.
pub(crate) fn ledger_lines(
    alloc: Global,
    world: &World,
    before: Mark,
    command: &Command,
    answer: &Answer,
) -> Result<Vec<u8>, OutOfMemory>
    requires { spec.AreWithin world.now.state.history before (passes_after command.now answer.now world.now.state) }
    ensures { IfOk result (λ text. text.items
        ≡ ledger_text (spec.told_since world.now.state.history before (passes_after command.now answer.now world.now.state))) }
{
    let ledger = world.ledger();
    let mut text = Vec::new(alloc);
    let passes = passes_told(answer);
    if passes.is_empty() {
        print_between(&mut text, ledger, before, held(ledger))?;
        return Ok(text);
    }
    let came = bytes_in(ledger, command);
    print_passes(&mut text, ledger, before, came, passes)?;
    Ok(text)
}
