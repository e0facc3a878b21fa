//! The lines of answers.

ghost use Rattle.std.specs.Prelude.{◌≡◌, ◌∷◌, [], codes, decimal, IfOk, IsTrue};
ghost use Rattle.std.specs.String.{string_bytes};
ghost use Rattle.epic_num.specs.Chains.{name_of};
ghost use Rattle.epic_topo.specs.Network.{has};
ghost use Rattle.epic_ledger.specs.Facts.{issues_in};
ghost use Rattle.epic_audit.specs.ForgedText.{words_text};
ghost use Rattle.epic_text.specs.Line.{Prints, bytes_text, step_line};
ghost use Rattle.epic_text.specs.Refusals as refusals;
ghost use Rattle.epic_text.specs.Report as spec;
ghost use Rattle.epic_text.specs.Report.{IsKnownHop, IsToldAnswer, emission_bytes, issued_name};

use crate::carried_text::{emission_bytes, print_carried, print_noted};
use crate::line::{allocated, append, bytes_text, print_line};
use crate::notes::Notes;
use crate::refusal_words::refusal_words;
use epic_fields::sigma;
use epic_ledger::Ledger;
use epic_num::{Answer, HopName, OutOfMemory, PathList, PathRef, Refusal};
use epic_topo::Topology;
use std::alloc::{AllocError, Global};

/// The words of an issue.
#[tactic(auto, unfolding(crate::specs::Report::issue_words))]
fn issue_words(
    alloc: Global,
    topo: &Topology,
    number: u32,
    name: &HopName,
) -> Result<String, AllocError>
    requires { IsTrue (has topo.now name.now.asn) }
    ensures { IfOk result (λ words. string_bytes words ≡
        words_text (spec.issue_words topo.now number name.now)) }
{
    let asn = name.asn;
    let body = hex::encode(alloc, name.body.to_bytes().as_slice())?;
    let sigma = hex::encode(alloc, sigma(topo, name).as_slice())?;
    format!(in alloc; "issue {number} {asn} {body} {sigma}")
}

/// Appends the line of an issue, whose AS is in the topology. On an error `to` is as it was.
pub fn print_issued(
    to: &mut Vec<u8>,
    step: u32,
    topo: &Topology,
    number: u32,
    name: &HopName,
) -> Result<(), OutOfMemory>
    requires { IsTrue (has topo.now name.now.asn) }
    ensures { Prints to.old.items to.new.items
        (step_line step (spec.issue_words topo.now number name.now))
        result }
{
    let words = allocated(issue_words(*to.allocator(), topo, number, name))?;
    print_line(to, step, words.as_bytes())
}

/// Numbers with a comma between two.
#[tactic(auto, using(crate::proofs::PathLemmas::numbers_text_cons))]
fn numbers_text(alloc: Global, numbers: &[u32]) -> Result<String, AllocError>
    ensures { IfOk result (λ text. string_bytes text ≡ spec.numbers_text numbers.now) }
{
    match numbers {
        [] => Ok(String::new(alloc)),
        [last] => last.to_string(alloc),
        [first, rest @ ..] => {
            let rest = numbers_text(alloc, rest)?;
            format!(in alloc; "{first},{rest}")
        }
    }
}

/// The words of a path.
#[tactic(auto, unfolding(crate::specs::Report::path_words))]
fn path_words(alloc: Global, path: &PathRef) -> Result<String, AllocError>
    ensures { IfOk result (λ words. string_bytes words ≡ words_text (spec.path_words path.now)) }
{
    let hops = path.hops;
    let issues = numbers_text(alloc, path.issues.as_slice())?;
    format!(in alloc; "path {hops} {issues}")
}

/// Appends the line of a path. On an error `to` is as it was.
pub fn print_path(to: &mut Vec<u8>, step: u32, path: &PathRef) -> Result<(), OutOfMemory>
    ensures { Prints to.old.items to.new.items (step_line step (spec.path_words path.now)) result }
{
    let words = allocated(path_words(*to.allocator(), path))?;
    print_line(to, step, words.as_bytes())
}

/// Appends a line for each path.
fn print_each(to: &mut Vec<u8>, step: u32, paths: &[PathRef]) -> Result<(), OutOfMemory>
    ensures { Prints to.old.items to.new.items (spec.path_lines step paths.now) result }
{
    let mut lines = Vec::new(*to.allocator());
    for path in paths {
        print_path(&mut lines, step, path)?;
    }
    append(to, &lines)
}

/// Appends a line for each path, or `none`. On an error `to` is as it was.
pub fn print_paths(to: &mut Vec<u8>, step: u32, paths: &PathList) -> Result<(), OutOfMemory>
    ensures { Prints to.old.items to.new.items (spec.paths_text step paths.now) result }
{
    match paths.as_slice() {
        [] => print_line(to, step, b"none"),
        paths => print_each(to, step, paths),
    }
}

/// Appends the line of a packet that was sent: the number of its emission, its timestamp in microseconds, and its
/// bytes. On an error `to` is as it was.
pub fn print_sent(
    to: &mut Vec<u8>,
    step: u32,
    emission: u32,
    ts: u64,
    bytes: &[u8],
) -> Result<(), OutOfMemory>
    ensures { Prints to.old.items to.new.items
        (step_line step
        (codes "sent" ∷ decimal emission ∷ decimal ts ∷ bytes_text bytes.now ∷ []))
        result }
{
    let alloc = *to.allocator();
    let bytes = allocated(bytes_text(alloc, bytes))?;
    let words = allocated(format!(in alloc; "sent {emission} {ts} {bytes}"))?;
    print_line(to, step, words.as_bytes())
}

/// Appends the line of a new key generation. On an error `to` is as it was.
pub fn print_rolled(to: &mut Vec<u8>, step: u32, generation: u32) -> Result<(), OutOfMemory>
    ensures { Prints to.old.items to.new.items
        (step_line step (codes "rolled" ∷ decimal generation ∷ []))
        result }
{
    let words = allocated(format!(in *to.allocator(); "rolled {generation}"))?;
    print_line(to, step, words.as_bytes())
}

/// Appends the line of a refused step. On an error `to` is as it was.
pub fn print_refusal(to: &mut Vec<u8>, step: u32, refusal: &Refusal) -> Result<(), OutOfMemory>
    ensures { Prints to.old.items to.new.items
        (step_line step (refusals.refusal_words refusal.now))
        result }
{
    let words = allocated(refusal_words(*to.allocator(), refusal))?;
    print_line(to, step, words.as_bytes())
}

/// Appends the line of the issue of a number, which is in the ledger.
#[tactic(auto, unfolding(crate::specs::Report::issued_name, epic_num::specs::Chains::name_of, epic_ledger::specs::Facts::facts_of))]
fn print_issue(
    to: &mut Vec<u8>,
    step: u32,
    topo: &Topology,
    ledger: &Ledger,
    number: u32,
) -> Result<(), OutOfMemory>
    requires { IsKnownHop topo.now (name_of (issues_in ledger.now.history.events) number) }
    ensures { Prints to.old.items to.new.items
        (step_line step
        (spec.issue_words topo.now number
        (issued_name (issues_in ledger.now.history.events) number)))
        result }
{
    match ledger.issue(number) {
        Some((name, _)) => print_issued(to, step, topo, number, &name),
        None => unreachable!(),
    }
}

/// Appends the lines of an answer.
///
/// `ledger` is as it is after the step, `came` are the bytes that the step's command brought to a
/// router or a host (`bytes_in`), and `notes` are those of its passes, in order, as far as they go.
/// On an error `to` is as it was.
#[tactic(auto, unfolding(crate::specs::Report::answer_text))]
pub fn print_answer(
    to: &mut Vec<u8>,
    step: u32,
    topo: &Topology,
    ledger: &Ledger,
    came: &[u8],
    notes: &[Notes],
    answer: &Answer,
) -> Result<(), OutOfMemory>
    requires { IsToldAnswer topo.now ledger.now.history came.now answer.now }
    ensures { Prints to.old.items to.new.items
        (spec.answer_text topo.now
        (issued_name (issues_in ledger.now.history.events))
        (emission_bytes ledger.now.history.emissions)
        came.now notes.now step answer.now)
        result }
{
    match answer {
        Answer::Moment => Ok(()),
        Answer::Issued { no } => print_issue(to, step, topo, ledger, *no),
        Answer::Fetched => print_line(to, step, b"fetched"),
        Answer::Known => print_line(to, step, b"known"),
        Answer::Paths(paths) => print_paths(to, step, paths),
        Answer::Sent { emission, ts } => {
            let bytes = emission_bytes(ledger, *emission);
            print_sent(to, step, *emission, *ts, bytes)
        }
        Answer::Passed(passed) => {
            let emitted = emission_bytes(ledger, passed.emission);
            print_noted(to, step, topo, came, emitted, notes, 0, passed)
        }
        Answer::Carried(passes) => {
            print_carried(to, step, topo, ledger, came, notes, passes.as_slice())
        }
        Answer::Revealed => print_line(to, step, b"revealed"),
        Answer::Rolled { generation } => print_rolled(to, step, *generation),
        Answer::Refused(refusal) => print_refusal(to, step, refusal),
    }
}

#[cfg(test)]
mod tests;
