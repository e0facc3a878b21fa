//! The counts of a run.

ghost use Rattle.std.specs.Prelude.{◌≡◌, ◌<◌, ◌^◌, ◌+◌, ◌-◌, IfOk};
ghost use Rattle.std.specs.String.{string_bytes};
ghost use Rattle.epic_audit.specs.ForgedText.{words_text};
ghost use Rattle.epic_text.specs.Counts.{accepted, counted, end_line, end_words, other_words, total};
ghost use Rattle.epic_text.specs.Line.{Prints};

use crate::line::{allocated, append};
use epic_num::{OutOfMemory, Verdict};
use std::alloc::{AllocError, Global};

/// How many steps a run had, and how many verdicts of each kind.
#[derive(Clone, Copy, Debug, Default, PartialEq, Eq)]
pub struct Counts {
    pub steps: u32,
    pub proved: u64,
    pub opened: u64,
    pub forged: u64,
    pub collided: u64,
    pub unclaimed: u64,
}

/// The counts with one verdict more.
#[tactic(auto, unfolding(crate::specs::Counts::counted))]
pub fn counted(counts: Counts, verdict: &Verdict) -> Counts
    requires { total counts < 2 ^ 64 - 1 }
    ensures value { result ≡ counted counts verdict.now }
    ensures one { total result ≡ total counts + 1 }
{
    let mut counts = counts;
    match verdict {
        Verdict::Proved { .. } => counts.proved += 1,
        Verdict::Opened { .. } => counts.opened += 1,
        Verdict::Forged(_) => counts.forged += 1,
        Verdict::Collided(_) => counts.collided += 1,
        Verdict::Unclaimed => counts.unclaimed += 1,
    }
    counts
}

/// The words of the verdicts that aren't proved.
fn other_words(alloc: Global, counts: &Counts) -> Result<String, AllocError>
    ensures { IfOk result (λ words. string_bytes words ≡ words_text (other_words counts.now)) }
{
    let opened = counts.opened;
    let forged = counts.forged;
    let collided = counts.collided;
    let unclaimed = counts.unclaimed;
    format!(in alloc; "opened {opened} forged {forged} collided {collided} unclaimed {unclaimed}")
}

/// The words of the last line.
fn end_words(alloc: Global, counts: &Counts) -> Result<String, AllocError>
    requires { accepted counts.now < 2 ^ 64 }
    ensures { IfOk result (λ words. string_bytes words ≡ words_text (end_words counts.now)) }
{
    let steps = counts.steps;
    let proved = counts.proved;
    let accepted = proved + counts.opened + counts.forged + counts.collided;
    let others = other_words(alloc, counts)?;
    format!(in alloc; "end {steps} accepted {accepted} proved {proved} {others}")
}

/// Appends the last line of a report. On an error `to` is as it was.
#[tactic(auto, unfolding(crate::specs::Counts::end_line))]
pub fn print_end(to: &mut Vec<u8>, counts: &Counts) -> Result<(), OutOfMemory>
    requires { accepted counts.now < 2 ^ 64 }
    ensures { Prints to.old.items to.new.items (end_line counts.now) result }
{
    let words = allocated(end_words(*to.allocator(), counts))?;
    let line = allocated(format!(in *to.allocator(); "{words}\n"))?;
    append(to, line.as_bytes())
}

#[cfg(test)]
mod tests;
