//! The words of `run`.

ghost use Rattle.std.specs.Prelude.{◌≡◌, ◌≤◌, IfOk, IfSome, bytes_eq, map, option_map};
ghost use Rattle.std.specs.List.{list_any};
ghost use Rattle.std.specs.Option.{option_to_list};
ghost use Rattle.std.specs.String.{string_bytes};
ghost use Rattle.clap.specs.Words.{found_of, rows_of};
ghost use Rattle.epic_words.specs.Answers.{AsksFor, names_in, policing_in, run_in};
ghost use Rattle.epic_words.specs.Shares.{is_taken};
ghost use Rattle.epic_words.specs.Request.{reads_of, run_of, run_with, shares_files};

use crate::command::parse;
use crate::error::WordsError;
use crate::police::{PoliceWords, police};
use clap::ArgMatches;
use std::alloc::Global;

/// What `run TOPOLOGY SCRIPT` and its options name.
#[derive(Clone, Copy, Debug, PartialEq, Eq)]
pub struct RunWords<'a> {
    /// The name of the topology's file.
    pub topology: &'a str,
    /// The name of the script's file.
    pub script: &'a str,
    /// The capture whose packets come after the script's commands.
    pub capture: Option<&'a str>,
    /// The file to which each emission is saved.
    pub save: Option<&'a str>,
    /// The file to which what happens is written.
    pub ledger: Option<&'a str>,
    /// The file to which the verdicts are written.
    pub verdicts: Option<&'a str>,
    /// Whether the report also says who made the fields of packets of level 1.
    pub makers: bool,
    /// The budget and the span of each source AS, if packets are policed.
    pub police: Option<PoliceWords>,
}

/// The names and the flag that clap found, with this budget and span.
fn names<'a>(matches: &ArgMatches<'a>, police: Option<PoliceWords>) -> RunWords<'a>
    ensures value { names_in result
        ≡ run_with (rows_of (found_of matches.now)) (option_map policing_in police) }
    ensures police { result.police ≡ police }
{
    RunWords {
        topology: matches.get_str("topology").unwrap_or(""),
        script: matches.get_str("script").unwrap_or(""),
        capture: matches.get_str("capture"),
        save: matches.get_str("save"),
        ledger: matches.get_str("ledger"),
        verdicts: matches.get_str("verdicts"),
        makers: matches.get_str("makers").unwrap_or("") == "true",
        police,
    }
}

/// Whether a file that may be named has this name.
fn is_named(file: Option<&str>, name: &str) -> bool
    ensures { result ≡ list_any (bytes_eq name.now)
        (option_to_list (option_map (λ word. word.now) file.entry)) }
{
    match file {
        Some(other) => name == other,
        None => false,
    }
}

/// Whether a file that is read has this name.
fn is_read(words: &RunWords<'_>, name: &str) -> bool
    ensures { result ≡ list_any (bytes_eq name.now) (reads_of (run_in words.now)) }
{
    name == words.topology || name == words.script || is_named(words.capture, name)
}

/// Whether a file that may be named has the name of one that is read, or of one of these.
fn is_taken(
    words: &RunWords<'_>,
    file: Option<&str>,
    next: Option<&str>,
    last: Option<&str>,
) -> bool
    ensures { result ≡ is_taken (reads_of (run_in words.now)) (option_map (λ word. word.now) file.entry)
        (option_map (λ word. word.now) next.entry) (option_map (λ word. word.now) last.entry) }
{
    match file {
        Some(name) => is_read(words, name) || is_named(next, name) || is_named(last, name),
        None => false,
    }
}

/// Whether a file that is written has the name of another.
fn shares_files(words: &RunWords<'_>) -> bool
    ensures { result ≡ shares_files (run_in words.now) }
{
    is_taken(words, words.save, words.ledger, words.verdicts)
        || is_taken(words, words.ledger, words.verdicts, None)
        || is_taken(words, words.verdicts, None, None)
}

/// Reads the words after `run`: TOPOLOGY and SCRIPT, with `--capture FILE`, `--save FILE`,
/// `--ledger FILE`, `--verdicts FILE`, `--makers`, `--budget N` and `--span N` before, between or
/// after them.
///
/// `Refused`: clap refuses the words, a budget or a span stands alone or is beyond its limits, or
/// a file that is written has the name of another. `OutOfMemory`: no memory; it may come in place of
/// `Refused`.
#[tactic(auto, unfolding(crate::specs::Request::run_of))]
pub fn run_words<'a>(alloc: Global, words: &'a [String]) -> Result<RunWords<'a>, WordsError>
    ensures asks { AsksFor run_in (run_of (map string_bytes words.entry.now)) result }
    ensures some_bytes { IfOk result (λ w. IfSome w.police (λ p. 1 ≤ p.budget)) }
    ensures most_bytes { IfOk result (λ w. IfSome w.police (λ p. p.budget ≤ 1099511627776)) }
    ensures some_time { IfOk result (λ w. IfSome w.police (λ p. 1 ≤ p.span_us)) }
    ensures most_time { IfOk result (λ w. IfSome w.police (λ p. p.span_us ≤ 3600000000)) }
{
    let matches = parse(alloc, words)?;
    let police = police(matches.get_str("budget"), matches.get_str("span"))?;
    let names = names(&matches, police);
    if shares_files(&names) {
        return Err(WordsError::Refused);
    }
    Ok(names)
}
