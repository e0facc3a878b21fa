//! The words after the program's name.

ghost use Rattle.std.specs.Prelude.{◌≡◌, ◌≤◌, codes, map, Err, IfOk, IsTrue};
ghost use Rattle.std.specs.String.{string_bytes};
ghost use Rattle.epic_words.specs.Answers.{AsksFor, IfPoliced, request_in};
ghost use Rattle.epic_words.specs.Request.{is_command, request_of};

use crate::error::WordsError;
use crate::generate::{GenWords, gen_words};
use crate::hop::{HopWords, hop_words};
use crate::judge::{JudgeWords, judge_words};
use crate::run::{RunWords, run_words};
use std::alloc::Global;

/// What the words ask for.
#[derive(Clone, Copy, Debug, PartialEq, Eq)]
pub enum Asked<'a> {
    /// `hop KEY FILE`.
    Hop(HopWords<'a>),
    /// `run TOPOLOGY SCRIPT` with its options.
    Run(RunWords<'a>),
    /// `gen SEED PACKETS`.
    Gen(GenWords),
    /// `judge TOPOLOGY LEDGER VERDICTS`.
    Judge(JudgeWords<'a>),
}

/// Reads the words after the program's name.
///
/// `Refused`: the words are no command. `OutOfMemory`: no memory; it comes only where the first
/// word is `run`, and may come there in place of `Refused`. Other words take no memory.
#[tactic(auto, unfolding(crate::specs::Request::request_of))]
pub fn asked_for<'a>(alloc: Global, words: &'a [String]) -> Result<Asked<'a>, WordsError>
    ensures asks { AsksFor request_in (request_of (map string_bytes words.entry.now)) result }
    ensures memory { result ≡ Err WordsError.OutOfMemory
        → IsTrue (is_command (codes "run") (map string_bytes words.entry.now)) }
    ensures some_bytes { IfOk result (λ asked. IfPoliced asked (λ p. 1 ≤ p.budget)) }
    ensures most_bytes { IfOk result
        (λ asked. IfPoliced asked (λ p. p.budget ≤ 1099511627776)) }
    ensures some_time { IfOk result (λ asked. IfPoliced asked (λ p. 1 ≤ p.span_us)) }
    ensures most_time { IfOk result (λ asked. IfPoliced asked (λ p. p.span_us ≤ 3600000000)) }
{
    let [command, rest @ ..] = words else {
        return Err(WordsError::Refused);
    };
    match command.as_str() {
        "hop" => match hop_words(rest) {
            Some(words) => Ok(Asked::Hop(words)),
            None => Err(WordsError::Refused),
        },
        "run" => match run_words(alloc, rest) {
            Ok(words) => Ok(Asked::Run(words)),
            Err(error) => Err(error),
        },
        "gen" => match gen_words(rest) {
            Some(words) => Ok(Asked::Gen(words)),
            None => Err(WordsError::Refused),
        },
        "judge" => match judge_words(rest) {
            Some(words) => Ok(Asked::Judge(words)),
            None => Err(WordsError::Refused),
        },
        _ => Err(WordsError::Refused),
    }
}
