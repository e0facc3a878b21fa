//! The words after `run`, read by clap.

ghost use Rattle.std.specs.Prelude.{◌≡◌, IfOk, IfErr, map, true, false};
ghost use Rattle.std.specs.String.{string_bytes};
ghost use Rattle.clap.specs.Words.{app_of, found_of, new_app, rows_of, rule_of};
ghost use Rattle.epic_words.specs.RunCommand.{flag, option, positional};
ghost use Rattle.epic_words.specs.RunCommand.{is_refused, rows_in, run_command};

use crate::error::WordsError;
use clap::error::ErrorKind;
use clap::{Arg, ArgAction, ArgMatches, Command};
use std::alloc::{AllocError, Global};

/// A name that has to be there.
fn positional<'a>(alloc: Global, id: &'a str) -> Arg<'a>
    ensures rule { rule_of result ≡ positional id.entry.now }
    ensures local { result.global ≡ false }
{
    Arg::new(alloc, id).required(true).action(ArgAction::Set)
}

/// An option with a value.
fn option<'a>(alloc: Global, id: &'a str) -> Arg<'a>
    ensures rule { rule_of result ≡ option id.entry.now }
    ensures local { result.global ≡ false }
{
    Arg::new(alloc, id).long(id).action(ArgAction::Set)
}

/// An option without a value.
fn flag<'a>(alloc: Global, id: &'a str) -> Arg<'a>
    ensures rule { rule_of result ≡ flag id.entry.now }
    ensures local { result.global ≡ false }
{
    Arg::new(alloc, id).long(id).action(ArgAction::SetTrue)
}

/// The command of the words after `run`. An error comes only where memory ran out.
#[tactic(auto, unfolding(crate::specs::RunCommand::run_command))]
fn run_command<'a>(alloc: Global) -> Result<Command<'a>, AllocError>
    ensures { IfOk result (λ command. app_of command ≡ run_command) }
{
    let bare = Command::new(alloc, "run")
        .no_binary_name(true)
        .disable_help_flag(true)
        .disable_version_flag(true);
    bare.arg(positional(alloc, "topology"))?
        .arg(positional(alloc, "script"))?
        .arg(option(alloc, "capture"))?
        .arg(option(alloc, "save"))?
        .arg(option(alloc, "ledger"))?
        .arg(option(alloc, "verdicts"))?
        .arg(flag(alloc, "makers"))?
        .arg(option(alloc, "budget"))?
        .arg(option(alloc, "span"))
}

/// What clap finds in the words after `run`.
pub(crate) fn parse<'a>(alloc: Global, words: &'a [String]) -> Result<ArgMatches<'a>, WordsError>
    ensures takes { IfOk result (λ matches.
        (is_refused run_command (map string_bytes words.entry.now) ≡ false)
        × (rows_of (found_of matches) ≡ rows_in run_command (map string_bytes words.entry.now))) }
    ensures refuses { IfErr result (λ error. error ≡ WordsError.Refused
        → is_refused run_command (map string_bytes words.entry.now) ≡ true) }
{
    let Ok(command) = run_command(alloc) else {
        return Err(WordsError::OutOfMemory);
    };
    match command.try_get_matches_from(words) {
        Ok(matches) => Ok(matches),
        Err(error) => match error.kind() {
            ErrorKind::OutOfMemory => Err(WordsError::OutOfMemory),
            _ => Err(WordsError::Refused),
        },
    }
}
