//! The commands of a script: one a line, but for comments and lines without words.

ghost use Rattle.std.specs.Prelude.{◌≡◌, ◌^◌, ◌<◌, ◌≤◌, ℕ, length, map, vec_len, List, Option, Result, IfOk};
ghost use Rattle.std.specs.List.{All};
ghost use Rattle.epic_text.specs.Script.{IsByRule, IsScript, IsShort, line_command, commands_of};
ghost use Rattle.epic_text.specs.declared.script.ScriptKind.{ScriptKind};
ghost use Rattle.epic_text.specs.declared.script.ScriptError.TheVariants as script_error;
ghost use Rattle.epic_text.specs.declared.script.WordsError.TheVariants as words_error;

use crate::lines::{first_line, is_text, words};
use std::alloc::{AllocError, AllocFailed, Global};

/// The greatest number of commands of a script.
pub const MAX_COMMANDS: usize = 524_288;

/// Why a line is refused.
#[derive(Clone, Copy, Debug, PartialEq, Eq)]
pub enum ScriptKind {
    /// A byte that is no printing character of ASCII, space or tab.
    NotText,
    /// The first word is none of the commands' verbs.
    UnknownVerb,
    /// The command has another number of words.
    WordCount,
    /// The first word that isn't of its form; the verb is word 1.
    BadWord { word: u32 },
    /// A command after the greatest number of them.
    TooMany,
}

/// Why a text is no script.
#[derive(Clone, Copy, Debug, PartialEq, Eq)]
pub enum ScriptError {
    /// The first line that is refused, counted from 1, and why.
    Bad { line: u32, kind: ScriptKind },
    OutOfMemory,
}

impl From<AllocError> for ScriptError {
    ghost from_gives = { λ _ e. e ≡ script_error.OutOfMemory };

    fn from(_e: AllocError) -> ScriptError {
        ScriptError::OutOfMemory
    }
}

impl<T: Drop> From<AllocFailed<T>> for ScriptError {
    ghost from_gives = { λ _ e. e ≡ script_error.OutOfMemory };

    fn from(_e: AllocFailed<T>) -> ScriptError {
        ScriptError::OutOfMemory
    }
}

/// Why words are no command.
#[derive(Clone, Copy, Debug, PartialEq, Eq)]
pub enum WordsError {
    Refused(ScriptKind),
    OutOfMemory,
}

impl From<AllocError> for WordsError {
    ghost from_gives = { λ _ e. e ≡ words_error.OutOfMemory };

    fn from(_e: AllocError) -> WordsError {
        WordsError::OutOfMemory
    }
}

/// A command that the words of a line spell.
pub trait FromWords: Drop {
    ghost rule: { List ℕ → List (List ℕ) → Result Self ScriptKind };

    /// The command of the first word of a line and the words after it.
    fn from_words(alloc: Global, verb: &[u8], arguments: &[&[u8]]) -> Result<Self, WordsError>
        requires { All (λ word. IsShort word.now) arguments.now }
        ensures { IsByRule (rule verb.now (map (λ word. word.now) arguments.now)) result };
}

/// The command of a line, if it has one.
fn read_line<C: FromWords>(alloc: Global, line: &[u8]) -> Result<Option<C>, WordsError>
    requires { IsShort line.now }
    ensures { IsByRule (line_command C.rule line.now) result }
{
    if !is_text(line) {
        return Err(WordsError::Refused(ScriptKind::NotText));
    }
    let words = words(alloc, line)?;
    match words.as_slice() {
        [] | [[b'#', ..], ..] => Ok(None),
        [verb, arguments @ ..] => Ok(Some(C::from_words(alloc, verb, arguments)?)),
    }
}

/// The commands of `text`, in order.
///
/// `ScriptError::Bad` tells the first line that is refused.
pub fn read_script<C: FromWords>(alloc: Global, text: &[u8]) -> Result<Vec<C>, ScriptError>
    requires { IsShort text.now }
    ensures value { IsScript (commands_of C.rule text.now) result }
    ensures few { IfOk result (λ commands. vec_len commands ≤ MAX_COMMANDS) }
{
    let mut commands = Vec::new(alloc);
    let mut rest = text;
    let mut number = 0;
    while !rest.is_empty() {
        let (line, after) = first_line(rest);
        rest = after;
        number += 1;
        match read_line(alloc, line) {
            Ok(None) => {}
            Ok(Some(command)) => {
                if commands.len() == MAX_COMMANDS {
                    return Err(ScriptError::Bad {
                        line: number,
                        kind: ScriptKind::TooMany,
                    });
                }
                commands.push(command)?;
            }
            Err(WordsError::Refused(kind)) => {
                return Err(ScriptError::Bad { line: number, kind });
            }
            Err(WordsError::OutOfMemory) => return Err(ScriptError::OutOfMemory),
        }
    }
    Ok(commands)
}

#[cfg(test)]
mod tests;
