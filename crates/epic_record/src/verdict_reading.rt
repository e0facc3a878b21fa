//! What a line of a verdict file tells.

ghost use Rattle.std.specs.Prelude.{◌≡◌, map, Ok};
ghost use Rattle.std.specs.List.{All};
ghost use Rattle.epic_num.specs.Names.{number_within};
ghost use Rattle.epic_text.specs.RunScript.{most8};
ghost use Rattle.epic_text.specs.Script.{IsShort};
ghost use Rattle.epic_record.specs.VerdictFile.{at_index, dest_told, hop_told, hop_verdict_of, told_at_dest, told_at_hop};
ghost use Rattle.epic_record.specs.Words.{IsLine};

use crate::fault::{FileKind, LineError};
use crate::split_words::{first_words, is_plain};
use crate::told::Told;
use crate::verdict_words::verdict_by_words;
use epic_num::read_number;
use std::alloc::Global;

/// The index of a hop, if the word is a number of 8 bits.
#[tactic(auto, using(epic_text::proofs::Numbers::number_most))]
fn index_of(text: &[u8]) -> Option<u8>
    requires { IsShort text.now }
    ensures { result ≡ number_within most8 text.now }
{
    match read_number(text, u64::from(u8::MAX)) {
        Ok(n) => Some(n as u8),
        Err(_) => None,
    }
}

/// What a line tells, if it has the hop's index.
fn at_index(hop: u8, at: Option<u8>, told: Told) -> Result<Told, LineError>
    ensures { IsLine (at_index hop at (Ok told)) result }
{
    match at {
        Some(index) if index == hop => Ok(told),
        _ => Err(LineError::Refused(FileKind::BadPlace)),
    }
}

/// The words after `hop`: the hop's index, and a verdict.
fn hop_verdict(alloc: Global, hop: u8, words: &[&[u8]]) -> Result<Told, LineError>
    requires { All (λ word. IsShort word.now) words.now }
    ensures { IsLine (hop_verdict_of hop (map (λ word. word.now) words.now)) result }
{
    match words {
        [] => Err(LineError::Refused(FileKind::WordCount)),
        [index, verdict @ ..] => {
            let at = index_of(index);
            let told = verdict_by_words(alloc, 3, at, verdict)?;
            at_index(hop, at, told)
        }
    }
}

/// The words of a hop's line.
fn hop_told(alloc: Global, hop: u8, words: &[&[u8]]) -> Result<Told, LineError>
    requires { All (λ word. IsShort word.now) words.now }
    ensures { IsLine (hop_told hop (map (λ word. word.now) words.now)) result }
{
    match words {
        [] => Err(LineError::Refused(FileKind::UnknownVerb)),
        [verb, more @ ..] => {
            if *verb == b"hop".as_slice() {
                hop_verdict(alloc, hop, more)
            } else {
                Err(LineError::Refused(FileKind::UnknownVerb))
            }
        }
    }
}

/// The words of a destination's line.
fn dest_told(alloc: Global, words: &[&[u8]]) -> Result<Told, LineError>
    requires { All (λ word. IsShort word.now) words.now }
    ensures { IsLine (dest_told (map (λ word. word.now) words.now)) result }
{
    match words {
        [] => Err(LineError::Refused(FileKind::UnknownVerb)),
        [verb, verdict @ ..] => {
            if *verb == b"dest".as_slice() {
                verdict_by_words(alloc, 2, Some(0), verdict)
            } else {
                Err(LineError::Refused(FileKind::UnknownVerb))
            }
        }
    }
}

/// What a line of a verdict file tells of a hop that a router accepted, by its index in the packet, from 0; the line feed is left
/// out.
///
/// `LineError::Refused` has the first fault of the line: a byte that is no text, a first word other than `hop`, the number of
/// words, the first bad word, another hop's index. A word that chooses the form of a verdict is tried before the number of words.
#[tactic(auto, unfolding(crate::specs::VerdictFile::told_at_hop))]
pub fn read_hop_verdict(alloc: Global, hop: u8, line: &[u8]) -> Result<Told, LineError>
    requires { IsShort line.now }
    ensures { IsLine (told_at_hop hop line.now) result }
{
    if !is_plain(line) {
        return Err(LineError::Refused(FileKind::NotText));
    }
    let words = first_words(alloc, line)?;
    hop_told(alloc, hop, &words)
}

/// What a line of a verdict file tells of a packet that its destination took, as `read_hop_verdict`; its first word is `dest`.
#[tactic(auto, unfolding(crate::specs::VerdictFile::told_at_dest))]
pub fn read_dest_verdict(alloc: Global, line: &[u8]) -> Result<Told, LineError>
    requires { IsShort line.now }
    ensures { IsLine (told_at_dest line.now) result }
{
    if !is_plain(line) {
        return Err(LineError::Refused(FileKind::NotText));
    }
    let words = first_words(alloc, line)?;
    dest_told(alloc, &words)
}
