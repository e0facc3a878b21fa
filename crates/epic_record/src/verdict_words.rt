//! What the words of a verdict tell.
//!
//! `n` is the number of a verdict's first word in its line. `at` is what the line's second word says of the hop's index, if it is
//! a number: it is judged before the words of the verdict.

ghost use Rattle.std.specs.Prelude.{◌≡◌, ◌≤◌, ◌+◌, map, Ok};
ghost use Rattle.std.specs.List.{All};
ghost use Rattle.epic_text.specs.RunScript.{bytes_of};
ghost use Rattle.epic_text.specs.Script.{IsShort};
ghost use Rattle.epic_record.specs.declared.told.Told.TheVariants as told;
ghost use Rattle.epic_record.specs.declared.told.ToldForgery.TheVariants as forgeries;
ghost use Rattle.epic_record.specs.VerdictWords.{collided_of, forged_of, hop_named, opened_of, over_named, over_of, pair_of, plain_of, proved_of, signed_named, told_plainly, unclaimed_of, update_of, verdict_of};
ghost use Rattle.epic_record.specs.Words.{IsLine, IsWord, on_word, on_words};

use crate::fault::{FileKind, LineError};
use crate::key_word::{read_key, read_over_key};
use crate::told::{Told, ToldForgery};
use crate::word::{bad, read_as, read_body, read_bytes, read_u8, read_u32};
use epic_num::{Bytes, HopName, KeyName, Part};
use std::alloc::Global;

/// The index of a line's second word.
fn judged(at: Option<u8>) -> Result<u8, LineError>
    ensures { IsWord 2 at result }
{
    match at {
        Some(index) => Ok(index),
        None => Err(bad(2)),
    }
}

/// The words after `proved`: one number or two.
fn proved(n: u32, at: Option<u8>, arguments: &[&[u8]]) -> Result<Told, LineError>
    requires small { n ≤ 3 }
    requires arguments { All (λ word. IsShort word.now) arguments.now }
    ensures { IsLine (proved_of n at (map (λ word. word.now) arguments.now)) result }
{
    match arguments {
        [first] => {
            let _index = judged(at)?;
            Ok(Told::Proved {
                first: read_u32(first, n + 1)?,
                second: None,
            })
        }
        [first, second] => {
            let _index = judged(at)?;
            Ok(Told::Proved {
                first: read_u32(first, n + 1)?,
                second: Some(read_u32(second, n + 2)?),
            })
        }
        _ => Err(LineError::Refused(FileKind::WordCount)),
    }
}

/// No words after `unclaimed`.
fn unclaimed(at: Option<u8>, arguments: &[&[u8]]) -> Result<Told, LineError>
    ensures { IsLine (unclaimed_of at (map (λ word. word.now) arguments.now)) result }
{
    match arguments {
        [] => {
            let _index = judged(at)?;
            Ok(Told::Unclaimed)
        }
        _ => Err(LineError::Refused(FileKind::WordCount)),
    }
}

/// The word after `opened`: a step.
fn opened(n: u32, at: Option<u8>, arguments: &[&[u8]]) -> Result<Told, LineError>
    requires small { n ≤ 3 }
    requires arguments { All (λ word. IsShort word.now) arguments.now }
    ensures { IsLine (opened_of n at (map (λ word. word.now) arguments.now)) result }
{
    match arguments {
        [step] => {
            let _index = judged(at)?;
            Ok(Told::Opened {
                step: read_u32(step, n + 1)?,
            })
        }
        _ => Err(LineError::Refused(FileKind::WordCount)),
    }
}

/// A key and what a tag is made over under it, of which the first is the word `n`.
fn signed(alloc: Global, key: &[u8], message: &[u8], n: u32) -> Result<(KeyName, Bytes), LineError>
    requires small { n ≤ 8 }
    requires key { IsShort key.now }
    ensures { IsLine (signed_named n key.now message.now) result }
{
    let key = read_key(alloc, key, n)?;
    let message = read_bytes(alloc, message, n + 1)?;
    Ok((key, message))
}

/// The key of a field over an authenticator, and what the field is made over, of which the first is the word `n`.
fn over_authenticator(
    alloc: Global,
    key: &[u8],
    message: &[u8],
    n: u32,
) -> Result<ToldForgery, LineError>
    requires small { n ≤ 8 }
    requires key { IsShort key.now }
    ensures { IsLine (over_named n key.now message.now) result }
{
    let key = read_over_key(alloc, key, n)?;
    let message = read_bytes(alloc, message, n + 1)?;
    Ok(ToldForgery::Over { key, message })
}

/// The words after `forged issue`, `forged field` and `forged dest`: a key, a message and a tag.
fn plain(
    alloc: Global,
    n: u32,
    at: Option<u8>,
    arguments: &[&[u8]],
) -> Result<((KeyName, Bytes), Bytes), LineError>
    requires small { n ≤ 3 }
    requires arguments { All (λ word. IsShort word.now) arguments.now }
    ensures { IsLine (plain_of n at (map (λ word. word.now) arguments.now)) result }
{
    match arguments {
        [key, message, tag] => {
            let _index = judged(at)?;
            let signed = signed(alloc, key, message, n + 2)?;
            let tag = read_bytes(alloc, tag, n + 4)?;
            Ok((signed, tag))
        }
        _ => Err(LineError::Refused(FileKind::WordCount)),
    }
}

/// The last words after `forged issue-over`: the field's key, message and tag. `signed` are the authenticator's key and
/// message.
fn over_end(
    alloc: Global,
    signed: (KeyName, Bytes),
    key: &[u8],
    message: &[u8],
    tag: &[u8],
    n: u32,
) -> Result<Told, LineError>
    requires small { n ≤ 3 }
    requires key { IsShort key.now }
    ensures { IsLine
        (on_words (over_named (n + 4) key.now message.now) (λ what.
        on_word (n + 6) (bytes_of tag.now) (λ g. Ok (told.Forged what signed.0 signed.1 g))))
        result }
{
    let what = over_authenticator(alloc, key, message, n + 4)?;
    let tag = read_bytes(alloc, tag, n + 6)?;
    let (key, message) = signed;
    Ok(Told::Forged {
        what,
        key,
        message,
        tag,
    })
}

/// The words after `forged issue-over`: the authenticator's key and message, and the field's key, message and tag.
fn over(alloc: Global, n: u32, at: Option<u8>, arguments: &[&[u8]]) -> Result<Told, LineError>
    requires small { n ≤ 3 }
    requires arguments { All (λ word. IsShort word.now) arguments.now }
    ensures { IsLine (over_of n at (map (λ word. word.now) arguments.now)) result }
{
    match arguments {
        [key, message, over, under, tag] => {
            let _index = judged(at)?;
            let signed = signed(alloc, key, message, n + 2)?;
            over_end(alloc, signed, over, under, tag, n)
        }
        _ => Err(LineError::Refused(FileKind::WordCount)),
    }
}

/// The words after `forged update`: a hop's index, a key, a message and a tag.
fn update(alloc: Global, n: u32, at: Option<u8>, arguments: &[&[u8]]) -> Result<Told, LineError>
    requires small { n ≤ 3 }
    requires arguments { All (λ word. IsShort word.now) arguments.now }
    ensures { IsLine (update_of n at (map (λ word. word.now) arguments.now)) result }
{
    match arguments {
        [hop, key, message, tag] => {
            let _index = judged(at)?;
            let hop = read_u8(hop, n + 2)?;
            let (key, message) = signed(alloc, key, message, n + 3)?;
            let tag = read_bytes(alloc, tag, n + 5)?;
            Ok(Told::Forged {
                what: ToldForgery::Update { hop },
                key,
                message,
                tag,
            })
        }
        _ => Err(LineError::Refused(FileKind::WordCount)),
    }
}

/// The words after `forged issue`.
fn issue(alloc: Global, n: u32, at: Option<u8>, arguments: &[&[u8]]) -> Result<Told, LineError>
    requires small { n ≤ 3 }
    requires arguments { All (λ word. IsShort word.now) arguments.now }
    ensures { IsLine
        (told_plainly forgeries.Issue (plain_of n at (map (λ word. word.now) arguments.now)))
        result }
{
    let ((key, message), tag) = plain(alloc, n, at, arguments)?;
    Ok(Told::Forged {
        what: ToldForgery::Issue,
        key,
        message,
        tag,
    })
}

/// The words after `forged field`.
fn field(alloc: Global, n: u32, at: Option<u8>, arguments: &[&[u8]]) -> Result<Told, LineError>
    requires small { n ≤ 3 }
    requires arguments { All (λ word. IsShort word.now) arguments.now }
    ensures { IsLine
        (told_plainly forgeries.Field (plain_of n at (map (λ word. word.now) arguments.now)))
        result }
{
    let ((key, message), tag) = plain(alloc, n, at, arguments)?;
    Ok(Told::Forged {
        what: ToldForgery::Field,
        key,
        message,
        tag,
    })
}

/// The words after `forged dest`.
fn dest(alloc: Global, n: u32, at: Option<u8>, arguments: &[&[u8]]) -> Result<Told, LineError>
    requires small { n ≤ 3 }
    requires arguments { All (λ word. IsShort word.now) arguments.now }
    ensures { IsLine
        (told_plainly forgeries.Dest (plain_of n at (map (λ word. word.now) arguments.now)))
        result }
{
    let ((key, message), tag) = plain(alloc, n, at, arguments)?;
    Ok(Told::Forged {
        what: ToldForgery::Dest,
        key,
        message,
        tag,
    })
}

/// The words after `forged`.
fn forged(alloc: Global, n: u32, at: Option<u8>, arguments: &[&[u8]]) -> Result<Told, LineError>
    requires small { n ≤ 3 }
    requires arguments { All (λ word. IsShort word.now) arguments.now }
    ensures { IsLine (forged_of n at (map (λ word. word.now) arguments.now)) result }
{
    match arguments {
        [] => Err(LineError::Refused(FileKind::WordCount)),
        [what, more @ ..] => {
            if *what == b"issue".as_slice() {
                issue(alloc, n, at, more)
            } else if *what == b"issue-over".as_slice() {
                over(alloc, n, at, more)
            } else if *what == b"field".as_slice() {
                field(alloc, n, at, more)
            } else if *what == b"update".as_slice() {
                update(alloc, n, at, more)
            } else if *what == b"dest".as_slice() {
                dest(alloc, n, at, more)
            } else {
                Err(bad(n + 1))
            }
        }
    }
}

/// A hop's name: its AS, the generation of its key and its body, whose words begin with the word `n`.
fn hop_name(asn: &[u8], generation: &[u8], body: &[u8], n: u32) -> Result<HopName, LineError>
    requires small { n ≤ 8 }
    requires asn { IsShort asn.now }
    requires generation { IsShort generation.now }
    ensures { IsLine (hop_named n asn.now generation.now body.now) result }
{
    Ok(HopName {
        asn: read_as(asn, n)?,
        generation: read_u32(generation, n + 1)?,
        body: read_body(body, n + 2)?,
    })
}

/// The last words after `collided link` or `collided sigma`: the second hop and a tag.
fn pair_end(
    alloc: Global,
    hops: (Part, HopName),
    asn: &[u8],
    generation: &[u8],
    body: &[u8],
    tag: &[u8],
    n: u32,
) -> Result<Told, LineError>
    requires small { n ≤ 3 }
    requires asn { IsShort asn.now }
    requires generation { IsShort generation.now }
    ensures { IsLine
        (on_words (hop_named (n + 5) asn.now generation.now body.now) (λ y.
        on_word (n + 8) (bytes_of tag.now) (λ g. Ok (told.Collided hops.0 hops.1 y g))))
        result }
{
    let right = hop_name(asn, generation, body, n + 5)?;
    let tag = read_bytes(alloc, tag, n + 8)?;
    let (part, left) = hops;
    Ok(Told::Collided {
        part,
        left,
        right,
        tag,
    })
}

/// The words after `collided link` or `collided sigma`: two hops and a tag.
fn pair(
    alloc: Global,
    part: Part,
    n: u32,
    at: Option<u8>,
    arguments: &[&[u8]],
) -> Result<Told, LineError>
    requires small { n ≤ 3 }
    requires arguments { All (λ word. IsShort word.now) arguments.now }
    ensures { IsLine (pair_of part n at (map (λ word. word.now) arguments.now)) result }
{
    match arguments {
        [asn, generation, body, other, number, another, tag] => {
            let _index = judged(at)?;
            let left = hop_name(asn, generation, body, n + 2)?;
            pair_end(alloc, (part, left), other, number, another, tag, n)
        }
        _ => Err(LineError::Refused(FileKind::WordCount)),
    }
}

/// The words after `collided`.
fn collided(alloc: Global, n: u32, at: Option<u8>, arguments: &[&[u8]]) -> Result<Told, LineError>
    requires small { n ≤ 3 }
    requires arguments { All (λ word. IsShort word.now) arguments.now }
    ensures { IsLine (collided_of n at (map (λ word. word.now) arguments.now)) result }
{
    match arguments {
        [] => Err(LineError::Refused(FileKind::WordCount)),
        [part, more @ ..] => {
            if *part == b"link".as_slice() {
                pair(alloc, Part::Link, n, at, more)
            } else if *part == b"sigma".as_slice() {
                pair(alloc, Part::Sigma, n, at, more)
            } else {
                Err(bad(n + 1))
            }
        }
    }
}

/// The words of a verdict.
pub fn verdict_by_words(
    alloc: Global,
    n: u32,
    at: Option<u8>,
    words: &[&[u8]],
) -> Result<Told, LineError>
    requires small { n ≤ 3 }
    requires words { All (λ word. IsShort word.now) words.now }
    ensures { IsLine (verdict_of n at (map (λ word. word.now) words.now)) result }
{
    match words {
        [] => Err(LineError::Refused(FileKind::WordCount)),
        [word, more @ ..] => {
            if *word == b"proved".as_slice() {
                proved(n, at, more)
            } else if *word == b"unclaimed".as_slice() {
                unclaimed(at, more)
            } else if *word == b"opened".as_slice() {
                opened(n, at, more)
            } else if *word == b"forged".as_slice() {
                forged(alloc, n, at, more)
            } else if *word == b"collided".as_slice() {
                collided(alloc, n, at, more)
            } else {
                Err(bad(n))
            }
        }
    }
}
