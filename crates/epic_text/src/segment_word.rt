//! The last issues of a path's segments, as a word of a script writes them.

ghost use Rattle.std.specs.Prelude.{◌≡◌, ◌≤◌, length, map, take, IfOk};
ghost use Rattle.std.specs.List.{All, slice_split};
ghost use Rattle.epic_text.specs.RunScript.{IsWord, is_comma, numbers_in, segments_of};
ghost use Rattle.epic_text.specs.Script.{IsShort};

use crate::script::WordsError;
use crate::word::{bad, read_u32};
use arrayvec::ArrayVec;
use std::alloc::{AllocError, Global};

/// The first four parts of a word, between which there are commas.
fn first_parts<'a>(alloc: Global, text: &'a [u8]) -> Result<Vec<&'a [u8]>, AllocError>
    ensures value { IfOk result (λ v. map (λ part. part.now) v.items ≡ take 4 (slice_split is_comma text.entry.now)) }
    ensures within { IfOk result (λ v. All (λ part. length part.now ≤ length text.entry.now) v.items) }
{
    text.split(|&byte| byte == b',').take(4).collect(alloc)
}

/// Numbers of 32 bits, at most three.
fn read_numbers(parts: &[&[u8]], word: u32) -> Result<ArrayVec<u32, 3>, WordsError>
    requires { All (λ part. IsShort part.now) parts.now }
    ensures { IsWord word (numbers_in (map (λ part. part.now) parts.now)) result }
{
    if parts.len() > 3 {
        return Err(bad(word));
    }
    let mut numbers = ArrayVec::new();
    for part in parts {
        numbers.push(read_u32(part, word)?);
    }
    Ok(numbers)
}

/// One to three numbers of 32 bits, with a comma between two.
#[tactic(auto, unfolding(crate::specs::RunScript::segments_of))]
pub fn read_segments(alloc: Global, text: &[u8], word: u32) -> Result<ArrayVec<u32, 3>, WordsError>
    requires { IsShort text.now }
    ensures { IsWord word (segments_of text.now) result }
{
    let parts = first_parts(alloc, text)?;
    read_numbers(&parts, word)
}
