//! Words that are numbers, ASes or bytes. `word` is the word's number in its line, where the verb is word 1.

ghost use Rattle.std.specs.Prelude.{◌≡◌, ◌≤◌, IfOk};
ghost use Rattle.std.specs.List.{list_any};
ghost use Rattle.epic_num.specs.Names.{host_of, number_within};
ghost use Rattle.epic_text.specs.RunScript.{IsWord, as_named, bytes_of, holder_named, is_comma, level_named, most8, most16, most32};
ghost use Rattle.epic_text.specs.Script.{IsShort};
ghost use Rattle.epic_text.specs.declared.script.ScriptKind.TheVariants.{BadWord};
ghost use Rattle.epic_text.specs.declared.script.WordsError.TheVariants as words_error;

use crate::script::{ScriptKind, WordsError};
use epic_num::{AsId, Bytes, Holder, HostId, Level};
use hex::FromHexError;
use std::alloc::Global;

/// The refusal of a word that isn't of its form.
pub fn bad(word: u32) -> WordsError
    ensures { result ≡ words_error.Refused (BadWord word) }
{
    WordsError::Refused(ScriptKind::BadWord { word })
}

/// An AS.
#[tactic(auto, unfolding(crate::specs::RunScript::as_named))]
pub fn read_as(text: &[u8], word: u32) -> Result<AsId, WordsError>
    requires { IsShort text.now }
    ensures { IsWord word (as_named text.now) result }
{
    match epic_num::read_as(text) {
        Ok(a) => Ok(a),
        Err(_) => Err(bad(word)),
    }
}

/// A host.
pub fn read_host(text: &[u8], word: u32) -> Result<HostId, WordsError>
    requires { IsShort text.now }
    ensures { IsWord word (host_of text.now) result }
{
    match epic_num::read_host(text) {
        Ok(host) => Ok(host),
        Err(_) => Err(bad(word)),
    }
}

/// Whether there is a comma in `text`.
fn has_comma(text: &[u8]) -> bool
    ensures { result ≡ list_any is_comma text.now }
{
    text.iter().any(|&byte| byte == b',')
}

/// A host where the word has a comma, and else an AS.
#[tactic(auto, unfolding(crate::specs::RunScript::holder_named))]
pub fn read_holder(text: &[u8], word: u32) -> Result<Holder, WordsError>
    requires { IsShort text.now }
    ensures { IsWord word (holder_named text.now) result }
{
    if has_comma(text) {
        Ok(Holder::Host(read_host(text, word)?))
    } else {
        Ok(Holder::As(read_as(text, word)?))
    }
}

/// A packet's version and level.
#[tactic(auto, unfolding(crate::specs::RunScript::level_named))]
pub fn read_level(text: &[u8], word: u32) -> Result<(u8, Level), WordsError>
    ensures { IsWord word (level_named text.now) result }
{
    if text == b"0".as_slice() {
        Ok((1, Level::L0))
    } else if text == b"1".as_slice() {
        Ok((1, Level::L1))
    } else if text == b"2".as_slice() {
        Ok((1, Level::L2))
    } else if text == b"3".as_slice() {
        Ok((1, Level::L3))
    } else if text == b"2w".as_slice() {
        Ok((2, Level::L2))
    } else if text == b"3w".as_slice() {
        Ok((2, Level::L3))
    } else {
        Err(bad(word))
    }
}

/// A number of at most `most`.
#[tactic(auto, using(crate::proofs::Numbers::number_most))]
pub fn read_u64(text: &[u8], word: u32, most: u64) -> Result<u64, WordsError>
    requires { IsShort text.now }
    ensures value { IsWord word (number_within most text.now) result }
    ensures most { IfOk result (λ n. n ≤ most) }
{
    match epic_num::read_number(text, most) {
        Ok(n) => Ok(n),
        Err(_) => Err(bad(word)),
    }
}

/// A number of 8 bits.
pub fn read_u8(text: &[u8], word: u32) -> Result<u8, WordsError>
    requires { IsShort text.now }
    ensures { IsWord word (number_within most8 text.now) result }
{
    let n = read_u64(text, word, u64::from(u8::MAX))?;
    Ok(n as u8)
}

/// A number of 16 bits.
pub fn read_u16(text: &[u8], word: u32) -> Result<u16, WordsError>
    requires { IsShort text.now }
    ensures { IsWord word (number_within most16 text.now) result }
{
    let n = read_u64(text, word, u64::from(u16::MAX))?;
    Ok(n as u16)
}

/// A number of 32 bits.
pub fn read_u32(text: &[u8], word: u32) -> Result<u32, WordsError>
    requires { IsShort text.now }
    ensures { IsWord word (number_within most32 text.now) result }
{
    let n = read_u64(text, word, u64::from(u32::MAX))?;
    Ok(n as u32)
}

/// Bytes, an even number of hexadecimal digits in either case, or `-` for none.
#[tactic(auto, unfolding(crate::specs::RunScript::bytes_of))]
pub fn read_bytes(alloc: Global, text: &[u8], word: u32) -> Result<Bytes, WordsError>
    ensures { IsWord word (bytes_of text.now) result }
{
    if text == b"-".as_slice() {
        return Ok(Bytes::from_vec(Vec::new(alloc)));
    }
    match hex::decode(alloc, text) {
        Ok(bytes) => Ok(Bytes::from_vec(bytes)),
        Err(FromHexError::OutOfMemory) => Err(WordsError::OutOfMemory),
        Err(_) => Err(bad(word)),
    }
}
