//! The words of a line. `word` is a word's number in its line, from 1.

ghost use Rattle.std.specs.Prelude.{◌≡◌, Option};
ghost use Rattle.epic_num.specs.Names.{host_from, host_of, number_within};
ghost use Rattle.epic_text.specs.RunScript as script;
ghost use Rattle.epic_text.specs.RunScript.{as_named, bytes_of, holder_named, most8, most16, most32, most64, segments_of};
ghost use Rattle.epic_text.specs.Script.{IsShort};
ghost use Rattle.epic_record.specs.declared.fault.FileKind.TheVariants.{BadWord};
ghost use Rattle.epic_record.specs.declared.fault.LineError.TheVariants as line_error;
ghost use Rattle.epic_record.specs.Words.{IsWord, body_named};

use crate::body::body_named;
use crate::fault::{FileKind, LineError};
use arrayvec::ArrayVec;
use epic_num::{AsId, Body, Bytes, Holder, HostId, read_any_host};
use epic_text::WordsError;
use std::alloc::Global;

/// The refusal of a word that isn't of its form.
pub fn bad(word: u32) -> LineError
    ensures { result ≡ line_error.Refused (BadWord word) }
{
    LineError::Refused(FileKind::BadWord { word })
}

/// A word as a script reads it.
fn as_in_script<T: Drop>(read: Result<T, WordsError>, word: u32) -> Result<T, LineError>
    ensures { (told : Option T) → script.IsWord word told read → IsWord word told result }
{
    match read {
        Ok(value) => Ok(value),
        Err(WordsError::Refused(_)) => Err(bad(word)),
        Err(WordsError::OutOfMemory) => Err(LineError::OutOfMemory),
    }
}

/// An AS.
pub fn read_as(text: &[u8], word: u32) -> Result<AsId, LineError>
    requires { IsShort text.now }
    ensures { IsWord word (as_named text.now) result }
{
    as_in_script(epic_text::read_as(text, word), word)
}

/// A host.
pub fn read_host(text: &[u8], word: u32) -> Result<HostId, LineError>
    requires { IsShort text.now }
    ensures { IsWord word (host_of text.now) result }
{
    as_in_script(epic_text::read_host(text, word), word)
}

/// A host of any AS: its isolation domain and its number there may be 0.
pub fn read_source(text: &[u8], word: u32) -> Result<HostId, LineError>
    requires { IsShort text.now }
    ensures { IsWord word (host_from 0 text.now) result }
{
    match read_any_host(text) {
        Ok(host) => Ok(host),
        Err(_) => Err(bad(word)),
    }
}

/// A host where the word has a comma, and else an AS.
pub fn read_holder(text: &[u8], word: u32) -> Result<Holder, LineError>
    requires { IsShort text.now }
    ensures { IsWord word (holder_named text.now) result }
{
    as_in_script(epic_text::read_holder(text, word), word)
}

/// A number of 8 bits.
pub fn read_u8(text: &[u8], word: u32) -> Result<u8, LineError>
    requires { IsShort text.now }
    ensures { IsWord word (number_within most8 text.now) result }
{
    as_in_script(epic_text::read_u8(text, word), word)
}

/// A number of 16 bits.
pub fn read_u16(text: &[u8], word: u32) -> Result<u16, LineError>
    requires { IsShort text.now }
    ensures { IsWord word (number_within most16 text.now) result }
{
    as_in_script(epic_text::read_u16(text, word), word)
}

/// A number of 32 bits.
pub fn read_u32(text: &[u8], word: u32) -> Result<u32, LineError>
    requires { IsShort text.now }
    ensures { IsWord word (number_within most32 text.now) result }
{
    as_in_script(epic_text::read_u32(text, word), word)
}

/// A number of 64 bits.
pub fn read_u64(text: &[u8], word: u32) -> Result<u64, LineError>
    requires { IsShort text.now }
    ensures { IsWord word (number_within most64 text.now) result }
{
    as_in_script(epic_text::read_u64(text, word, u64::MAX), word)
}

/// A hop's body, in 36 hexadecimal digits.
pub fn read_body(text: &[u8], word: u32) -> Result<Body, LineError>
    ensures { IsWord word (body_named text.now) result }
{
    match body_named(text) {
        Some(body) => Ok(body),
        None => Err(bad(word)),
    }
}

/// Bytes, an even number of hexadecimal digits in either case, or `-` for none.
pub fn read_bytes(alloc: Global, text: &[u8], word: u32) -> Result<Bytes, LineError>
    ensures { IsWord word (bytes_of text.now) result }
{
    as_in_script(epic_text::read_bytes(alloc, text, word), word)
}

/// One to three numbers of 32 bits, with a comma between two.
pub fn read_segments(alloc: Global, text: &[u8], word: u32) -> Result<ArrayVec<u32, 3>, LineError>
    requires { IsShort text.now }
    ensures { IsWord word (segments_of text.now) result }
{
    as_in_script(epic_text::read_segments(alloc, text, word), word)
}
