//! A line in words.

ghost use Rattle.std.specs.Prelude.{◌≡◌, ◌≤◌, length, map, take, IfOk};
ghost use Rattle.std.specs.List.{All, list_all};
ghost use Rattle.epic_record.specs.Words.{is_plain_byte, pieces};

use std::alloc::{AllocError, Global};

/// Whether `byte` may stand in a line.
fn is_plain_byte(byte: u8) -> bool
    ensures { result ≡ is_plain_byte byte }
{
    matches!(byte, b' '..=b'~')
}

/// Whether each byte of `line` is a printing character of ASCII or a space.
pub fn is_plain(line: &[u8]) -> bool
    ensures { result ≡ list_all is_plain_byte line.now }
{
    line.iter().all(|&byte| is_plain_byte(byte))
}

/// The first twelve words of `line`: no line has more.
pub fn first_words<'a>(alloc: Global, line: &'a [u8]) -> Result<Vec<&'a [u8]>, AllocError>
    ensures value { IfOk result (λ v. map (λ word. word.now) v.items ≡ take 12 (pieces line.entry.now)) }
    ensures within { IfOk result (λ v. All (λ word. length word.now ≤ length line.entry.now) v.items) }
{
    line.split(|&byte| byte == b' ').take(12).collect(alloc)
}
