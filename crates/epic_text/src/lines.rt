//! A text in lines, and a line in words.

ghost use Rattle.std.specs.Prelude.{◌≡◌, ◌<◌, ◌≤◌, ◌∷◌, length, map, position, IfOk};
ghost use Rattle.std.specs.List.{All, list_all};
ghost use Rattle.std.specs.Str.Lines.{strip_carriage_return};
ghost use Rattle.epic_text.specs.Lines.{is_blank, is_line_feed, is_text_byte, lines, parts, words};

use std::alloc::{AllocError, Global};

/// Whether `byte` separates words.
fn is_blank(byte: u8) -> bool
    ensures { result ≡ is_blank byte }
{
    byte == b' ' || byte == b'\t'
}

/// Whether `byte` may stand in a line.
fn is_text_byte(byte: u8) -> bool
    ensures { result ≡ is_text_byte byte }
{
    matches!(byte, b' '..=b'~' | b'\t')
}

/// Whether each byte of `line` is a printing character of ASCII, a space or a tab.
pub fn is_text(line: &[u8]) -> bool
    ensures { result ≡ list_all is_text_byte line.now }
{
    line.iter().all(|&byte| is_text_byte(byte))
}

/// The words of `line`.
pub fn words<'a>(alloc: Global, line: &'a [u8]) -> Result<Vec<&'a [u8]>, AllocError>
    ensures value { IfOk result (λ v. map (λ word. word.now) v.items ≡ words line.entry.now) }
    ensures within { IfOk result (λ v. All (λ word. length word.now ≤ length line.entry.now) v.items) }
{
    line.split(|&byte| is_blank(byte))
        .filter(|word| !word.is_empty())
        .collect(alloc)
}

/// Where the first line of `text` ends, if a line feed ends it.
fn line_end(text: &[u8]) -> Option<usize>
    ensures { result ≡ position is_line_feed text.now }
{
    text.iter().position(|&byte| byte == b'\n')
}

/// The first line of `text`, which isn't empty, with the return that it may have, and the text
/// after it.
pub fn split_line(text: &[u8]) -> (&[u8], &[u8])
    requires { 0 < length text.now }
    ensures parts { parts text.now ≡ result.0.now ∷ parts result.1.now }
    ensures within { length result.0.now ≤ length text.now }
    ensures shorter { length result.1.now < length text.now }
{
    match line_end(text) {
        Some(end) => (&text[..end], &text[end + 1..]),
        None => (text, &[]),
    }
}

/// `line` without the one carriage return at its end, if it has one.
fn without_return(line: &[u8]) -> &[u8]
    ensures value { result.now ≡ strip_carriage_return line.now }
    ensures within { length result.now ≤ length line.now }
{
    match line {
        [front @ .., b'\r'] => front,
        _ => line,
    }
}

/// The first line of `text`, which isn't empty, and the text after it.
pub fn first_line(text: &[u8]) -> (&[u8], &[u8])
    requires { 0 < length text.now }
    ensures lines { lines text.now ≡ result.0.now ∷ lines result.1.now }
    ensures within { length result.0.now ≤ length text.now }
    ensures shorter { length result.1.now < length text.now }
{
    let (line, rest) = split_line(text);
    (without_return(line), rest)
}
