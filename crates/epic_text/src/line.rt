//! Lines of a report.

ghost use Rattle.std.specs.Prelude.{◌≡◌, ◌+◌, ◌≤◌, ◌∷◌, ◌++◌, [], decimal, length, vec_capacity, vec_len, IfOk, OnOk};
ghost use Rattle.std.specs.String.{string_bytes};
ghost use Rattle.epic_text.specs.Line.{Prints, bytes_text, line_of, step_line};

use epic_num::OutOfMemory;
use itoa::Buffer;
use std::alloc::{AllocError, Global};

/// What was made, if there was memory for it.
pub fn allocated<T: Drop>(made: Result<T, AllocError>) -> Result<T, OutOfMemory>
    ensures { IfOk result (λ value. made ≡ Ok value) }
{
    match made {
        Ok(value) => Ok(value),
        Err(_) => Err(OutOfMemory),
    }
}

/// Appends `text`.
pub fn append(to: &mut Vec<u8>, text: &[u8]) -> Result<(), OutOfMemory>
    ensures { Prints to.old.items to.new.items text.now result }
{
    match to.extend_from_slice(text) {
        Ok(()) => Ok(()),
        Err(_) => Err(OutOfMemory),
    }
}

/// Makes room for so many bytes more.
fn reserve(to: &mut Vec<u8>, count: usize) -> Result<(), OutOfMemory>
    ensures items { to.new.items ≡ to.old.items }
    ensures room { OnOk result (vec_len to.new + count ≤ vec_capacity to.new) }
{
    match to.reserve(count) {
        Ok(()) => Ok(()),
        Err(_) => Err(OutOfMemory),
    }
}

/// Appends `text`, for which there is room.
fn put(to: &mut Vec<u8>, text: &[u8])
    requires { vec_len to.old + length text.now ≤ vec_capacity to.old }
    ensures items { to.new.items ≡ to.old.items ++ text.now }
    ensures len { vec_len to.new ≡ vec_len to.old + length text.now }
    ensures capacity { vec_capacity to.old ≤ vec_capacity to.new }
{
    let Ok(()) = to.extend_from_slice(text) else {
        unreachable!()
    };
}

/// Appends the line of a step with these words.
#[tactic(auto, using(crate::proofs::LineLemmas::line_parts))]
pub fn print_line(to: &mut Vec<u8>, step: u32, words: &[u8]) -> Result<(), OutOfMemory>
    ensures { Prints to.old.items to.new.items (line_of step words.now) result }
{
    let mut buffer = Buffer::new();
    let number = buffer.format(step).as_bytes();
    reserve(to, words.len().saturating_add(number.len() + 2))?;
    put(to, number);
    put(to, b" ");
    put(to, words);
    put(to, b"\n");
    Ok(())
}

/// Appends the line of a step with a word, two numbers and bytes.
#[tactic(auto, using(crate::proofs::LineLemmas::packet_parts))]
pub fn print_packet(
    to: &mut Vec<u8>,
    step: u32,
    word: &[u8],
    number: u32,
    emission: u32,
    bytes: &[u8],
) -> Result<(), OutOfMemory>
    ensures { Prints to.old.items to.new.items
        (step_line step (word.now ∷ decimal number ∷ decimal emission ∷ bytes_text bytes.now ∷ []))
        result }
{
    let bytes = allocated(bytes_text(*to.allocator(), bytes))?;
    let mut buffer = Buffer::new();
    let mut other = Buffer::new();
    let number = buffer.format(number).as_bytes();
    let emission = other.format(emission).as_bytes();
    print_words(to, step, word, number, emission, bytes.as_bytes())
}

/// Appends the line of a step with four words.
#[tactic(auto, using(crate::proofs::LineLemmas::packet_parts))]
fn print_words(
    to: &mut Vec<u8>,
    step: u32,
    first: &[u8],
    second: &[u8],
    third: &[u8],
    last: &[u8],
) -> Result<(), OutOfMemory>
    requires second { length second.now ≤ 40 }
    requires third { length third.now ≤ 40 }
    ensures { Prints to.old.items to.new.items
        (step_line step (first.now ∷ second.now ∷ third.now ∷ last.now ∷ []))
        result }
{
    let mut buffer = Buffer::new();
    let number = buffer.format(step).as_bytes();
    let short = number.len() + second.len() + third.len() + 5;
    reserve(
        to,
        first.len().saturating_add(last.len()).saturating_add(short),
    )?;
    put(to, number);
    put(to, b" ");
    put(to, first);
    put(to, b" ");
    put(to, second);
    put(to, b" ");
    put(to, third);
    put(to, b" ");
    put(to, last);
    put(to, b"\n");
    Ok(())
}

/// Bytes in hexadecimal digits, and none as `-`.
#[tactic(auto, unfolding(crate::specs::Line::bytes_text))]
pub fn bytes_text(alloc: Global, bytes: &[u8]) -> Result<String, AllocError>
    ensures { IfOk result (λ text. string_bytes text ≡ bytes_text bytes.now) }
{
    match bytes {
        [] => String::from_str(alloc, "-"),
        [_, ..] => hex::encode(alloc, bytes),
    }
}
