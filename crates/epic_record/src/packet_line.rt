//! Lines that end with a packet's bytes.

ghost use Rattle.std.specs.Prelude.{◌≡◌, ◌∷◌, [], ◌++◌, length, take, OnErr, OnOk};
ghost use Rattle.hex.specs.Hex.{encode_lower};
ghost use Rattle.epic_text.specs.Line.{Prints, bytes_text};

use crate::line::{append, end_line};
use epic_num::OutOfMemory;

/// Appends bytes in hexadecimal digits. On an error `to` is as it was.
fn append_digits(to: &mut Vec<u8>, bytes: &[u8]) -> Result<(), OutOfMemory>
    ensures { Prints to.old.items to.new.items (encode_lower bytes.now) result }
{
    let start = to.len();
    let Some(digits) = bytes.len().checked_mul(2) else {
        return Err(OutOfMemory);
    };
    let Some(end) = start.checked_add(digits) else {
        return Err(OutOfMemory);
    };
    if to.resize(end, 0).is_err() {
        return Err(OutOfMemory);
    }
    let (_, tail) = to.as_mut_slice().split_at_mut(start);
    let _whole = hex::encode_to_slice(bytes, tail);
    Ok(())
}

/// Appends bytes in hexadecimal digits, and none as `-`. On an error `to` is as it was.
#[tactic(auto, unfolding(epic_text::specs::Line::bytes_text))]
fn append_bytes(to: &mut Vec<u8>, bytes: &[u8]) -> Result<(), OutOfMemory>
    ensures { Prints to.old.items to.new.items (bytes_text bytes.now) result }
{
    match bytes {
        [] => append(to, b"-"),
        [_, ..] => append_digits(to, bytes),
    }
}

/// Appends words, a packet's bytes and a line feed. On an error a part of them may stand behind what was there.
fn append_packet(to: &mut Vec<u8>, words: &[u8], bytes: &[u8]) -> Result<(), OutOfMemory>
    ensures ok { OnOk result (to.new.items ≡
        to.old.items ++ (words.now ++ (32 ∷ (bytes_text bytes.now ++ (10 ∷ []))))) }
    ensures err { OnErr result (take (length to.old.items) to.new.items ≡ to.old.items) }
{
    append(to, words)?;
    append(to, b" ")?;
    append_bytes(to, bytes)?;
    end_line(to)
}

/// Appends words, a packet's bytes and a line feed. On an error `to` is as it was.
pub fn print_packet_line(to: &mut Vec<u8>, words: &[u8], bytes: &[u8]) -> Result<(), OutOfMemory>
    ensures { Prints to.old.items to.new.items
        (words.now ++ (32 ∷ (bytes_text bytes.now ++ (10 ∷ []))))
        result }
{
    let start = to.len();
    let done = append_packet(to, words, bytes);
    if done.is_err() {
        to.truncate(start);
    }
    done
}
