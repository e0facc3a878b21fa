//! Lines of words.

ghost use Rattle.std.specs.Prelude.{◌≡◌, ◌∷◌, [], ◌++◌, IfOk};
ghost use Rattle.std.specs.String.{string_bytes};
ghost use Rattle.epic_text.specs.Line.{Prints};

use epic_num::OutOfMemory;
use std::alloc::AllocError;

/// What was made, if there was memory for it.
pub fn allocated<T: Drop>(made: Result<T, AllocError>) -> Result<T, OutOfMemory>
    ensures { IfOk result (λ value. made ≡ Ok value) }
{
    match made {
        Ok(value) => Ok(value),
        Err(_) => Err(OutOfMemory),
    }
}

/// Appends a line feed.
pub fn end_line(to: &mut Vec<u8>) -> Result<(), OutOfMemory>
    ensures { Prints to.old.items to.new.items (10 ∷ []) result }
{
    match to.push(b'\n') {
        Ok(()) => Ok(()),
        Err(_) => Err(OutOfMemory),
    }
}

/// Appends `text`.
pub fn append(to: &mut Vec<u8>, text: &[u8]) -> Result<(), OutOfMemory>
    ensures { Prints to.old.items to.new.items text.now result }
{
    match to.extend_from_slice(text) {
        Ok(()) => Ok(()),
        Err(_) => Err(OutOfMemory),
    }
}

/// Appends words that stand in one text, and a line feed. On an error `to` is as it was.
pub fn print_words(to: &mut Vec<u8>, words: String) -> Result<(), OutOfMemory>
    ensures { Prints to.old.items to.new.items (string_bytes words ++ (10 ∷ [])) result }
{
    let mut line = words.into_bytes();
    end_line(&mut line)?;
    append(to, &line)
}
