//! Why a ledger file or a verdict file can't be read.

ghost use Rattle.std.specs.Prelude.{◌≡◌};
ghost use Rattle.epic_record.specs.declared.fault.LineError.TheVariants as line_error;

use std::alloc::AllocError;

/// Why a line is refused, or the file as a whole.
#[derive(Clone, Copy, Debug, PartialEq, Eq)]
pub enum FileKind {
    /// A byte that is no printing character of ASCII and no space.
    NotText,
    /// The first word is none that begins such a line.
    UnknownVerb,
    /// The line has another number of words.
    WordCount,
    /// The first word that isn't of its form; the line's first word is word 1.
    BadWord { word: u32 },
    /// What the line tells doesn't follow from the lines before it.
    BadPlace,
    /// There is no line where a verdict is wanting.
    Missing,
    /// A line after the last verdict.
    Extra,
    /// The file has more bytes than its limit.
    TooLong,
}

/// Why a line isn't read.
#[derive(Clone, Copy, Debug, PartialEq, Eq)]
pub enum LineError {
    Refused(FileKind),
    OutOfMemory,
}

impl From<AllocError> for LineError {
    ghost from_gives = { λ _ e. e ≡ line_error.OutOfMemory };

    fn from(_e: AllocError) -> LineError {
        LineError::OutOfMemory
    }
}

/// Why a file isn't read.
#[derive(Clone, Copy, Debug, PartialEq, Eq)]
pub enum FileError {
    /// The first line that is refused, counted from 1, or 0 for the file as a whole, and why.
    Refused { line: u32, kind: FileKind },
    OutOfMemory,
}
