//! Why words were not read.

/// Why the words ask for nothing.
#[derive(Clone, Copy, Debug, PartialEq, Eq)]
pub enum WordsError {
    /// The words are no command.
    Refused,
    /// Memory ran out.
    OutOfMemory,
}
