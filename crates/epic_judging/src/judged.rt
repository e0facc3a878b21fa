//! What the judge answers.

use epic_record::FileKind;

/// What the judge says of two files that are in order.
#[derive(Clone, Copy, Debug, PartialEq, Eq)]
pub enum Judged {
    /// Every verdict is true.
    Yes {
        /// How many there are.
        verdicts: u32,
    },
    /// Some verdict is not true.
    No {
        /// How many there are.
        verdicts: u32,
        /// The number of the first that is not, from 1.
        first: u32,
    },
}

/// Why the judge says nothing.
#[derive(Clone, Copy, Debug, PartialEq, Eq)]
pub enum JudgeError {
    /// The ledger file has a fault.
    Ledger {
        /// The line, from 1; 0 stands for the file as a whole.
        line: u32,
        kind: FileKind,
    },
    /// The verdict file has one, and the ledger file has none.
    Verdicts {
        /// The line, from 1; 0 stands for the file as a whole.
        line: u32,
        kind: FileKind,
    },
    OutOfMemory,
}
