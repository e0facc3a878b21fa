//! The two files that `judge` reads beside the topology.

ghost use Rattle.std.specs.Prelude.{◌≡◌, ◌≤◌, ◌^◌};
ghost use Rattle.epic_app.specs.FaultLines.{file_word};
ghost use Rattle.epic_app.specs.Limits.{limit_of};

/// The most bytes of a ledger file.
const LEDGER_LIMIT: u64 = 268_435_456;

/// The most bytes of a verdict file.
const VERDICTS_LIMIT: u64 = 67_108_864;

/// Which of the two files it is.
#[derive(Clone, Copy, Debug, PartialEq, Eq)]
pub enum JudgedFile {
    /// What happened.
    Ledger,
    /// What was said of it.
    Verdicts,
}

impl JudgedFile {
    /// The word for it in lines on the errors.
    pub fn word(&self) -> &'static str
        ensures { result.now ≡ file_word self.now }
    {
        match self {
            JudgedFile::Ledger => "ledger",
            JudgedFile::Verdicts => "verdicts",
        }
    }

    /// The most bytes that it may have.
    pub fn limit(&self) -> u64
        ensures value { result ≡ limit_of self.now }
        ensures small { result ≤ 2 ^ 32 }
    {
        match self {
            JudgedFile::Ledger => LEDGER_LIMIT,
            JudgedFile::Verdicts => VERDICTS_LIMIT,
        }
    }
}
