//! How far a capture was read, once its file's header was.
ghost use Rattle.std.specs.Prelude.{◌≡◌, ◌≤◌, ◌<◌, ◌+◌, ◌-◌};
ghost use Rattle.epic_capture.specs.Capture.{most_records};
ghost use Rattle.epic_capture.specs.Reading.{begun, behind};

use crate::Format;

/// How many records a capture has at most.
const MOST_RECORDS: u32 = 262_144;

/// What a reader knows behind the file's header.
#[derive(Clone, Copy, Debug, PartialEq, Eq)]
pub struct Progress {
    pub format: Format,
    /// How many records may still come.
    pub left: u32,
    /// Where the next record begins, in bytes from the file's beginning.
    pub offset: u64,
}

impl Progress {
    /// Right behind the file's header.
    #[tactic(auto, unfolding(crate::specs::Capture::most_records))]
    pub(crate) fn begun(format: Format) -> Progress
        ensures { result ≡ begun format }
    {
        Progress {
            format,
            left: MOST_RECORDS,
            offset: 24,
        }
    }

    /// Behind a record of `len` bytes.
    pub(crate) fn behind(&self, len: usize) -> Progress
        requires some { 0 < self.now.left }
        requires few { self.now.offset + len ≤ 67108864 }
        ensures { result ≡ behind self.now len }
    {
        Progress {
            format: self.format,
            left: self.left - 1,
            offset: self.offset + len as u64,
        }
    }
}
