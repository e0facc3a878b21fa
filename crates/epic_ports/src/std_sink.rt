//! A sink over a writer of std.

use crate::counts::next;
use crate::error::PortError;
use crate::sink::Sink;
use std::io::Write;

/// A writer of std, as standard output. It tells nothing of what was written, and counts each
/// fault.
#[derive(Drop)]
pub struct StdSink<W> {
    writer: W,
    faults: u64,
}

impl<W: Write> StdSink<W> {
    ghost use Rattle.std.specs.Prelude.{◌≡◌};
    ghost use Rattle.epic_ports.specs.StdSink.{faults_of, writer_of};

    /// A sink over this writer, with no fault yet.
    pub fn new(writer: W) -> StdSink<W>
        ensures writer { writer_of result ≡ writer }
        ensures faults { faults_of result ≡ 0 }
    {
        StdSink { writer, faults: 0 }
    }
}

impl<W: Write> Sink for StdSink<W> {
    ghost use Rattle.std.specs.Prelude.{◌≡◌, ◌≤◌, [], Ok, None};
    ghost use Rattle.epic_ports.specs.Faults.{FailsOnlyBy};
    ghost use Rattle.epic_ports.specs.StdSink.{faults_of, writer_of};
    ghost use Rattle.epic_ports.specs.Written.{TakesSome, WriteAppends};

    ghost written = { λ _. None };

    ghost faults = { faults_of };

    fn write(&mut self, bytes: &[u8]) -> Result<usize, PortError>
        ensures bound { TakesSome result bytes.now }
        ensures nothing { bytes.now ≡ [] → result ≡ Ok 0 }
        ensures bytes { WriteAppends None None result bytes.now }
        ensures later { faults_of self.old ≤ faults_of self.new }
        ensures cause { FailsOnlyBy (faults_of self.old) (faults_of self.new) result }
        ensures passed { WriteAppends
            (W.contents (writer_of self.old)) (W.contents (writer_of self.new)) result bytes.now }
    {
        if bytes.is_empty() {
            return Ok(0);
        }
        match self.writer.write(bytes) {
            Ok(n) if n > 0 => Ok(n),
            _ => {
                self.faults = next(self.faults);
                Err(PortError::Failed)
            }
        }
    }
}
