//! What bytes are written to.

ghost use Rattle.std.specs.Prelude.{◌≡◌, ℕ, ◌≤◌, [], List, Option, Ok};
ghost use Rattle.epic_ports.specs.Faults.{FailsOnlyBy};
ghost use Rattle.epic_ports.specs.Written.{TakesSome, WriteAppends};

use crate::error::PortError;

/// Where bytes are written, in pieces.
///
/// A sink tells what was written, or doesn't. It counts the writes that failed; the count never
/// falls. A write takes no memory, so its only error is `PortError::Failed`, and only where the
/// count rose in that write. A count at the end of its type counts as risen.
pub trait Sink {
    ghost written: { Self → Option (List ℕ) };

    ghost faults: { Self → ℕ };

    /// Adds the first bytes of `bytes` at the end, and answers how many: at least 1, and 0 exactly
    /// of an empty piece. Where nothing can be taken, that is a counted fault. After an error
    /// nothing was written.
    fn write(&mut self, bytes: &[u8]) -> Result<usize, PortError>
        ensures bound { TakesSome result bytes.now }
        ensures nothing { bytes.now ≡ [] → result ≡ Ok 0 }
        ensures bytes { WriteAppends (written self.old) (written self.new) result bytes.now }
        ensures later { faults self.old ≤ faults self.new }
        ensures cause { FailsOnlyBy (faults self.old) (faults self.new) result };
}
