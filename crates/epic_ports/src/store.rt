//! What files are read from and written to.

ghost use Rattle.std.specs.Prelude.{◌≡◌, ℕ, [], List, Option, take, Ok, IfOk, OnOk, OnErr};
ghost use Rattle.std.specs.Io.{ReadsAtMost};
ghost use Rattle.epic_ports.specs.Faults.{CountsOnly, FailsBy};
ghost use Rattle.epic_ports.specs.Files.{Files, IsFinite, KeepsFiles, Replaces, Grows, ReadsPiece};
ghost use Rattle.epic_ports.specs.Written.{TakesSome};

use crate::error::PortError;

/// Named files, read and written in pieces.
///
/// A store tells its contents, or doesn't. For each name it counts the reads and the writes that
/// failed; these counts never fall. A call answers `PortError::Failed` only where the count of its
/// own name rose in it: the count of reads in `read_at`, that of writes in `create` and `append`. A
/// count at the end of its type counts as risen. A call that answers an error leaves the contents,
/// and no call changes another name's contents or count. `PortError::OutOfMemory` may come before a
/// call has acted, and leaves the counts too; an implementation makes room for a name's counts first.
pub trait Store {
    ghost contents: { Self → Option Files };

    ghost reads: { Self → List ℕ → ℕ };

    ghost writes: { Self → List ℕ → ℕ };

    /// Reads bytes of the file `name` from byte `at` on, and answers how many came, at most
    /// `buf.len()`. Of a `buf` that isn't empty 0 comes exactly where `at` is at or past the end. A
    /// name that isn't there is a counted fault.
    fn read_at(&mut self, name: &str, at: u64, buf: &mut [u8]) -> Result<usize, PortError>
        ensures bound { ReadsAtMost result buf.new }
        ensures bytes { IfOk result (λ n. ReadsPiece (contents self.old) name.now at n buf.new) }
        ensures contents { KeepsFiles (contents self.old) (contents self.new) }
        ensures reads { CountsOnly name.now (reads self.old) (reads self.new) }
        ensures writes { writes self.new ≡ writes self.old }
        ensures cause { FailsBy (reads self.old name.now) (reads self.new name.now) result };

    /// Makes the contents of the file `name` empty, whether it is there or not.
    fn create(&mut self, name: &str) -> Result<(), PortError>
        ensures empty { OnOk result (Replaces (contents self.old) (contents self.new) name.now []) }
        ensures err { OnErr result (KeepsFiles (contents self.old) (contents self.new)) }
        ensures reads { reads self.new ≡ reads self.old }
        ensures writes { CountsOnly name.now (writes self.old) (writes self.new) }
        ensures cause { FailsBy (writes self.old name.now) (writes self.new name.now) result };

    /// Adds the first bytes of `bytes` at the end of the file `name`, and answers how many: at
    /// least 1, and 0 exactly of an empty piece. A name that isn't there is made first, but by an
    /// empty piece. Where nothing can be taken, that is a counted fault.
    fn append(&mut self, name: &str, bytes: &[u8]) -> Result<usize, PortError>
        ensures bound { TakesSome result bytes.now }
        ensures nothing { bytes.now ≡ [] → result ≡ Ok 0 }
        ensures bytes { IfOk result (λ n.
            Grows (contents self.old) (contents self.new) name.now (take n bytes.now)) }
        ensures err { OnErr result (KeepsFiles (contents self.old) (contents self.new)) }
        ensures reads { reads self.new ≡ reads self.old }
        ensures writes { CountsOnly name.now (writes self.old) (writes self.new) }
        ensures cause { FailsBy (writes self.old name.now) (writes self.new name.now) result };

    ghost finite: { (s : Self) → IsFinite (contents s) };
}
