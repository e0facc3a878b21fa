//! What takes the records of a capture.

ghost use Rattle.std.specs.Prelude.{◌≡◌, ℕ, ◌+◌, ◌<◌, ◌≤◌, List, OnOk};
ghost use Rattle.epic_capture.specs.Records.{Captured};
ghost use Rattle.epic_num.specs.declared.moment.TheConstants.{MAX_MOMENT};
ghost use Rattle.epic_ports.specs.declared.error.PortError.{PortError};
ghost use Rattle.epic_feed.specs.Files.{SameFile};
ghost use Rattle.epic_feed.specs.Taking.{Takes, captured_of};

use epic_capture::Record;
use epic_ports::{PortError, Store};

/// Takes records one by one. It may write files of the store, but not the capture's, and change what stands in `O`.
///
/// `took` says what it is, with the store and the rest, once it took these records, and `stopped` what it is where it
/// stopped at the record behind them.
pub trait Taker<S: Store, O> {
    ghost took: { Self → S → O → List Captured → Self → S → O → Type 0 };

    ghost stopped: { Self → S → O → List Captured → Captured → PortError → Self → S → O → Type 0 };

    ghost spares: { Self → List ℕ → Type 0 };

    ghost room: { Self → ℕ };

    /// Takes one record more, or stops at it. It takes at least `room` records more, and never writes a file that it
    /// `spares`.
    fn take(&mut self, store: &mut S, out: &mut O, found: &Record<'_>) -> Result<(), PortError>
        requires room { 0 < room self.old }
        requires moment { found.now.moment ≤ MAX_MOMENT }
        ensures takes { (x : Self) (s : S) (o : O) (xs : List Captured) → took x s o xs self.old store.old out.old
            → Takes (captured_of found.now) (λ ys. took x s o ys self.new store.new out.new)
            (λ y e. stopped x s o xs y e self.new store.new out.new) xs result }
        ensures room { OnOk result (room self.old ≤ room self.new + 1) }
        ensures spares { (name : List ℕ) → spares self.old name → spares self.new name }
        ensures files { (name : List ℕ) → spares self.old name
            → SameFile name (S.contents store.old) (S.contents store.new) }
        ensures reads { S.reads store.new ≡ S.reads store.old };
}
