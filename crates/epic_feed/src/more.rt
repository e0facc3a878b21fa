//! Further bytes of a file for a reader.

ghost use Rattle.std.specs.Prelude.{◌≡◌, ◌<◌, length, IfOk, OnErr};
ghost use Rattle.epic_ports.specs.Faults.{CountsOnly, FailsBy};
ghost use Rattle.epic_ports.specs.Files.{KeepsFiles};
ghost use Rattle.epic_feed.specs.Going.{FedMore};

use crate::form::Form;
use epic_ports::{PortError, Store};

/// How many bytes are asked for at once.
pub(crate) const PIECE: usize = 4096;

/// Feeds the bytes of the file from byte `at` on to a reader that has room, and says how many: none only at the end.
pub(crate) fn feed_more<S: Store, R: Form>(
    reader: &mut R,
    at: u64,
    name: &str,
    store: &mut S,
) -> Result<usize, PortError>
    requires room { length (R.stream.held reader.old) < R.stream.size }
    ensures ok { IfOk result (λ n. FedMore R.stream (S.contents store.old) name.now at n reader.old reader.new) }
    ensures err { OnErr result (reader.new ≡ reader.old) }
    ensures contents { KeepsFiles (S.contents store.old) (S.contents store.new) }
    ensures reads { CountsOnly name.now (S.reads store.old) (S.reads store.new) }
    ensures writes { S.writes store.new ≡ S.writes store.old }
    ensures cause { FailsBy (S.reads store.old name.now) (S.reads store.new name.now) result }
{
    let mut piece = [0u8; PIECE];
    let n = store.read_at(name, at, &mut piece)?;
    Ok(reader.feed(&piece[..n]))
}
