//! The first bytes of a file, by which its form is told.

ghost use Rattle.std.specs.Prelude.{◌≡◌, ◌<◌, ◌≤◌, vec_len, IfOk};
ghost use Rattle.epic_ports.specs.Faults.{CountsOnly, FailsWhereRose};
ghost use Rattle.epic_ports.specs.Files.{KeepsFiles};
ghost use Rattle.epic_feed.specs.Forms.{is_ng};
ghost use Rattle.epic_feed.specs.Going.{Opens};

use crate::more::PIECE;
use epic_ports::{PortError, Store};
use std::alloc::Global;

/// Reads the first bytes of the file `name`, at least four where it has as many.
pub(crate) fn first_bytes<S: Store>(
    alloc: Global,
    name: &str,
    store: &mut S,
) -> Result<Vec<u8>, PortError>
    ensures file { IfOk result (λ v. Opens (S.contents store.old) name.now v.items) }
    ensures bound { IfOk result (λ v. vec_len v ≤ 4100) }
    ensures contents { KeepsFiles (S.contents store.old) (S.contents store.new) }
    ensures reads { CountsOnly name.now (S.reads store.old) (S.reads store.new) }
    ensures writes { S.writes store.new ≡ S.writes store.old }
    ensures cause { FailsWhereRose (S.reads store.old name.now) (S.reads store.new name.now) result }
{
    let mut bytes = Vec::new(alloc);
    let mut piece = [0u8; PIECE];
    loop {
        let n = store.read_at(name, bytes.len() as u64, &mut piece)?;
        bytes.extend_from_slice(&piece[..n])?;
        if n == 0 {
            return Ok(bytes);
        }
        if bytes.len() >= 4 {
            return Ok(bytes);
        }
    }
}

/// Whether a file that begins with these bytes, or is these bytes, is in the form of pcapng.
#[tactic(auto, unfolding(crate::specs::Forms::is_ng))]
pub(crate) fn is_ng(first: &[u8]) -> bool
    ensures { result ≡ is_ng first.now }
{
    first.len() >= 4 && first[..4] == [0x0a, 0x0d, 0x0d, 0x0a]
}
