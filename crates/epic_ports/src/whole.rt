//! Whole files and whole pieces, read and written in as many calls as it takes.

ghost use Rattle.std.specs.Prelude.{◌≡◌, ◌^◌, ◌≤◌, [], vec_len, IsOk, IfOk, OnOk, OnErr};
ghost use Rattle.epic_ports.specs.Faults.{CountsOnly, FailsOnlyBy, FailsWhereRose, ReadFailsBy};
ghost use Rattle.epic_ports.specs.Files.{Grows, GrowsBefore, KeepsFiles, ReadsFile};
ghost use Rattle.epic_ports.specs.Written.{Appends, WritesBefore};

use crate::error::{PortError, ReadError};
use crate::sink::Sink;
use crate::store::Store;
use std::alloc::Global;

/// How many bytes are asked for at once.
const BLOCK: u64 = 4096;

/// Reads the whole file `name`, of at most `limit` bytes (at most 2^32).
///
/// The store is asked until it gives no byte or more than `limit` bytes came, so at most `limit` +
/// 1 bytes are taken. A longer file is `ReadError::TooLong`. `ReadError::Failed` comes only where
/// the store counted a failed read of `name`.
pub fn read_whole<S: Store>(
    alloc: Global,
    store: &mut S,
    name: &str,
    limit: u64,
) -> Result<Vec<u8>, ReadError>
    requires { limit ≤ 2 ^ 32 }
    ensures file { ReadsFile (S.contents store.old) name.now limit result }
    ensures bound { IfOk result (λ v. vec_len v ≤ limit) }
    ensures contents { KeepsFiles (S.contents store.old) (S.contents store.new) }
    ensures reads { CountsOnly name.now (S.reads store.old) (S.reads store.new) }
    ensures writes { S.writes store.new ≡ S.writes store.old }
    ensures cause { ReadFailsBy (S.reads store.old name.now) (S.reads store.new name.now) result }
{
    let mut bytes = Vec::new(alloc);
    let mut buffer = [0u8; BLOCK as usize];
    loop {
        let at = bytes.len() as u64;
        let room = (limit + 1 - at).min(BLOCK) as usize;
        let n = match store.read_at(name, at, &mut buffer[..room]) {
            Ok(n) => n,
            Err(PortError::Failed) => return Err(ReadError::Failed),
            Err(PortError::OutOfMemory) => return Err(ReadError::OutOfMemory),
        };
        if n == 0 {
            return Ok(bytes);
        }
        if n as u64 > limit - at {
            return Err(ReadError::TooLong);
        }
        bytes.extend_from_slice(&buffer[..n])?;
    }
}

/// Writes all of `bytes`, in as many calls as the sink needs, and none where there are no bytes.
///
/// After an error the bytes before some byte were written, and that byte was not.
/// `PortError::Failed` is the only error, and comes only where the sink counted a failed write.
pub fn write_all<O: Sink>(sink: &mut O, bytes: &[u8]) -> Result<(), PortError>
    ensures ok { OnOk result (Appends (O.written sink.old) (O.written sink.new) bytes.now) }
    ensures err { OnErr result (WritesBefore (O.written sink.old) (O.written sink.new) bytes.now) }
    ensures none { bytes.now ≡ [] → IsOk result × (sink.new ≡ sink.old) }
    ensures later { O.faults sink.old ≤ O.faults sink.new }
    ensures cause { FailsOnlyBy (O.faults sink.old) (O.faults sink.new) result }
{
    let mut rest = bytes;
    while !rest.is_empty() {
        let n = sink.write(rest)?;
        rest = &rest[n..];
    }
    Ok(())
}

/// Adds all of `bytes` at the end of the file `name`, in as many calls as the store needs, and none
/// where there are no bytes. A name that isn't there is made first.
///
/// After an error the bytes before some byte were added, and that byte was not.
/// `PortError::Failed` comes only where the store counted a failed write of `name`.
pub fn append_all<S: Store>(store: &mut S, name: &str, bytes: &[u8]) -> Result<(), PortError>
    ensures ok { OnOk result (Grows (S.contents store.old) (S.contents store.new)
        name.now bytes.now) }
    ensures err { OnErr result (GrowsBefore (S.contents store.old) (S.contents store.new)
        name.now bytes.now) }
    ensures reads { S.reads store.new ≡ S.reads store.old }
    ensures writes { CountsOnly name.now (S.writes store.old) (S.writes store.new) }
    ensures cause { FailsWhereRose
        (S.writes store.old name.now) (S.writes store.new name.now) result }
{
    let mut rest = bytes;
    while !rest.is_empty() {
        let n = store.append(name, rest)?;
        rest = &rest[n..];
    }
    Ok(())
}
