//! The records of a capture's file, handed on one by one.

ghost use Rattle.std.specs.Prelude.{◌≡◌, ◌++◌, ◌≤◌, ℕ, List, [], length, Ok, None, Option};
ghost use Rattle.epic_capture.specs.Streams.{next};
ghost use Rattle.epic_capture.specs.Records.{Captured};
ghost use Rattle.epic_ports.specs.Faults.{CountsOnly};
ghost use Rattle.epic_ports.specs.declared.error.PortError.{PortError};
ghost use Rattle.epic_feed.specs.Feeding.{Feeds, capture_in};
ghost use Rattle.epic_feed.specs.Files.{Holds, SameFile};
ghost use Rattle.epic_ports.specs.Files.{Files, KeepsFiles};
ghost use Rattle.epic_feed.specs.Going.{EndsSo};

use crate::first::{first_bytes, is_ng};
use crate::form::Form;
use crate::more::feed_more;
use crate::{Damage, Taker};
use epic_capture::{CaptureError, CaptureKind, Reader};
use epic_num::OutOfMemory;
use epic_pcapng::NgReader;
use epic_ports::{PortError, Store};
use std::alloc::Global;

/// Why not all of a file was handed on.
#[derive(Clone, Copy, Debug, PartialEq, Eq)]
pub enum FeedError {
    /// The file holds a damage.
    Damaged(Damage),
    /// A read failed, which the store counted at the file's name.
    Failed,
    /// The taker stopped.
    Stopped(PortError),
    /// Memory ran out.
    OutOfMemory,
}

/// Hands on the records that a reader finds in a file that begins with `first`.
fn feed_by<S: Store, O, R: Form, T: Taker<S, O>>(
    reader: &mut R,
    first: &[u8],
    name: &str,
    taker: &mut T,
    store: &mut S,
    out: &mut O,
) -> Result<(), FeedError>
    requires held { R.stream.held reader.old ≡ [] }
    requires fed { R.stream.fed reader.old ≡ 0 }
    requires first { length first.now ≤ 4100 }
    requires spares { T.spares taker.old name.now }
    requires room { 262144 ≤ T.room taker.old }
    requires none { (x : T) (s : S) (o : O) → T.took x s o [] x s o }
    requires read { (x : T) (s : S) (o : O) (xs : List Captured) (y : T) (t : S) (p : O) (u : S)
        → T.took x s o xs y t p → KeepsFiles (S.contents t) (S.contents u)
        → S.writes u ≡ S.writes t → T.took x s o xs y u p }
    requires few { (bytes : List ℕ) → length (R.stream.to_come reader.old bytes).items ≤ 262144 }
    ensures feeds { (x : T) (s : S) (o : O) (files : Option Files) (rest : List ℕ)
        → T.took x s o [] taker.old store.old out.old → SameFile name.now files (S.contents store.old)
        → Holds files name.now (first.now ++ rest) → Feeds
        (record {
          contents = files;
          name = name.now;
          first = first.now;
          read = λ bytes. R.stream.to_come reader.old bytes;
        })
        (S.reads store.old name.now) (S.reads store.new name.now)
        (λ xs. T.took x s o xs taker.new store.new out.new)
        (λ xs y e. T.stopped x s o xs y e taker.new store.new out.new)
        result }
    ensures reads { CountsOnly name.now (S.reads store.old) (S.reads store.new) }
{
    let mut at = reader.feed(first) as u64;
    loop {
        match reader.next_record() {
            Ok(Some(found)) => {
                if let Err(error) = taker.take(store, out, &found) {
                    return Err(FeedError::Stopped(error));
                }
            }
            Ok(None) => match feed_more(reader, at, name, store) {
                Ok(0) => return end(reader),
                Ok(n) => at += n as u64,
                Err(PortError::Failed) => return Err(FeedError::Failed),
                Err(PortError::OutOfMemory) => return Err(FeedError::OutOfMemory),
            },
            Err(damage) => return Err(FeedError::Damaged(damage)),
        }
    }
}

/// Whether the file may end behind what a reader was fed.
fn end<R: Form>(reader: &R) -> Result<(), FeedError>
    requires { next R.stream reader.now ≡ Ok None }
    ensures { EndsSo (R.stream.to_come reader.now []) result }
{
    match reader.end() {
        Ok(()) => Ok(()),
        Err(damage) => Err(FeedError::Damaged(damage)),
    }
}

/// Hands the records of the file `name` on to a taker that never writes it, as they come: the file is read in pieces of
/// at most 4,096 bytes, and no more is kept of it than a reader's buffer. What the taker is once it took records begins with
/// none, and isn't changed by reads of the store.
pub fn feed<S: Store, O, T: Taker<S, O>>(
    alloc: Global,
    name: &str,
    taker: &mut T,
    store: &mut S,
    out: &mut O,
) -> Result<(), FeedError>
    requires spares { T.spares taker.old name.now }
    requires room { 262144 ≤ T.room taker.old }
    requires none { (x : T) (s : S) (o : O) → T.took x s o [] x s o }
    requires read { (x : T) (s : S) (o : O) (xs : List Captured) (y : T) (t : S) (p : O) (u : S)
        → T.took x s o xs y t p → KeepsFiles (S.contents t) (S.contents u)
        → S.writes u ≡ S.writes t → T.took x s o xs y u p }
    ensures feeds { Feeds (capture_in (S.contents store.old) name.now)
        (S.reads store.old name.now) (S.reads store.new name.now)
        (λ xs. T.took taker.old store.old out.old xs taker.new store.new out.new)
        (λ xs y e. T.stopped taker.old store.old out.old xs y e taker.new store.new out.new)
        result }
    ensures reads { CountsOnly name.now (S.reads store.old) (S.reads store.new) }
{
    let first = match first_bytes(alloc, name, store) {
        Ok(first) => first,
        Err(PortError::Failed) => return Err(FeedError::Failed),
        Err(PortError::OutOfMemory) => return Err(FeedError::OutOfMemory),
    };
    if first.len() < 4 {
        // Too short for either form, and so a cut capture in the classic one.
        return Err(FeedError::Damaged(Damage::Classic(CaptureError {
            kind: CaptureKind::Truncated,
            offset: 0,
        })));
    }
    if is_ng(&first) {
        let mut reader = match NgReader::new(alloc) {
            Ok(reader) => reader,
            Err(OutOfMemory) => return Err(FeedError::OutOfMemory),
        };
        return feed_by(&mut reader, &first, name, taker, store, out);
    }
    let mut reader = match Reader::new(alloc) {
        Ok(reader) => reader,
        Err(OutOfMemory) => return Err(FeedError::OutOfMemory),
    };
    feed_by(&mut reader, &first, name, taker, store, out)
}
