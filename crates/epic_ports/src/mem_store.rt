//! A store in memory, for tests.

ghost use Rattle.std.specs.Prelude.{◌≡◌};

use crate::counts::{FaultCounts, next};
use crate::error::PortError;
use crate::mem_file::{all_differ, empty_file, file, grow_file, read_piece};
use crate::store::Store;
use std::alloc::AllocError;

/// A store in memory that tells its contents, for tests: it fails when it is told to.
///
/// Its calls are numbered from 1. One that ran out of memory did nothing, and isn't counted.
#[derive(Debug, Drop)]
pub struct MemStore {
    files: Vec<(String, Vec<u8>)>,
    fail: Vec<u64>,
    calls: u64,
    counts: FaultCounts,
}

impl MemStore {
    ghost use Rattle.std.specs.Prelude.{◌≡◌, IsTrue, option_copied};
    ghost use Rattle.epic_ports.specs.Faults.{is_listed};
    ghost use Rattle.epic_ports.specs.MemFiles.{names_differ};
    ghost use Rattle.epic_ports.specs.MemStore.{CountsRefusal, HoldsNew, contents_of, reads_of, told_of};
    ghost use Rattle.epic_ports.specs.MemStore.{writes_of};

    /// Whether no two of these files have one name.
    pub fn names_differ(files: &[(String, Vec<u8>)]) -> bool
        ensures { result ≡ names_differ files.now }
    {
        all_differ(files)
    }

    /// A store of these files, each a name and its bytes. The calls whose numbers, from 1, stand in
    /// `fail` fail.
    pub fn new(files: Vec<(String, Vec<u8>)>, fail: Vec<u64>) -> MemStore
        requires { IsTrue (names_differ files.items) }
        ensures { HoldsNew result files.items fail.items }
    {
        let alloc = *files.allocator();
        MemStore {
            files,
            fail,
            calls: 0,
            counts: FaultCounts::new(alloc),
        }
    }

    /// The bytes of a file, if it is there. This is no call of the store.
    pub fn file(&self, name: &str) -> Option<&[u8]>
        ensures { option_copied result ≡ contents_of self.now name.now }
    {
        file(&self.files, name)
    }

    /// Counts a failed read of `name`, which is no call of the store.
    pub(crate) fn refuse_read(&mut self, name: &str) -> Result<(), AllocError>
        ensures files { told_of self.new ≡ told_of self.old }
        ensures reads { CountsRefusal name.now (reads_of self.old) (reads_of self.new) result }
        ensures writes { writes_of self.new ≡ writes_of self.old }
    {
        self.counts.make_room(name)?;
        self.counts.count_read(name);
        Ok(())
    }

    /// Counts a failed write of `name`, which is no call of the store.
    pub(crate) fn refuse_write(&mut self, name: &str) -> Result<(), AllocError>
        ensures files { told_of self.new ≡ told_of self.old }
        ensures reads { reads_of self.new ≡ reads_of self.old }
        ensures writes { CountsRefusal name.now (writes_of self.old) (writes_of self.new) result }
    {
        self.counts.make_room(name)?;
        self.counts.count_write(name);
        Ok(())
    }

    /// Whether the call of this number is one of those that fail.
    fn is_listed(&self, call: u64) -> bool
        ensures { result ≡ is_listed self.now.fail.items call }
    {
        self.fail.contains(&call)
    }
}

impl Store for MemStore {
    ghost use Rattle.std.specs.Prelude.{◌≡◌, ◌||◌, ◌<◌, [], Ok, IfOk, OnOk, OnErr, is_none, length};
    ghost use Rattle.std.specs.Prelude.{take};
    ghost use Rattle.std.specs.Io.{ReadsAtMost};
    ghost use Rattle.epic_ports.specs.Faults.{CountsOnly, FailsBy};
    ghost use Rattle.epic_ports.specs.Files.{KeepsFiles, Replaces, Grows, ReadsPiece};
    ghost use Rattle.epic_ports.specs.MemStore.{CountsCall, CountsWhere, FailsWhere};
    ghost use Rattle.epic_ports.specs.MemStore.{contents_of, is_next_listed, reads_of, told_of};
    ghost use Rattle.epic_ports.specs.MemStore.{writes_of};
    ghost use Rattle.epic_ports.specs.Written.{TakesSome};
    ghost use Rattle.epic_ports.specs.MemFiles.{finite_files};

    ghost contents = { told_of };

    ghost reads = { reads_of };

    ghost writes = { writes_of };

    fn read_at(&mut self, name: &str, at: u64, buf: &mut [u8]) -> Result<usize, PortError>
        ensures bound { ReadsAtMost result buf.new }
        ensures bytes { IfOk result (λ n. ReadsPiece (told_of self.old) name.now at n buf.new) }
        ensures contents { KeepsFiles (told_of self.old) (told_of self.new) }
        ensures reads { CountsOnly name.now (reads_of self.old) (reads_of self.new) }
        ensures writes { writes_of self.new ≡ writes_of self.old }
        ensures cause { FailsBy (reads_of self.old name.now) (reads_of self.new name.now) result }
        ensures failed { FailsWhere
            (is_next_listed self.old || is_none (contents_of self.old name.now)) result }
        ensures counted { CountsWhere name.now (reads_of self.old) (reads_of self.new) result }
        ensures calls { CountsCall self.old self.new result }
    {
        let call = next(self.calls);
        self.counts.make_room(name)?;
        self.calls = call;
        if self.is_listed(call) {
            self.counts.count_read(name);
            return Err(PortError::Failed);
        }
        match read_piece(&self.files, name, at, buf) {
            Some(n) => Ok(n),
            None => {
                self.counts.count_read(name);
                Err(PortError::Failed)
            }
        }
    }

    fn create(&mut self, name: &str) -> Result<(), PortError>
        ensures empty { OnOk result (Replaces (told_of self.old) (told_of self.new) name.now []) }
        ensures err { OnErr result (KeepsFiles (told_of self.old) (told_of self.new)) }
        ensures reads { reads_of self.new ≡ reads_of self.old }
        ensures writes { CountsOnly name.now (writes_of self.old) (writes_of self.new) }
        ensures cause { FailsBy (writes_of self.old name.now) (writes_of self.new name.now) result }
        ensures failed { FailsWhere (is_next_listed self.old) result }
        ensures counted { CountsWhere name.now (writes_of self.old) (writes_of self.new) result }
        ensures calls { CountsCall self.old self.new result }
    {
        let call = next(self.calls);
        self.counts.make_room(name)?;
        if self.is_listed(call) {
            self.calls = call;
            self.counts.count_write(name);
            return Err(PortError::Failed);
        }
        empty_file(&mut self.files, name)?;
        self.calls = call;
        Ok(())
    }

    fn append(&mut self, name: &str, bytes: &[u8]) -> Result<usize, PortError>
        ensures bound { TakesSome result bytes.now }
        ensures nothing { bytes.now ≡ [] → result ≡ Ok 0 }
        ensures bytes { IfOk result (λ n.
            Grows (told_of self.old) (told_of self.new) name.now (take n bytes.now)) }
        ensures err { OnErr result (KeepsFiles (told_of self.old) (told_of self.new)) }
        ensures reads { reads_of self.new ≡ reads_of self.old }
        ensures writes { CountsOnly name.now (writes_of self.old) (writes_of self.new) }
        ensures cause { FailsBy (writes_of self.old name.now) (writes_of self.new name.now) result }
        ensures failed { 0 < length bytes.now → FailsWhere (is_next_listed self.old) result }
        ensures all { IfOk result (λ n. n ≡ length bytes.now) }
        ensures counted { CountsWhere name.now (writes_of self.old) (writes_of self.new) result }
        ensures calls { CountsCall self.old self.new result }
    {
        let call = next(self.calls);
        if bytes.is_empty() {
            self.calls = call;
            return Ok(0);
        }
        self.counts.make_room(name)?;
        if self.is_listed(call) {
            self.calls = call;
            self.counts.count_write(name);
            return Err(PortError::Failed);
        }
        grow_file(&mut self.files, name, bytes)?;
        self.calls = call;
        Ok(bytes.len())
    }

    ghost finite = { λ store. finite_files store.files.items };
}
