//! A store in memory that fails once at a file, for tests.

use crate::error::PortError;
use crate::mem_store::MemStore;
use crate::store::Store;

/// A store in memory that fails, once, at the first call that names a file, or at the first append
/// to it. Its other calls are those of the store below it.
#[derive(Debug, Drop)]
pub struct NamedStore {
    store: MemStore,
    name: String,
    appends: bool,
    has_failed: bool,
}

impl NamedStore {
    ghost use Rattle.std.specs.Prelude.{◌≡◌, false, option_copied};
    ghost use Rattle.epic_ports.specs.MemStore.{contents_of};
    ghost use Rattle.epic_ports.specs.NamedStore.{HoldsStore, fails_at};

    /// A store that fails at the file `name`: at the first append to it where `appends` is true,
    /// else at the first call that names it.
    pub fn new(store: MemStore, name: String, appends: bool) -> NamedStore
        ensures { HoldsStore result store name appends }
    {
        NamedStore {
            store,
            name,
            appends,
            has_failed: false,
        }
    }

    /// The bytes of a file, if it is there. This is no call of the store.
    pub fn file(&self, name: &str) -> Option<&[u8]>
        ensures { option_copied result ≡ contents_of self.now.store name.now }
    {
        self.store.file(name)
    }

    /// Whether a call that names `name`, an append or not, is the one that fails.
    fn fails_at(&self, name: &str, is_append: bool) -> bool
        ensures { result ≡ fails_at self.now name.now is_append }
    {
        !self.has_failed && self.name.as_str() == name && (is_append || !self.appends)
    }
}

impl Store for NamedStore {
    ghost use Rattle.std.specs.Prelude.{◌≡◌, ◌||◌, ◌<◌, [], Ok, IfOk, OnOk, OnErr, is_none, length};
    ghost use Rattle.std.specs.Prelude.{false, take, true};
    ghost use Rattle.std.specs.Io.{ReadsAtMost};
    ghost use Rattle.epic_ports.specs.Faults.{CountsOnly, FailsBy};
    ghost use Rattle.epic_ports.specs.Files.{KeepsFiles, Replaces, Grows, ReadsPiece};
    ghost use Rattle.epic_ports.specs.MemStore.{FailsWhere, contents_of, is_next_listed};
    ghost use Rattle.epic_ports.specs.MemFiles.{finite_files};
    ghost use Rattle.epic_ports.specs.NamedStore.{fails_at, reads_of, told_of, writes_of};
    ghost use Rattle.epic_ports.specs.Written.{TakesSome};

    ghost contents = { told_of };

    ghost reads = { reads_of };

    ghost writes = { writes_of };

    fn read_at(&mut self, name: &str, at: u64, buf: &mut [u8]) -> Result<usize, PortError>
        ensures bound { ReadsAtMost result buf.new }
        ensures bytes { IfOk result (λ n. ReadsPiece (told_of self.old) name.now at n buf.new) }
        ensures contents { KeepsFiles (told_of self.old) (told_of self.new) }
        ensures reads { CountsOnly name.now (reads_of self.old) (reads_of self.new) }
        ensures writes { writes_of self.new ≡ writes_of self.old }
        ensures cause { FailsBy (reads_of self.old name.now) (reads_of self.new name.now) result }
        ensures failed { FailsWhere (fails_at self.old name.now false
            || (is_next_listed self.old.store || is_none (contents_of self.old.store name.now)))
            result }
    {
        if self.fails_at(name, false) {
            self.store.refuse_read(name)?;
            self.has_failed = true;
            return Err(PortError::Failed);
        }
        self.store.read_at(name, at, buf)
    }

    fn create(&mut self, name: &str) -> Result<(), PortError>
        ensures empty { OnOk result (Replaces (told_of self.old) (told_of self.new) name.now []) }
        ensures err { OnErr result (KeepsFiles (told_of self.old) (told_of self.new)) }
        ensures reads { reads_of self.new ≡ reads_of self.old }
        ensures writes { CountsOnly name.now (writes_of self.old) (writes_of self.new) }
        ensures cause { FailsBy (writes_of self.old name.now) (writes_of self.new name.now) result }
        ensures failed { FailsWhere (fails_at self.old name.now false
            || is_next_listed self.old.store) result }
    {
        if self.fails_at(name, false) {
            self.store.refuse_write(name)?;
            self.has_failed = true;
            return Err(PortError::Failed);
        }
        self.store.create(name)
    }

    fn append(&mut self, name: &str, bytes: &[u8]) -> Result<usize, PortError>
        ensures bound { TakesSome result bytes.now }
        ensures nothing { bytes.now ≡ [] → result ≡ Ok 0 }
        ensures bytes { IfOk result (λ n.
            Grows (told_of self.old) (told_of self.new) name.now (take n bytes.now)) }
        ensures err { OnErr result (KeepsFiles (told_of self.old) (told_of self.new)) }
        ensures reads { reads_of self.new ≡ reads_of self.old }
        ensures writes { CountsOnly name.now (writes_of self.old) (writes_of self.new) }
        ensures cause { FailsBy (writes_of self.old name.now) (writes_of self.new name.now) result }
        ensures failed { 0 < length bytes.now → FailsWhere (fails_at self.old name.now true
            || is_next_listed self.old.store) result }
    {
        if !bytes.is_empty() && self.fails_at(name, true) {
            self.store.refuse_write(name)?;
            self.has_failed = true;
            return Err(PortError::Failed);
        }
        self.store.append(name, bytes)
    }

    ghost finite = { λ store. finite_files store.store.files.items };
}
