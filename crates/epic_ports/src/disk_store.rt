//! A store over the system's files.

ghost use Rattle.std.specs.Io.{ReadsAtMost, WritesAtMost};

use crate::counts::FaultCounts;
use crate::error::PortError;
use crate::store::Store;
use std::fs::OpenOptions;
use std::io::{Read, Seek, SeekFrom, Write};
use std::rt::Files;
use std::{fs, io};

/// The files of the system that the runtime `R` reaches. It tells nothing of their contents, and
/// counts each fault at the file's name.
#[derive(Drop)]
pub struct DiskStore<'a, R> {
    rt: &'a R,
    counts: FaultCounts,
}

impl<'a, R: Files + AllocGlobal> DiskStore<'a, R> {
    ghost use Rattle.std.specs.Prelude.{◌≡◌, ℕ, List};
    ghost use Rattle.epic_ports.specs.DiskStore.{reads_of, writes_of};

    /// The files that `rt` reaches, with no fault yet.
    pub fn new(rt: &'a R) -> DiskStore<'a, R>
        ensures reads { (q : List ℕ) → reads_of result q ≡ 0 }
        ensures writes { (q : List ℕ) → writes_of result q ≡ 0 }
    {
        DiskStore {
            rt,
            counts: FaultCounts::new(rt.alloc()),
        }
    }
}

impl<'a, R: Files + AllocGlobal> Store for DiskStore<'a, R> {
    ghost use Rattle.std.specs.Prelude.{None};
    ghost use Rattle.epic_ports.specs.DiskStore.{reads_of, writes_of};

    ghost contents = { λ _. None };

    ghost reads = { reads_of };

    ghost writes = { writes_of };

    fn read_at(&mut self, name: &str, at: u64, buf: &mut [u8]) -> Result<usize, PortError> {
        self.counts.make_room(name)?;
        match read_piece(self.rt, name, at, buf) {
            Ok(n) => Ok(n),
            Err(_) => {
                self.counts.count_read(name);
                Err(PortError::Failed)
            }
        }
    }

    fn create(&mut self, name: &str) -> Result<(), PortError> {
        self.counts.make_room(name)?;
        match make_empty(self.rt, name) {
            Ok(()) => Ok(()),
            Err(_) => {
                self.counts.count_write(name);
                Err(PortError::Failed)
            }
        }
    }

    fn append(&mut self, name: &str, bytes: &[u8]) -> Result<usize, PortError> {
        if bytes.is_empty() {
            return Ok(0);
        }
        self.counts.make_room(name)?;
        match append_piece(self.rt, name, bytes) {
            Ok(n) if n > 0 => Ok(n),
            _ => {
                self.counts.count_write(name);
                Err(PortError::Failed)
            }
        }
    }

    ghost finite = { λ _. tt };
}

/// Reads a piece of a file from byte `at` on.
fn read_piece<R: Files>(rt: &R, name: &str, at: u64, buf: &mut [u8]) -> io::Result<usize>
    ensures { ReadsAtMost result buf.new }
{
    let mut file = fs::open(rt, name)?;
    file.seek(SeekFrom::Start(at))?;
    file.read(buf)
}

/// Makes a file empty, whether it is there or not.
fn make_empty<R: Files>(rt: &R, name: &str) -> io::Result<()> {
    let _file = fs::create(rt, name)?;
    Ok(())
}

/// Adds a piece at the end of a file, which is made if it isn't there.
fn append_piece<R: Files>(rt: &R, name: &str, bytes: &[u8]) -> io::Result<usize>
    ensures { WritesAtMost result bytes.now }
{
    let mut file = OpenOptions::new().append(true).create(true).open(rt, name)?;
    file.write(bytes)
}
