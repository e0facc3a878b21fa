//! How many reads and writes of each name failed.

ghost use Rattle.std.specs.Prelude.{◌≡◌, ◌≤◌};
ghost use Rattle.epic_ports.specs.Faults.{next_count};

use std::alloc::{AllocError, Global};
use std::collections::BTreeMap;

/// One more, or the end of the type.
pub(crate) fn next(count: u64) -> u64
    ensures value { result ≡ next_count count }
    ensures later { count ≤ result }
{
    count.saturating_add(1)
}

/// How many reads and how many writes of a name failed.
#[derive(Debug, Clone, Copy)]
pub(crate) struct Counts {
    reads: u64,
    writes: u64,
}

/// The counts of faults of a store, by name. A name with no entry has none.
#[derive(Debug, Drop)]
pub(crate) struct FaultCounts {
    alloc: Global,
    names: BTreeMap<String, Counts>,
}

impl FaultCounts {
    ghost use Rattle.std.specs.Prelude.{◌≡◌, ℕ, List, OnOk};
    ghost use Rattle.epic_ports.specs.Faults.{CountsFault};
    ghost use Rattle.epic_ports.specs.FaultCounts.{HasRoom, reads_of, writes_of};

    /// No fault of any name.
    pub(crate) fn new(alloc: Global) -> FaultCounts
        ensures reads { (q : List ℕ) → reads_of result q ≡ 0 }
        ensures writes { (q : List ℕ) → writes_of result q ≡ 0 }
    {
        FaultCounts {
            alloc,
            names: BTreeMap::new(alloc),
        }
    }

    /// Makes room for the counts of `name`, so that counting a fault takes no memory.
    pub(crate) fn make_room(&mut self, name: &str) -> Result<(), AllocError>
        ensures room { OnOk result (HasRoom self.new name.now) }
        ensures reads { reads_of self.new ≡ reads_of self.old }
        ensures writes { writes_of self.new ≡ writes_of self.old }
    {
        if self.names.contains_key(name) {
            return Ok(());
        }
        let name = String::from_str(self.alloc, name)?;
        let none = Counts {
            reads: 0,
            writes: 0,
        };
        self.names.insert(name, none)?;
        Ok(())
    }

    /// Counts a failed read of `name`.
    pub(crate) fn count_read(&mut self, name: &str)
        requires { HasRoom self.old name.now }
        ensures reads { CountsFault name.now (reads_of self.old) (reads_of self.new) }
        ensures writes { writes_of self.new ≡ writes_of self.old }
    {
        match self.names.get_mut(name) {
            Some(counts) => counts.reads = next(counts.reads),
            None => unreachable!(),
        }
    }

    /// Counts a failed write of `name`.
    pub(crate) fn count_write(&mut self, name: &str)
        requires { HasRoom self.old name.now }
        ensures reads { reads_of self.new ≡ reads_of self.old }
        ensures writes { CountsFault name.now (writes_of self.old) (writes_of self.new) }
    {
        match self.names.get_mut(name) {
            Some(counts) => counts.writes = next(counts.writes),
            None => unreachable!(),
        }
    }
}
