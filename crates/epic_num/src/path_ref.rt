//! Paths by the numbers of their segments.

ghost use Rattle.std.specs.Prelude.{◌≡◌, List};

use arrayvec::ArrayVec;
use std::marker::Model;

/// A path, named by the last issue of each of its segments in travel order.
#[derive(Debug, Drop, PartialEq, Eq)]
pub struct PathRef {
    pub issues: ArrayVec<u32, 3>,
    /// How many hops the path has.
    pub hops: u8,
}

/// A list of paths on the heap.
#[derive(Debug, Drop)]
pub struct PathList {
    items: Vec<PathRef>,
}

impl Model for PathList {
    ghost use Rattle.std.specs.Prelude.{List};
    ghost use Rattle.epic_num.specs.declared.path_ref.PathRef.{PathRef};

    ghost Value = { List PathRef };

    ghost view = { λ l. l.items.items };
}

impl PathList {
    /// The paths of `items`. It takes no memory.
    pub fn from_vec(items: Vec<PathRef>) -> PathList
        ensures { result ≡ items.items }
    {
        PathList { items }
    }

    pub fn as_slice(&self) -> &[PathRef]
        ensures { result.now ≡ self.now }
    {
        self.items.as_slice()
    }
}
