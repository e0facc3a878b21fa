//! Paths: legs that meet.

ghost use Rattle.std.specs.Prelude.{IsTrue};
ghost use Rattle.epic_num.specs.Paths.{is_lawful};

use crate::Leg;
use arrayvec::ArrayVec;

/// A lawful path: one to three well-formed segments that meet, of kinds that go together, each of 2 to 16 hops, with
/// at most 32 hops in all.
#[derive(Debug, Drop, PartialEq, Eq)]
pub struct Path {
    /// In travel order.
    pub legs: ArrayVec<Leg, 3>,
    pub ghost lawful: { IsTrue (is_lawful legs.items) },
}
