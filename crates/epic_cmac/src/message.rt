//! The bytes that a state was fed, which only proofs read.

ghost use Rattle.std.specs.Prelude.{◌≡◌, ℕ, List, [], ◌++◌};
ghost use Rattle.std.specs.Borrow.{ftrue};

use std::marker::Model;

/// A list of bytes in proofs, and nothing when the program runs. Clauses read it as `bytes`.
#[derive(Drop)]
pub(crate) struct Message {
    pub ghost bytes: { List ℕ },
}

impl Model for Message {
    ghost also_owns = { λ _. ftrue };
}

impl Message {
    pub(crate) fn empty() -> Message
        ensures { result.bytes ≡ [] }
    {
        Message {}
    }

    pub(crate) fn append(&mut self, _piece: &[u8])
        ensures { self.new.bytes ≡ self.old.bytes ++ _piece.now }
    {}
}
