//! What else a report says of a pass.

ghost use Rattle.std.specs.Prelude.{◌≡◌, [], map};
ghost use Rattle.epic_text.specs.Notes.{behind_hop, nothing_noted};

use std::alloc::Global;
use std::marker::Model;

/// Further lines of a pass, each with its step's number and its line feed.
#[derive(Drop)]
pub struct Notes {
    /// A text behind the line of each handled hop, in order.
    hops: Vec<Vec<u8>>,
    /// A text behind all lines of the pass.
    last: Vec<u8>,
}

impl Model for Notes {
    ghost use Rattle.std.specs.Prelude.{map};
    ghost use Rattle.epic_text.specs.Notes.{Noted};

    ghost Value = { Noted };

    ghost view = { λ n. record { behind = map (λ text. text.items) n.hops.items; last = n.last.items } };
}

impl Notes {
    /// No further lines. It takes no memory.
    pub fn new(alloc: Global) -> Notes
        ensures { result ≡ nothing_noted }
    {
        Notes {
            hops: Vec::new(alloc),
            last: Vec::new(alloc),
        }
    }

    /// These texts behind the lines of handled hops, in order, and this one behind all lines of the
    /// pass. It takes no memory.
    pub fn from_texts(hops: Vec<Vec<u8>>, last: Vec<u8>) -> Notes
        ensures { result ≡ record { behind = map (λ text. text.items) hops.items; last = last.items } }
    {
        Notes { hops, last }
    }

    /// The text behind the line of the hop that was handled as the i-th, from 0.
    pub(crate) fn behind(&self, i: usize) -> &[u8]
        ensures { result.now ≡ behind_hop self.now i }
    {
        match self.hops.get(i) {
            Some(text) => text.as_slice(),
            None => &[],
        }
    }

    /// The text behind all lines of the pass.
    pub(crate) fn last(&self) -> &[u8]
        ensures { result.now ≡ self.now.last }
    {
        self.last.as_slice()
    }
}
