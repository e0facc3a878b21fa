//! Issues by their names and their parents' names.
ghost use Rattle.std.specs.Prelude.{◌≡◌, ◌≤◌};
ghost use Rattle.epic_index.specs.Tags.{first_equal, first_same};
ghost use Rattle.epic_ledger.specs.Facts.{facts_of};
ghost use Rattle.epic_index.specs.Children.{child_key, child_rows};
ghost use Rattle.epic_index.specs.Numbered.{with_keys};

use crate::event_rows::EventRows;
use crate::happened::issue_name;
use crate::key::Key;
use crate::names::{NameKey, key_of as name_key_of};
use epic_ledger::{Event, Ledger};
use epic_num::HopName;

/// What an issue that goes on from another is sought by: its name, and the other's.
#[derive(Clone, Copy, PartialEq, Eq, PartialOrd, Ord)]
pub struct ChildKey {
    pub child: NameKey,
    pub parent: NameKey,
}

impl Key for ChildKey {
    ghost tag = { λ k. k.child.ts_path };

    ghost tagged = { λ y z e. first_same y.child.ts_path z.child.ts_path _ (first_equal _ _ e) };

    fn tag(&self) -> u32 {
        self.child.ts_path
    }
}

/// What an issue of `y` that goes on from one of `z` is sought by.
#[tactic(auto, unfolding(crate::specs::Children::child_key))]
pub fn key_of(y: &HopName, z: &HopName) -> ChildKey
    ensures { result ≡ child_key y.now z.now }
{
    ChildKey {
        child: name_key_of(y),
        parent: name_key_of(z),
    }
}

/// Adds the issue that the event of a number is, if it is one and goes on from another.
#[tactic(auto, unfolding(crate::specs::Children::child_rows, epic_ledger::specs::Facts::as_issue))]
pub fn add_child(children: &mut EventRows<ChildKey>, ledger: &Ledger, event: &Event, number: u32)
    requires { 1 ≤ children.old.spare }
    ensures { children.new.rows ≡ with_keys children.old.rows number (child_rows (facts_of ledger.now.history).issues event.now) }
{
    if let Event::Issue { name, parent, .. } = event {
        if let Some(other) = issue_name(ledger, *parent) {
            children.push(key_of(name, &other), number);
        }
    }
}
