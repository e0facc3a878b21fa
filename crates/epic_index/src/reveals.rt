//! Reveals by holder and step.
ghost use Rattle.std.specs.Prelude.{◌≡◌, ◌+◌, ◌≤◌, [], ◌∷◌, ◌++◌, map};
ghost use Rattle.epic_ledger.specs.Facts.{reveals_in};
ghost use Rattle.epic_index.specs.Tags.{first_same};
ghost use Rattle.epic_index.specs.Keys.{reveal_key};

use crate::key::Key;
use crate::table::Table;
use epic_ledger::Event;
use epic_num::Holder;

/// What a reveal is sought by: its step, whether its holder is a host, 1 or 0, its AS, and its host, 0 where there is
/// none.
#[derive(Clone, Copy, PartialEq, Eq, PartialOrd, Ord)]
pub struct RevealKey {
    pub step: u32,
    pub kind: u8,
    pub asn: u64,
    pub host: u32,
}

impl Key for RevealKey {
    ghost tag = { λ k. k.step };

    ghost tagged = { λ y z e. first_same y.step z.step _ e };

    fn tag(&self) -> u32 {
        self.step
    }
}

/// What a reveal of a holder at a step is sought by.
#[tactic(auto, unfolding(crate::specs::Keys::reveal_key))]
pub fn key_of(holder: &Holder, step: u32) -> RevealKey
    ensures { result ≡ reveal_key (record { step = step; holder = holder.now }) }
{
    match holder {
        Holder::As(a) => RevealKey {
            step,
            kind: 0,
            asn: a.0,
            host: 0,
        },
        Holder::Host(h) => RevealKey {
            step,
            kind: 1,
            asn: h.asn.0,
            host: h.host,
        },
    }
}

/// Adds the reveal that the event is, if it is one.
#[tactic(auto, unfolding(epic_ledger::specs::Facts::as_reveal))]
pub fn add_reveal(reveals: &mut Table<RevealKey>, event: &Event)
    requires { 1 ≤ reveals.old.spare }
    ensures { reveals.new.keys ≡ reveals.old.keys ++ map reveal_key (reveals_in (event.now ∷ [])) }
{
    if let Event::Reveal { step, holder } = event {
        reveals.push(key_of(holder, *step));
    }
}
