//! The holders that were revealed, in a tree.
ghost use Rattle.std.specs.Prelude.{◌≡◌, ◌+◌, ◌-◌, ◌^◌, ◌<◌, ◌≤◌, [], ◌∷◌, ◌++◌, length, option_map};
ghost use Rattle.epic_ledger.specs.Facts.{as_reveal, reveals_in};
ghost use Rattle.epic_ledger.specs.Indexes.{reveal_kind, IsIndexed, room_in};
ghost use Rattle.epic_ledger.specs.Queries.{reveal_of};
ghost use Rattle.epic_ledger.specs.Ranks as ranks;
ghost use Rattle.epic_ledger.specs.Walks.{reveal_in};

use crate::Event;
use crate::index::Index;
use crate::ranks::holder_order;
use crate::reveals::Revealing;
use epic_num::Holder;
use epic_tree::Aim;
use std::cmp::Ordering;

/// The reveal that an event is, if it is one.
#[tactic(auto, unfolding(crate::specs::Facts::as_reveal, crate::specs::Walks::reveal_in))]
fn revealing_of(event: &Event) -> Option<Revealing>
    ensures { option_map reveal_in result ≡ as_reveal event.now }
{
    match event {
        Event::Reveal { step, holder } => Some(Revealing {
            step: *step,
            holder: *holder,
        }),
        _ => None,
    }
}

/// The lower half of a holder's AS, or the number of its host.
#[tactic(auto, unfolding(crate::specs::Ranks::holder_tag))]
fn holder_tag(holder: Holder) -> u32
    ensures { result ≡ ranks.holder_tag holder }
{
    match holder {
        Holder::As(a) => (a.0 % 0x1_0000_0000) as u32,
        Holder::Host(host) => host.host,
    }
}

/// A holder that is sought among those that were revealed.
#[derive(Drop)]
struct HolderAim<'a> {
    events: &'a [Event],
    at: &'a [u32],
    holder: Holder,
}

impl Aim for HolderAim<'_> {
    ghost use Rattle.epic_tree.specs.Index.{key_side};
    ghost use Rattle.epic_ledger.specs.Indexes.{keys_of, reveal_kind, IsPlace};
    ghost use Rattle.epic_ledger.specs.Ranks.{holder_cmp};
    ghost use Rattle.epic_ledger.specs.Ranks as ranks;

    ghost knows = { λ s p. IsPlace reveal_kind s.events.now s.at.now p };

    ghost side = { λ s p. key_side holder_cmp reveal_kind.none (keys_of reveal_kind s.events.now) s.holder p };

    ghost tag = { λ s. ranks.holder_tag s.holder };

    fn side(&self, at: u32) -> Ordering {
        let number = self.at[at as usize];
        match revealing_of(&self.events[number as usize]) {
            Some(revealing) => holder_order(self.holder, revealing.holder),
            None => unreachable!(),
        }
    }

    fn tag(&self) -> u32 {
        holder_tag(self.holder)
    }
}

/// The first reveal of a holder.
pub fn first_reveal(index: &Index, events: &[Event], holder: Holder) -> Option<Revealing>
    requires { IsIndexed reveal_kind events.now index.now.at.items index.now.keys }
    ensures { option_map reveal_in result ≡ reveal_of (reveals_in events.now) holder }
{
    let aim = HolderAim {
        events,
        at: index.at.as_slice(),
        holder,
    };
    match index.keys.find(&aim) {
        Some(place) => {
            let number = index.at[place as usize];
            revealing_of(&events[number as usize])
        }
        None => None,
    }
}

/// Adds the next event, if it is a reveal.
pub fn add_reveal(index: &mut Index, events: &[Event], event: &Event)
    requires index { IsIndexed reveal_kind events.now index.old.at.items index.old.keys }
    requires room { 1 ≤ room_in index.old }
    requires few { length events.now < 2 ^ 31 }
    ensures index { IsIndexed reveal_kind (events.now ++ event.now ∷ []) index.new.at.items index.new.keys }
    ensures spare { room_in index.old ≤ room_in index.new + 1 }
{
    if let Some(revealing) = revealing_of(event) {
        let aim = HolderAim {
            events,
            at: index.at.as_slice(),
            holder: revealing.holder,
        };
        index.keys.add(&aim);
        index.at.push_reserved(events.len() as u32);
    }
}
