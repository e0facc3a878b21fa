//! The hops that routers accepted, in a tree.
ghost use Rattle.std.specs.Prelude.{◌≡◌, ◌+◌, ◌-◌, ◌^◌, ◌<◌, ◌≤◌, [], ◌∷◌, ◌++◌, length, option_map, List};
ghost use Rattle.epic_ledger.specs.Facts.{as_pass, issues_in};
ghost use Rattle.epic_ledger.specs.History.{Emission};
ghost use Rattle.epic_ledger.specs.Indexes.{pass_key, sought_cmp, pass_kind, IsIndexed, room_in};
ghost use Rattle.epic_ledger.specs.Lawful.{Fits, FitsPass, IsLawful};
ghost use Rattle.epic_ledger.specs.Queries as queries;
ghost use Rattle.epic_ledger.specs.Walks.{pass_with};

use crate::Event;
use crate::emissions::Emissions;
use crate::index::Index;
use crate::packet::packet_in;
use crate::passes::{Passing, Sought};
use crate::ranks::{host_order, name_order};
use epic_num::HopName;
use epic_tree::Aim;
use std::cmp::Ordering;

/// The pass that an event is, if it is one.
#[tactic(auto, unfolding(crate::specs::Facts::as_pass, crate::specs::Walks::pass_with))]
pub fn passing_of(event: &Event) -> Option<Passing>
    ensures { (es : List Emission) → option_map (pass_with es) result ≡ as_pass es event.now }
{
    match event {
        Event::Pass {
            a,
            hop,
            generation,
            emission,
            ..
        } => Some(Passing {
            asn: *a,
            generation: *generation,
            hop: *hop,
            emission: *emission,
        }),
        _ => None,
    }
}

/// What a pass is sought by.
#[tactic(auto, unfolding(crate::specs::Facts::packet_at, crate::specs::Facts::pass_name, crate::specs::Indexes::pass_key, crate::specs::Walks::pass_with))]
pub fn key_of(emissions: &Emissions, pass: Passing) -> Sought
    requires { FitsPass emissions.now.emissions pass.emission pass.hop }
    ensures { result ≡ pass_key (pass_with emissions.now.emissions pass) }
{
    let packet = packet_in(emissions.bytes_of(pass.emission));
    Sought {
        first: packet.first_byte(),
        name: HopName {
            asn: pass.asn,
            generation: pass.generation,
            body: packet.body(pass.hop),
        },
        src: packet.src(),
        ts: packet.ts(),
        hop: pass.hop,
    }
}

#[tactic(auto, unfolding(crate::specs::Indexes::sought_cmp))]
fn sought_order(x: &Sought, y: &Sought) -> Ordering
    ensures { result ≡ sought_cmp x.now y.now }
{
    x.first
        .cmp(&y.first)
        .then(name_order(&x.name, &y.name))
        .then(host_order(x.src, y.src))
        .then(x.ts.cmp(&y.ts))
        .then(x.hop.cmp(&y.hop))
}

/// What is sought among the passes.
#[derive(Drop)]
struct PassAim<'a> {
    events: &'a [Event],
    emissions: &'a Emissions,
    at: &'a [u32],
    sought: Sought,
}

impl Aim for PassAim<'_> {
    ghost use Rattle.epic_tree.specs.Index.{key_side};
    ghost use Rattle.epic_ledger.specs.Indexes.{keys_of, sought_cmp, sought_tag, no_sought, pass_kind, IsLawfulPlace};

    ghost knows = { λ s p. IsLawfulPlace (pass_kind s.emissions.now.emissions) s.events.now s.emissions.now.emissions s.at.now p };

    ghost side = { λ s p. key_side sought_cmp no_sought (keys_of (pass_kind s.emissions.now.emissions) s.events.now) s.sought p };

    ghost tag = { λ s. sought_tag s.sought };

    fn side(&self, at: u32) -> Ordering {
        let number = self.at[at as usize];
        match passing_of(&self.events[number as usize]) {
            Some(pass) => sought_order(&self.sought, &key_of(self.emissions, pass)),
            None => unreachable!(),
        }
    }

    #[tactic(auto, unfolding(crate::specs::Indexes::sought_tag))]
    fn tag(&self) -> u32 {
        (self.sought.ts % 0x1_0000_0000) as u32
    }
}

/// The number of the first event that is the pass that is sought.
pub fn first_pass(
    index: &Index,
    events: &[Event],
    emissions: &Emissions,
    sought: Sought,
) -> Option<u32>
    requires lawful { IsLawful (record { events = events.now; emissions = emissions.now.emissions }) }
    requires index { IsIndexed (pass_kind emissions.now.emissions) events.now index.now.at.items index.now.keys }
    ensures { result ≡ queries.pass_of (record { events = events.now; emissions = emissions.now.emissions }) sought.first sought.name sought.src sought.ts sought.hop }
{
    let aim = PassAim {
        events,
        emissions,
        at: index.at.as_slice(),
        sought,
    };
    match index.keys.find(&aim) {
        Some(place) => Some(index.at[place as usize]),
        None => None,
    }
}

/// Adds the next event, if it is a pass.
pub fn add_pass(index: &mut Index, events: &[Event], emissions: &Emissions, event: &Event)
    requires lawful { IsLawful (record { events = events.now; emissions = emissions.now.emissions }) }
    requires index { IsIndexed (pass_kind emissions.now.emissions) events.now index.old.at.items index.old.keys }
    requires fits { Fits emissions.now.emissions (issues_in events.now) event.now }
    requires room { 1 ≤ room_in index.old }
    requires few { length events.now < 2 ^ 31 }
    ensures index { IsIndexed (pass_kind emissions.now.emissions) (events.now ++ event.now ∷ []) index.new.at.items index.new.keys }
    ensures spare { room_in index.old ≤ room_in index.new + 1 }
{
    if let Some(pass) = passing_of(event) {
        let aim = PassAim {
            events,
            emissions,
            at: index.at.as_slice(),
            sought: key_of(emissions, pass),
        };
        index.keys.add(&aim);
        index.at.push_reserved(events.len() as u32);
    }
}
