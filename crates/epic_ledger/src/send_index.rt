//! What sources sent, in a tree.
ghost use Rattle.std.specs.Prelude.{◌≡◌, ◌+◌, ◌-◌, ◌^◌, ◌<◌, ◌≤◌, [], ◌∷◌, ◌++◌, length, filter_map, option_map, IfSome, IsSome, List};
ghost use Rattle.epic_ledger.specs.Facts.{as_send, issues_in};
ghost use Rattle.epic_ledger.specs.History.{Emission, emission_at};
ghost use Rattle.epic_ledger.specs.Indexes.{send_key, origin_cmp, send_kind, IsIndexed, room_in};
ghost use Rattle.epic_ledger.specs.Lawful.{Fits, IsLawful};
ghost use Rattle.epic_ledger.specs.Queries as queries;
ghost use Rattle.epic_ledger.specs.Walks.{sent_with};

use crate::Event;
use crate::emissions::Emissions;
use crate::index::Index;
use crate::packet::packet_in;
use crate::ranks::host_order;
use crate::sends::Sending;
use epic_num::HostId;
use epic_tree::Aim;
use std::cmp::Ordering;

/// The source of a packet, and its timestamp.
#[derive(Clone, Copy)]
pub struct Origin {
    pub src: HostId,
    pub ts: u64,
}

/// The send that an event is, if it is one.
#[tactic(auto, unfolding(crate::specs::Facts::as_send, crate::specs::Walks::sent_with))]
pub fn sending_of(event: &Event) -> Option<Sending<'_>>
    ensures { (es : List Emission) → option_map (sent_with es) result ≡ as_send es event.now }
{
    match event {
        Event::Send {
            emission,
            segments,
            ..
        } => Some(Sending {
            emission: *emission,
            segments: segments.as_slice(),
        }),
        _ => None,
    }
}

/// What a send is sought by.
#[tactic(auto, unfolding(crate::specs::Facts::packet_at, crate::specs::Indexes::send_key, crate::specs::Walks::sent_with))]
fn origin_of(emissions: &Emissions, sending: Sending<'_>) -> Origin
    requires { IsSome (emission_at emissions.now.emissions sending.emission) }
    ensures { result ≡ send_key (sent_with emissions.now.emissions sending.entry) }
{
    let packet = packet_in(emissions.bytes_of(sending.emission));
    Origin {
        src: packet.src(),
        ts: packet.ts(),
    }
}

#[tactic(auto, unfolding(crate::specs::Indexes::origin_cmp))]
fn origin_order(o: Origin, p: Origin) -> Ordering
    ensures { result ≡ origin_cmp o p }
{
    host_order(o.src, p.src).then(o.ts.cmp(&p.ts))
}

/// What is sought among the sends.
#[derive(Drop)]
struct SendAim<'a> {
    events: &'a [Event],
    emissions: &'a Emissions,
    at: &'a [u32],
    origin: Origin,
}

impl Aim for SendAim<'_> {
    ghost use Rattle.epic_tree.specs.Index.{key_side};
    ghost use Rattle.epic_ledger.specs.Indexes.{keys_of, origin_cmp, origin_tag, no_origin, send_kind, IsLawfulPlace};

    ghost knows = { λ s p. IsLawfulPlace (send_kind s.emissions.now.emissions) s.events.now s.emissions.now.emissions s.at.now p };

    ghost side = { λ s p. key_side origin_cmp no_origin (keys_of (send_kind s.emissions.now.emissions) s.events.now) s.origin p };

    ghost tag = { λ s. origin_tag s.origin };

    fn side(&self, at: u32) -> Ordering {
        let number = self.at[at as usize];
        match sending_of(&self.events[number as usize]) {
            Some(sending) => origin_order(self.origin, origin_of(self.emissions, sending)),
            None => unreachable!(),
        }
    }

    #[tactic(auto, unfolding(crate::specs::Indexes::origin_tag))]
    fn tag(&self) -> u32 {
        (self.origin.ts % 0x1_0000_0000) as u32
    }
}

/// The first packet that a source sent with a timestamp.
pub fn first_send<'a>(
    index: &Index,
    events: &'a [Event],
    emissions: &Emissions,
    origin: Origin,
) -> Option<Sending<'a>>
    requires lawful { IsLawful (record { events = events.now; emissions = emissions.now.emissions }) }
    requires index { IsIndexed (send_kind emissions.now.emissions) events.now index.now.at.items index.now.keys }
    ensures there { IfSome result (λ s. IsSome (emission_at emissions.now.emissions s.emission)) }
    ensures value { option_map (sent_with emissions.now.emissions) result ≡ queries.send_of (filter_map (as_send emissions.now.emissions) events.now) origin.src origin.ts }
{
    let aim = SendAim {
        events,
        emissions,
        at: index.at.as_slice(),
        origin,
    };
    match index.keys.find(&aim) {
        Some(place) => {
            let number = index.at[place as usize];
            sending_of(&events[number as usize])
        }
        None => None,
    }
}

/// Adds the next event, if it is a send.
pub fn add_send(index: &mut Index, events: &[Event], emissions: &Emissions, event: &Event)
    requires lawful { IsLawful (record { events = events.now; emissions = emissions.now.emissions }) }
    requires index { IsIndexed (send_kind emissions.now.emissions) events.now index.old.at.items index.old.keys }
    requires fits { Fits emissions.now.emissions (issues_in events.now) event.now }
    requires room { 1 ≤ room_in index.old }
    requires few { length events.now < 2 ^ 31 }
    ensures index { IsIndexed (send_kind emissions.now.emissions) (events.now ++ event.now ∷ []) index.new.at.items index.new.keys }
    ensures spare { room_in index.old ≤ room_in index.new + 1 }
{
    if let Some(sending) = sending_of(event) {
        let aim = SendAim {
            events,
            emissions,
            at: index.at.as_slice(),
            origin: origin_of(emissions, sending),
        };
        index.keys.add(&aim);
        index.at.push_reserved(events.len() as u32);
    }
}
