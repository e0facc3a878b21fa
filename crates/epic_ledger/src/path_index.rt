//! The hops that routers accepted, in a tree of paths.
ghost use Rattle.std.specs.Prelude.{◌≡◌, ◌+◌, ◌-◌, ◌^◌, ◌<◌, ◌≤◌, [], ◌∷◌, ◌++◌, length, filter_map, option_map, IsSome};
ghost use Rattle.epic_layout.specs.Contents.{IsPacket};
ghost use Rattle.epic_layout.specs.Spelling.{path_bytes};
ghost use Rattle.epic_ledger.specs.Facts.{as_pass, issues_in, packet_at};
ghost use Rattle.epic_ledger.specs.History.{emission_at};
ghost use Rattle.epic_ledger.specs.Indexes.{sought_hop, path_key, path_cmp, path_kind, IsIndexed, room_in};
ghost use Rattle.epic_ledger.specs.Indexes as indexes;
ghost use Rattle.epic_ledger.specs.Lawful.{Fits, IsLawful};
ghost use Rattle.epic_ledger.specs.Queries as queries;
ghost use Rattle.epic_ledger.specs.Walks.{pass_with};

use crate::Event;
use crate::emissions::Emissions;
use crate::index::Index;
use crate::packet::packet_in;
use crate::pass_index::passing_of;
use crate::passes::Passing;
use epic_layout::u32_at;
use epic_layout::wire::HOP_LINK_AT;
use epic_tree::Aim;
use epic_view::PacketRef;
use std::cmp::Ordering;

/// The first halves of the link tags of a packet's first and last hop, added.
#[tactic(auto, using(crate::proofs::PathLaws::some_hop, crate::proofs::PathLaws::path_tag_is))]
fn path_tag(packet: &PacketRef<'_>) -> u32
    ensures { result ≡ indexes.path_tag (path_bytes packet.now.route) }
{
    let hops = packet.shape().hops;
    let first = packet.hop_head(0);
    let last = packet.hop_head(hops - 1);
    u32_at(&first, HOP_LINK_AT).wrapping_add(u32_at(&last, HOP_LINK_AT))
}

/// The packet of an emission that is there.
#[tactic(auto, unfolding(crate::specs::Facts::packet_at))]
fn packet_of(emissions: &Emissions, number: u32) -> PacketRef<'_>
    requires { IsSome (emission_at emissions.now.emissions number) }
    ensures { result ≡ packet_at emissions.now.emissions number }
{
    packet_in(emissions.bytes_of(number))
}

/// How a hop of a packet stands to a pass: by the hop's index, and then by the path bytes.
#[tactic(auto, unfolding(crate::specs::Indexes::path_cmp, crate::specs::Indexes::path_key, crate::specs::Walks::pass_with))]
fn order_on_path(emissions: &Emissions, packet: &PacketRef<'_>, hop: u8, pass: Passing) -> Ordering
    requires { IsSome (emission_at emissions.now.emissions pass.emission) }
    ensures { result ≡ path_cmp (sought_hop packet.now.route hop) (path_key (pass_with emissions.now.emissions pass)) }
{
    match hop.cmp(&pass.hop) {
        Ordering::Less => Ordering::Less,
        Ordering::Equal => packet.path_order(&packet_of(emissions, pass.emission)),
        Ordering::Greater => Ordering::Greater,
    }
}

/// A hop of a packet, which is sought among the passes of packets with the same path bytes.
#[derive(Drop)]
struct PathAim<'a> {
    events: &'a [Event],
    emissions: &'a Emissions,
    at: &'a [u32],
    packet: &'a PacketRef<'a>,
    hop: u8,
}

impl Aim for PathAim<'_> {
    ghost use Rattle.epic_layout.specs.Spelling.{path_bytes};
    ghost use Rattle.epic_tree.specs.Index.{key_side};
    ghost use Rattle.epic_ledger.specs.Indexes as indexes;
    ghost use Rattle.epic_ledger.specs.Indexes.{keys_of, sought_hop, path_cmp, no_path, path_kind, IsLawfulPlace};

    ghost knows = { λ s p. IsLawfulPlace (path_kind s.emissions.now.emissions) s.events.now s.emissions.now.emissions s.at.now p };

    ghost side = { λ s p. key_side path_cmp no_path (keys_of (path_kind s.emissions.now.emissions) s.events.now) (sought_hop s.packet.now.route s.hop) p };

    ghost tag = { λ s. indexes.path_tag (path_bytes s.packet.now.route) };

    fn side(&self, at: u32) -> Ordering {
        let number = self.at[at as usize];
        match passing_of(&self.events[number as usize]) {
            Some(pass) => order_on_path(self.emissions, self.packet, self.hop, pass),
            None => unreachable!(),
        }
    }

    fn tag(&self) -> u32 {
        path_tag(self.packet)
    }
}

/// The first hop that was accepted at this index of a packet with the path bytes of this one.
pub fn first_on_path(
    index: &Index,
    events: &[Event],
    emissions: &Emissions,
    packet: &PacketRef<'_>,
    hop: u8,
) -> Option<Passing>
    requires lawful { IsLawful (record { events = events.now; emissions = emissions.now.emissions }) }
    requires index { IsIndexed (path_kind emissions.now.emissions) events.now index.now.at.items index.now.keys }
    ensures { option_map (pass_with emissions.now.emissions) result ≡ queries.chain_pass (filter_map (as_pass emissions.now.emissions) events.now) packet.now.route hop }
{
    let aim = PathAim {
        events,
        emissions,
        at: index.at.as_slice(),
        packet,
        hop,
    };
    match index.keys.find(&aim) {
        Some(place) => {
            let number = index.at[place as usize];
            passing_of(&events[number as usize])
        }
        None => None,
    }
}

/// Adds the next event, if it is a pass.
pub fn add_path(index: &mut Index, events: &[Event], emissions: &Emissions, event: &Event)
    requires lawful { IsLawful (record { events = events.now; emissions = emissions.now.emissions }) }
    requires index { IsIndexed (path_kind emissions.now.emissions) events.now index.old.at.items index.old.keys }
    requires fits { Fits emissions.now.emissions (issues_in events.now) event.now }
    requires room { 1 ≤ room_in index.old }
    requires few { length events.now < 2 ^ 31 }
    ensures index { IsIndexed (path_kind emissions.now.emissions) (events.now ++ event.now ∷ []) index.new.at.items index.new.keys }
    ensures spare { room_in index.old ≤ room_in index.new + 1 }
{
    if let Some(pass) = passing_of(event) {
        let packet = packet_of(emissions, pass.emission);
        let aim = PathAim {
            events,
            emissions,
            at: index.at.as_slice(),
            packet: &packet,
            hop: pass.hop,
        };
        index.keys.add(&aim);
        index.at.push_reserved(events.len() as u32);
    }
}
