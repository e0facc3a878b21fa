//! Sent packets in the order of what they keep on their way.
ghost use Rattle.std.specs.Prelude.{◌≡◌, ◌≤◌, [], ◌∷◌, ◌++◌, length, option_and_then, slice_get, OnOk};
ghost use Rattle.epic_audit.specs.Clauses.{sent_as};
ghost use Rattle.epic_ledger.specs.Facts.{facts_of};
ghost use Rattle.epic_ledger.specs.Indexes.{IsIndexed};
ghost use Rattle.epic_ledger.specs.Ranks.{host_cmp};
ghost use Rattle.epic_index.specs.Events.{send_at};
ghost use Rattle.epic_index.specs.Happened.{IsThere};
ghost use Rattle.epic_index.specs.SentAs.{content_cmp, sent_kind, sent_room, IsSentTree};

use crate::happened::{sent, sent_by};
use epic_ledger::{Event, Ledger};
use epic_num::HostId;
use epic_tree::{Aim, Tree};
use epic_view::PacketRef;
use std::alloc::{AllocError, Global};
use std::cmp::Ordering;

/// How many sent packets a tree has at most.
const MAX_SENT: u64 = 0x7fff_ffff;

/// The numbers of the events that are sends, and a tree over their packets.
#[derive(Drop)]
pub struct SentTree {
    pub at: Vec<u32>,
    pub keys: Tree,
}

#[tactic(auto, unfolding(epic_ledger::specs::Ranks::as_cmp, epic_ledger::specs::Ranks::host_cmp))]
fn host_order(h: HostId, k: HostId) -> Ordering
    ensures { result ≡ host_cmp h k }
{
    h.asn.0.cmp(&k.asn.0).then(h.host.cmp(&k.host))
}

/// The order of two packets by source, timestamp, first byte, destination, path bytes and payload.
#[tactic(auto, unfolding(crate::specs::SentAs::content_cmp))]
fn content_order(p: &PacketRef<'_>, q: &PacketRef<'_>) -> Ordering
    ensures { result ≡ content_cmp p.now q.now }
{
    host_order(p.src(), q.src())
        .then(p.ts().cmp(&q.ts()))
        .then(p.first_byte().cmp(&q.first_byte()))
        .then(host_order(p.dst(), q.dst()))
        .then(p.path_order(q))
        .then(p.payload().cmp(q.payload()))
}

/// A packet that is sought among those that were sent.
#[derive(Drop)]
struct SentAim<'a> {
    ledger: &'a Ledger,
    at: &'a [u32],
    packet: &'a PacketRef<'a>,
}

impl Aim for SentAim<'_> {
    ghost use Rattle.epic_tree.specs.Index.{key_side};
    ghost use Rattle.epic_ledger.specs.Indexes.{keys_of, IsLawfulPlace};
    ghost use Rattle.epic_index.specs.SentAs.{content_cmp, content_tag, no_contents, sent_kind};

    ghost knows = { λ s p. IsLawfulPlace (sent_kind s.ledger.now.history.emissions) s.ledger.now.history.events s.ledger.now.history.emissions s.at.now p };

    ghost side = { λ s p. key_side content_cmp no_contents (keys_of (sent_kind s.ledger.now.history.emissions) s.ledger.now.history.events) s.packet.now p };

    ghost tag = { λ s. content_tag s.packet.now };

    fn side(&self, at: u32) -> Ordering {
        let number = self.at[at as usize];
        match sent(self.ledger, number as u64) {
            Some((_, packet)) => content_order(self.packet, &packet),
            None => unreachable!(),
        }
    }

    #[tactic(auto, unfolding(crate::specs::SentAs::content_tag))]
    fn tag(&self) -> u32 {
        (self.packet.ts() % 0x1_0000_0000) as u32
    }
}

impl SentTree {
    pub fn new(alloc: Global) -> SentTree
        ensures at { result.at.items ≡ [] }
        ensures places { result.keys.places ≡ [] }
        ensures tags { result.keys.tags ≡ [] }
    {
        SentTree {
            at: Vec::new(alloc),
            keys: Tree::new(alloc),
        }
    }

    /// Makes room for one packet more. Where there would be 2^31, memory is wanting, too.
    pub fn reserve(&mut self) -> Result<(), AllocError>
        ensures at { self.new.at.items ≡ self.old.at.items }
        ensures places { self.new.keys.places ≡ self.old.keys.places }
        ensures tags { self.new.keys.tags ≡ self.old.keys.tags }
        ensures room { OnOk result (1 ≤ sent_room self.new) }
    {
        if self.keys.len() as u64 + 1 > MAX_SENT {
            return Err(AllocError);
        }
        self.at.reserve(1)?;
        self.keys.reserve(1)?;
        Ok(())
    }
}

/// The number at a place.
fn number_at(numbers: &Vec<u32>, place: u32) -> Option<u32>
    ensures { result ≡ slice_get numbers.now.items place }
{
    numbers.get(place as usize).copied()
}

/// The number of the event of the first sent packet that has what this one keeps on its way.
pub fn first_sent_as(tree: &SentTree, ledger: &Ledger, packet: &PacketRef<'_>) -> Option<u32>
    requires { IsSentTree ledger.now.history tree.now }
    ensures { option_and_then (send_at ledger.now.history) result ≡ sent_as (facts_of ledger.now.history).sends packet.now }
{
    let _events = ledger.events();
    let aim = SentAim {
        ledger,
        at: tree.at.as_slice(),
        packet,
    };
    match tree.keys.find(&aim) {
        Some(place) => number_at(&tree.at, place),
        None => None,
    }
}

/// Adds the packet that was sent by the event of a number, which comes next, if it was.
pub fn add_sent(tree: &mut SentTree, ledger: &Ledger, event: &Event, number: u32)
    requires index { IsSentTree ledger.now.history tree.old }
    requires there { IsThere ledger.now.history.emissions event.now }
    requires room { 1 ≤ sent_room tree.old }
    requires next { number ≡ length ledger.now.history.events }
    ensures { IsIndexed (sent_kind ledger.now.history.emissions) (ledger.now.history.events ++ event.now ∷ []) tree.new.at.items tree.new.keys }
{
    let _events = ledger.events();
    match sent_by(ledger, event) {
        Some((_, packet)) => {
            let aim = SentAim {
                ledger,
                at: tree.at.as_slice(),
                packet: &packet,
            };
            tree.keys.add(&aim);
            tree.at.push_reserved(number);
        }
        None => {}
    }
}
