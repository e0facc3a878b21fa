//! Sent packets by source, timestamp and first byte.
ghost use Rattle.std.specs.Prelude.{◌≡◌, ◌≤◌};
ghost use Rattle.epic_index.specs.Happened.{IsThere};
ghost use Rattle.epic_index.specs.Likes.{like_key, like_rows};
ghost use Rattle.epic_index.specs.Numbered.{with_keys};
ghost use Rattle.epic_index.specs.Tags.{first_alike};

use crate::event_rows::EventRows;
use crate::happened::packet_of;
use crate::key::Key;
use epic_ledger::{Event, Ledger};
use epic_view::PacketRef;

/// What a sent packet is sought by: its timestamp, source and first byte.
#[derive(Clone, Copy, PartialEq, Eq, PartialOrd, Ord)]
pub struct LikeKey {
    pub ts: u64,
    pub asn: u64,
    pub host: u32,
    pub first: u8,
}

impl Key for LikeKey {
    ghost use Rattle.std.specs.Prelude.{◌%◌, ◌^◌};

    ghost tag = { λ k. k.ts % 2 ^ 32 };

    ghost tagged = { λ y z e. first_alike y.ts z.ts _ e };

    fn tag(&self) -> u32 {
        (self.ts % 0x1_0000_0000) as u32
    }
}

/// What a packet like this one is sought by.
#[tactic(auto, unfolding(crate::specs::Likes::like_key))]
pub fn key_of(packet: &PacketRef<'_>) -> LikeKey
    ensures { result ≡ like_key packet.now }
{
    let src = packet.src();
    LikeKey {
        ts: packet.ts(),
        asn: src.asn.0,
        host: src.host,
        first: packet.first_byte(),
    }
}

/// Adds the packet that was sent by the event of a number, if it was.
#[tactic(auto, unfolding(crate::specs::Likes::like_rows, epic_ledger::specs::Facts::as_send))]
pub fn add_like(likes: &mut EventRows<LikeKey>, ledger: &Ledger, event: &Event, number: u32)
    requires room { 1 ≤ likes.old.spare }
    requires there { IsThere ledger.now.history.emissions event.now }
    ensures { likes.new.rows ≡ with_keys likes.old.rows number (like_rows ledger.now.history.emissions event.now) }
{
    if let Event::Send { emission, .. } = event {
        likes.push(key_of(&packet_of(ledger, *emission)), number);
    }
}
