//! Sent packets by source and timestamp.
ghost use Rattle.std.specs.Prelude.{◌≡◌, ◌≤◌, [], ◌∷◌, ◌++◌};
ghost use Rattle.epic_index.specs.Happened.{IsThere};
ghost use Rattle.epic_index.specs.Numbered.{with_keys};
ghost use Rattle.epic_index.specs.Origins.{origin_key, origin_rows, repeats};
ghost use Rattle.epic_index.specs.Tags.{first_alike};

use crate::event_rows::EventRows;
use crate::happened::packet_of;
use crate::key::Key;
use crate::table::Table;
use epic_ledger::{Event, Ledger};
use epic_view::PacketRef;

/// What a sent packet is sought by: its timestamp and source.
#[derive(Clone, Copy, PartialEq, Eq, PartialOrd, Ord)]
pub struct OriginKey {
    pub ts: u64,
    pub asn: u64,
    pub host: u32,
}

impl Key for OriginKey {
    ghost use Rattle.std.specs.Prelude.{◌%◌, ◌^◌};

    ghost tag = { λ k. k.ts % 2 ^ 32 };

    ghost tagged = { λ y z e. first_alike y.ts z.ts _ e };

    fn tag(&self) -> u32 {
        (self.ts % 0x1_0000_0000) as u32
    }
}

/// What a packet of the source and timestamp of this one is sought by.
#[tactic(auto, unfolding(crate::specs::Origins::origin_key))]
pub fn key_of(packet: &PacketRef<'_>) -> OriginKey
    ensures { result ≡ origin_key packet.now }
{
    let src = packet.src();
    OriginKey {
        ts: packet.ts(),
        asn: src.asn.0,
        host: src.host,
    }
}

/// Adds the packet that was sent by the event of a number, if it was.
#[tactic(auto, unfolding(crate::specs::Origins::origin_rows, epic_ledger::specs::Facts::as_send))]
pub fn add_origin(origins: &mut EventRows<OriginKey>, ledger: &Ledger, event: &Event, number: u32)
    requires room { 1 ≤ origins.old.spare }
    requires there { IsThere ledger.now.history.emissions event.now }
    ensures { origins.new.rows ≡ with_keys origins.old.rows number (origin_rows ledger.now.history.emissions event.now) }
{
    if let Event::Send { emission, .. } = event {
        origins.push(key_of(&packet_of(ledger, *emission)), number);
    }
}

/// Adds a key, if it stands among those that came before.
fn add_again(again: &mut Table<OriginKey>, origins: &EventRows<OriginKey>, key: OriginKey)
    requires { 1 ≤ again.old.spare }
    ensures { again.new.keys ≡ again.old.keys ++ repeats origins.now.rows.keys (key ∷ []) }
{
    if origins.has(key) {
        again.push(key);
    }
}

/// Adds the packet that was sent by an event, if one of its source and timestamp was sent before.
#[tactic(auto, unfolding(crate::specs::Origins::origin_rows, crate::specs::Origins::repeats, epic_ledger::specs::Facts::as_send))]
pub fn add_repeat(
    again: &mut Table<OriginKey>,
    origins: &EventRows<OriginKey>,
    ledger: &Ledger,
    event: &Event,
)
    requires room { 1 ≤ again.old.spare }
    requires there { IsThere ledger.now.history.emissions event.now }
    ensures { again.new.keys ≡ again.old.keys ++ repeats origins.now.rows.keys (origin_rows ledger.now.history.emissions event.now) }
{
    if let Event::Send { emission, .. } = event {
        add_again(again, origins, key_of(&packet_of(ledger, *emission)));
    }
}
