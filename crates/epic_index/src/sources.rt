//! Hops of sent packets by the packets' sources and timestamps, and the hops' names.
ghost use Rattle.std.specs.Prelude.{◌≡◌, ◌+◌, ◌≤◌, ℕ};
ghost use Rattle.epic_ledger.specs.Facts.{facts_of};
ghost use Rattle.epic_index.specs.Happened.{IsThere};
ghost use Rattle.epic_index.specs.Sources.{source_key, source_keys, source_keys_at, source_rows};
ghost use Rattle.epic_index.specs.Numbered.{with_keys};
ghost use Rattle.epic_index.specs.Tags.{first_alike};

use crate::event_rows::EventRows;
use crate::happened::{name_over, packet_of};
use crate::key::Key;
use crate::names::{NameKey, key_of as name_key_of};
use epic_ledger::{Event, Ledger};
use epic_num::HopName;
use epic_view::PacketRef;

/// What a hop of a sent packet is sought by: the packet's timestamp, source and first byte, the hop's index, and its name.
#[derive(Clone, Copy, PartialEq, Eq, PartialOrd, Ord)]
pub struct SourceKey {
    pub ts: u64,
    pub asn: u64,
    pub host: u32,
    pub first: u8,
    pub hop: u8,
    pub name: NameKey,
}

impl Key for SourceKey {
    ghost use Rattle.std.specs.Prelude.{◌%◌, ◌^◌};

    ghost tag = { λ k. k.ts % 2 ^ 32 };

    ghost tagged = { λ y z e. first_alike y.ts z.ts _ e };

    fn tag(&self) -> u32 {
        (self.ts % 0x1_0000_0000) as u32
    }
}

/// What a hop of this name of a packet is sought by.
#[tactic(auto, unfolding(crate::specs::Sources::source_key))]
pub fn key_of(packet: &PacketRef<'_>, hop: u8, x: &HopName) -> SourceKey
    ensures { result ≡ source_key packet.now hop x.now }
{
    let src = packet.src();
    SourceKey {
        ts: packet.ts(),
        asn: src.asn.0,
        host: src.host,
        first: packet.first_byte(),
        hop,
        name: name_key_of(x),
    }
}

/// Adds the hop of a packet that was sent over these segments by the event of a number.
#[tactic(auto, unfolding(crate::specs::Sources::source_keys_at))]
fn add_hop(
    sources: &mut EventRows<SourceKey>,
    ledger: &Ledger,
    segments: &[u32],
    packet: &PacketRef<'_>,
    hop: u8,
    number: u32,
)
    requires { 1 ≤ sources.old.spare }
    ensures rows { (emission : ℕ) → sources.new.rows ≡ with_keys sources.old.rows number (source_keys_at (facts_of ledger.now.history).issues (record { emission = emission; segments = segments.now; packet = packet.now }) hop) }
    ensures spare { sources.old.spare ≤ sources.new.spare + 1 }
{
    if let Some(name) = name_over(ledger, segments, packet, hop) {
        sources.push(key_of(packet, hop, &name), number);
    }
}

/// Adds its hops.
fn add_hops(
    sources: &mut EventRows<SourceKey>,
    ledger: &Ledger,
    segments: &[u32],
    packet: &PacketRef<'_>,
    number: u32,
)
    requires { 32 ≤ sources.old.spare }
    ensures { (emission : ℕ) → sources.new.rows ≡ with_keys sources.old.rows number (source_keys (facts_of ledger.now.history).issues (record { emission = emission; segments = segments.now; packet = packet.now })) }
{
    let hops = packet.shape().hops;
    for hop in 0..hops {
        add_hop(sources, ledger, segments, packet, hop, number);
    }
}

/// Adds the hops of the packet that was sent by the event of a number, if it was.
#[tactic(auto, unfolding(crate::specs::Sources::source_rows, epic_ledger::specs::Facts::as_send))]
pub fn add_sources(sources: &mut EventRows<SourceKey>, ledger: &Ledger, event: &Event, number: u32)
    requires room { 32 ≤ sources.old.spare }
    requires there { IsThere ledger.now.history.emissions event.now }
    ensures { sources.new.rows ≡ with_keys sources.old.rows number (source_rows ledger.now.history.emissions (facts_of ledger.now.history).issues event.now) }
{
    if let Event::Send {
        emission,
        segments,
        ..
    } = event
    {
        add_hops(
            sources,
            ledger,
            segments.as_slice(),
            &packet_of(ledger, *emission),
            number,
        );
    }
}
