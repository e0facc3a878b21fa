//! Fields that sources made and updates that routers gave out, by the messages that they are made over.
ghost use Rattle.std.specs.Prelude.{◌≡◌, ◌+◌, ◌≤◌, [], ◌∷◌, ℕ, IsTrue, if◌then◌else◌};
ghost use Rattle.std.specs.List.{flat_map, range_with_len};
ghost use Rattle.epic_layout.specs.Contents.{hop_count};
ghost use Rattle.epic_num.specs.Levels.{is_tagged, is_updated};
ghost use Rattle.epic_topo.specs.Network.{has};
ghost use Rattle.epic_ledger.specs.Facts.{facts_of};
ghost use Rattle.epic_index.specs.Fields.{field_key, field_keys, field_keys_at, field_rows, message_key, update_rows, AreIssuersKnown};
ghost use Rattle.epic_index.specs.Happened.{IsThere};
ghost use Rattle.epic_index.specs.Numbered.{with_keys};
ghost use Rattle.epic_index.specs.Tags.{first_alike};
ghost use Rattle.epic_index.specs.Twins.{HasKnownAs};

use crate::event_rows::EventRows;
use crate::happened::{name_over, packet_of};
use crate::key::Key;
use epic_fields::hop_message;
use epic_ledger::{Event, Ledger};
use epic_num::{AsId, HopName, HostId, is_tagged, is_updated};
use epic_topo::Topology;
use epic_view::PacketRef;

/// What a field or an update is sought by: the AS and the source that share its key, the key's epoch, and the message.
#[derive(Clone, Copy, PartialEq, Eq, PartialOrd, Ord)]
pub struct FieldKey {
    pub asn: u64,
    pub source: u64,
    pub host: u32,
    pub epoch: u64,
    pub message: [u8; 38],
}

impl Key for FieldKey {
    ghost use Rattle.std.specs.Prelude.{◌%◌, ◌^◌};

    ghost tag = { λ k. k.asn % 2 ^ 32 };

    ghost tagged = { λ y z e. first_alike y.asn z.asn _ e };

    fn tag(&self) -> u32 {
        (self.asn % 0x1_0000_0000) as u32
    }
}

/// What a field that is made over a message is sought by.
#[tactic(auto, unfolding(crate::specs::Fields::field_key))]
pub fn key_of(a: AsId, src: HostId, epoch: u64, message: &[u8; 38]) -> FieldKey
    ensures { result ≡ field_key a src epoch message.now }
{
    FieldKey {
        asn: a.0,
        source: src.asn.0,
        host: src.host,
        epoch,
        message: *message,
    }
}

/// What the field of a hop of this name of a packet is sought by.
#[tactic(auto, unfolding(crate::specs::Fields::message_key))]
fn message_key(topo: &Topology, x: &HopName, packet: &PacketRef<'_>, hop: u8) -> FieldKey
    requires known { IsTrue (has topo.now x.now.asn) }
    requires tagged { IsTrue (is_tagged packet.now.first) }
    ensures { result ≡ message_key topo.now x.now packet.now hop }
{
    let epoch = topo.profile().epoch_of(packet.ts());
    key_of(
        x.asn,
        packet.src(),
        epoch,
        &hop_message(topo, x, packet, hop),
    )
}

/// Adds the field of the hop of a packet that was sent over these segments by the event of a number.
#[tactic(auto, unfolding(crate::specs::Fields::field_keys_at))]
fn add_hop(
    fields: &mut EventRows<FieldKey>,
    topo: &Topology,
    ledger: &Ledger,
    segments: &[u32],
    packet: &PacketRef<'_>,
    hop: u8,
    number: u32,
)
    requires room { 1 ≤ fields.old.spare }
    requires known { AreIssuersKnown topo.now (facts_of ledger.now.history).issues }
    requires tagged { IsTrue (is_tagged packet.now.first) }
    ensures rows { (emission : ℕ) → fields.new.rows ≡ with_keys fields.old.rows number (field_keys_at topo.now (facts_of ledger.now.history).issues (record { emission = emission; segments = segments.now; packet = packet.now }) hop) }
    ensures spare { fields.old.spare ≤ fields.new.spare + 1 }
{
    if let Some(name) = name_over(ledger, segments, packet, hop) {
        fields.push(message_key(topo, &name, packet, hop), number);
    }
}

/// Adds the fields of its hops.
fn add_hops(
    fields: &mut EventRows<FieldKey>,
    topo: &Topology,
    ledger: &Ledger,
    segments: &[u32],
    packet: &PacketRef<'_>,
    number: u32,
)
    requires room { 32 ≤ fields.old.spare }
    requires known { AreIssuersKnown topo.now (facts_of ledger.now.history).issues }
    requires tagged { IsTrue (is_tagged packet.now.first) }
    ensures { (emission : ℕ) → fields.new.rows ≡ with_keys fields.old.rows number (flat_map (field_keys_at topo.now (facts_of ledger.now.history).issues (record { emission = emission; segments = segments.now; packet = packet.now })) (range_with_len 0 (hop_count packet.now))) }
{
    let hops = packet.shape().hops;
    for hop in 0..hops {
        add_hop(fields, topo, ledger, segments, packet, hop, number);
    }
}

/// Adds them where the packet is of level 2 or 3.
#[tactic(auto, unfolding(crate::specs::Fields::field_keys))]
fn add_packet(
    fields: &mut EventRows<FieldKey>,
    topo: &Topology,
    ledger: &Ledger,
    segments: &[u32],
    packet: &PacketRef<'_>,
    number: u32,
)
    requires room { 32 ≤ fields.old.spare }
    requires known { AreIssuersKnown topo.now (facts_of ledger.now.history).issues }
    ensures { (emission : ℕ) → fields.new.rows ≡ with_keys fields.old.rows number (field_keys topo.now (facts_of ledger.now.history).issues (record { emission = emission; segments = segments.now; packet = packet.now })) }
{
    if is_tagged(packet.first_byte()) {
        add_hops(fields, topo, ledger, segments, packet, number);
    }
}

/// Adds the fields of the packet that was sent by the event of a number, if it was.
#[tactic(auto, unfolding(crate::specs::Fields::field_rows, epic_ledger::specs::Facts::as_send))]
pub fn add_fields(
    fields: &mut EventRows<FieldKey>,
    topo: &Topology,
    ledger: &Ledger,
    event: &Event,
    number: u32,
)
    requires room { 32 ≤ fields.old.spare }
    requires known { AreIssuersKnown topo.now (facts_of ledger.now.history).issues }
    requires there { IsThere ledger.now.history.emissions event.now }
    ensures { fields.new.rows ≡ with_keys fields.old.rows number (field_rows topo.now ledger.now.history.emissions (facts_of ledger.now.history).issues event.now) }
{
    if let Event::Send {
        emission,
        segments,
        ..
    } = event
    {
        add_packet(
            fields,
            topo,
            ledger,
            segments.as_slice(),
            &packet_of(ledger, *emission),
            number,
        );
    }
}

/// Adds the update of a hop of this name that was accepted on a packet by the event of a number.
#[tactic(auto, unfolding(crate::specs::Fields::update_keys))]
fn add_hop_update(
    updates: &mut EventRows<FieldKey>,
    topo: &Topology,
    x: &HopName,
    packet: &PacketRef<'_>,
    hop: u8,
    number: u32,
)
    requires room { 1 ≤ updates.old.spare }
    requires known { IsTrue (has topo.now x.now.asn) }
    ensures { updates.new.rows ≡ with_keys updates.old.rows number (if is_updated packet.now.first then message_key topo.now x.now packet.now hop ∷ [] else []) }
{
    let _shape = packet.shape();
    if is_updated(packet.first_byte()) {
        updates.push(message_key(topo, x, packet, hop), number);
    }
}

/// Adds the update of the hop that was accepted by the event of a number, if one was.
#[tactic(auto, unfolding(crate::specs::Fields::update_keys, crate::specs::Fields::update_rows, epic_ledger::specs::Facts::as_pass, epic_ledger::specs::Facts::pass_name))]
pub fn add_update(
    updates: &mut EventRows<FieldKey>,
    topo: &Topology,
    ledger: &Ledger,
    event: &Event,
    number: u32,
)
    requires room { 1 ≤ updates.old.spare }
    requires known { HasKnownAs topo.now event.now }
    requires there { IsThere ledger.now.history.emissions event.now }
    ensures { updates.new.rows ≡ with_keys updates.old.rows number (update_rows topo.now ledger.now.history.emissions event.now) }
{
    if let Event::Pass {
        a,
        hop,
        generation,
        emission,
        ..
    } = event
    {
        let packet = packet_of(ledger, *emission);
        let name = HopName {
            asn: *a,
            generation: *generation,
            body: packet.body(*hop),
        };
        add_hop_update(updates, topo, &name, &packet, *hop, number);
    }
}
