//! The words of which the words of a forgery are made.

ghost use Rattle.std.specs.Prelude.{◌≡◌, ◌<◌, IfOk, IsTrue};
ghost use Rattle.std.specs.String.{string_bytes};
ghost use Rattle.epic_num.specs.Levels.{is_tagged};
ghost use Rattle.epic_layout.specs.Contents.{hop_count};
ghost use Rattle.epic_topo.specs.Network.{has};
ghost use Rattle.epic_keys.specs.Keys as keys;
ghost use Rattle.epic_fields.specs.PacketTags as packet_tags;
ghost use Rattle.epic_audit.specs.ForgedText as spec;

use crate::dest_message::append_field;
use epic_fields::hop_message;
use epic_keys::owner;
use epic_num::{Forgery, HopName, KeyName, authenticator_message};
use epic_topo::Topology;
use epic_view::PacketRef;
use std::alloc::{AllocError, Global};

/// The name of a key.
#[tactic(auto, unfolding(crate::specs::ForgedText::key_text))]
pub fn key_text(alloc: Global, key: &KeyName) -> Result<String, AllocError>
    ensures { IfOk result (λ text. string_bytes text ≡ spec.key_text key.now) }
{
    match *key {
        KeyName::Fwd { a, g } => format!(in alloc; "fwd,{a},{g}"),
        KeyName::Field { a, src, epoch } => format!(in alloc; "field,{a},{src},{epoch}"),
        KeyName::Dest { dst, src, epoch } => format!(in alloc; "dest,{dst},{src},{epoch}"),
    }
}

/// What the authenticator of a hop is made over, in hexadecimal digits.
#[tactic(auto, unfolding(crate::specs::ForgedText::authenticator_text))]
pub fn authenticator_text(
    alloc: Global,
    packet: &PacketRef<'_>,
    hop: u8,
) -> Result<String, AllocError>
    requires { hop < hop_count packet.now }
    ensures { IfOk result (λ text. string_bytes text ≡ spec.authenticator_text packet.now hop) }
{
    hex::encode(alloc, authenticator_message(&packet.body(hop)).as_slice())
}

/// The field of a hop, in hexadecimal digits.
#[tactic(auto, unfolding(crate::specs::ForgedText::field_text))]
pub fn field_text(alloc: Global, packet: &PacketRef<'_>, hop: u8) -> Result<String, AllocError>
    requires { hop < hop_count packet.now }
    ensures { IfOk result (λ text. string_bytes text ≡ spec.field_text packet.now hop) }
{
    let mut field = Vec::new(alloc);
    append_field(&mut field, packet, hop)?;
    hex::encode(alloc, field.as_slice())
}

/// What the field of the forgery's hop, and its update, are made over at levels 2 and 3.
#[tactic(auto, unfolding(crate::specs::ForgedText::forged_hop, epic_fields::specs::HopChecks::hop_name))]
pub fn forged_message(topo: &Topology, packet: &PacketRef<'_>, forgery: &Forgery) -> [u8; 38]
    requires hop { forgery.now.hop < hop_count packet.now }
    requires owner { IsTrue (has topo.now (keys.owner forgery.now.key)) }
    requires tagged { IsTrue (is_tagged packet.now.first) }
    ensures { result ≡ packet_tags.hop_message topo.now (spec.forged_hop packet.now forgery.now) packet.now forgery.now.hop }
{
    let name = HopName {
        asn: owner(&forgery.key),
        generation: forgery.generation,
        body: packet.body(forgery.hop),
    };
    hop_message(topo, &name, packet, forgery.hop)
}
