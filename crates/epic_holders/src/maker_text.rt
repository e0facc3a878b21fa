//! The words that say who can have made a field.

ghost use Rattle.std.specs.Prelude.{◌≡◌, ◌++◌, ◌<◌, IfOk, IsTrue, OnErr, OnOk};
ghost use Rattle.std.specs.String.{string_bytes};
ghost use Rattle.epic_num.specs.declared.hop.Level.TheVariants.{L1};
ghost use Rattle.epic_num.specs.Levels.{level_of};
ghost use Rattle.epic_layout.specs.Contents.{hop_count};
ghost use Rattle.epic_topo.specs.Network.{has};
ghost use Rattle.epic_fields.specs.HopChecks.{hop_name};
ghost use Rattle.epic_audit.specs.ForgedText as forged;
ghost use Rattle.epic_audit.specs.ForgedText.{words_text};
ghost use Rattle.epic_holders.specs.MakerText as spec;
ghost use Rattle.epic_holders.specs.MakerText.{IsOfHop};

use crate::maker::Maker;
use epic_fields::sigma;
use epic_num::{AsId, HopName, OutOfMemory, field1_message};
use epic_topo::Topology;
use epic_view::PacketRef;
use std::alloc::{AllocError, Global};

/// The AS of a hop, the generation of its key, and the hop's body.
#[tactic(auto, unfolding(crate::specs::MakerText::hop_text))]
fn hop_text(alloc: Global, name: &HopName) -> Result<String, AllocError>
    ensures { IfOk result (λ text. string_bytes text ≡ spec.hop_text name.now) }
{
    let asn = name.asn;
    let generation = name.generation;
    let body = hex::encode(alloc, name.body.to_bytes().as_slice())?;
    format!(in alloc; "{asn} {generation} {body}")
}

/// The authenticator of a hop.
#[tactic(auto, unfolding(crate::specs::MakerText::authenticator_text))]
fn authenticator_text(alloc: Global, topo: &Topology, name: &HopName) -> Result<String, AllocError>
    requires { IsTrue (has topo.now name.now.asn) }
    ensures { IfOk result (λ text. string_bytes text ≡ spec.authenticator_text topo.now name.now) }
{
    hex::encode(alloc, sigma(topo, name).as_slice())
}

/// What the field of a hop is made over at level 1.
#[tactic(auto, unfolding(crate::specs::MakerText::message_text))]
fn message_text(alloc: Global, packet: &PacketRef<'_>, hop: u8) -> Result<String, AllocError>
    ensures { IfOk result (λ text. string_bytes text ≡ spec.message_text packet.now hop) }
{
    hex::encode(
        alloc,
        field1_message(packet.ts(), packet.src(), hop).as_slice(),
    )
}

/// The field of a hop.
#[tactic(auto, unfolding(epic_audit::specs::ForgedText::field_text, epic_num::specs::Levels::width_of))]
fn field_text(alloc: Global, packet: &PacketRef<'_>, hop: u8) -> Result<String, AllocError>
    requires { hop < hop_count packet.now }
    ensures { IfOk result (λ text. string_bytes text ≡ forged.field_text packet.now hop) }
{
    let field = packet.field(hop);
    hex::encode(alloc, &field.bytes[..field.width as usize])
}

/// Two hops with one authenticator.
fn collided_words(
    alloc: Global,
    topo: &Topology,
    left: &HopName,
    right: &HopName,
) -> Result<String, AllocError>
    requires { IsTrue (has topo.now left.now.asn) }
    ensures { IfOk result (λ words. string_bytes words ≡ words_text (spec.collided_words topo.now left.now right.now)) }
{
    let first = hop_text(alloc, left)?;
    let second = hop_text(alloc, right)?;
    let tag = authenticator_text(alloc, topo, left)?;
    format!(in alloc; "collided {first} {second} {tag}")
}

/// A field that nobody made who holds the authenticator of the hop `x`.
fn forged_words(
    alloc: Global,
    x: &HopName,
    packet: &PacketRef<'_>,
    hop: u8,
) -> Result<String, AllocError>
    requires { hop < hop_count packet.now }
    ensures { IfOk result (λ words. string_bytes words ≡ words_text (spec.forged_words x.now packet.now hop)) }
{
    let name = hop_text(alloc, x)?;
    let message = message_text(alloc, packet, hop)?;
    let field = field_text(alloc, packet, hop)?;
    format!(in alloc; "forged {name} {message} {field}")
}

/// The words of a maker of the field of the hop `x`.
#[tactic(auto, unfolding(crate::specs::MakerText::maker_text))]
fn maker_words(
    alloc: Global,
    topo: &Topology,
    x: &HopName,
    packet: &PacketRef<'_>,
    hop: u8,
    maker: &Maker,
) -> Result<String, AllocError>
    requires within { hop < hop_count packet.now }
    requires known { IsTrue (has topo.now x.now.asn) }
    requires left { IsOfHop x.now maker.now }
    ensures { IfOk result (λ words. string_bytes words ≡ spec.maker_text topo.now x.now packet.now hop maker.now) }
{
    match maker {
        Maker::AsHop => format!(in alloc; "as-hop"),
        Maker::Made { emission } => format!(in alloc; "made {emission}"),
        Maker::Opened { step } => format!(in alloc; "opened {step}"),
        Maker::Collided { left, right } => collided_words(alloc, topo, left, right),
        Maker::Forged => forged_words(alloc, x, packet, hop),
    }
}

/// Appends the words of a maker of the field of the hop `x`. On an error `to` is as it was.
fn print_named(
    to: &mut Vec<u8>,
    topo: &Topology,
    x: &HopName,
    packet: &PacketRef<'_>,
    hop: u8,
    maker: &Maker,
) -> Result<(), OutOfMemory>
    requires within { hop < hop_count packet.now }
    requires known { IsTrue (has topo.now x.now.asn) }
    requires left { IsOfHop x.now maker.now }
    ensures ok { OnOk result (to.new.items ≡
        to.old.items ++ spec.maker_text topo.now x.now packet.now hop maker.now) }
    ensures err { OnErr result (to.new.items ≡ to.old.items) }
{
    let words = maker_words(*to.allocator(), topo, x, packet, hop, maker).map_err(|_| OutOfMemory)?;
    to.extend_from_slice(words.as_bytes())
        .map_err(|_| OutOfMemory)
}

/// Appends the words that say who can have made the field of hop `hop` of a packet of level 1, as it came in, that a router of
/// the AS `a` accepted under a generation of its key. On an error `to` is as it was.
pub fn print_maker(
    to: &mut Vec<u8>,
    topo: &Topology,
    a: AsId,
    generation: u32,
    packet: &PacketRef<'_>,
    hop: u8,
    maker: &Maker,
) -> Result<(), OutOfMemory>
    requires level { level_of packet.now.first ≡ L1 }
    requires within { hop < hop_count packet.now }
    requires known { IsTrue (has topo.now a) }
    requires left { IsOfHop (hop_name a generation packet.now hop) maker.now }
    ensures ok { OnOk result (to.new.items ≡
        to.old.items ++ spec.maker_text topo.now (hop_name a generation packet.now hop) packet.now hop maker.now) }
    ensures err { OnErr result (to.new.items ≡ to.old.items) }
{
    let x = HopName {
        asn: a,
        generation,
        body: packet.body(hop),
    };
    print_named(to, topo, &x, packet, hop, maker)
}
