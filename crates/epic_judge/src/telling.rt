//! Whether a line tells a verdict with its own keys, messages and tags.
ghost use Rattle.std.specs.Prelude.{◌≡◌, ◌<◌, ◌&&◌, bytes_eq, IsTrue};
ghost use Rattle.epic_num.specs.Levels.{is_tagged};
ghost use Rattle.epic_num.specs.Messages.{authenticator_message};
ghost use Rattle.epic_layout.specs.Route.{body};
ghost use Rattle.epic_layout.specs.Contents.{field, hop_count};
ghost use Rattle.epic_layout.specs.Spelling.{dest_message};
ghost use Rattle.epic_layout.specs.Updates.{own_updates};
ghost use Rattle.epic_topo.specs.Network.{has};
ghost use Rattle.epic_keys.specs.Keys as keys;
ghost use Rattle.epic_fields.specs.PacketTags as packet_tags;
ghost use Rattle.epic_audit.specs.ForgedText as forged_text;
ghost use Rattle.epic_text.specs.VerdictText as verdict_text;
ghost use Rattle.epic_judging.specs.Same.{same_told, same_what};
ghost use Rattle.epic_judging.specs.Telling as telling;
ghost use Rattle.epic_record.specs.declared.told.Told.TheVariants as lines;
ghost use Rattle.epic_record.specs.declared.told.ToldForgery.TheVariants as forgeries;

use crate::dest_bytes::is_dest_message;
use epic_fields::{field_name, hop_message, link, sigma};
use epic_keys::owner;
use epic_num::{
    Forgery, HopName, Level, Part, authenticator_message, field1_message, is_tagged, level_of,
    same_key,
};
use epic_record::ToldForgery;
use epic_topo::Topology;
use epic_view::PacketRef;

/// Whether a line that begins `proved` has these numbers.
#[tactic(auto, unfolding(epic_judging::specs::Same::same_told))]
pub fn tells_proved(issue: u32, send: u32, first: u32, second: Option<u32>) -> bool
    ensures { result ≡ same_told (telling.proved_told issue send) (lines.Proved first second) }
{
    if issue == 0 {
        send == first && second.is_none()
    } else if send == 0 {
        issue == first && second.is_none()
    } else {
        issue == first && second == Some(send)
    }
}

// ---- forgeries of hops

/// Whether the bytes are what the hop's field, and its update, are made over at levels 2 and 3.
#[tactic(auto, unfolding(epic_audit::specs::ForgedText::forged_hop, epic_fields::specs::HopChecks::hop_name))]
pub fn is_hop_message(
    topo: &Topology,
    packet: &PacketRef<'_>,
    forgery: &Forgery,
    message: &[u8],
) -> bool
    requires hop { forgery.now.hop < hop_count packet.now }
    requires owner { IsTrue (has topo.now (keys.owner forgery.now.key)) }
    requires tagged { IsTrue (is_tagged packet.now.first) }
    ensures { result ≡ bytes_eq (packet_tags.hop_message topo.now (forged_text.forged_hop packet.now forgery.now) packet.now forgery.now.hop) message.now }
{
    let name = HopName {
        asn: owner(&forgery.key),
        generation: forgery.generation,
        body: packet.body(forgery.hop),
    };
    hop_message(topo, &name, packet, forgery.hop).as_slice() == message
}

/// Whether the bytes are what the hop's authenticator is made over.
pub fn is_authenticator_message(packet: &PacketRef<'_>, hop: u8, message: &[u8]) -> bool
    requires { hop < hop_count packet.now }
    ensures { result ≡ bytes_eq (authenticator_message (body packet.now.route hop)) message.now }
{
    authenticator_message(&packet.body(hop)).as_slice() == message
}

/// Whether the bytes are the hop's field.
pub fn is_field(packet: &PacketRef<'_>, hop: u8, tag: &[u8]) -> bool
    requires { hop < hop_count packet.now }
    ensures { result ≡ bytes_eq (field packet.now hop) tag.now }
{
    let field = packet.field(hop);
    &field.bytes[..field.width as usize] == tag
}

/// Whether the line has what was forged of a hop that was never issued, at levels 0 and 1.
#[tactic(auto, unfolding(epic_judging::specs::Same::same_what))]
fn tells_static(level: Level, packet: &PacketRef<'_>, forgery: &Forgery, what: &ToldForgery) -> bool
    ensures { result ≡ same_what (telling.static_what level packet.now forgery.now) what.now }
{
    match level {
        Level::L0 => matches!(what, ToldForgery::Issue),
        _ => match what {
            ToldForgery::Over { key: None, message } => {
                field1_message(packet.ts(), packet.src(), forgery.hop).as_slice()
                    == message.as_slice()
            }
            _ => false,
        },
    }
}

/// The same at levels 2 and 3.
#[tactic(auto, unfolding(epic_judging::specs::Same::same_what))]
fn tells_shared(
    topo: &Topology,
    packet: &PacketRef<'_>,
    forgery: &Forgery,
    what: &ToldForgery,
) -> bool
    requires hop { forgery.now.hop < hop_count packet.now }
    requires owner { IsTrue (has topo.now (keys.owner forgery.now.key)) }
    requires tagged { IsTrue (is_tagged packet.now.first) }
    ensures { result ≡ same_what (telling.issue_what topo.now packet.now forgery.now) what.now }
{
    match what {
        ToldForgery::Over {
            key: Some(key),
            message,
        } => {
            same_key(&field_name(topo, owner(&forgery.key), packet), key)
                && is_hop_message(topo, packet, forgery, message.as_slice())
        }
        _ => false,
    }
}

/// Whether the line has what was forged of a hop that was never issued.
fn tells_issue(
    topo: &Topology,
    packet: &PacketRef<'_>,
    forgery: &Forgery,
    what: &ToldForgery,
) -> bool
    requires hop { forgery.now.hop < hop_count packet.now }
    requires owner { IsTrue (has topo.now (keys.owner forgery.now.key)) }
    ensures { result ≡ same_what (telling.issue_what topo.now packet.now forgery.now) what.now }
{
    if is_tagged(packet.first_byte()) {
        tells_shared(topo, packet, forgery, what)
    } else {
        tells_static(level_of(packet.first_byte()), packet, forgery, what)
    }
}

/// Whether a line that begins `forged` tells of a hop that was never issued, with its message and its tag.
pub fn tells_issue_forged(
    topo: &Topology,
    packet: &PacketRef<'_>,
    forgery: &Forgery,
    what: &ToldForgery,
    message: &[u8],
    tag: &[u8],
) -> bool
    requires hop { forgery.now.hop < hop_count packet.now }
    requires owner { IsTrue (has topo.now (keys.owner forgery.now.key)) }
    ensures { result ≡ (same_what (telling.issue_what topo.now packet.now forgery.now) what.now && bytes_eq (authenticator_message (body packet.now.route forgery.now.hop)) message.now && bytes_eq (field packet.now forgery.now.hop) tag.now) }
{
    tells_issue(topo, packet, forgery, what)
        && is_authenticator_message(packet, forgery.hop, message)
        && is_field(packet, forgery.hop, tag)
}

/// Whether it tells of a hop's field that was never made.
#[tactic(auto, unfolding(epic_judging::specs::Same::same_what))]
pub fn tells_field_forged(
    topo: &Topology,
    packet: &PacketRef<'_>,
    forgery: &Forgery,
    what: &ToldForgery,
    message: &[u8],
    tag: &[u8],
) -> bool
    requires hop { forgery.now.hop < hop_count packet.now }
    requires owner { IsTrue (has topo.now (keys.owner forgery.now.key)) }
    requires tagged { IsTrue (is_tagged packet.now.first) }
    ensures { result ≡ (same_what forgeries.Field what.now && bytes_eq (packet_tags.hop_message topo.now (forged_text.forged_hop packet.now forgery.now) packet.now forgery.now.hop) message.now && bytes_eq (field packet.now forgery.now.hop) tag.now) }
{
    matches!(what, ToldForgery::Field)
        && is_hop_message(topo, packet, forgery, message)
        && is_field(packet, forgery.hop, tag)
}

// ---- forgeries at destinations

/// Whether a line that begins `forged update` tells of the hop's update, with its message and its tag.
pub fn tells_update_forged(
    topo: &Topology,
    packet: &PacketRef<'_>,
    forgery: &Forgery,
    message: &[u8],
    tag: &[u8],
) -> bool
    requires hop { forgery.now.hop < hop_count packet.now }
    requires owner { IsTrue (has topo.now (keys.owner forgery.now.key)) }
    requires tagged { IsTrue (is_tagged packet.now.first) }
    ensures { result ≡ (bytes_eq (packet_tags.hop_message topo.now (forged_text.forged_hop packet.now forgery.now) packet.now forgery.now.hop) message.now && bytes_eq (field packet.now forgery.now.hop) tag.now) }
{
    is_hop_message(topo, packet, forgery, message) && is_field(packet, forgery.hop, tag)
}

/// Whether a line that begins `forged` tells of the destination field, with its message and its tag.
#[tactic(auto, unfolding(epic_judging::specs::Same::same_what))]
pub fn tells_dest_forged(
    packet: &PacketRef<'_>,
    what: &ToldForgery,
    message: &[u8],
    tag: &[u8],
) -> bool
    requires { IsTrue (is_tagged packet.now.first) }
    ensures { result ≡ (same_what forgeries.Dest what.now && bytes_eq (dest_message packet.now (own_updates packet.now)) message.now && bytes_eq packet.now.dest_field tag.now) }
{
    matches!(what, ToldForgery::Dest)
        && is_dest_message(packet, message)
        && packet.dest_field().as_slice() == tag
}

// ---- collisions

/// Whether the bytes are the tag that two hops have, of which this is one.
#[tactic(auto, unfolding(epic_text::specs::VerdictText::common_tag))]
pub fn is_common_tag(topo: &Topology, part: Part, name: &HopName, tag: &[u8]) -> bool
    requires { IsTrue (has topo.now name.now.asn) }
    ensures { result ≡ bytes_eq (verdict_text.common_tag topo.now part name.now) tag.now }
{
    match part {
        Part::Link => link(topo, name).as_slice() == tag,
        Part::Sigma => sigma(topo, name).as_slice() == tag,
    }
}
