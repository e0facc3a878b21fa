//! The words of a forgery.

ghost use Rattle.std.specs.Prelude.{◌≡◌, ◌++◌, ◌<◌, IfOk, IsTrue, OnErr, OnOk};
ghost use Rattle.std.specs.String.{string_bytes};
ghost use Rattle.epic_num.specs.Levels.{is_tagged, level_of};
ghost use Rattle.epic_num.specs.declared.hop.Level.TheVariants.{L0};
ghost use Rattle.epic_layout.specs.Contents.{hop_count};
ghost use Rattle.epic_topo.specs.Network.{has};
ghost use Rattle.epic_keys.specs.Keys as keys;
ghost use Rattle.epic_audit.specs.ForgedText as spec;
ghost use Rattle.epic_audit.specs.ForgedText.{fits_level, has_form, words_text};

use crate::dest_message::dest_message;
use crate::forgery_parts::{authenticator_text, field_text, forged_message, key_text};
use epic_fields::field_name;
use epic_keys::owner;
use epic_num::{ForgedKind, Forgery, Level, OutOfMemory, field1_message, is_tagged, level_of};
use epic_topo::Topology;
use epic_view::PacketRef;
use std::alloc::{AllocError, Global};

/// Appends the words of a forgery in a packet as it came in: `forged`, what was forged, the name of the tag's key, what
/// the tag is made over, and the tag as it stands in the packet. On an error `to` is as it was.
pub fn forged_text(
    to: &mut Vec<u8>,
    topo: &Topology,
    packet: &PacketRef<'_>,
    forgery: &Forgery,
) -> Result<(), OutOfMemory>
    requires hop { forgery.now.hop < hop_count packet.now }
    requires form { IsTrue (has_form forgery.now.kind forgery.now.key) }
    requires owner { IsTrue (has topo.now (keys.owner forgery.now.key)) }
    requires level { IsTrue (fits_level forgery.now.kind packet.now.first) }
    ensures ok { OnOk result (to.new.items ≡
        to.old.items ++ spec.forged_text topo.now packet.now forgery.now) }
    ensures err { OnErr result (to.new.items ≡ to.old.items) }
{
    let words = forged_words(*to.allocator(), topo, packet, forgery).map_err(|_| OutOfMemory)?;
    to.extend_from_slice(words.as_bytes())
        .map_err(|_| OutOfMemory)
}

/// All words of a forgery.
#[tactic(auto, using(crate::proofs::ForgedLemmas::forged_first))]
fn forged_words(
    alloc: Global,
    topo: &Topology,
    packet: &PacketRef<'_>,
    forgery: &Forgery,
) -> Result<String, AllocError>
    requires hop { forgery.now.hop < hop_count packet.now }
    requires owner { IsTrue (has topo.now (keys.owner forgery.now.key)) }
    requires level { IsTrue (fits_level forgery.now.kind packet.now.first) }
    ensures { IfOk result (λ words. string_bytes words ≡
        spec.forged_text topo.now packet.now forgery.now) }
{
    let words = kind_words(alloc, topo, packet, forgery)?;
    format!(in alloc; "forged {words}")
}

/// The words after `forged`.
#[tactic(auto, unfolding(crate::specs::ForgedText::fits_level))]
fn kind_words(
    alloc: Global,
    topo: &Topology,
    packet: &PacketRef<'_>,
    forgery: &Forgery,
) -> Result<String, AllocError>
    requires hop { forgery.now.hop < hop_count packet.now }
    requires owner { IsTrue (has topo.now (keys.owner forgery.now.key)) }
    requires level { IsTrue (fits_level forgery.now.kind packet.now.first) }
    ensures { IfOk result (λ words. string_bytes words ≡
        words_text (spec.kind_words forgery.now.kind topo.now packet.now forgery.now)) }
{
    match forgery.kind {
        ForgedKind::Issue => issue_words(alloc, topo, packet, forgery),
        ForgedKind::Field => field_words(alloc, topo, packet, forgery),
        ForgedKind::Update => update_words(alloc, topo, packet, forgery),
        ForgedKind::Dest => dest_words(alloc, packet, forgery),
    }
}

/// A hop that was never issued.
fn issue_words(
    alloc: Global,
    topo: &Topology,
    packet: &PacketRef<'_>,
    forgery: &Forgery,
) -> Result<String, AllocError>
    requires hop { forgery.now.hop < hop_count packet.now }
    requires owner { IsTrue (has topo.now (keys.owner forgery.now.key)) }
    ensures { IfOk result (λ words. string_bytes words ≡
        words_text (spec.issue_words topo.now packet.now forgery.now)) }
{
    if is_tagged(packet.first_byte()) {
        let key = key_text(alloc, &field_name(topo, owner(&forgery.key), packet))?;
        let message = forged_message(topo, packet, forgery);
        return over_words(alloc, packet, forgery, &key, &message);
    }
    static_words(alloc, packet, forgery)
}

/// A hop that was never issued, at levels 0 and 1.
#[tactic(auto, using(crate::proofs::ForgedLemmas::static_over))]
fn static_words(
    alloc: Global,
    packet: &PacketRef<'_>,
    forgery: &Forgery,
) -> Result<String, AllocError>
    requires { forgery.now.hop < hop_count packet.now }
    ensures { IfOk result (λ words. string_bytes words ≡
        words_text (spec.static_words (level_of packet.now.first) packet.now forgery.now)) }
{
    match level_of(packet.first_byte()) {
        Level::L0 => plain_words(alloc, packet, forgery),
        _ => {
            let message = field1_message(packet.ts(), packet.src(), forgery.hop);
            over_words(alloc, packet, forgery, "sigma", &message)
        }
    }
}

/// A hop that was never issued, at level 0, where its field is a part of the authenticator.
fn plain_words(
    alloc: Global,
    packet: &PacketRef<'_>,
    forgery: &Forgery,
) -> Result<String, AllocError>
    requires { forgery.now.hop < hop_count packet.now }
    ensures { IfOk result (λ words. string_bytes words ≡
        words_text (spec.static_words L0 packet.now forgery.now)) }
{
    let key = key_text(alloc, &forgery.key)?;
    let authenticator = authenticator_text(alloc, packet, forgery.hop)?;
    let tag = field_text(alloc, packet, forgery.hop)?;
    format!(in alloc; "issue {key} {authenticator} {tag}")
}

/// A hop that was never issued, at levels 1 to 3, where its field is made over the authenticator: under `shared`, the
/// name of its key, and over `message`.
fn over_words(
    alloc: Global,
    packet: &PacketRef<'_>,
    forgery: &Forgery,
    shared: &str,
    message: &[u8],
) -> Result<String, AllocError>
    requires { forgery.now.hop < hop_count packet.now }
    ensures { IfOk result (λ words. string_bytes words ≡
        words_text (spec.over_words shared.now message.now packet.now forgery.now)) }
{
    let key = key_text(alloc, &forgery.key)?;
    let authenticator = authenticator_text(alloc, packet, forgery.hop)?;
    let message = hex::encode(alloc, message)?;
    let tag = field_text(alloc, packet, forgery.hop)?;
    format!(in alloc; "issue-over {key} {authenticator} {shared} {message} {tag}")
}

/// A hop's field that the source never made.
fn field_words(
    alloc: Global,
    topo: &Topology,
    packet: &PacketRef<'_>,
    forgery: &Forgery,
) -> Result<String, AllocError>
    requires hop { forgery.now.hop < hop_count packet.now }
    requires owner { IsTrue (has topo.now (keys.owner forgery.now.key)) }
    requires tagged { IsTrue (is_tagged packet.now.first) }
    ensures { IfOk result (λ words. string_bytes words ≡
        words_text (spec.field_words topo.now packet.now forgery.now)) }
{
    let key = key_text(alloc, &forgery.key)?;
    let message = hex::encode(alloc, forged_message(topo, packet, forgery).as_slice())?;
    let tag = field_text(alloc, packet, forgery.hop)?;
    format!(in alloc; "field {key} {message} {tag}")
}

/// A hop's update that its router never gave out.
fn update_words(
    alloc: Global,
    topo: &Topology,
    packet: &PacketRef<'_>,
    forgery: &Forgery,
) -> Result<String, AllocError>
    requires hop { forgery.now.hop < hop_count packet.now }
    requires owner { IsTrue (has topo.now (keys.owner forgery.now.key)) }
    requires tagged { IsTrue (is_tagged packet.now.first) }
    ensures { IfOk result (λ words. string_bytes words ≡
        words_text (spec.update_words topo.now packet.now forgery.now)) }
{
    let hop = forgery.hop;
    let key = key_text(alloc, &forgery.key)?;
    let message = hex::encode(alloc, forged_message(topo, packet, forgery).as_slice())?;
    let tag = field_text(alloc, packet, hop)?;
    format!(in alloc; "update {hop} {key} {message} {tag}")
}

/// A destination field that the source never made.
fn dest_words(
    alloc: Global,
    packet: &PacketRef<'_>,
    forgery: &Forgery,
) -> Result<String, AllocError>
    requires { IsTrue (is_tagged packet.now.first) }
    ensures { IfOk result (λ words. string_bytes words ≡
        words_text (spec.dest_words packet.now forgery.now)) }
{
    let key = key_text(alloc, &forgery.key)?;
    let message = hex::encode(alloc, dest_message(alloc, packet)?.as_slice())?;
    let tag = hex::encode(alloc, packet.dest_field().as_slice())?;
    format!(in alloc; "dest {key} {message} {tag}")
}
