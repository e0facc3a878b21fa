//! Whether a line of a verdict file is true of a packet at its destination: a test for each form of line.
ghost use Rattle.std.specs.Prelude.{◌≡◌, ◌<◌, ◌&&◌, IsTrue};
ghost use Rattle.epic_num.specs.declared.verdict.ForgedKind.TheVariants as kinds;
ghost use Rattle.epic_num.specs.declared.verdict.Forgery.{Forgery};
ghost use Rattle.epic_topo.specs.Network.{has};
ghost use Rattle.epic_ledger.specs.Facts.{facts_of};
ghost use Rattle.epic_audit.specs.Holds.{AtDest};
ghost use Rattle.epic_judging.specs.DestTests as tests;
ghost use Rattle.epic_judging.specs.Judging.{generation_of, told_true};
ghost use Rattle.epic_judging.specs.Same.{same_told};
ghost use Rattle.epic_judging.specs.Telling as telling;
ghost use Rattle.epic_record.specs.declared.told.Told.TheVariants as lines;
ghost use Rattle.epic_record.specs.declared.told.ToldForgery.TheVariants as forgeries;
ghost use Rattle.epic_judge.specs.Known.{AreKnown};
ghost use Rattle.epic_judge.specs.Lines.{IsDestLine};
ghost use Rattle.epic_judge.specs.Sendings.{IsSentOver};
ghost use Rattle.epic_layout.specs.Contents.{hop_count};
ghost use Rattle.epic_keys.specs.Keys as keys;
ghost use Rattle.epic_fields.specs.HopChecks.{hop_name};

use crate::dest_sent::sent_over;
use crate::dest_tests::{collided_with_pass, dest_forged, dest_opened, dest_proved, update_forged};
use crate::telling::{is_common_tag, tells_dest_forged, tells_proved, tells_update_forged};
use epic_index::Index;
use epic_keys::owner;
use epic_num::{
    Collision, ForgedKind, Forgery, HopName, KeyName, Part, is_tagged, is_updated, same_name,
};
use epic_record::{Told, ToldForgery};
use epic_view::PacketRef;

/// `proved FIRST` or `proved FIRST SECOND`.
fn proved_line(index: &Index<'_>, packet: &PacketRef<'_>, first: u32, second: Option<u32>) -> bool
    requires { AreKnown index.now.network (facts_of index.now.history) }
    ensures { result ≡ (same_told (telling.proved_told 0 first) (lines.Proved first second) && tests.dest_proved (facts_of index.now.history) packet.now 0 first) }
{
    tells_proved(0, first, first, second) && dest_proved(index, packet, first)
}

/// The hop of the packet that the owner of the key has under a generation.
#[tactic(auto, unfolding(epic_fields::specs::HopChecks::hop_name))]
fn meant_hop(key: &KeyName, generation: u32, packet: &PacketRef<'_>, hop: u8) -> HopName
    requires { hop < hop_count packet.now }
    ensures { result ≡ hop_name (keys.owner key.now) generation packet.now hop }
{
    HopName {
        asn: owner(key),
        generation,
        body: packet.body(hop),
    }
}

/// `forged update ..`, of a hop that has this name in the one packet that the source sent.
fn named_update_line(
    index: &Index<'_>,
    name: &HopName,
    packet: &PacketRef<'_>,
    hop: u8,
    key: &KeyName,
    message: &[u8],
    tag: &[u8],
) -> bool
    requires facts { AreKnown index.now.network (facts_of index.now.history) }
    requires sent { IsSentOver index.now.network (facts_of index.now.history) packet.now hop name.now }
    ensures { let r : Forgery = record { kind = kinds.Update; hop = hop; key = key.now; generation = name.now.generation } in result ≡ (same_told (telling.forged_told index.now.network packet.now r) (lines.Forged (forgeries.Update hop) key.now message.now tag.now) && tests.update_forged index.now.network (facts_of index.now.history) packet.now r) }
{
    let _shape = packet.shape();
    if !is_updated(packet.first_byte()) {
        return false;
    }
    let x = meant_hop(key, name.generation, packet, hop);
    if !same_name(name, &x) {
        return false;
    }
    if !update_forged(index, &x, packet, hop, key) {
        return false;
    }
    let forgery = Forgery {
        kind: ForgedKind::Update,
        hop,
        key: *key,
        generation: name.generation,
    };
    tells_update_forged(index.topology(), packet, &forgery, message, tag)
}

/// `forged update ..`.
fn update_line(
    index: &Index<'_>,
    packet: &PacketRef<'_>,
    hop: u8,
    key: &KeyName,
    message: &[u8],
    tag: &[u8],
) -> bool
    requires { AreKnown index.now.network (facts_of index.now.history) }
    ensures { let f = facts_of index.now.history in let r : Forgery = record { kind = kinds.Update; hop = hop; key = key.now; generation = generation_of f packet.now hop } in result ≡ (same_told (telling.forged_told index.now.network packet.now r) (lines.Forged (forgeries.Update hop) key.now message.now tag.now) && tests.update_forged index.now.network f packet.now r) }
{
    match sent_over(index, packet, hop) {
        Some(name) => named_update_line(index, &name, packet, hop, key, message, tag),
        None => false,
    }
}

/// `forged dest ..`.
fn dest_line(
    index: &Index<'_>,
    packet: &PacketRef<'_>,
    what: &ToldForgery,
    key: &KeyName,
    message: &[u8],
    tag: &[u8],
) -> bool
    requires facts { AreKnown index.now.network (facts_of index.now.history) }
    requires known { IsTrue (has index.now.network packet.now.dst.asn) }
    ensures { let r : Forgery = record { kind = kinds.Dest; hop = 0; key = key.now; generation = 0 } in result ≡ (same_told (telling.forged_told index.now.network packet.now r) (lines.Forged what.now key.now message.now tag.now) && tests.dest_forged index.now.network (facts_of index.now.history) packet.now r) }
{
    if !is_tagged(packet.first_byte()) {
        return false;
    }
    if !tells_dest_forged(packet, what, message, tag) {
        return false;
    }
    dest_forged(index, packet, key, message)
}

/// `forged ..`.
#[tactic(auto, unfolding(epic_judging::specs::Telling::told_of))]
fn forged_line(
    index: &Index<'_>,
    packet: &PacketRef<'_>,
    what: &ToldForgery,
    key: &KeyName,
    message: &[u8],
    tag: &[u8],
) -> bool
    requires facts { AreKnown index.now.network (facts_of index.now.history) }
    requires known { IsTrue (has index.now.network packet.now.dst.asn) }
    ensures { IsDestLine index.now.network (facts_of index.now.history) packet.now (lines.Forged what.now key.now message.now tag.now) result }
{
    match what {
        ToldForgery::Update { hop } => update_line(index, packet, *hop, key, message, tag),
        ToldForgery::Issue | ToldForgery::Over { .. } | ToldForgery::Field | ToldForgery::Dest =>
            dest_line(index, packet, what, key, message, tag),
    }
}

/// Whether a hop of the packet collided as the collision says.
fn arrival_collided(index: &Index<'_>, packet: &PacketRef<'_>, collision: &Collision) -> bool
    requires { AreKnown index.now.network (facts_of index.now.history) }
    ensures { result ≡ tests.arrival_collided index.now.network (facts_of index.now.history) packet.now collision.now collision.now.part }
{
    match collision.part {
        Part::Link => false,
        Part::Sigma => collided_with_pass(index, packet, collision),
    }
}

/// `collided ..`.
fn collided_line(
    index: &Index<'_>,
    packet: &PacketRef<'_>,
    collision: &Collision,
    tag: &[u8],
) -> bool
    requires { AreKnown index.now.network (facts_of index.now.history) }
    ensures { let c = collision.now in IsDestLine index.now.network (facts_of index.now.history) packet.now (lines.Collided c.part c.left c.right tag.now) result }
{
    if !arrival_collided(index, packet, collision) {
        return false;
    }
    is_common_tag(index.topology(), collision.part, &collision.left, tag)
}

/// `opened STEP`.
fn opened_line(index: &Index<'_>, packet: &PacketRef<'_>, step: u32) -> bool
    requires { AreKnown index.now.network (facts_of index.now.history) }
    ensures { IsDestLine index.now.network (facts_of index.now.history) packet.now (lines.Opened step) result }
{
    dest_opened(index, packet, step)
}

/// Any line.
#[tactic(auto, unfolding(epic_judging::specs::Telling::told_of, epic_judging::specs::Same::same_told))]
fn line_of_dest(index: &Index<'_>, packet: &PacketRef<'_>, line: &Told) -> bool
    requires facts { AreKnown index.now.network (facts_of index.now.history) }
    requires known { IsTrue (has index.now.network packet.now.dst.asn) }
    ensures { IsDestLine index.now.network (facts_of index.now.history) packet.now line.now result }
{
    match line {
        Told::Proved { first, second } => proved_line(index, packet, *first, *second),
        Told::Unclaimed => !is_tagged(packet.first_byte()),
        Told::Opened { step } => opened_line(index, packet, *step),
        Told::Forged {
            what,
            key,
            message,
            tag,
        } => forged_line(index, packet, what, key, message.as_slice(), tag.as_slice()),
        Told::Collided {
            part,
            left,
            right,
            tag,
        } => {
            let collision = Collision {
                part: *part,
                left: *left,
                right: *right,
            };
            collided_line(index, packet, &collision, tag.as_slice())
        }
    }
}

/// Whether a line is true of a packet, as it came in, that its destination took, after what the index has.
#[tactic(auto, unfolding(epic_judging::specs::Judging::told_true, epic_judging::specs::Judging::is_told_true, epic_judging::specs::Judging::meant))]
pub fn is_true_at_dest(index: &Index<'_>, packet: &PacketRef<'_>, line: &Told) -> bool
    requires facts { AreKnown index.now.network (facts_of index.now.history) }
    requires known { IsTrue (has index.now.network packet.now.dst.asn) }
    ensures { result ≡ told_true index.now.network (facts_of index.now.history) packet.now AtDest line.now }
{
    line_of_dest(index, packet, line)
}
