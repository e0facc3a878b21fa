//! Whether a line of a verdict file is true of a hop `x` that a router accepted: a test for each form of line.
ghost use Rattle.std.specs.Prelude.{◌≡◌, ◌≢◌, ◌<◌, ◌&&◌, unwrap_or, IsTrue};
ghost use Rattle.epic_num.specs.declared.verdict.ForgedKind.TheVariants as kinds;
ghost use Rattle.epic_num.specs.declared.verdict.Forgery.{Forgery};
ghost use Rattle.epic_audit.specs.Holds.{AtHop};
ghost use Rattle.epic_judging.specs.Judging.{told_true};
ghost use Rattle.epic_judge.specs.Lines.{IsHopLine};
ghost use Rattle.epic_layout.specs.Contents.{hop_count};
ghost use Rattle.epic_topo.specs.Network.{has};
ghost use Rattle.epic_ledger.specs.Facts.{facts_of};
ghost use Rattle.epic_judging.specs.HopTests as tests;
ghost use Rattle.epic_judging.specs.Same.{same_told};
ghost use Rattle.epic_judging.specs.Telling as telling;
ghost use Rattle.epic_record.specs.declared.told.Told.TheVariants as lines;
ghost use Rattle.epic_judge.specs.Known.{AreKnown, IsNamed};

use crate::hop_tests::{
    field_forged, hop_opened, hop_proved, issue_forged, link_collided, sigma_collided,
};
use crate::telling::{is_common_tag, tells_field_forged, tells_issue_forged, tells_proved};
use epic_index::Index;
use epic_num::{AsId, Collision, ForgedKind, Forgery, HopName, KeyName, Part};
use epic_record::{Told, ToldForgery};
use epic_view::PacketRef;

/// `proved FIRST` or `proved FIRST SECOND`.
pub fn proved_line(
    index: &Index<'_>,
    x: &HopName,
    packet: &PacketRef<'_>,
    hop: u8,
    first: u32,
    second: Option<u32>,
) -> bool
    requires { hop < hop_count packet.now }
    ensures { result ≡ (same_told (telling.proved_told first (unwrap_or second 0)) (lines.Proved first second) && tests.hop_proved (facts_of index.now.history) x.now packet.now hop first (unwrap_or second 0)) }
{
    let send = second.unwrap_or(0);
    tells_proved(first, send, first, second) && hop_proved(index, x, packet, hop, first, send)
}

/// `forged issue ..` and `forged issue-over ..`.
pub fn issue_line(
    index: &Index<'_>,
    x: &HopName,
    packet: &PacketRef<'_>,
    hop: u8,
    what: &ToldForgery,
    key: &KeyName,
    message: &[u8],
    tag: &[u8],
) -> bool
    requires known { IsTrue (has index.now.network x.now.asn) }
    requires within { hop < hop_count packet.now }
    ensures { let r : Forgery = record { kind = kinds.Issue; hop = hop; key = key.now; generation = x.now.generation } in result ≡ (same_told (telling.forged_told index.now.network packet.now r) (lines.Forged what.now key.now message.now tag.now) && tests.issue_forged index.now.network (facts_of index.now.history) x.now packet.now hop r) }
{
    let forgery = Forgery {
        kind: ForgedKind::Issue,
        hop,
        key: *key,
        generation: x.generation,
    };
    if !issue_forged(index, x, packet, hop, &forgery) {
        return false;
    }
    tells_issue_forged(index.topology(), packet, &forgery, what, message, tag)
}

/// `forged field ..`.
pub fn field_line(
    index: &Index<'_>,
    x: &HopName,
    packet: &PacketRef<'_>,
    hop: u8,
    what: &ToldForgery,
    key: &KeyName,
    message: &[u8],
    tag: &[u8],
) -> bool
    requires known { IsTrue (has index.now.network x.now.asn) }
    requires within { hop < hop_count packet.now }
    ensures { let r : Forgery = record { kind = kinds.Field; hop = hop; key = key.now; generation = x.now.generation } in result ≡ (same_told (telling.forged_told index.now.network packet.now r) (lines.Forged what.now key.now message.now tag.now) && tests.field_forged index.now.network (facts_of index.now.history) x.now packet.now hop r) }
{
    let forgery = Forgery {
        kind: ForgedKind::Field,
        hop,
        key: *key,
        generation: x.generation,
    };
    if !field_forged(index, x, packet, hop, &forgery) {
        return false;
    }
    tells_field_forged(index.topology(), packet, &forgery, what, message, tag)
}

/// `forged ..`.
#[tactic(auto, unfolding(epic_judging::specs::Telling::told_of))]
pub fn forged_line(
    index: &Index<'_>,
    x: &HopName,
    packet: &PacketRef<'_>,
    hop: u8,
    what: &ToldForgery,
    key: &KeyName,
    message: &[u8],
    tag: &[u8],
) -> bool
    requires known { IsTrue (has index.now.network x.now.asn) }
    requires within { hop < hop_count packet.now }
    ensures { IsHopLine index.now.network (facts_of index.now.history) x.now packet.now hop (lines.Forged what.now key.now message.now tag.now) result }
{
    match what {
        ToldForgery::Field => field_line(index, x, packet, hop, what, key, message, tag),
        ToldForgery::Issue
        | ToldForgery::Over { .. }
        | ToldForgery::Update { .. }
        | ToldForgery::Dest => issue_line(index, x, packet, hop, what, key, message, tag),
    }
}

/// Whether the hop has a tag in common with another hop, as the collision says.
fn hop_collided(
    index: &Index<'_>,
    x: &HopName,
    packet: &PacketRef<'_>,
    hop: u8,
    collision: &Collision,
) -> bool
    requires facts { AreKnown index.now.network (facts_of index.now.history) }
    requires known { IsTrue (has index.now.network x.now.asn) }
    requires within { hop < hop_count packet.now }
    requires named { collision.now.right.asn.0 ≢ 0 }
    ensures { result ≡ tests.hop_collided index.now.network (facts_of index.now.history) x.now packet.now hop collision.now collision.now.part }
{
    match collision.part {
        Part::Link => link_collided(index, x, packet, hop, collision),
        Part::Sigma => sigma_collided(index, x, packet, hop, collision),
    }
}

/// `collided ..`.
pub fn collided_line(
    index: &Index<'_>,
    x: &HopName,
    packet: &PacketRef<'_>,
    hop: u8,
    collision: &Collision,
    tag: &[u8],
) -> bool
    requires facts { AreKnown index.now.network (facts_of index.now.history) }
    requires known { IsTrue (has index.now.network x.now.asn) }
    requires within { hop < hop_count packet.now }
    requires named { collision.now.right.asn.0 ≢ 0 }
    ensures { let c = collision.now in IsHopLine index.now.network (facts_of index.now.history) x.now packet.now hop (lines.Collided c.part c.left c.right tag.now) result }
{
    if !hop_collided(index, x, packet, hop, collision) {
        return false;
    }
    is_common_tag(index.topology(), collision.part, &collision.left, tag)
}

/// Any line.
#[tactic(auto, unfolding(epic_judging::specs::Telling::told_of))]
pub fn line_of_hop(
    index: &Index<'_>,
    x: &HopName,
    packet: &PacketRef<'_>,
    hop: u8,
    line: &Told,
) -> bool
    requires facts { AreKnown index.now.network (facts_of index.now.history) }
    requires known { IsTrue (has index.now.network x.now.asn) }
    requires within { hop < hop_count packet.now }
    requires named { IsNamed line.now }
    ensures { IsHopLine index.now.network (facts_of index.now.history) x.now packet.now hop line.now result }
{
    match line {
        Told::Proved { first, second } => { proved_line(index, x, packet, hop, *first, *second) }
        Told::Unclaimed => false,
        Told::Opened { step } => hop_opened(index, x, packet, hop, *step),
        Told::Forged {
            what,
            key,
            message,
            tag,
        } => forged_line(
            index,
            x,
            packet,
            hop,
            what,
            key,
            message.as_slice(),
            tag.as_slice(),
        ),
        Told::Collided {
            part,
            left,
            right,
            tag,
        } => {
            let collision = Collision {
                part: *part,
                left: *left,
                right: *right,
            };
            collided_line(index, x, packet, hop, &collision, tag.as_slice())
        }
    }
}

/// Whether a line is true of a hop of the packet, as it came in, that a router of the AS `a` accepted under a generation of its
/// key, after what the index has.
#[tactic(auto, unfolding(epic_judging::specs::Judging::told_true, epic_judging::specs::Judging::is_told_true, epic_judging::specs::Judging::meant, epic_fields::specs::HopChecks::hop_name))]
pub fn is_true_at_hop(
    index: &Index<'_>,
    a: AsId,
    generation: u32,
    packet: &PacketRef<'_>,
    hop: u8,
    line: &Told,
) -> bool
    requires facts { AreKnown index.now.network (facts_of index.now.history) }
    requires known { IsTrue (has index.now.network a) }
    requires within { hop < hop_count packet.now }
    requires named { IsNamed line.now }
    ensures { result ≡ told_true index.now.network (facts_of index.now.history) packet.now (AtHop a generation hop) line.now }
{
    let x = HopName {
        asn: a,
        generation,
        body: packet.body(hop),
    };
    line_of_hop(index, &x, packet, hop, line)
}
