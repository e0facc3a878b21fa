//! Whether a verdict is true of a hop `x` of a packet: a test for each form of verdict.
ghost use Rattle.std.specs.Prelude.{◌≡◌, ◌≢◌, ◌<◌, ◌&&◌, ◌||◌, bytes_eq, IsTrue};
ghost use Rattle.epic_num.specs.declared.verdict.Part.TheVariants as parts;
ghost use Rattle.epic_num.specs.Levels.{is_tagged};
ghost use Rattle.epic_num.specs.Moments.{epoch_of};
ghost use Rattle.epic_num.specs.Same.{same_name};
ghost use Rattle.epic_layout.specs.Contents.{field, hop_count};
ghost use Rattle.epic_fields.specs.Formulas as formulas;
ghost use Rattle.epic_fields.specs.PacketTags as packet_tags;
ghost use Rattle.epic_topo.specs.Network.{has};
ghost use Rattle.epic_ledger.specs.Facts.{facts_of};
ghost use Rattle.epic_audit.specs.Verdicts as verdicts;
ghost use Rattle.epic_judging.specs.Given as given;
ghost use Rattle.epic_judging.specs.HopTests as tests;
ghost use Rattle.epic_judge.specs.Known.{AreKnown};

use crate::chain::broken_chain;
use crate::reveals::{any_revealed_at, key_revealed_at, key_unrevealed};
use crate::tags::{is_twin, one_link, one_sigma};
use epic_fields::{carries_field, field_name, field_part, has_field, hop_message, hop_tag};
use epic_index::Index;
use epic_num::{
    Collision, Forgery, Holder, HopName, KeyName, is_tagged, is_timed, same_key, same_name,
};
use epic_topo::Topology;
use epic_view::PacketRef;

// ---- provenance

/// Whether the hop was issued.
#[tactic(auto, unfolding(epic_judging::specs::Given::is_issued))]
fn is_issued(index: &Index<'_>, x: &HopName) -> bool
    ensures { result ≡ given.is_issued (facts_of index.now.history).issues x.now }
{
    index.issue_of(x).is_some()
}

/// Whether the hop goes on from the one that was passed before it.
#[tactic(auto, unfolding(epic_judging::specs::Given::is_chained))]
fn is_chained(index: &Index<'_>, x: &HopName, packet: &PacketRef<'_>, hop: u8) -> bool
    requires { hop < hop_count packet.now }
    ensures { result ≡ given.is_chained (facts_of index.now.history) x.now packet.now hop }
{
    broken_chain(index, x, packet, hop).is_none()
}

/// Whether the packet's source sent a packet like it over the hop.
#[tactic(auto, using(crate::proofs::DestMade::sourced), unfolding(epic_judging::specs::Given::is_sourced))]
fn is_sourced(index: &Index<'_>, x: &HopName, packet: &PacketRef<'_>, hop: u8) -> bool
    ensures { result ≡ given.is_sourced (facts_of index.now.history) x.now packet.now hop }
{
    index.source_of(x, packet, hop).is_some()
}

/// Whether the provenance of the hop is there.
#[tactic(auto, unfolding(epic_judging::specs::Given::hop_ok))]
fn hop_ok(index: &Index<'_>, x: &HopName, packet: &PacketRef<'_>, hop: u8) -> bool
    requires { hop < hop_count packet.now }
    ensures { result ≡ given.hop_ok (facts_of index.now.history) x.now packet.now hop }
{
    is_issued(index, x)
        && is_chained(index, x, packet, hop)
        && (!is_tagged(packet.first_byte()) || is_sourced(index, x, packet, hop))
}

/// Whether it is there, by the issue and the send of these numbers.
#[tactic(auto, unfolding(epic_judging::specs::HopTests::hop_proved))]
pub fn hop_proved(
    index: &Index<'_>,
    x: &HopName,
    packet: &PacketRef<'_>,
    hop: u8,
    issue: u32,
    send: u32,
) -> bool
    requires { hop < hop_count packet.now }
    ensures { result ≡ tests.hop_proved (facts_of index.now.history) x.now packet.now hop issue send }
{
    hop_ok(index, x, packet, hop)
        && is_number(issue, index.issue_of(x))
        && if is_tagged(packet.first_byte()) {
            is_number(send, index.source_of(x, packet, hop))
        } else {
            send == 0
        }
}

/// Whether the answer is there and is this number.
fn is_number(number: u32, answer: Option<u32>) -> bool
    ensures { result ≡ tests.is_number number answer }
{
    answer == Some(number)
}

// ---- reveals

/// Whether the hop wasn't issued, and its AS was revealed at the step.
#[tactic(auto, unfolding(epic_judging::specs::HopTests::issue_opened))]
fn issue_opened(index: &Index<'_>, x: &HopName, step: u32) -> bool
    ensures { result ≡ tests.issue_opened (facts_of index.now.history) x.now step }
{
    !is_issued(index, x) && any_revealed_at(index, &[Holder::As(x.asn)], step)
}

/// Whether the source didn't send a packet like it over the hop, and a holder of the field's key was revealed at the step.
#[tactic(auto, unfolding(epic_judging::specs::HopTests::field_opened))]
fn field_opened(index: &Index<'_>, x: &HopName, packet: &PacketRef<'_>, hop: u8, step: u32) -> bool
    requires { hop < hop_count packet.now }
    ensures { result ≡ tests.field_opened index.now.network (facts_of index.now.history) x.now packet.now hop step }
{
    is_issued(index, x)
        && is_chained(index, x, packet, hop)
        && is_tagged(packet.first_byte())
        && !is_sourced(index, x, packet, hop)
        && key_revealed_at(index, &field_name(index.topology(), x.asn, packet), step)
}

/// Whether a holder of a key that the hop's field needs was revealed at the step.
pub fn hop_opened(
    index: &Index<'_>,
    x: &HopName,
    packet: &PacketRef<'_>,
    hop: u8,
    step: u32,
) -> bool
    requires { hop < hop_count packet.now }
    ensures { result ≡ (tests.issue_opened (facts_of index.now.history) x.now step || tests.field_opened index.now.network (facts_of index.now.history) x.now packet.now hop step) }
{
    issue_opened(index, x, step) || field_opened(index, x, packet, hop, step)
}

// ---- forgeries

/// At levels 1 to 3, the name of the first issue that is of the AS of `x` and has its authenticator.
#[tactic(auto, unfolding(epic_audit::specs::Verdicts::twin_issue))]
fn twin_issue(index: &Index<'_>, x: &HopName, packet: &PacketRef<'_>) -> Option<HopName>
    requires { IsTrue (has index.now.network x.now.asn) }
    ensures { result ≡ verdicts.twin_issue index.now.network (facts_of index.now.history) x.now packet.now }
{
    if !is_timed(packet.first_byte()) {
        return None;
    }
    index.twin_of(x)
}

/// Whether the hop was never issued, and its field is right.
#[tactic(auto, unfolding(epic_judging::specs::HopTests::is_forged_issue, epic_fields::specs::HopChecks::has_field, epic_fields::specs::HopChecks::carries_field))]
fn is_forged_issue(index: &Index<'_>, x: &HopName, packet: &PacketRef<'_>, hop: u8) -> bool
    requires known { IsTrue (has index.now.network x.now.asn) }
    requires within { hop < hop_count packet.now }
    ensures { result ≡ tests.is_forged_issue index.now.network (facts_of index.now.history) x.now packet.now hop }
{
    !is_issued(index, x)
        && !index.is_revealed(&Holder::As(x.asn))
        && has_field(index.topology(), x, packet, hop)
        && twin_issue(index, x, packet).is_none()
}

/// Whether the field of a packet of level 2 or 3 is the one of the hop.
#[tactic(auto, unfolding(epic_fields::specs::HopChecks::carries_field))]
fn has_tag(topo: &Topology, x: &HopName, packet: &PacketRef<'_>, hop: u8) -> bool
    requires known { IsTrue (has topo.now x.now.asn) }
    requires within { hop < hop_count packet.now }
    requires tagged { IsTrue (is_tagged packet.now.first) }
    ensures { result ≡ bytes_eq (field packet.now hop) (formulas.field_part packet.now.first (packet_tags.hop_tag topo.now x.now packet.now hop)) }
{
    let right = field_part(packet.first_byte(), &hop_tag(topo, x, packet, hop));
    carries_field(&right, packet, hop)
}

/// Whether the source made a field over the message of the hop's.
fn is_made(index: &Index<'_>, x: &HopName, packet: &PacketRef<'_>, hop: u8) -> bool
    requires known { IsTrue (has index.now.network x.now.asn) }
    requires tagged { IsTrue (is_tagged packet.now.first) }
    ensures { result ≡ given.made_field index.now.network (facts_of index.now.history) x.now.asn packet.now.src (epoch_of index.now.network.profile packet.now.ts) (packet_tags.hop_message index.now.network x.now packet.now hop) }
{
    let message = hop_message(index.topology(), x, packet, hop);
    let epoch = index.topology().profile().epoch_of(packet.ts());
    index.made_field(x.asn, packet.src(), epoch, &message)
}

/// Whether the message of the hop's field was never sent, and the field is right.
#[tactic(auto, unfolding(epic_judging::specs::HopTests::is_forged_field))]
fn is_forged_field(index: &Index<'_>, x: &HopName, packet: &PacketRef<'_>, hop: u8) -> bool
    requires known { IsTrue (has index.now.network x.now.asn) }
    requires within { hop < hop_count packet.now }
    ensures { result ≡ tests.is_forged_field index.now.network (facts_of index.now.history) x.now packet.now hop }
{
    is_tagged(packet.first_byte())
        && has_tag(index.topology(), x, packet, hop)
        && !is_made(index, x, packet, hop)
        && key_unrevealed(index, &field_name(index.topology(), x.asn, packet))
}

/// Whether the hop was forged as the forgery says: never issued.
#[tactic(auto, unfolding(epic_judging::specs::HopTests::issue_forged))]
pub fn issue_forged(
    index: &Index<'_>,
    x: &HopName,
    packet: &PacketRef<'_>,
    hop: u8,
    forgery: &Forgery,
) -> bool
    requires known { IsTrue (has index.now.network x.now.asn) }
    requires within { hop < hop_count packet.now }
    ensures { result ≡ tests.issue_forged index.now.network (facts_of index.now.history) x.now packet.now hop forgery.now }
{
    let key = KeyName::Fwd {
        a: x.asn,
        g: x.generation,
    };
    is_forged_issue(index, x, packet, hop)
        && forgery.hop == hop
        && same_key(&forgery.key, &key)
        && forgery.generation == x.generation
}

/// Whether the hop was forged as the forgery says: its field was never made.
#[tactic(auto, unfolding(epic_judging::specs::HopTests::field_forged))]
pub fn field_forged(
    index: &Index<'_>,
    x: &HopName,
    packet: &PacketRef<'_>,
    hop: u8,
    forgery: &Forgery,
) -> bool
    requires known { IsTrue (has index.now.network x.now.asn) }
    requires within { hop < hop_count packet.now }
    ensures { result ≡ tests.field_forged index.now.network (facts_of index.now.history) x.now packet.now hop forgery.now }
{
    !hop_ok(index, x, packet, hop)
        && is_forged_field(index, x, packet, hop)
        && forgery.hop == hop
        && same_key(&forgery.key, &field_name(index.topology(), x.asn, packet))
        && forgery.generation == x.generation
}

// ---- collisions

/// The hop that the first packet has in the place of `x` that the packet's source sent with its first byte and timestamp, where
/// it is another of the same AS and authenticator.
#[tactic(auto, unfolding(epic_audit::specs::Verdicts::twin_sent))]
fn twin_sent(index: &Index<'_>, x: &HopName, packet: &PacketRef<'_>, hop: u8) -> Option<HopName>
    requires { IsTrue (has index.now.network x.now.asn) }
    ensures { result ≡ verdicts.twin_sent index.now.network (facts_of index.now.history) x.now packet.now hop }
{
    match index.name_sent_like(packet, hop) {
        Some(other) if is_twin(index.topology(), x, &other) => Some(other),
        _ => None,
    }
}

/// Whether a name was found, and is this.
fn is_named(name: &HopName, found: Option<HopName>) -> bool
    ensures { result ≡ verdicts.is_named name.now found }
{
    match found {
        Some(other) => same_name(&other, name),
        None => false,
    }
}

/// Whether the collision is of the hop `x` and of the one that was found, and they have one authenticator.
fn shares_sigma(topo: &Topology, x: &HopName, collision: &Collision, found: Option<HopName>) -> bool
    requires { IsTrue (has topo.now x.now.asn) }
    ensures { result ≡ (same_name collision.now.left x.now && verdicts.is_named collision.now.right found && given.one_sigma topo.now collision.now.left collision.now.right) }
{
    if !same_name(&collision.left, x) {
        return false;
    }
    is_named(&collision.right, found) && one_sigma(topo, &collision.left, &collision.right)
}

/// Whether the hop was never issued, and has the authenticator of one that was.
#[tactic(auto, unfolding(epic_judging::specs::HopTests::collided_with_issue))]
fn collided_with_issue(
    index: &Index<'_>,
    x: &HopName,
    packet: &PacketRef<'_>,
    collision: &Collision,
) -> bool
    requires { IsTrue (has index.now.network x.now.asn) }
    ensures { result ≡ tests.collided_with_issue index.now.network (facts_of index.now.history) x.now packet.now collision.now }
{
    !is_issued(index, x)
        && is_timed(packet.first_byte())
        && shares_sigma(index.topology(), x, collision, twin_issue(index, x, packet))
}

/// Whether the packet's source didn't send a packet like it over the hop, but over one that has its authenticator.
#[tactic(auto, unfolding(epic_judging::specs::HopTests::collided_with_send))]
fn collided_with_send(
    index: &Index<'_>,
    x: &HopName,
    packet: &PacketRef<'_>,
    hop: u8,
    collision: &Collision,
) -> bool
    requires { IsTrue (has index.now.network x.now.asn) }
    ensures { result ≡ tests.collided_with_send index.now.network (facts_of index.now.history) x.now packet.now hop collision.now }
{
    is_tagged(packet.first_byte())
        && !is_sourced(index, x, packet, hop)
        && shares_sigma(
            index.topology(),
            x,
            collision,
            twin_sent(index, x, packet, hop),
        )
}

/// Whether the hop's chain breaks at two hops that have one link tag.
#[tactic(auto, unfolding(epic_judging::specs::HopTests::collided_in_chain))]
fn collided_in_chain(
    index: &Index<'_>,
    x: &HopName,
    packet: &PacketRef<'_>,
    hop: u8,
    collision: &Collision,
) -> bool
    requires left { IsTrue (has index.now.network collision.now.left.asn) }
    requires right { IsTrue (has index.now.network collision.now.right.asn) }
    requires within { hop < hop_count packet.now }
    ensures { result ≡ tests.collided_in_chain index.now.network (facts_of index.now.history) x.now packet.now hop collision.now }
{
    let breaks = match broken_chain(index, x, packet, hop) {
        Some((left, right)) => {
            same_name(&collision.left, &left) && same_name(&collision.right, &right)
        }
        None => false,
    };
    breaks && one_link(index.topology(), &collision.left, &collision.right)
}

/// Whether the hop has the authenticator of another hop, as the collision says.
pub fn sigma_collided(
    index: &Index<'_>,
    x: &HopName,
    packet: &PacketRef<'_>,
    hop: u8,
    collision: &Collision,
) -> bool
    requires { IsTrue (has index.now.network x.now.asn) }
    ensures { result ≡ tests.hop_collided index.now.network (facts_of index.now.history) x.now packet.now hop collision.now parts.Sigma }
{
    collided_with_issue(index, x, packet, collision)
        || collided_with_send(index, x, packet, hop, collision)
}

/// Whether the hop's chain breaks at two hops with one link tag, as the collision says. A name that is of no AS of the
/// topology is none at which a chain breaks.
#[tactic(auto, using(crate::proofs::Breaks::unknown_left, crate::proofs::Breaks::unknown_right))]
pub fn link_collided(
    index: &Index<'_>,
    x: &HopName,
    packet: &PacketRef<'_>,
    hop: u8,
    collision: &Collision,
) -> bool
    requires facts { AreKnown index.now.network (facts_of index.now.history) }
    requires known { IsTrue (has index.now.network x.now.asn) }
    requires within { hop < hop_count packet.now }
    requires named { collision.now.right.asn.0 ≢ 0 }
    ensures { result ≡ tests.hop_collided index.now.network (facts_of index.now.history) x.now packet.now hop collision.now parts.Link }
{
    if !index.topology().has(collision.left.asn) || !index.topology().has(collision.right.asn) {
        return false;
    }
    collided_in_chain(index, x, packet, hop, collision)
}
