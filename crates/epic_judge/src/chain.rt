//! Whether a hop is chained to the one that was passed before it.
ghost use Rattle.std.specs.Prelude.{◌≡◌, ◌+◌, ◌<◌, ◌∷◌, drop, false, length};
ghost use Rattle.std.specs.List.{list_any};
ghost use Rattle.std.specs.Option.{option_map_or};
ghost use Rattle.epic_num.specs.Chains.{issue_at, name_of};
ghost use Rattle.epic_layout.specs.Contents.{hop_count};
ghost use Rattle.epic_ledger.specs.Facts.{facts_of};
ghost use Rattle.epic_audit.specs.Clauses.{higher, lower};
ghost use Rattle.epic_audit.specs.Verdicts as verdicts;

use epic_index::Index;
use epic_num::{HopName, same_name};
use epic_view::PacketRef;

/// The name of the parent of an issue.
#[tactic(auto, unfolding(epic_audit::specs::Verdicts::parent_name, epic_num::specs::Chains::name_of))]
fn parent_name(index: &Index<'_>, number: u32) -> HopName
    ensures { result ≡ verdicts.parent_name (facts_of index.now.history).issues number }
{
    if let Some((_, parent)) = index.issue(number) {
        if let Some((name, _)) = index.issue(parent) {
            return name;
        }
    }
    HopName::default()
}

/// `z`, and the parent of the first issue of `y`, where `y` was issued and none of its issues goes on from `z`.
#[tactic(auto, unfolding(epic_audit::specs::Verdicts::broken_between))]
fn broken_between(index: &Index<'_>, y: &HopName, z: &HopName) -> Option<(HopName, HopName)>
    ensures { result ≡ verdicts.broken_between (facts_of index.now.history).issues y.now z.now }
{
    let number = index.issue_of(y)?;
    if index.is_child(y, z) {
        return None;
    }
    Some((*z, parent_name(index, number)))
}

/// The two names at which the chain breaks between two neighbours in a segment.
#[tactic(auto, unfolding(epic_audit::specs::Clauses::higher, epic_audit::specs::Clauses::lower))]
fn broken_at(index: &Index<'_>, w: &HopName, x: &HopName) -> Option<(HopName, HopName)>
    ensures { result ≡ verdicts.broken_between (facts_of index.now.history).issues (higher w.now x.now) (lower w.now x.now) }
{
    if w.body.pos < x.body.pos {
        broken_between(index, x, w)
    } else {
        broken_between(index, w, x)
    }
}

/// The two names at which the chain of the hop `x` breaks: a hop, and the parent of the first issue of the hop that comes
/// next in construction order.
pub fn broken_chain(
    index: &Index<'_>,
    x: &HopName,
    packet: &PacketRef<'_>,
    hop: u8,
) -> Option<(HopName, HopName)>
    requires { hop < hop_count packet.now }
    ensures { result ≡ verdicts.broken_chain (facts_of index.now.history) x.now packet.now hop }
{
    match index.passed_before(packet, hop) {
        Some(w) => broken_at(index, &w, x),
        None => None,
    }
}
