//! The links of a topology's text.
ghost use Rattle.std.specs.Prelude.{◌≡◌, ◌+◌, ◌<◌, ◌≤◌, [], length, option_map, IfOk};
ghost use Rattle.toml.specs.View.{items_view, table_view, view};
ghost use Rattle.epic_topo.specs.Lawful.{IsNewLink};
ghost use Rattle.epic_topo.specs.Network.{is_taken, keeps_core_rule, same_isd};
ghost use Rattle.epic_topo.specs.Reading.{end_at, fitting, iface_at, kind_at, next_link, with_links, with_links_of, Gives};

use crate::reading::systems::asn_at;
use crate::reading::values::{fault, in_range, rows, table_in, text_at, value_at};
use crate::{End, Link, LinkKind, TopoError, TopoKey, TopoKind, Topology};
use epic_num::AsId;
use toml::{Table, Value};

/// The most links of a topology.
const MOST_LINKS: usize = 16_384;

// What the link is for its end a.
#[tactic(auto, unfolding(crate::specs::Reading::kind_at))]
fn kind_at(table: &Table, place: u32) -> Result<LinkKind, TopoError>
    ensures { result ≡ kind_at place (table_view table.now) }
{
    match text_at(table, TopoKey::Kind, place)? {
        "core" => Ok(LinkKind::Core),
        "child" => Ok(LinkKind::Parent),
        _ => Err(fault(TopoKind::WrongKind, TopoKey::Kind, place)),
    }
}

// The interface at a key.
#[tactic(auto, unfolding(crate::specs::Reading::iface_at))]
fn iface_at(table: &Table, key: TopoKey, place: u32) -> Result<u16, TopoError>
    ensures { result ≡ iface_at key place (table_view table.now) }
{
    let Some(value) = value_at(table, key) else {
        return Err(fault(TopoKind::Missing, key, place));
    };
    let Some(number) = value.as_integer() else {
        return Err(fault(TopoKind::WrongKind, key, place));
    };
    let iface = in_range(TopoKind::BadInterface, key, place, 1, 65_535, number)?;
    Ok(iface as u16)
}

// An end of the next link, at an AS of the topology.
#[tactic(auto, unfolding(crate::specs::Reading::end_at))]
fn end_at(
    topology: &Topology,
    as_key: TopoKey,
    iface_key: TopoKey,
    table: &Table,
    place: u32,
) -> Result<End, TopoError>
    requires { length topology.now.links + 1 ≡ place }
    ensures { result ≡ end_at topology.now as_key iface_key (table_view table.now) }
{
    let asn = asn_at(table, as_key, place)?;
    if !topology.has(asn) {
        return Err(fault(TopoKind::UnknownAs, as_key, place));
    }
    let iface = iface_at(table, iface_key, place)?;
    Ok(End { asn, iface })
}

// Whether the two are of one isolation domain.
fn same_isd(a: AsId, b: AsId) -> bool
    ensures { result ≡ same_isd a b }
{
    a.0 >> 48 == b.0 >> 48
}

// Whether core links join core ASes, and children are no core ASes and of their parent's domain.
#[tactic(auto, unfolding(crate::specs::Network::keeps_core_rule))]
fn keeps_core_rule(topology: &Topology, link: &Link) -> bool
    ensures { result ≡ keeps_core_rule topology.now link.now }
{
    let a = link.a.asn;
    let b = link.b.asn;
    match link.kind {
        LinkKind::Core => topology.is_core(a) && topology.is_core(b),
        LinkKind::Parent => !topology.is_core(b) && same_isd(a, b),
        LinkKind::Child => !topology.is_core(a) && same_isd(a, b),
    }
}

// Whether a link of the topology has this end.
fn is_taken(topology: &Topology, end: End) -> bool
    ensures { result ≡ is_taken topology.now end }
{
    topology.neighbour(end.asn, end.iface).is_some()
}

// The link, where it fits into the topology.
#[tactic(auto, unfolding(crate::specs::Reading::fitting, epic_num::specs::Same::same_as))]
fn fitting(topology: &Topology, link: Link, place: u32) -> Result<Link, TopoError>
    requires { length topology.now.links + 1 ≡ place }
    ensures { result ≡ fitting topology.now link }
{
    if link.a.asn.0 == link.b.asn.0 {
        return Err(fault(TopoKind::SelfLink, TopoKey::B, place));
    }
    if is_taken(topology, link.a) {
        return Err(fault(TopoKind::InterfaceTwice, TopoKey::AIf, place));
    }
    if is_taken(topology, link.b) {
        return Err(fault(TopoKind::InterfaceTwice, TopoKey::BIf, place));
    }
    if keeps_core_rule(topology, &link) {
        Ok(link)
    } else {
        Err(fault(TopoKind::CoreRule, TopoKey::Kind, place))
    }
}

// The next link of the topology, which has `place - 1` so far.
#[tactic(auto, unfolding(crate::specs::Reading::next_link))]
fn next_link(topology: &Topology, value: &Value, place: u32) -> Result<Link, TopoError>
    requires { length topology.now.links + 1 ≡ place }
    ensures value { result ≡ next_link topology.now (view value.now) }
    ensures fits { IfOk result (IsNewLink topology.now) }
{
    let table = table_in(value, TopoKey::Link, place)?;
    let kind = kind_at(table, place)?;
    let a = end_at(topology, TopoKey::A, TopoKey::AIf, table, place)?;
    let b = end_at(topology, TopoKey::B, TopoKey::BIf, table, place)?;
    fitting(topology, Link { kind, a, b }, place)
}

// The topology with the links of these values.
fn with_links(mut topology: Topology, values: &[Value]) -> Result<Topology, TopoError>
    requires none { topology.links ≡ [] }
    requires few { length values.now ≤ 16384 }
    ensures { Gives (with_links topology (items_view values.now)) result }
{
    let mut place = 1;
    for value in values {
        let link = next_link(&topology, value, place)?;
        topology = topology.with_link(link)?;
        place += 1;
    }
    Ok(topology)
}

/// The topology with the links of its text, which may be absent.
pub(crate) fn with_links_of(
    topology: Topology,
    links: Option<&Value>,
) -> Result<Topology, TopoError>
    requires none { topology.links ≡ [] }
    ensures { Gives (with_links_of topology (option_map (λ v. view v.now) links.entry)) result }
{
    match links {
        Some(value) => with_links(topology, rows(value, TopoKey::Link, MOST_LINKS)?),
        None => Ok(topology),
    }
}
