//! The ASes of a topology's text.
ghost use Rattle.std.specs.Prelude.{◌≡◌, ◌+◌, ◌<◌, ◌≤◌, [], false, length, option_map, IfOk};
ghost use Rattle.toml.specs.View.{items_view, table_view, view};
ghost use Rattle.epic_topo.specs.Lawful.{IsNewSystem};
ghost use Rattle.epic_topo.specs.Reading.{asn_at, core_at, master_at, next_system, with_systems, with_systems_of, Gives};

use crate::reading::values::{fault, rows, table_in, text_at, value_at};
use crate::{System, TopoError, TopoKey, TopoKind, Topology};
use epic_num::{AsId, read_as};
use hex::FromHex;
use toml::{Table, Value};

// The longest name of an AS, as in `65535-ffff:ffff:ffff`.
const LONGEST_NAME: usize = 20;

/// The most ASes of a topology.
const MOST_SYSTEMS: usize = 4096;

/// The AS that is named at a key.
#[tactic(auto, using(crate::proofs::AsNames::no_long_name), unfolding(crate::specs::Reading::asn_at))]
pub(crate) fn asn_at(table: &Table, key: TopoKey, place: u32) -> Result<AsId, TopoError>
    ensures { result ≡ asn_at key place (table_view table.now) }
{
    let name = text_at(table, key, place)?.as_bytes();
    if name.len() > LONGEST_NAME {
        return Err(fault(TopoKind::BadAs, key, place));
    }
    match read_as(name) {
        Ok(asn) => Ok(asn),
        Err(_) => Err(fault(TopoKind::BadAs, key, place)),
    }
}

// Whether the AS is core.
#[tactic(auto, unfolding(crate::specs::Reading::core_at))]
fn core_at(table: &Table, place: u32) -> Result<bool, TopoError>
    ensures { result ≡ core_at place (table_view table.now) }
{
    let Some(value) = value_at(table, TopoKey::Core) else {
        return Ok(false);
    };
    match value.as_bool() {
        Some(is_core) => Ok(is_core),
        None => Err(fault(TopoKind::WrongKind, TopoKey::Core, place)),
    }
}

// The master key of the AS.
#[tactic(auto, unfolding(crate::specs::Reading::master_at))]
fn master_at(table: &Table, place: u32) -> Result<[u8; 16], TopoError>
    ensures { result ≡ master_at place (table_view table.now) }
{
    let digits = text_at(table, TopoKey::Key, place)?;
    match <[u8; 16] as FromHex>::from_hex(digits) {
        Ok(master) => Ok(master),
        Err(_) => Err(fault(TopoKind::BadKey, TopoKey::Key, place)),
    }
}

// The next AS of the topology, which has `place - 1` so far.
#[tactic(auto, unfolding(crate::specs::Reading::next_system))]
fn next_system(topology: &Topology, value: &Value, place: u32) -> Result<System, TopoError>
    requires { length topology.now.systems + 1 ≡ place }
    ensures value { result ≡ next_system topology.now (view value.now) }
    ensures fits { IfOk result (IsNewSystem topology.now) }
{
    let table = table_in(value, TopoKey::As, place)?;
    let asn = asn_at(table, TopoKey::Name, place)?;
    let is_core = core_at(table, place)?;
    let master = master_at(table, place)?;
    if topology.has(asn) {
        return Err(fault(TopoKind::DuplicateAs, TopoKey::Name, place));
    }
    Ok(System {
        asn,
        is_core,
        master,
    })
}

// The topology with the ASes of these values.
fn with_systems(mut topology: Topology, values: &[Value]) -> Result<Topology, TopoError>
    requires none { topology.systems ≡ [] }
    requires no_links { topology.links ≡ [] }
    requires few { length values.now ≤ 4096 }
    ensures value { Gives (with_systems topology (items_view values.now)) result }
    ensures no_links { IfOk result (λ t. t.links ≡ []) }
{
    let mut place = 1;
    for value in values {
        let system = next_system(&topology, value, place)?;
        topology = topology.with_system(system)?;
        place += 1;
    }
    Ok(topology)
}

/// The topology with the ASes of its text, which may be absent.
pub(crate) fn with_systems_of(
    topology: Topology,
    systems: Option<&Value>,
) -> Result<Topology, TopoError>
    requires none { topology.systems ≡ [] }
    requires no_links { topology.links ≡ [] }
    ensures value { Gives (with_systems_of topology (option_map (λ v. view v.now) systems.entry)) result }
    ensures no_links { IfOk result (λ t. t.links ≡ []) }
{
    match systems {
        Some(value) => with_systems(topology, rows(value, TopoKey::As, MOST_SYSTEMS)?),
        None => Ok(topology),
    }
}
