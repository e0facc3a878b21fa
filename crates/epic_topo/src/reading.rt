//! Reading a topology's text: the topology that it tells of, or its first fault.
ghost use Rattle.std.specs.Prelude.{◌≡◌, ◌≤◌, length};
ghost use Rattle.toml.specs.View.{table_view};
ghost use Rattle.epic_topo.specs.Reading.{Gives, document, mapped, topology};

mod links;
mod settings;
mod systems;
mod values;

use crate::{TopoError, TopoKey, TopoKind, Topology};
use std::alloc::Global;
use toml::Table;
use values::{fault, value_at};

/// Reads a topology's text.
///
/// # Errors
/// `Bad` is the text's first fault.
#[tactic(auto, unfolding(crate::specs::Reading::topology))]
pub fn read_topology(alloc: Global, text: &[u8]) -> Result<Topology, TopoError>
    requires { length text.now ≤ 1048576 }
    ensures { Gives (topology text.now) result }
{
    let table = document(alloc, text)?;
    let profile = settings::profile_of(alloc, value_at(&table, TopoKey::Profile))?;
    let topology = Topology::new(alloc, profile);
    let topology = systems::with_systems_of(topology, value_at(&table, TopoKey::As))?;
    links::with_links_of(topology, value_at(&table, TopoKey::Link))
}

// The table that a text is by TOML.
#[tactic(auto, unfolding(crate::specs::Reading::document))]
fn document(alloc: Global, text: &[u8]) -> Result<Table, TopoError>
    ensures { Gives (document text.now) (mapped (λ t. table_view t) result) }
{
    match toml::table_from_slice(alloc, text) {
        Ok(table) => Ok(table),
        Err(e) => {
            if e.is_memory() {
                Err(TopoError::OutOfMemory)
            } else {
                Err(fault(TopoKind::NotToml, TopoKey::Text, 0))
            }
        }
    }
}
