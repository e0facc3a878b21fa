//! The generated topology.

ghost use Rattle.std.specs.Prelude.{◌≡◌, IfOk};
ghost use Rattle.epic_gen.specs.Topology.{generated_network};

use crate::text::topology_text;
use epic_num::OutOfMemory;
use epic_topo::{TopoError, Topology, read_topology};
use std::alloc::Global;

/// The topology that is generated from a seed, read from its text as `run` reads one.
pub fn generated_topology(alloc: Global, seed: u64) -> Result<Topology, OutOfMemory>
    ensures { IfOk result (λ topology. topology ≡ generated_network seed) }
{
    let Ok(text) = topology_text(alloc, seed) else {
        return Err(OutOfMemory);
    };
    match read_topology(alloc, text.as_bytes()) {
        Ok(topology) => Ok(topology),
        Err(TopoError::OutOfMemory) => Err(OutOfMemory),
        Err(TopoError::Bad { .. }) => unreachable!(),
    }
}
