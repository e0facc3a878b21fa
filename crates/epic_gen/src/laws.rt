//! What holds of what is generated from each seed.

ghost use Rattle.std.specs.Prelude.{◌≡◌, ℕ, Ok};
ghost use Rattle.epic_topo.specs.Lawful.{IsTopology};
ghost use Rattle.epic_topo.specs.Reading.{topology};
ghost use Rattle.epic_gen.specs.Text.{topology_text};
ghost use Rattle.epic_gen.specs.Topology.{generated_network};

/// A law: the text of each seed is read as its topology, which is lawful.
pub fn generated_texts_are_read()
    ensures read { (seed : ℕ) → topology (topology_text seed) ≡ Ok (generated_network seed) }
    ensures lawful { (seed : ℕ) → IsTopology (generated_network seed) }
{}
