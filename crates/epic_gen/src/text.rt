//! The text of a generated topology.

ghost use Rattle.std.specs.Prelude.{◌≡◌, codes, string_bytes, IfOk};
ghost use Rattle.epic_gen.specs.Text.{children_text, cores_text, links_text, system_text, topology_text};

use crate::keys::master_of;
use std::alloc::{AllocError, Global};

/// The links of the topology.
const LINKS: &str =
    "[[link]]\na = \"1-ff00:0:110\"\na_if = 1\nb = \"1-ff00:0:120\"\nb_if = 1\nkind = \"core\"\n\n[[link]]\na = \"1-ff00:0:110\"\na_if = 2\nb = \"1-ff00:0:111\"\nb_if = 1\nkind = \"child\"\n\n[[link]]\na = \"1-ff00:0:111\"\na_if = 2\nb = \"1-ff00:0:112\"\nb_if = 1\nkind = \"child\"\n\n[[link]]\na = \"1-ff00:0:120\"\na_if = 2\nb = \"1-ff00:0:121\"\nb_if = 1\nkind = \"child\"\n\n[[link]]\na = \"1-ff00:0:121\"\na_if = 2\nb = \"1-ff00:0:122\"\nb_if = 1\nkind = \"child\"\n";

/// The AS `1-ff00:0:NAME` at a place of the topology, from 0.
#[tactic(auto, unfolding(crate::specs::Text::system_text))]
fn system_text(
    alloc: Global,
    seed: u64,
    place: u8,
    core: bool,
    name: &str,
) -> Result<String, AllocError>
    ensures { IfOk result (λ text. string_bytes text ≡ system_text seed place core name.now) }
{
    let master = hex::encode(alloc, master_of(seed, place))?;
    format!(in alloc; "[[as]]\ncore = {core}\nkey = \"{master}\"\nname = \"1-ff00:0:{name}\"\n\n")
}

/// The two core ASes.
#[tactic(auto, unfolding(crate::specs::Text::cores_text))]
fn cores_text(alloc: Global, seed: u64) -> Result<String, AllocError>
    ensures { IfOk result (λ text. string_bytes text ≡ cores_text seed) }
{
    let first = system_text(alloc, seed, 0, true, "110")?;
    let second = system_text(alloc, seed, 1, true, "120")?;
    format!(in alloc; "{first}{second}")
}

/// The ASes below them.
#[tactic(auto, unfolding(crate::specs::Text::children_text))]
fn children_text(alloc: Global, seed: u64) -> Result<String, AllocError>
    ensures { IfOk result (λ text. string_bytes text ≡ children_text seed) }
{
    let first_child = system_text(alloc, seed, 2, false, "111")?;
    let source = system_text(alloc, seed, 3, false, "112")?;
    let second_child = system_text(alloc, seed, 4, false, "121")?;
    let destination = system_text(alloc, seed, 5, false, "122")?;
    format!(in alloc; "{first_child}{source}{second_child}{destination}")
}

/// The text of the topology that is generated from a seed, as `run` reads one. It is the one that
/// the crate `toml` prints.
#[tactic(auto, unfolding(crate::specs::Text::topology_text))]
pub fn topology_text(alloc: Global, seed: u64) -> Result<String, AllocError>
    ensures { IfOk result (λ text. string_bytes text ≡ topology_text seed) }
{
    let cores = cores_text(alloc, seed)?;
    let children = children_text(alloc, seed)?;
    format!(in alloc; "{cores}{children}{LINKS}")
}
