//! Paths: segments joined in turn, and all lawful paths between two ASes.
#![tactic(auto)]

mod conditions;
mod ends;
mod joining;
mod links;
mod paths;
mod paths_error;
mod search;
#[cfg(test)]
mod tests;

pub use conditions::{are_well_formed, have_different_issues, is_well_formed};
pub use epic_num::PathError;
pub use joining::{end_of, join, joins_are_lawful};
pub use paths::{all_paths, every_path_is_one_list};
pub use paths_error::PathsError;
