//! The hops that ASes issue, the chains that they make, and the segments of those that are ended.
#![tactic(auto)]

mod beacon;
mod beacons;
mod hop;
mod issuing;
mod laws;
mod refusal;
mod roll;
mod segment;
#[cfg(test)]
mod tests;
mod twin;

use beacon::Beacon;
pub use beacons::Beacons;
pub use epic_num::BeaconError;
pub use laws::{issues_fit, issues_go_on, segments_are_chains};
pub use segment::SegmentError;
