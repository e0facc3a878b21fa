//! The topology that all routers and hosts share: its ASes with their master keys, and the links
//! that join them.
#![tactic(auto)]

mod fault;
mod laws;
mod link_kind;
mod network;
mod queries;
mod reading;
#[cfg(test)]
mod tests;

pub use fault::{TopoError, TopoKey, TopoKind};
pub use laws::{
    ases_have_readable_names, each_as_has_one_place, links_lead_back,
    texts_tell_of_lawful_topologies,
};
pub use link_kind::LinkKind;
use network::{End, Link, System};
pub use queries::Topology;
pub use reading::read_topology;
