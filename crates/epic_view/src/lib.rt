//! Packets read and edited where they lie.
#![tactic(auto)]

mod editing;
mod frame;
mod order;
mod packet_ref;
mod packet_view;
mod places;
mod reading;
#[cfg(test)]
mod tests;

pub use packet_ref::PacketRef;
pub use packet_view::PacketView;
