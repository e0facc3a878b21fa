//! What the blocks of a section are read by.

use crate::interfaces::Interfaces;
use epic_capture::Order;

/// What is known before a block.
#[derive(Drop)]
pub struct Section {
    pub order: Order,
    pub interfaces: Interfaces,
    /// How many packets may still come.
    pub left: u32,
}
