//! The ports of the program: a store of named byte lists and a sink of bytes, with their counts of
//! faults.
//!
//! A call of a port answers that it failed only where the count of faults of the object rose in
//! that call.
#![tactic(auto)]

mod counts;
pub mod disk_store;
pub mod error;
mod mem_file;
pub mod mem_sink;
pub mod mem_store;
pub mod named_store;
pub mod sink;
pub mod std_sink;
pub mod store;
pub mod whole;

pub use disk_store::DiskStore;
pub use error::{PortError, ReadError};
pub use mem_sink::MemSink;
pub use mem_store::MemStore;
pub use named_store::NamedStore;
pub use sink::Sink;
pub use std_sink::StdSink;
pub use store::Store;
pub use whole::{append_all, read_whole, write_all};

#[cfg(test)]
mod tests;
