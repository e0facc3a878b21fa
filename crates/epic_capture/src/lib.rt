//! Captures in the classic form of pcap: the records of a file that comes in pieces, and the bytes of a saved one.
#![tactic(auto)]

mod buffer;
mod cursor;
mod damage;
mod format;
mod found;
mod laws;
mod numbers;
mod progress;
mod pseudo_header;
mod reader;
mod record;
mod saving;
#[cfg(test)]
mod tests;

pub use buffer::Buffer;
pub use damage::{CaptureError, CaptureKind};
pub use format::{Format, TimeUnit};
pub use found::{MOST_BYTES, MOST_CAPTURED, passes};
pub use laws::saved_captures;
pub use numbers::{Order, u16_of, u32_of};
pub use pseudo_header::place_of;
pub use reader::Reader;
pub use record::Record;
pub use saving::{file_head, record_head};
