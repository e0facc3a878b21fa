//! The lines of the two files in which a run can be kept: what happened, and what was said of it.
#![tactic(auto)]

mod accepted_lines;
mod body;
mod event_words;
mod fault;
mod item;
mod key_word;
mod ledger_check;
mod ledger_line;
mod ledger_words;
mod line;
mod packet_line;
mod places;
mod reading;
mod split_words;
#[cfg(test)]
mod tests;
mod told;
mod verdict_line;
mod verdict_reading;
mod verdict_words;
mod word;

pub use accepted_lines::print_accepted;
pub use fault::{FileError, FileKind, LineError};
pub use item::Item;
pub use ledger_check::{MAX_LEDGER, check_ledger};
pub use ledger_line::{
    print_accept_dest, print_accept_hop, print_emission, print_event, print_item,
};
pub use reading::read_item;
pub use told::{Told, ToldForgery};
pub use verdict_line::{print_dest_verdict, print_hop_verdict};
pub use verdict_reading::{read_dest_verdict, read_hop_verdict};
