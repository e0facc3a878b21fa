//! What becomes of packets, over what the ledger says: passes, windows, and what holds of them all.
#![tactic(auto)]

mod laws;

pub use laws::{
    honest_carries_arrive, honest_packets_arrive, honest_sends_arrive, inv_is_kept, none_twice,
    none_twice_by_emissions, passes_are_sound, sends_are_kept, sent_packets_have_roads,
    some_send_is_honest, timestamps_are_new, verdicts_are_right, windows_stand, worlds_go_on,
};
