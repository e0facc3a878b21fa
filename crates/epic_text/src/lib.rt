//! The texts of scripts and reports.
#![tactic(auto)]

mod answer_text;
mod carried_text;
mod counts;
mod laws;
mod line;
mod lines;
mod notes;
mod passed_text;
mod refusal_words;
mod run_command;
#[cfg(test)]
mod samples;
mod script;
mod segment_word;
mod verdict_text;
mod word;

pub use answer_text::{
    print_answer, print_issued, print_path, print_paths, print_refusal, print_rolled, print_sent,
};
pub use carried_text::{bytes_in, emission_bytes, print_carried};
pub use counts::{Counts, counted, print_end};
pub use laws::commands_are_spelled;
pub use line::print_line;
pub use lines::split_line;
pub use notes::Notes;
pub use passed_text::{print_pass, print_passed};
pub use script::{FromWords, MAX_COMMANDS, ScriptError, ScriptKind, WordsError, read_script};
pub use segment_word::read_segments;
pub use verdict_text::{print_dest, print_hop, print_verdict};
pub use word::{
    read_as, read_bytes, read_holder, read_host, read_u8, read_u16, read_u32, read_u64,
};
