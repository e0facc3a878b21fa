//! The program's commands: the run of many actors over a topology, one AS that issues hops and checks their fields, and the judge of
//! what a run wrote.
#![tactic(auto)]

mod end;
mod files;
mod gen_report;
mod generating;
mod hop;
mod hop_answer;
mod hop_file;
mod hop_report;
mod judge;
mod judge_file;
mod judge_report;
mod judging;
mod keeping;
mod laws;
mod noting;
mod policing;
mod run;
mod run_end;
mod run_report;
mod saving;
mod showing;
mod spelling;
mod taking;
mod telling;
mod top;
mod writing;

pub use laws::files_are_whole;
pub use top::epic;

#[cfg(test)]
mod front_tests;
#[cfg(test)]
mod run_tests;
#[cfg(test)]
mod tests;
