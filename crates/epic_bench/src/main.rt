//! Measures the cipher, its tags, turns of routers, arrivals at a host, sends, and offers to a replay window and to a policer.
#![tactic(auto)]

mod arrived;
mod digests;
mod offers;
mod policing;
mod report;
mod routed;
mod sends;
#[cfg(test)]
mod tests;
mod top;
mod way;
mod words;
mod work;

use epic_ports::StdSink;
use std::env::Env;
use std::process::ExitCode;
use std::{env, io};
use top::bench;

/// The status where the words can't be had, or aren't UTF-8.
const NO_WORDS: u8 = 9;

/// The words after the program's name.
fn arguments(rt: &(impl Env + AllocGlobal)) -> io::Result<Vec<String>> {
    Ok(env::args(rt)?.skip(1).collect(rt.alloc())?)
}

fn main(rt: HostRuntime) -> ExitCode {
    let Ok(words) = arguments(&rt) else {
        return ExitCode::from(NO_WORDS);
    };
    let mut out = StdSink::new(rt.stdout());
    let mut err = StdSink::new(rt.stderr());
    ExitCode::from(bench(&rt, &words, &mut out, &mut err).status())
}
