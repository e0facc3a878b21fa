//! The program: the top call over the system's files, standard output and standard error.
#![tactic(auto)]

use epic_app::epic;
use epic_ports::{DiskStore, StdSink};
use std::env::Env;
use std::process::ExitCode;
use std::{env, io};

/// The status where the words can't be had, or aren't UTF-8.
const NO_WORDS: u8 = 9;

/// The words after the program's name.
fn words(rt: &(impl Env + AllocGlobal)) -> io::Result<Vec<String>> {
    Ok(env::args(rt)?.skip(1).collect(rt.alloc())?)
}

fn main(rt: HostRuntime) -> ExitCode {
    let Ok(words) = words(&rt) else {
        return ExitCode::from(NO_WORDS);
    };
    let mut store = DiskStore::new(&rt);
    let mut out = StdSink::new(rt.stdout());
    let mut err = StdSink::new(rt.stderr());
    ExitCode::from(epic(rt.alloc(), &words, &mut store, &mut out, &mut err))
}
