//! The command `run`: many actors over a topology, each acceptance with its verdict.

ghost use Rattle.epic_app.specs.Acts.{world};
ghost use Rattle.epic_app.specs.End.{EndsAs};
ghost use Rattle.epic_app.specs.RunEnding.{IsUnshared};
ghost use Rattle.epic_words.specs.Answers.{names_in, run_in};

use crate::end::End;
use crate::files::{commands_in, topology_in};
use crate::run_end::write_run;
use epic_num::Command;
use epic_ports::{Sink, Store};
use epic_words::RunWords;
use std::alloc::Global;

/// The greatest length of a script, in bytes.
const SCRIPT_LIMIT: u64 = 16_777_216;

/// Reads and checks the whole topology and then the whole script, and does the script's commands
/// one after the other, and then those of a capture's records, if one is named. What they emit is
/// saved as a capture, what happens is written to the ledger file, and the verdicts to the verdict
/// file, as far as these are named.
pub fn run<'a, S: Store, O: Sink>(
    alloc: Global,
    words: &RunWords<'a>,
    store: &mut S,
    out: &mut O,
) -> End<'a>
    requires { IsUnshared (names_in words.now) }
    ensures { EndsAs (run_in words.now)
        (world (S.contents store.old) (S.reads store.old) (S.writes store.old)
        (O.written out.old) (O.faults out.old))
        (world (S.contents store.new) (S.reads store.new) (S.writes store.new)
        (O.written out.new) (O.faults out.new))
        result }
{
    let topo = match topology_in(alloc, words.topology, store) {
        Ok(topo) => topo,
        Err(end) => return end,
    };
    let commands = match commands_in::<Command, S>(alloc, words.script, SCRIPT_LIMIT, store) {
        Ok(commands) => commands,
        Err(end) => return end,
    };
    write_run(alloc, topo, &commands, words, store, out)
}
