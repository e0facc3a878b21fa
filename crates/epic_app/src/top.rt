//! The top call.

ghost use Rattle.std.specs.Prelude.{map};
ghost use Rattle.std.specs.String.{string_bytes};
ghost use Rattle.epic_app.specs.Acts.{world};
ghost use Rattle.epic_app.specs.Claims.{ReportHolds};
ghost use Rattle.epic_app.specs.End.{EndsFor};
ghost use Rattle.epic_app.specs.Limits.{KeepsLimits};
ghost use Rattle.epic_app.specs.Outcome.{Ends, error_sink};
ghost use Rattle.epic_words.specs.Request.{request_of};

use crate::end::{End, tell};
use crate::generating::generate;
use crate::hop::hop;
use crate::judge::judge;
use crate::run::run;
use epic_judging::judgments_are_decided;
use epic_ports::{Sink, Store};
use epic_rerun::{runs_are_judged_true, script_names_fit};
use epic_text::commands_are_spelled;
use epic_words::{Asked, WordsError, asked_for};
use epic_world::runs_hold;
use std::alloc::Global;

/// Does what the words ask for, but for what is told to the errors.
fn perform<'a, S: Store, O: Sink>(
    alloc: Global,
    words: &'a [String],
    store: &mut S,
    out: &mut O,
) -> End<'a>
    ensures { EndsFor (map string_bytes words.entry.now) (request_of (map string_bytes words.entry.now))
        (world (S.contents store.old) (S.reads store.old) (S.writes store.old)
        (O.written out.old) (O.faults out.old))
        (world (S.contents store.new) (S.reads store.new) (S.writes store.new)
        (O.written out.new) (O.faults out.new))
        result }
{
    match asked_for(alloc, words) {
        Ok(Asked::Hop(words)) => hop(alloc, &words.key, words.file, store, out),
        Ok(Asked::Run(words)) => run(alloc, &words, store, out),
        Ok(Asked::Gen(words)) => generate(alloc, &words, out),
        Ok(Asked::Judge(words)) => judge(alloc, &words, store, out),
        Err(WordsError::Refused) => End::BadWords,
        Err(WordsError::OutOfMemory) => End::OutOfMemory,
    }
}

/// Does what the words after the program's name ask for, over a store of files, an output and a
/// sink for errors, and answers the status of the process.
///
/// 0: the run was done, and no verdict is forged or collided, or no check of `hop` forged, or each
/// verdict that `judge` read is true; 1: some is, or some isn't. 2: the words are no command. 3: the
/// topology is refused. 4: the script, the file of `hop`, or one of the two files of `judge` is
/// refused. 5: the capture holds a damage; its records up to it were done. 6: a read
/// failed. 7: a write failed. 8: memory was wanting. The errors get the line of the status.
pub fn epic<S: Store, O: Sink, E: Sink>(
    alloc: Global,
    words: &[String],
    store: &mut S,
    out: &mut O,
    err: &mut E,
) -> u8
    // The report of `run` is that of the script's commands and of the capture's records over the
    // topology. Each step goes on from a state whose ledger is lawful and kept, in which no router accepted one packet twice
    // and segments are whole, and so does the end of the run. Each verdict of each passage is true
    // over the ledger before that passage, and Proved exactly where the provenance stands there;
    // honest packets are carried. A saved file is a capture of what was emitted, a ledger file has the
    // lines of all that happened, and a verdict file those of all verdicts; the judge says yes of these two. In the report of
    // `hop` each `accept proved K` names an earlier issue of that body, each `accept forged` is a
    // right field of a body that no earlier line issued, and each refused field is wrong. The line of
    // `judge` says yes exactly where each verdict line is true over the ledger's lines before what it
    // speaks of, and else names the first that isn't.
    ensures report_holds { ReportHolds (map string_bytes words.now)
        (world (S.contents store.old) (S.reads store.old) (S.writes store.old)
        (O.written out.old) (O.faults out.old))
        (world (S.contents store.new) (S.reads store.new) (S.writes store.new)
        (O.written out.new) (O.faults out.new))
        result }

    // The exact report, the cause of each status, the line on the errors, and what stays.
    ensures ends { Ends (map string_bytes words.now)
        (world (S.contents store.old) (S.reads store.old) (S.writes store.old)
        (O.written out.old) (O.faults out.old))
        (world (S.contents store.new) (S.reads store.new) (S.writes store.new)
        (O.written out.new) (O.faults out.new))
        (error_sink (E.written err.old) (E.faults err.old))
        (error_sink (E.written err.new) (E.faults err.new))
        result }

    // The commands of a script, and moments, are within these limits.
    ensures limits { KeepsLimits }
{
    // What the reports of a run and of the judge claim rests on these laws.
    runs_hold();
    commands_are_spelled();
    script_names_fit();
    runs_are_judged_true();
    judgments_are_decided();
    let end = perform(alloc, words, store, out);
    tell(err, &end);
    end.status()
}
