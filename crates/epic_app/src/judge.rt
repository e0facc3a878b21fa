//! The command `judge`: whether the verdicts of a run's files are true.

ghost use Rattle.epic_app.specs.Acts.{world};
ghost use Rattle.epic_app.specs.End.{EndsAs};
ghost use Rattle.epic_app.specs.JudgeEnding.{Judges};
ghost use Rattle.epic_app.specs.JudgeReport.{judgment};
ghost use Rattle.epic_words.specs.Answers.{judge_in};

use crate::end::{End, ended};
use crate::files::{judged_in, topology_in};
use crate::judge_file::JudgedFile;
use crate::judge_report::write_judged;
use epic_judging::{JudgeError, Judged, judgments_are_decided};
use epic_ports::{Sink, Store};
use epic_topo::Topology;
use epic_words::JudgeWords;
use std::alloc::Global;

/// What the judge says of the two files, or how the command ends without it.
fn judged<'a>(
    alloc: Global,
    topo: &Topology,
    ledger: &[u8],
    verdicts: &[u8],
) -> Result<Judged, End<'a>>
    ensures { Judges (judgment topo.now ledger.now verdicts.now) result }
{
    judgments_are_decided();
    match epic_judge::judge(alloc, topo, ledger, verdicts) {
        Ok(said) => Ok(said),
        Err(JudgeError::Ledger { line, kind }) => Err(End::BadFile {
            file: JudgedFile::Ledger,
            line,
            kind,
        }),
        Err(JudgeError::Verdicts { line, kind }) => Err(End::BadFile {
            file: JudgedFile::Verdicts,
            line,
            kind,
        }),
        Err(JudgeError::OutOfMemory) => Err(End::OutOfMemory),
    }
}

/// Reads and checks the whole topology, reads the ledger file and then the verdict file, each
/// within its limit, judges both, and writes one line. No file is written, and no router, source
/// or audit runs.
pub fn judge<'a, S: Store, O: Sink>(
    alloc: Global,
    words: &JudgeWords<'a>,
    store: &mut S,
    out: &mut O,
) -> End<'a>
    ensures { EndsAs (judge_in words.now)
        (world (S.contents store.old) (S.reads store.old) (S.writes store.old)
        (O.written out.old) (O.faults out.old))
        (world (S.contents store.new) (S.reads store.new) (S.writes store.new)
        (O.written out.new) (O.faults out.new))
        result }
{
    let topo = match topology_in(alloc, words.topology, store) {
        Ok(topo) => topo,
        Err(end) => return end,
    };
    let ledger = match judged_in(alloc, words.ledger, JudgedFile::Ledger, store) {
        Ok(ledger) => ledger,
        Err(end) => return end,
    };
    let verdicts = match judged_in(alloc, words.verdicts, JudgedFile::Verdicts, store) {
        Ok(verdicts) => verdicts,
        Err(end) => return end,
    };
    let said = match judged(alloc, &topo, &ledger, &verdicts) {
        Ok(said) => said,
        Err(end) => return end,
    };
    ended(write_judged(alloc, &said, out))
}
