//! The judge over both files.
ghost use Rattle.std.specs.Prelude.{◌≡◌, ◌≤◌, [], length};
ghost use Rattle.epic_record.specs.LedgerFile.{ledger_file};
ghost use Rattle.epic_judging.specs.Judgment.{IsJudgment};
ghost use Rattle.epic_judge.specs.BothFiles.{HasItems, IsChecked, answered};
ghost use Rattle.epic_judge.specs.Reaching.{IsFew};

use crate::ledger_lines::judge_line;
use crate::progress::{Progress, at_first};
use epic_index::Index;
use epic_judging::{JudgeError, Judged, judgments_are_decided};
use epic_record::{FileError, FileKind, check_ledger};
use epic_text::split_line;
use epic_topo::Topology;
use std::alloc::Global;

/// The greatest number of bytes of a verdict file.
pub const MAX_VERDICTS: usize = 67_108_864;

/// Whether a ledger file has no fault.
fn checked(alloc: Global, topo: &Topology, ledger: &[u8]) -> Result<(), JudgeError>
    ensures { IsChecked (ledger_file topo.now ledger.now) result }
{
    match check_ledger(alloc, topo, ledger) {
        Ok(_) => Ok(()),
        Err(FileError::Refused { line, kind }) => Err(JudgeError::Ledger { line, kind }),
        Err(FileError::OutOfMemory) => Err(JudgeError::OutOfMemory),
    }
}

/// The answer once all lines of the ledger file are taken.
fn answer(progress: &Progress<'_>) -> Result<Judged, JudgeError>
    requires few { IsFew progress.now }
    ensures { result ≡ answered progress.now }
{
    if !progress.rest.is_empty() {
        return Err(JudgeError::Verdicts {
            line: progress.number + 1,
            kind: FileKind::Extra,
        });
    }
    let verdicts = progress.number;
    Ok(match progress.first {
        None => Judged::Yes { verdicts },
        Some(first) => Judged::No { verdicts, first },
    })
}

/// Takes the lines of a ledger file without a fault, and those of the verdict file in step, over an index of nothing.
fn judge_lines(
    alloc: Global,
    index: &mut Index<'_>,
    ledger: &[u8],
    verdicts: &[u8],
) -> Result<Judged, JudgeError>
    requires items { HasItems (ledger_file index.old.network ledger.now) }
    requires within { length verdicts.now ≤ MAX_VERDICTS }
    requires events { index.old.history.events ≡ [] }
    requires emissions { index.old.history.emissions ≡ [] }
    ensures { IsJudgment index.old.network ledger.now verdicts.now result }
{
    judgments_are_decided();
    let mut rest = ledger;
    let mut progress = at_first(verdicts);
    while !rest.is_empty() {
        let (line, after) = split_line(rest);
        rest = after;
        progress = judge_line(alloc, index, line, progress)?;
    }
    answer(&progress)
}

/// Whether every line of the verdict file is true of its acceptance, over what the lines of the ledger file before it tell; or the
/// first fault of the ledger file, or else that of the verdict file.
pub fn judge(
    alloc: Global,
    topo: &Topology,
    ledger: &[u8],
    verdicts: &[u8],
) -> Result<Judged, JudgeError>
    ensures { IsJudgment topo.now ledger.now verdicts.now result }
{
    checked(alloc, topo, ledger)?;
    if verdicts.len() > MAX_VERDICTS {
        return Err(JudgeError::Verdicts {
            line: 0,
            kind: FileKind::TooLong,
        });
    }
    let mut index = Index::new(topo, alloc);
    judge_lines(alloc, &mut index, ledger, verdicts)
}
