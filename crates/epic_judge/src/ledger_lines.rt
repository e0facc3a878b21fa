//! The lines of a ledger file, taken one by one.
ghost use Rattle.std.specs.Prelude.{◌≡◌, IsTrue, OnOk};
ghost use Rattle.epic_ledger.specs.Facts.{facts_of};
ghost use Rattle.epic_text.specs.Script.{IsShort};
ghost use Rattle.epic_record.specs.LedgerFile.{is_placed};
ghost use Rattle.epic_record.specs.LedgerLine.{item_of};
ghost use Rattle.epic_record.specs.VerdictLines.{accepted_by};
ghost use Rattle.epic_judge.specs.Reaching.{IsFew, IsPlacedLine, IsReached, accepted_in, line_more};
ghost use Rattle.epic_judge.specs.Sound.{IsSound, history_more};

use crate::accepted::{judge_dest, judge_hop};
use crate::progress::Progress;
use epic_index::Index;
use epic_judging::JudgeError;
use epic_record::{Item, LineError, read_item};
use std::alloc::Global;

/// What a line of the ledger tells: an acceptance is judged by the next line of the verdict file, over the lines before it; all else
/// goes into the index.
fn judge_item<'v>(
    alloc: Global,
    index: &mut Index<'_>,
    item: Item,
    progress: Progress<'v>,
) -> Result<Progress<'v>, JudgeError>
    requires sound { IsSound index.old.network index.old.history }
    requires placed { IsTrue (is_placed index.old.network index.old.history item) }
    requires few { IsFew progress }
    ensures network { index.new.network ≡ index.old.network }
    ensures history { OnOk result (index.new.history ≡ history_more index.old.history item) }
    ensures reached { IsReached index.old.network (facts_of index.old.history) (accepted_by item) progress.entry result }
{
    match item {
        Item::Event(event) => match index.add_event(event) {
            Ok(()) => Ok(progress),
            Err(_) => Err(JudgeError::OutOfMemory),
        },
        Item::Emission { place, bytes, .. } => match index.add_emission(place, bytes.as_slice()) {
            Ok(()) => Ok(progress),
            Err(_) => Err(JudgeError::OutOfMemory),
        },
        Item::AcceptHop {
            a,
            generation,
            hop,
            bytes,
        } => judge_hop(alloc, index, a, generation, hop, bytes.as_slice(), progress),
        Item::AcceptDest { host, bytes } => judge_dest(
            alloc,
            index,
            host,
            bytes.as_slice(),
            progress,
        ),
    }
}

/// The same of a line that was found to be in its place.
pub fn judge_line<'v>(
    alloc: Global,
    index: &mut Index<'_>,
    line: &[u8],
    progress: Progress<'v>,
) -> Result<Progress<'v>, JudgeError>
    requires sound { IsSound index.old.network index.old.history }
    requires placed { IsPlacedLine index.old.network index.old.history (item_of line.now) }
    requires short { IsShort line.now }
    requires few { IsFew progress }
    ensures network { index.new.network ≡ index.old.network }
    ensures history { OnOk result (index.new.history ≡ line_more index.old.history (item_of line.now)) }
    ensures reached { IsReached index.old.network (facts_of index.old.history) (accepted_in (item_of line.now)) progress.entry result }
{
    match read_item(alloc, line) {
        Ok(item) => judge_item(alloc, index, item, progress),
        Err(LineError::Refused(_)) => unreachable!(),
        Err(LineError::OutOfMemory) => Err(JudgeError::OutOfMemory),
    }
}
