//! The next line of a verdict file, judged of an acceptance.
ghost use Rattle.std.specs.Prelude.{◌≡◌, ◌||◌, not, IsTrue};
ghost use Rattle.epic_audit.specs.Holds.{AtDest, AtHop};
ghost use Rattle.epic_layout.specs.Layout.{parse};
ghost use Rattle.epic_ledger.specs.Facts.{facts_of};
ghost use Rattle.epic_text.specs.Script.{IsShort};
ghost use Rattle.epic_record.specs.declared.item.Item.TheVariants as items;
ghost use Rattle.epic_record.specs.LedgerFile.{is_placed};
ghost use Rattle.epic_record.specs.VerdictLines.{accepted_by};
ghost use Rattle.epic_judging.specs.Judging.{told_true};
ghost use Rattle.epic_judge.specs.Known.{AreKnown, IsNamed};
ghost use Rattle.epic_judge.specs.Reaching.{IsFew, IsReached, IsRead};

use crate::dest_line::is_true_at_dest;
use crate::hop_line::is_true_at_hop;
use crate::progress::{Progress, behind};
use epic_index::Index;
use epic_judging::JudgeError;
use epic_num::{AsId, HostId};
use epic_record::{FileKind, LineError, Told, read_dest_verdict, read_hop_verdict};
use epic_text::split_line;
use epic_view::PacketRef;
use std::alloc::Global;

/// Whether what a line tells is true of an accepted hop, if that is asked.
fn is_true_of_hop(
    index: &Index<'_>,
    a: AsId,
    generation: u32,
    hop: u8,
    bytes: &[u8],
    asked: bool,
    told: &Told,
) -> bool
    requires facts { AreKnown index.now.network (facts_of index.now.history) }
    requires placed { IsTrue (is_placed index.now.network index.now.history (items.AcceptHop a generation hop bytes.now)) }
    requires named { IsNamed told.now }
    ensures { result ≡ (not asked || told_true index.now.network (facts_of index.now.history) (parse bytes.now) (AtHop a generation hop) told.now) }
{
    if !asked {
        return true;
    }
    match PacketRef::look(bytes) {
        Ok(packet) => is_true_at_hop(index, a, generation, &packet, hop, told),
        Err(_) => unreachable!(),
    }
}

/// Whether what a line tells is true of a packet that its destination took, if that is asked.
fn is_true_of_dest(index: &Index<'_>, host: HostId, bytes: &[u8], asked: bool, told: &Told) -> bool
    requires facts { AreKnown index.now.network (facts_of index.now.history) }
    requires placed { IsTrue (is_placed index.now.network index.now.history (items.AcceptDest host bytes.now)) }
    requires named { IsNamed told.now }
    ensures { result ≡ (not asked || told_true index.now.network (facts_of index.now.history) (parse bytes.now) AtDest told.now) }
{
    if !asked {
        return true;
    }
    match PacketRef::look(bytes) {
        Ok(packet) => is_true_at_dest(index, &packet, told),
        Err(_) => unreachable!(),
    }
}

/// Whether a line is true of an accepted hop, if that is asked.
fn hop_line(
    alloc: Global,
    index: &Index<'_>,
    a: AsId,
    generation: u32,
    hop: u8,
    bytes: &[u8],
    asked: bool,
    line: &[u8],
) -> Result<bool, LineError>
    requires facts { AreKnown index.now.network (facts_of index.now.history) }
    requires placed { IsTrue (is_placed index.now.network index.now.history (items.AcceptHop a generation hop bytes.now)) }
    requires short { IsShort line.now }
    ensures { IsRead index.now.network (facts_of index.now.history) (record { packet = parse bytes.now; subject = AtHop a generation hop }) asked line.now result }
{
    let told = read_hop_verdict(alloc, hop, line)?;
    Ok(is_true_of_hop(index, a, generation, hop, bytes, asked, &told))
}

/// Whether a line is true of a packet that its destination took, if that is asked.
fn dest_line(
    alloc: Global,
    index: &Index<'_>,
    host: HostId,
    bytes: &[u8],
    asked: bool,
    line: &[u8],
) -> Result<bool, LineError>
    requires facts { AreKnown index.now.network (facts_of index.now.history) }
    requires placed { IsTrue (is_placed index.now.network index.now.history (items.AcceptDest host bytes.now)) }
    requires short { IsShort line.now }
    ensures { IsRead index.now.network (facts_of index.now.history) (record { packet = parse bytes.now; subject = AtDest }) asked line.now result }
{
    let told = read_dest_verdict(alloc, line)?;
    Ok(is_true_of_dest(index, host, bytes, asked, &told))
}

/// What is reached behind the next line, which is of an accepted hop. Once a line isn't true, the following ones are only read.
pub fn judge_hop<'v>(
    alloc: Global,
    index: &Index<'_>,
    a: AsId,
    generation: u32,
    hop: u8,
    bytes: &[u8],
    progress: Progress<'v>,
) -> Result<Progress<'v>, JudgeError>
    requires facts { AreKnown index.now.network (facts_of index.now.history) }
    requires placed { IsTrue (is_placed index.now.network index.now.history (items.AcceptHop a generation hop bytes.now)) }
    requires few { IsFew progress }
    ensures { IsReached index.now.network (facts_of index.now.history) (accepted_by (items.AcceptHop a generation hop bytes.now)) progress.entry result }
{
    if progress.rest.is_empty() {
        return Err(JudgeError::Verdicts {
            line: progress.number + 1,
            kind: FileKind::Missing,
        });
    }
    let (line, rest) = split_line(progress.rest);
    let asked = progress.first.is_none();
    let read = hop_line(alloc, index, a, generation, hop, bytes, asked, line);
    behind(progress, rest, read)
}

/// What is reached behind the next line, which is of a packet that its destination took.
pub fn judge_dest<'v>(
    alloc: Global,
    index: &Index<'_>,
    host: HostId,
    bytes: &[u8],
    progress: Progress<'v>,
) -> Result<Progress<'v>, JudgeError>
    requires facts { AreKnown index.now.network (facts_of index.now.history) }
    requires placed { IsTrue (is_placed index.now.network index.now.history (items.AcceptDest host bytes.now)) }
    requires few { IsFew progress }
    ensures { IsReached index.now.network (facts_of index.now.history) (accepted_by (items.AcceptDest host bytes.now)) progress.entry result }
{
    if progress.rest.is_empty() {
        return Err(JudgeError::Verdicts {
            line: progress.number + 1,
            kind: FileKind::Missing,
        });
    }
    let (line, rest) = split_line(progress.rest);
    let asked = progress.first.is_none();
    let read = dest_line(alloc, index, host, bytes, asked, line);
    behind(progress, rest, read)
}
