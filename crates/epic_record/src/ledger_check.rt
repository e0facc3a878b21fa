//! The first fault of a ledger file.

ghost use Rattle.std.specs.Prelude.{◌≡◌, ◌≤◌, length, IfOk};
ghost use Rattle.epic_text.specs.Script.{IsShort};
ghost use Rattle.epic_record.specs.LedgerCheck.{IsCounted};
ghost use Rattle.epic_record.specs.LedgerFile.{ledger_file};
ghost use Rattle.epic_record.specs.LedgerLine.{item_of};
ghost use Rattle.epic_record.specs.Places.{fitting, seen_after};
ghost use Rattle.epic_record.specs.VerdictLines.{accepted_by};
ghost use Rattle.epic_record.specs.Words.{IsLine};

use crate::Item;
use crate::fault::{FileError, FileKind, LineError};
use crate::places::Places;
use crate::reading::read_item;
use epic_text::split_line;
use epic_topo::Topology;
use std::alloc::Global;

/// The greatest number of bytes of a ledger file.
pub const MAX_LEDGER: usize = 268_435_456;

/// The number of acceptances that a line tells.
fn accepted_by(item: &Item) -> u32
    ensures value { result ≡ length (accepted_by item.now) }
    ensures most { result ≤ 1 }
{
    match item {
        Item::AcceptHop { .. } | Item::AcceptDest { .. } => 1,
        Item::Event(_) | Item::Emission { .. } => 0,
    }
}

/// What a line tells that may follow the lines before it, and notes it.
fn next_item(
    alloc: Global,
    topo: &Topology,
    places: &mut Places,
    line: &[u8],
) -> Result<Item, LineError>
    requires { IsShort line.now }
    ensures placed { IsLine (fitting topo.now places.old (item_of line.now)) result }
    ensures seen { IfOk result (λ item. places.new ≡ seen_after places.old item) }
{
    let item = read_item(alloc, line)?;
    match places.place(topo, &item) {
        Ok(true) => Ok(item),
        Ok(false) => Err(LineError::Refused(FileKind::BadPlace)),
        Err(_) => Err(LineError::OutOfMemory),
    }
}

/// The number of acceptances of a ledger file.
///
/// `FileError::Refused` has the file's first fault: that it is longer than `MAX_LEDGER` bytes, which is line 0, or the first line
/// that is none or may not follow the lines before it.
pub fn check_ledger(alloc: Global, topo: &Topology, bytes: &[u8]) -> Result<u32, FileError>
    ensures { IsCounted (ledger_file topo.now bytes.now) result }
{
    if bytes.len() > MAX_LEDGER {
        return Err(FileError::Refused {
            line: 0,
            kind: FileKind::TooLong,
        });
    }
    let mut places = Places::new(alloc);
    let mut rest = bytes;
    let mut number = 0;
    let mut accepted = 0;
    while !rest.is_empty() {
        let (line, after) = split_line(rest);
        rest = after;
        number += 1;
        match next_item(alloc, topo, &mut places, line) {
            Ok(item) => accepted += accepted_by(&item),
            Err(LineError::Refused(kind)) => {
                return Err(FileError::Refused { line: number, kind });
            }
            Err(LineError::OutOfMemory) => return Err(FileError::OutOfMemory),
        }
    }
    Ok(accepted)
}
