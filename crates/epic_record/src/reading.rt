//! What a line of a ledger file tells.

ghost use Rattle.epic_text.specs.Script.{IsShort};
ghost use Rattle.epic_record.specs.LedgerLine.{item_of};
ghost use Rattle.epic_record.specs.Words.{IsLine};

use crate::Item;
use crate::fault::{FileKind, LineError};
use crate::ledger_words::item_by_words;
use crate::split_words::{first_words, is_plain};
use std::alloc::Global;

/// What a line of a ledger file tells by its words alone; its line feed is left out.
///
/// `LineError::Refused` has the first fault of the line: a byte that is no text, then a first word that is no verb, then
/// the number of words, then the first bad word.
#[tactic(auto, unfolding(crate::specs::LedgerLine::item_of))]
pub fn read_item(alloc: Global, line: &[u8]) -> Result<Item, LineError>
    requires { IsShort line.now }
    ensures { IsLine (item_of line.now) result }
{
    if !is_plain(line) {
        return Err(LineError::Refused(FileKind::NotText));
    }
    let words = first_words(alloc, line)?;
    item_by_words(alloc, &words)
}
