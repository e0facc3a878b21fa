//! What holds of all ledger files, proved of the definitions alone.
ghost use Rattle.epic_reread.specs.LedgerFitting.{PlacedItemsCanBeWritten, PlacedLedgersAreReadBack};
ghost use Rattle.epic_reread.specs.LedgerRereading.{ItemsAreReadBack, LedgersAreReadBack};

/// The line that a run writes of an event, an emission or an acceptance is read as that.
pub fn items_are_read_back()
    ensures { ItemsAreReadBack }
{}

/// The ledger file that a run writes of what may stand there is read as that, where it is within the limit.
pub fn ledgers_are_read_back()
    ensures { LedgersAreReadBack }
{}

/// What may stand in a ledger of a topology can be written, where its parts fit their types. So its file is read back.
pub fn placed_ledgers_are_read_back()
    ensures written { PlacedItemsCanBeWritten }
    ensures read { PlacedLedgersAreReadBack }
{}
