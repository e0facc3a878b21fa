//! The records of what is emitted.

ghost use Rattle.std.specs.Prelude.{◌≡◌, ◌+◌, ◌≤◌, ◌++◌, ℕ, List, Option, Some, All, IfOk, OnOk, drop, flat_map, length, map, option_map};
ghost use Rattle.epic_capture.specs.Saving.{saved_record};
ghost use Rattle.epic_ledger.specs.History.{Emission, emission_at};
ghost use Rattle.epic_ledger.specs.Lawful.{IsEmission};
ghost use Rattle.epic_app.specs.Saved.{as_captured};

use epic_capture::record_head;
use epic_ledger::Ledger;
use epic_num::{OutOfMemory, Place};
use epic_world::World;
use std::alloc::{AllocError, Global};

/// Appends a record of a packet at a moment, in microseconds.
fn push_record(to: &mut Vec<u8>, moment: u64, place: &Place, bytes: &[u8]) -> Result<(), AllocError>
    requires moment { moment ≤ 4294967295999999 }
    requires bytes { length bytes.now ≤ 16368 }
    ensures { OnOk result (to.new.items ≡ to.old.items ++
        saved_record (record { moment = moment; place = place.now; bytes = bytes.now })) }
{
    to.extend_from_slice(&record_head(moment, place, bytes.len() as u32))?;
    to.extend_from_slice(bytes)?;
    Ok(())
}

/// The records of the emissions behind the first `before`, at a moment in microseconds.
fn records_text(
    alloc: Global,
    ledger: &Ledger,
    before: u32,
    moment: u64,
) -> Result<Vec<u8>, AllocError>
    requires before { before ≤ length ledger.now.history.emissions }
    requires moment { moment ≤ 4294967295999999 }
    requires packets { All IsEmission ledger.now.history.emissions }
    ensures { IfOk result (λ text. text.items ≡
        flat_map saved_record (map (as_captured moment) (drop before ledger.now.history.emissions))) }
{
    let mut text = Vec::new(alloc);
    for number in before..ledger.emissions() {
        match ledger.emission(number + 1) {
            Some((place, bytes)) => push_record(&mut text, moment, &place, bytes)?,
            None => unreachable!(),
        }
    }
    Ok(text)
}

/// The records of what a step emitted, over the world after it. So much was emitted before.
pub fn saved_records(alloc: Global, world: &World, before: u32) -> Result<Vec<u8>, OutOfMemory>
    requires { before ≤ length world.now.state.history.emissions }
    ensures { IfOk result (λ text. text.items ≡
        flat_map saved_record (map (as_captured world.now.state.moment) (drop before world.now.state.history.emissions))) }
{
    match records_text(alloc, world.ledger(), before, world.now()) {
        Ok(text) => Ok(text),
        Err(_) => Err(OutOfMemory),
    }
}
