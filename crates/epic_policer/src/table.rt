//! The policers of a network by their ASes.
ghost use Rattle.std.specs.Prelude.{◌≡◌, ◌≤◌, [], length, IfOk};
ghost use Rattle.epic_policer.specs.Table.{AreLike, Asks, AsksAt, Took};

use crate::{Packet, Policed, Policer};
use epic_num::{AsId, OutOfMemory};
use std::alloc::Global;
use std::collections::HashMap;

pub type Table = HashMap<AsId, Policer>;

/// Makes room for a packet in a policer, and offers it.
fn offer_to(policer: &mut Policer, packet: Packet) -> Result<Policed, OutOfMemory>
    requires { policer.old.latest ≤ packet.moment }
    ensures { Asks policer.old packet policer.new result }
{
    policer.reserve(1)?;
    Ok(policer.offer(packet.source, packet.bytes, packet.moment))
}

/// A policer that is new but for this packet, and its answer.
fn offer_first(
    alloc: Global,
    sources: &[AsId],
    budget: u64,
    span_us: u64,
    packet: Packet,
) -> Result<(Policer, Policed), OutOfMemory>
    requires { length sources.now ≤ 4096 }
    ensures { IfOk result (λ x. Took (record { sources = sources.now; budget = budget; span_us = span_us }) [] packet x.1 x.0) }
{
    let mut policer = Policer::new(alloc, sources, budget, span_us)?;
    let given = offer_to(&mut policer, packet)?;
    Ok((policer, given))
}

/// Offers a packet to the policer of an AS, which is made where there is none.
pub fn ask(
    alloc: Global,
    table: &mut Table,
    sources: &[AsId],
    budget: u64,
    span_us: u64,
    at: AsId,
    packet: Packet,
) -> Result<Policed, OutOfMemory>
    requires few { length sources.now ≤ 4096 }
    requires alike { AreLike (record { sources = sources.now; budget = budget; span_us = span_us }) packet.moment table.old.entries }
    ensures { AsksAt (record { sources = sources.now; budget = budget; span_us = span_us }) table.old.entries at packet table.new.entries result }
{
    match table.get_mut(&at) {
        Some(policer) => offer_to(policer, packet),
        None => {
            let (policer, given) = offer_first(alloc, sources, budget, span_us, packet)?;
            match table.insert(at, policer) {
                Ok(_) => Ok(given),
                Err(_) => Err(OutOfMemory),
            }
        }
    }
}
