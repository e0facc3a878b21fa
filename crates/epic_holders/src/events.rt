//! The events of a ledger, one by one.
ghost use Rattle.std.specs.Prelude.{◌≡◌, ◌+◌, ◌<◌, ◌∷◌, length, drop, IsSome};
ghost use Rattle.epic_ledger.specs.Facts.{packet_at};
ghost use Rattle.epic_ledger.specs.History.{emission_at};
ghost use Rattle.epic_ledger.specs.Lawful.{IsLawful};
ghost use Rattle.epic_holders.specs.Found.{SendFits};

use epic_ledger::{Event, Ledger};
use epic_view::PacketRef;

/// The event at an index, from 0.
pub fn event_at(ledger: &Ledger, index: u64) -> &Event
    requires lawful { IsLawful ledger.now.history }
    requires there { index < length ledger.now.history.events }
    ensures here { drop index ledger.now.history.events ≡ result.now ∷ drop (index + 1) ledger.now.history.events }
    ensures fits { SendFits ledger.now.history.emissions result.now }
{
    match ledger.event(index) {
        Some(event) => event,
        None => unreachable!(),
    }
}

/// The packet of an emission that is there.
pub fn packet_of(ledger: &Ledger, emission: u32) -> PacketRef<'_>
    requires { IsSome (emission_at ledger.now.history.emissions emission) }
    ensures { result ≡ packet_at ledger.now.history.emissions emission }
{
    match ledger.packet(emission) {
        Some(packet) => packet,
        None => unreachable!(),
    }
}
