//! Accepted hops by their packets, indexes, ASes and authenticators.
ghost use Rattle.std.specs.Prelude.{◌≡◌, ◌≤◌, IsTrue};
ghost use Rattle.epic_topo.specs.Network.{has};
ghost use Rattle.epic_index.specs.Happened.{IsThere};
ghost use Rattle.epic_index.specs.Numbered.{with_keys};
ghost use Rattle.epic_index.specs.Passes.{pass_key, pass_rows};
ghost use Rattle.epic_index.specs.Tags.{first_alike};
ghost use Rattle.epic_index.specs.Twins.{HasKnownAs};

use crate::event_rows::EventRows;
use crate::happened::packet_of;
use crate::key::Key;
use epic_fields::sigma;
use epic_ledger::{Event, Ledger};
use epic_num::HopName;
use epic_topo::Topology;
use epic_view::PacketRef;

/// What an accepted hop is sought by: the packet's timestamp, source and first byte, the hop's index, its AS, and its
/// authenticator.
#[derive(Clone, Copy, PartialEq, Eq, PartialOrd, Ord)]
pub struct PassKey {
    pub ts: u64,
    pub source: u64,
    pub host: u32,
    pub first: u8,
    pub hop: u8,
    pub asn: u64,
    pub sigma: [u8; 16],
}

impl Key for PassKey {
    ghost use Rattle.std.specs.Prelude.{◌%◌, ◌^◌};

    ghost tag = { λ k. k.ts % 2 ^ 32 };

    ghost tagged = { λ y z e. first_alike y.ts z.ts _ e };

    fn tag(&self) -> u32 {
        (self.ts % 0x1_0000_0000) as u32
    }
}

/// What a hop of this name of a packet is sought by.
#[tactic(auto, unfolding(crate::specs::Passes::pass_key))]
pub fn key_of(topo: &Topology, packet: &PacketRef<'_>, hop: u8, x: &HopName) -> PassKey
    requires { IsTrue (has topo.now x.now.asn) }
    ensures { result ≡ pass_key topo.now packet.now hop x.now }
{
    let src = packet.src();
    PassKey {
        ts: packet.ts(),
        source: src.asn.0,
        host: src.host,
        first: packet.first_byte(),
        hop,
        asn: x.asn.0,
        sigma: sigma(topo, x),
    }
}

/// Adds the hop that was accepted by the event of a number, if one was.
#[tactic(auto, unfolding(crate::specs::Passes::pass_rows, epic_ledger::specs::Facts::as_pass, epic_ledger::specs::Facts::pass_name))]
pub fn add_pass(
    passes: &mut EventRows<PassKey>,
    topo: &Topology,
    ledger: &Ledger,
    event: &Event,
    number: u32,
)
    requires room { 1 ≤ passes.old.spare }
    requires known { HasKnownAs topo.now event.now }
    requires there { IsThere ledger.now.history.emissions event.now }
    ensures { passes.new.rows ≡ with_keys passes.old.rows number (pass_rows topo.now ledger.now.history.emissions event.now) }
{
    if let Event::Pass {
        a,
        hop,
        generation,
        emission,
        ..
    } = event
    {
        let packet = packet_of(ledger, *emission);
        let name = HopName {
            asn: *a,
            generation: *generation,
            body: packet.body(*hop),
        };
        passes.push(key_of(topo, &packet, *hop, &name), number);
    }
}
