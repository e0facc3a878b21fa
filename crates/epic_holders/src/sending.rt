//! What a packet's source sent.
ghost use Rattle.std.specs.Prelude.{◌≡◌};
ghost use Rattle.epic_num.specs.Chains.{name_of};
ghost use Rattle.epic_ledger.specs.Facts.{facts_of};
ghost use Rattle.epic_ledger.specs.Lawful.{IsLawful};
ghost use Rattle.epic_holders.specs.Found as found;

use epic_ledger::Ledger;
use epic_num::HopName;
use epic_view::PacketRef;

/// The number of an emission, where its packet is there and has the first byte of this one.
fn if_like(number: u32, sent: Option<PacketRef<'_>>, packet: &PacketRef<'_>) -> Option<u32>
    ensures { result ≡ found.if_like packet.now number sent.entry }
{
    match sent {
        Some(sent) if sent.first_byte() == packet.first_byte() => Some(number),
        _ => None,
    }
}

/// The emission of the packet that the packet's source sent with its timestamp, where it has the packet's first byte.
fn sent_like(ledger: &Ledger, packet: &PacketRef<'_>) -> Option<u32>
    requires { IsLawful ledger.now.history }
    ensures { result ≡ found.sent_like (facts_of ledger.now.history) packet.now }
{
    match ledger.send_of(packet.src(), packet.ts()) {
        Some(number) => if_like(number, ledger.packet(number), packet),
        None => None,
    }
}

/// The name of the issue of a number.
#[tactic(auto, unfolding(epic_num::specs::Chains::name_of))]
fn issue_name(ledger: &Ledger, number: u32) -> Option<HopName>
    ensures { result ≡ name_of (facts_of ledger.now.history).issues number }
{
    match ledger.issue(number) {
        Some((name, _)) => Some(name),
        None => None,
    }
}

/// The name of the packet that the source sent with this timestamp, at a hop.
fn name_sent(ledger: &Ledger, packet: &PacketRef<'_>, hop: u8) -> Option<HopName>
    ensures { result ≡ found.name_sent (facts_of ledger.now.history) packet.now hop }
{
    match ledger.send_hop(packet.src(), packet.ts(), hop) {
        Some(number) => issue_name(ledger, number),
        None => None,
    }
}

/// The emission of the packet that the packet's source sent with its first byte and timestamp, and the name of its hop.
#[tactic(auto, unfolding(crate::specs::Found::sent_hop))]
pub fn sent_hop(ledger: &Ledger, packet: &PacketRef<'_>, hop: u8) -> Option<(u32, HopName)>
    requires { IsLawful ledger.now.history }
    ensures { result ≡ found.sent_hop (facts_of ledger.now.history) packet.now hop }
{
    let emission = sent_like(ledger, packet)?;
    match name_sent(ledger, packet, hop) {
        Some(name) => Some((emission, name)),
        None => None,
    }
}
