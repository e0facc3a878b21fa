//! What a whole block says.
ghost use Rattle.std.specs.Prelude.{◌≡◌, ◌≤◌, ◌<◌, ◌+◌, ◌-◌, List, ℕ, length, Result, Ok, Err, IfOk, IfSome, OnErr};
ghost use Rattle.epic_num.specs.declared.moment.TheConstants.{MAX_MOMENT};
ghost use Rattle.epic_pcapng.specs.Blocks.{least};
ghost use Rattle.epic_pcapng.specs.Grammar.{content, interface_of, section_of, with_packet, without_record};
ghost use Rattle.epic_pcapng.specs.Packets.{packet_at};
ghost use Rattle.epic_pcapng.specs.Steps.{stepped, IsThere};

use crate::NgError;
use crate::NgKind::{LinkType, TooMany, VersionNumber};
use crate::block::{Head, Kind};
use crate::damage::damage;
use crate::interfaces::{Interface, MOST_INTERFACES};
use crate::options::{options, units_of};
use crate::packet::{Found, Packet, enhanced, packet_at, simple};
use crate::section::Section;
use epic_capture::{u16_of, u32_of};

/// Packets begin with a pseudo-header: DLT_USER0.
const LINK_TYPE: u16 = 147;

/// Begins a section.
fn begin_section(
    section: &mut Section,
    begin: u64,
    head: &Head,
    block: &[u8],
) -> Result<Option<Found>, NgError>
    requires few { begin ≤ 67108864 }
    requires long { 28 ≤ length block.now }
    ensures value { without_record (section_of section.old begin head.now block.now) ≡ stepped result section.new block.now }
    ensures there { IsThere result block.now }
    ensures moment { IfOk result (λ found. IfSome found (λ f. f.moment ≤ MAX_MOMENT)) }
    ensures err { OnErr result (section.new ≡ section.old) }
{
    if u16_of(head.order, &block[12..]) != 1 {
        return Err(damage(VersionNumber, begin + 12));
    }
    section.order = head.order;
    section.interfaces.clear();
    Ok(None)
}

/// Adds an interface to its section.
fn add_interface(section: &mut Section, begin: u64, block: &[u8]) -> Result<Option<Found>, NgError>
    requires few { begin ≤ 67108864 }
    requires long { 20 ≤ length block.now }
    requires short { length block.now ≤ 65536 }
    ensures value { without_record (interface_of section.old begin block.now) ≡ stepped result section.new block.now }
    ensures there { IsThere result block.now }
    ensures moment { IfOk result (λ found. IfSome found (λ f. f.moment ≤ MAX_MOMENT)) }
    ensures err { OnErr result (section.new ≡ section.old) }
{
    if u16_of(section.order, &block[8..]) != LINK_TYPE {
        return Err(damage(LinkType, begin + 8));
    }
    let resolved = options(section.order, begin + 16, &block[16..block.len() - 4])?;
    let units = units_of(resolved)?;
    if section.interfaces.len() >= MOST_INTERFACES {
        return Err(damage(TooMany, begin));
    }
    let snaplen = u32_of(section.order, &block[12..]);
    section.interfaces.push(Interface { units, snaplen });
    Ok(None)
}

/// Reads the packet of a whole block at `begin`.
fn take_packet(
    section: &mut Section,
    begin: u64,
    packet: &Packet,
    block: &[u8],
) -> Result<Option<Found>, NgError>
    requires few { begin ≤ 67108864 }
    requires interface { packet.now.interface_at ≤ 64 }
    requires captured { packet.now.captured_at ≤ 64 }
    requires bytes { packet.now.bytes_at ≤ 64 }
    ensures value { with_packet section.old block.now (packet_at section.old.left begin packet.now block.now) ≡ stepped result section.new block.now }
    ensures there { IsThere result block.now }
    ensures moment { IfOk result (λ found. IfSome found (λ f. f.moment ≤ MAX_MOMENT)) }
    ensures err { OnErr result (section.new ≡ section.old) }
{
    let found = packet_at(section.left, begin, packet, block)?;
    section.left -= 1;
    Ok(Some(found))
}

/// Reads a whole block at `begin`. Where it is damaged, the section stays.
#[tactic(auto, unfolding(crate::specs::Grammar::content))]
pub(crate) fn content(
    section: &mut Section,
    begin: u64,
    head: &Head,
    block: &[u8],
) -> Result<Option<Found>, NgError>
    requires few { begin ≤ 67108864 }
    requires long { least head.now.kind ≤ length block.now }
    requires short { length block.now ≤ 65536 }
    ensures value { content section.old begin head.now block.now ≡ stepped result section.new block.now }
    ensures there { IsThere result block.now }
    ensures moment { IfOk result (λ found. IfSome found (λ f. f.moment ≤ MAX_MOMENT)) }
    ensures err { OnErr result (section.new ≡ section.old) }
{
    match head.kind {
        Kind::Other => Ok(None),
        Kind::Section => begin_section(section, begin, head, block),
        Kind::Interface => add_interface(section, begin, block),
        Kind::Simple => {
            let packet = simple(section, block);
            take_packet(section, begin, &packet, block)
        }
        Kind::Enhanced => {
            let packet = enhanced(section, block);
            take_packet(section, begin, &packet, block)
        }
    }
}
