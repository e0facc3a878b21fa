//! The packet of a block.
ghost use Rattle.std.specs.Prelude.{◌≡◌, ◌≤◌, ◌<◌, ◌+◌, ℕ, length, IfSome, IfOk};
ghost use Rattle.epic_num.specs.declared.moment.TheConstants.{MAX_MOMENT};
ghost use Rattle.epic_pcapng.specs.Packets.{captured_in, moment_in, enhanced, simple, packet_at};

use crate::NgKind::{BlockLength, Moment, PseudoHeader, RecordTooLong, TooMany};
use crate::damage::damage;
use crate::interfaces::Interface;
use crate::moment::moment_of;
use crate::section::Section;
use crate::{NgError, NgKind};
use epic_capture::{MOST_CAPTURED, place_of, u32_of};
use epic_num::{MAX_MOMENT, Place};

/// The packet of a block, as it is handed out.
#[derive(Clone, Copy, Debug, PartialEq, Eq)]
pub struct Found {
    /// Microseconds.
    pub moment: u64,
    pub place: Place,
    /// Where its bytes begin in the block, and how many there are.
    pub start: usize,
    pub len: usize,
}

/// The numbers of a packet's block. Places are bytes from the block's beginning.
#[derive(Clone, Copy, Debug, PartialEq, Eq)]
pub struct Packet {
    /// Its interface isn't there.
    pub missing: bool,
    /// Where it names its interface.
    pub interface_at: u64,
    pub captured: u32,
    /// Where the captured length stands.
    pub captured_at: u64,
    /// Where the captured bytes begin.
    pub bytes_at: u32,
    /// Microseconds.
    pub moment: u128,
}

/// The numbers of an enhanced packet.
#[tactic(auto, unfolding(crate::specs::Packets::enhanced))]
pub(crate) fn enhanced(section: &Section, block: &[u8]) -> Packet
    requires { 32 ≤ length block.now }
    ensures value { result ≡ enhanced section.now block.now }
    ensures interface { result.interface_at ≤ 64 }
    ensures captured { result.captured_at ≤ 64 }
    ensures bytes { result.bytes_at ≤ 64 }
{
    let interface = section.interfaces.get(u32_of(section.order, &block[8..]));
    let high = u32_of(section.order, &block[12..]);
    let low = u32_of(section.order, &block[16..]);
    Packet {
        missing: interface.is_none(),
        interface_at: 8,
        captured: u32_of(section.order, &block[20..]),
        captured_at: 20,
        bytes_at: 28,
        moment: moment_in(interface, high, low),
    }
}

/// Microseconds, of a time in the units of an interface; 0 without one.
fn moment_in(interface: Option<Interface>, high: u32, low: u32) -> u128
    requires { IfSome interface (λ i. 0 < i.units) }
    ensures value { result ≡ moment_in interface high low }
{
    match interface {
        Some(interface) => moment_of(high, low, interface.units),
        None => 0,
    }
}

/// How many bytes of a simple packet were captured, of which `original` came.
fn captured_in(interface: Option<Interface>, original: u32) -> u32
    ensures { result ≡ captured_in interface original }
{
    match interface {
        Some(interface) => {
            if interface.snaplen == 0 || original <= interface.snaplen {
                original
            } else {
                interface.snaplen
            }
        }
        None => original,
    }
}

/// The numbers of a simple packet. It has no time of its own.
#[tactic(auto, unfolding(crate::specs::Packets::simple))]
pub(crate) fn simple(section: &Section, block: &[u8]) -> Packet
    requires { 16 ≤ length block.now }
    ensures value { result ≡ simple section.now block.now }
    ensures interface { result.interface_at ≤ 64 }
    ensures captured { result.captured_at ≤ 64 }
    ensures bytes { result.bytes_at ≤ 64 }
{
    let interface = section.interfaces.get(0);
    Packet {
        missing: interface.is_none(),
        interface_at: 0,
        captured: captured_in(interface, u32_of(section.order, &block[8..])),
        captured_at: 8,
        bytes_at: 12,
        moment: 0,
    }
}

/// The packet of a block at `begin`, or its first damage.
#[tactic(auto, unfolding(crate::specs::Packets::packet_at))]
pub(crate) fn packet_at(
    left: u32,
    begin: u64,
    packet: &Packet,
    block: &[u8],
) -> Result<Found, NgError>
    requires few { begin ≤ 67108864 }
    requires interface { packet.now.interface_at ≤ 64 }
    requires captured { packet.now.captured_at ≤ 64 }
    requires bytes { packet.now.bytes_at ≤ 64 }
    ensures value { result ≡ packet_at left begin packet.now block.now }
    ensures some { IfOk result (λ found. 0 < left) }
    ensures moment { IfOk result (λ found. found.moment ≤ MAX_MOMENT) }
    ensures there { IfOk result (λ found. found.start + found.len ≤ length block.now) }
{
    if left == 0 {
        return Err(damage(TooMany, begin));
    }
    if packet.missing {
        return Err(damage(NgKind::Interface, begin + packet.interface_at));
    }
    if packet.captured > MOST_CAPTURED {
        return Err(damage(RecordTooLong, begin + packet.captured_at));
    }
    if block.len() < packet.bytes_at as usize + packet.captured as usize + 4 {
        return Err(damage(BlockLength, begin + 4));
    }
    if packet.captured < 16 {
        return Err(damage(PseudoHeader, begin + packet.captured_at));
    }
    if packet.moment > u128::from(MAX_MOMENT) {
        return Err(damage(Moment, begin + 12));
    }
    let start = packet.bytes_at as usize;
    match place_of(&block[start..]) {
        Some(place) => Ok(Found {
            moment: packet.moment as u64,
            place,
            start: start + 16,
            len: packet.captured as usize - 16,
        }),
        None => Err(damage(PseudoHeader, begin + u64::from(packet.bytes_at))),
    }
}
