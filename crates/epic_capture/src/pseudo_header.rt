//! The 16 bytes before a captured packet, which say where it is due.
ghost use Rattle.std.specs.Prelude.{◌≡◌, ◌≤◌, length};
ghost use Rattle.epic_capture.specs.PseudoHeader.{place_of};

use byteorder::{BigEndian, ByteOrder};
use epic_num::{AsId, HostId, Place};

/// The place that a pseudo-header names; none where its kind is unknown or a part that has to be 0 isn't.
#[tactic(auto, unfolding(crate::specs::PseudoHeader::place_of))]
pub fn place_of(bytes: &[u8]) -> Option<Place>
    requires { 16 ≤ length bytes.now }
    ensures { result ≡ place_of bytes.now }
{
    let asn = AsId(BigEndian::read_u64(bytes));
    let kind = bytes[8];
    let iface = BigEndian::read_u16(&bytes[10..]);
    let host = BigEndian::read_u32(&bytes[12..]);
    if bytes[9] != 0 {
        return None;
    }
    if kind == 0 && host == 0 {
        return Some(Place::Router { asn, iface });
    }
    if kind == 1 && iface == 0 {
        return Some(Place::Host(HostId { asn, host }));
    }
    None
}
