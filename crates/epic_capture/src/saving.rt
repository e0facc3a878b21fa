//! The bytes of a saved capture: its file's header, and the header of each record.
ghost use Rattle.std.specs.Prelude.{◌≡◌, ◌≤◌};
ghost use Rattle.epic_capture.specs.Saving.{file_head, record_head};

use byteorder::{BigEndian, ByteOrder, LittleEndian};
use epic_num::Place;

/// The header of a saved capture's file.
#[tactic(auto, unfolding(crate::specs::Saving::file_head))]
pub fn file_head() -> [u8; 24]
    ensures { result ≡ file_head }
{
    [
        0xd4, 0xc3, 0xb2, 0xa1, 2, 0, 4, 0, 0, 0, 0, 0, 0, 0, 0, 0, 0xff, 0xff, 0, 0, 147, 0, 0, 0,
    ]
}

/// The header and the pseudo-header of a record of a packet of `len` bytes at `moment`, in microseconds, due at `place`. The packet follows.
#[tactic(auto, unfolding(crate::specs::Saving::record_head))]
pub fn record_head(moment: u64, place: &Place, len: u32) -> [u8; 32]
    requires moment { moment ≤ 4294967295999999 }
    requires len { len ≤ 16368 }
    ensures { result ≡ record_head moment place.now len }
{
    let mut bytes = [0; 32];
    LittleEndian::write_u32(&mut bytes, (moment / 1_000_000) as u32);
    LittleEndian::write_u32(&mut bytes[4..], (moment % 1_000_000) as u32);
    LittleEndian::write_u32(&mut bytes[8..], 16 + len);
    LittleEndian::write_u32(&mut bytes[12..], 16 + len);
    match *place {
        Place::Router { asn, iface } => {
            BigEndian::write_u64(&mut bytes[16..], asn.0);
            BigEndian::write_u16(&mut bytes[26..], iface);
        }
        Place::Host(host) => {
            BigEndian::write_u64(&mut bytes[16..], host.asn.0);
            bytes[24] = 1;
            BigEndian::write_u32(&mut bytes[28..], host.host);
        }
    }
    bytes
}
