//! Parts of a packet's bytes, read where they lie.
ghost use Rattle.std.specs.Prelude.{◌≡◌, ◌+◌, ◌≤◌, length};
ghost use Rattle.std.specs.Int.{w16, w32, w64};
ghost use Rattle.epic_layout.specs.Pieces.{piece, number};
ghost use Rattle.epic_layout.specs.Contents.{segment_offset};
ghost use Rattle.epic_layout.specs.Layout.{segment_at};
ghost use Rattle.epic_layout.specs.Layout as layout;

use crate::wire::{
    HOP_INN_AT, HOP_LEN, HOP_LINK_AT, HOP_OUT_AT, SEGMENT_COUNT_AT, SEGMENT_LEN, SEGMENT_TS_AT,
    segment_start,
};
use crate::{HopHead, SegmentHead};
use epic_num::{AsId, HostId};

/// The `N` bytes from `at` on.
pub fn bytes_at<const N: usize>(bytes: &[u8], at: usize) -> [u8; N]
    requires { at + N ≤ length bytes.now }
    ensures { result ≡ piece bytes.now at N }
{
    let mut part = [0; N];
    part.copy_from_slice(&bytes[at..at + N]);
    part
}

/// The big-endian number of 16 bits from `at` on.
#[tactic(auto, unfolding(crate::specs::Pieces::number))]
pub fn u16_at(bytes: &[u8], at: usize) -> u16
    requires { at + 2 ≤ length bytes.now }
    ensures { result ≡ number w16 bytes.now at }
{
    u16::from_be_bytes(bytes_at(bytes, at))
}

/// The big-endian number of 32 bits from `at` on.
#[tactic(auto, unfolding(crate::specs::Pieces::number))]
pub fn u32_at(bytes: &[u8], at: usize) -> u32
    requires { at + 4 ≤ length bytes.now }
    ensures { result ≡ number w32 bytes.now at }
{
    u32::from_be_bytes(bytes_at(bytes, at))
}

/// The big-endian number of 64 bits from `at` on.
#[tactic(auto, unfolding(crate::specs::Pieces::number))]
pub fn u64_at(bytes: &[u8], at: usize) -> u64
    requires { at + 8 ≤ length bytes.now }
    ensures { result ≡ number w64 bytes.now at }
{
    u64::from_be_bytes(bytes_at(bytes, at))
}

/// A host: its AS at one place, its number at another.
pub fn host_at(bytes: &[u8], asn: usize, number: usize) -> HostId
    requires asn { asn + 8 ≤ length bytes.now }
    requires number { number + 4 ≤ length bytes.now }
    ensures { result ≡ layout.host_at bytes.now asn number }
{
    HostId {
        asn: AsId(u64_at(bytes, asn)),
        host: u32_at(bytes, number),
    }
}

/// The header of segment `i`, from 0.
#[tactic(auto, unfolding(crate::specs::Layout::segment_at))]
pub fn segment_head_at(bytes: &[u8], i: u8) -> SegmentHead
    requires { segment_offset i + SEGMENT_LEN ≤ length bytes.now }
    ensures { result ≡ segment_at bytes.now i }
{
    let at = segment_start(i);
    SegmentHead {
        against: bytes[at] == 1,
        count: bytes[at + SEGMENT_COUNT_AT],
        ts_path: u32_at(bytes, at + SEGMENT_TS_AT),
    }
}

/// The hop that begins at `at`.
#[tactic(auto, unfolding(crate::specs::Layout::hop_head_at))]
pub fn hop_head_at(bytes: &[u8], at: usize) -> HopHead
    requires { at + HOP_LEN ≤ length bytes.now }
    ensures { result ≡ layout.hop_head_at bytes.now at }
{
    HopHead {
        exp: bytes[at],
        inn: u16_at(bytes, at + HOP_INN_AT),
        out: u16_at(bytes, at + HOP_OUT_AT),
        link: bytes_at(bytes, at + HOP_LINK_AT),
    }
}
