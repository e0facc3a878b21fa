//! The head of a block, and whether its end is there.
ghost use Rattle.std.specs.Prelude.{◌≡◌, ◌≤◌, ◌+◌, length, take, drop};
ghost use Rattle.epic_pcapng.specs.Blocks.{least, most, kind_of, order_of, heading, section_heading, checked, ends};

use crate::NgError;
use crate::NgKind::{BlockLength, BlockTooLong, ByteOrder, TooLong, Truncated};
use crate::damage::damage;
use epic_capture::{MOST_BYTES, Order, passes, u32_of};

/// The types of blocks that are read; all others are skipped.
#[derive(Clone, Copy, Debug, PartialEq, Eq)]
pub enum Kind {
    Section,
    Interface,
    Simple,
    Enhanced,
    Other,
}

/// The first numbers of a block.
#[derive(Clone, Copy, Debug, PartialEq, Eq)]
pub struct Head {
    pub kind: Kind,
    /// The order of its numbers.
    pub order: Order,
    /// How many bytes it has.
    pub len: u32,
}

/// The type of a section header, which reads the same in both orders.
const SECTION: u32 = 0x0a0d_0d0a;

/// The number that tells a section's byte order.
const MAGIC: u32 = 0x1a2b_3c4d;

impl Kind {
    /// How many bytes such a block has at least.
    fn least(self) -> u32
        ensures { result ≡ least self }
    {
        match self {
            Kind::Section => 28,
            Kind::Interface => 20,
            Kind::Simple => 16,
            Kind::Enhanced => 32,
            Kind::Other => 12,
        }
    }

    /// How many bytes such a block has at most.
    fn most(self) -> u32
        ensures { result ≡ most self }
    {
        match self {
            Kind::Other => 4_294_967_295,
            _ => 65_536,
        }
    }
}

/// What a block's type says, but for a section header.
fn kind_of(kind: u32) -> Kind
    ensures { result ≡ kind_of kind }
{
    match kind {
        1 => Kind::Interface,
        3 => Kind::Simple,
        6 => Kind::Enhanced,
        _ => Kind::Other,
    }
}

/// The byte order in which the magic number of a section header stands.
#[tactic(auto, unfolding(crate::specs::Blocks::order_of))]
fn order_of(bytes: &[u8]) -> Option<Order>
    requires { 4 ≤ length bytes.now }
    ensures { result ≡ order_of bytes.now }
{
    if u32_of(Order::Little, bytes) == MAGIC {
        return Some(Order::Little);
    }
    if u32_of(Order::Big, bytes) == MAGIC {
        return Some(Order::Big);
    }
    None
}

/// The head of a block at `begin` whose length is of its form.
#[tactic(auto, unfolding(crate::specs::Blocks::checked))]
fn checked(begin: u64, kind: Kind, order: Order, len: u32) -> Result<Head, NgError>
    requires { begin ≤ 67108864 }
    ensures { result ≡ checked begin kind order len }
{
    if len % 4 != 0 {
        return Err(damage(BlockLength, begin + 4));
    }
    if len < kind.least() {
        return Err(damage(BlockLength, begin + 4));
    }
    if len > kind.most() {
        return Err(damage(BlockTooLong, begin + 4));
    }
    Ok(Head { kind, order, len })
}

/// The head of a section header at `begin`, or its first damage.
#[tactic(auto, unfolding(crate::specs::Blocks::section_heading, crate::specs::Blocks::front))]
fn section_heading(begin: u64, bytes: &[u8]) -> Result<Head, NgError>
    requires long { 8 ≤ length bytes.now }
    requires few { begin ≤ 67108864 }
    ensures { result ≡ section_heading begin bytes.now }
{
    if passes(begin + 12, begin + bytes.len() as u64) {
        return Err(damage(TooLong, MOST_BYTES));
    }
    if bytes.len() < 12 {
        return Err(damage(Truncated, begin));
    }
    match order_of(&bytes[8..]) {
        Some(order) => checked(begin, Kind::Section, order, u32_of(order, &bytes[4..])),
        None => Err(damage(ByteOrder, begin + 8)),
    }
}

/// The head of the block at `begin`, from which on the file has these bytes, or its first damage.
#[tactic(auto, unfolding(crate::specs::Blocks::heading, crate::specs::Blocks::front))]
pub(crate) fn heading(order: Order, begin: u64, bytes: &[u8]) -> Result<Head, NgError>
    requires { begin ≤ 67108864 }
    ensures { result ≡ heading order begin bytes.now }
{
    if passes(begin + 8, begin + bytes.len() as u64) {
        return Err(damage(TooLong, MOST_BYTES));
    }
    if bytes.len() < 8 {
        return Err(damage(Truncated, begin));
    }
    let kind = u32_of(order, bytes);
    if kind == SECTION {
        return section_heading(begin, bytes);
    }
    checked(begin, kind_of(kind), order, u32_of(order, &bytes[4..]))
}

/// Whether the end of a block of `len` bytes at `begin` is there, of which `gone` were passed, and before which the file has
/// these bytes.
#[tactic(auto, unfolding(crate::specs::Blocks::ends, crate::specs::Blocks::front))]
pub(crate) fn ends(
    order: Order,
    begin: u64,
    len: u32,
    gone: u64,
    bytes: &[u8],
) -> Result<(), NgError>
    requires few { begin + gone ≤ 67108864 }
    requires long { 4 + gone ≤ len }
    ensures { result ≡ ends order begin len gone bytes.now }
{
    let there = gone + bytes.len() as u64;
    if passes(begin + u64::from(len), begin + there) {
        return Err(damage(TooLong, MOST_BYTES));
    }
    if there < u64::from(len) {
        return Err(damage(Truncated, begin));
    }
    let last = (u64::from(len) - 4 - gone) as usize;
    if u32_of(order, &bytes[last..]) != len {
        return Err(damage(BlockLength, begin + u64::from(len) - 4));
    }
    Ok(())
}

/// The bytes behind the first `count`.
pub(crate) fn behind(bytes: &[u8], count: usize) -> &[u8]
    requires { count ≤ length bytes.now }
    ensures { result.now ≡ drop count bytes.now }
{
    &bytes[count..]
}

/// The first `count` bytes.
pub(crate) fn front(bytes: &[u8], count: usize) -> &[u8]
    requires { count ≤ length bytes.now }
    ensures { result.now ≡ take count bytes.now }
{
    &bytes[..count]
}
