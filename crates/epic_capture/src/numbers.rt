//! Numbers of two and four bytes, in either byte order.
ghost use Rattle.std.specs.Prelude.{◌≡◌, ◌≤◌, length};
ghost use Rattle.epic_capture.specs.Numbers.{number};

use byteorder::{BigEndian, ByteOrder, LittleEndian};

/// Which byte of a number stands first.
#[derive(Clone, Copy, Debug, PartialEq, Eq)]
pub enum Order {
    /// The lowest.
    Little,
    /// The highest.
    Big,
}

/// The number in the first two bytes.
pub fn u16_of(order: Order, bytes: &[u8]) -> u16
    requires { 2 ≤ length bytes.now }
    ensures { result ≡ number order 2 bytes.now }
{
    match order {
        Order::Little => LittleEndian::read_u16(bytes),
        Order::Big => BigEndian::read_u16(bytes),
    }
}

/// The number in the first four bytes.
pub fn u32_of(order: Order, bytes: &[u8]) -> u32
    requires { 4 ≤ length bytes.now }
    ensures { result ≡ number order 4 bytes.now }
{
    match order {
        Order::Little => LittleEndian::read_u32(bytes),
        Order::Big => BigEndian::read_u32(bytes),
    }
}
