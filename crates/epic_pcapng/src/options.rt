//! The options of an interface, of which one tells its resolution.
ghost use Rattle.std.specs.Prelude.{◌≡◌, ◌<◌, ◌+◌, ◌^◌, length, IfOk};
ghost use Rattle.epic_pcapng.specs.Options.{padded, option_at, options, units_of};

use crate::NgError;
use crate::NgKind::{Bad, Resolution};
use crate::block::behind;
use crate::damage::damage;
use epic_capture::{Order, u16_of};

/// The value of a resolution, and its place in the file.
#[derive(Clone, Copy, Debug, PartialEq, Eq)]
pub struct Resolved {
    pub value: u8,
    pub offset: u64,
}

/// One option at the front of the bytes.
#[derive(Clone, Copy, Debug, PartialEq, Eq)]
pub enum Opt {
    /// No further option is there.
    Last,
    /// Another option, of so many bytes.
    Other(usize),
    /// A resolution. It has 8 bytes.
    Resolution(Resolved),
}

/// The code of a resolution.
const RESOLUTION: u16 = 9;

/// The bytes of an option with a value of `len` bytes.
fn padded(len: u16) -> usize
    ensures { result ≡ padded len }
{
    4 + (len as usize + 3) / 4 * 4
}

/// The option at the front of the bytes, at `offset` in the file.
#[tactic(auto, unfolding(crate::specs::Options::option_at))]
fn option_at(order: Order, offset: u64, bytes: &[u8]) -> Result<Opt, NgError>
    requires { offset < 2 ^ 62 }
    ensures { result ≡ option_at order offset bytes.now }
{
    if bytes.is_empty() {
        return Ok(Opt::Last);
    }
    if bytes.len() < 4 {
        return Err(damage(Bad, offset));
    }
    let code = u16_of(order, bytes);
    let len = u16_of(order, &bytes[2..]);
    if code == 0 {
        return Ok(Opt::Last);
    }
    if bytes.len() < padded(len) {
        return Err(damage(Bad, offset));
    }
    if code != RESOLUTION {
        return Ok(Opt::Other(padded(len)));
    }
    if len != 1 {
        return Err(damage(Bad, offset));
    }
    Ok(Opt::Resolution(Resolved {
        value: bytes[4],
        offset: offset + 4,
    }))
}

/// The last resolution among the options, which begin at `offset` in the file.
pub(crate) fn options(order: Order, offset: u64, bytes: &[u8]) -> Result<Option<Resolved>, NgError>
    requires { offset + length bytes.now < 2 ^ 62 }
    ensures { result ≡ options order offset bytes.now }
{
    let mut rest = bytes;
    let mut at = offset;
    let mut last = None;
    for _ in 0..bytes.len() {
        match option_at(order, at, rest)? {
            Opt::Last => return Ok(last),
            Opt::Other(len) => {
                rest = behind(rest, len);
                at += len as u64;
            }
            Opt::Resolution(resolved) => {
                last = Some(resolved);
                rest = behind(rest, 8);
                at += 8;
            }
        }
    }
    Ok(last)
}

/// How many units of time a second has, by the last resolution.
#[tactic(auto, unfolding(crate::specs::Options::units_of))]
pub(crate) fn units_of(resolved: Option<Resolved>) -> Result<u64, NgError>
    ensures value { result ≡ units_of resolved }
    ensures some { IfOk result (λ units. 0 < units) }
{
    let Some(resolved) = resolved else {
        return Ok(1_000_000);
    };
    let value = u32::from(resolved.value);
    if value < 128 {
        if value > 12 {
            return Err(damage(Resolution, resolved.offset));
        }
        return Ok(10u64.pow(value));
    }
    if value > 191 {
        return Err(damage(Resolution, resolved.offset));
    }
    Ok(2u64.pow(value - 128))
}
