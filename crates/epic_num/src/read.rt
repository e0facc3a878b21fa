//! Reads the texts of ASes, hosts and numbers.

ghost use Rattle.std.specs.Prelude.{◌≡◌, ◌^◌, ◌<◌, ◌≤◌, length, IfOk, IfErr, Some};
ghost use Rattle.epic_num.specs.Names.{as_from, as_of, host_from, host_of, number_within};
ghost use Rattle.epic_num.specs.Spellings.{IsMisspelt};

use crate::read_numeral::numeral;
use crate::read_parts::{as_number, host};
use crate::{AsId, HostId, Spelling};

/// Reads an AS, as `1-4711` or `1-ff00:0:112`: its isolation domain and its number there, neither of them 0. The number is
/// written in decimal digits below 2^32, and from there on as three groups of lower-case hexadecimal digits.
pub fn read_as(text: &[u8]) -> Result<AsId, Spelling>
    requires { length text.now < 2 ^ 32 }
    ensures ok { IfOk result (λ a. as_of text.now ≡ Some a.0) }
    ensures err { IfErr result (λ s. IsMisspelt as_of text.now s.at) }
{
    match as_number(text, 1) {
        Ok(a) => Ok(AsId(a)),
        Err(at) => Err(Spelling { at: at as u32 }),
    }
}

/// Reads an AS as `read_as` does, but of any number: isolation domain and number may be 0. So each AS that a packet can
/// tell of is read from its text.
pub fn read_any_as(text: &[u8]) -> Result<AsId, Spelling>
    requires { length text.now < 2 ^ 32 }
    ensures ok { IfOk result (λ a. as_from 0 text.now ≡ Some a.0) }
    ensures err { IfErr result (λ s. IsMisspelt (as_from 0) text.now s.at) }
{
    match as_number(text, 0) {
        Ok(a) => Ok(AsId(a)),
        Err(at) => Err(Spelling { at: at as u32 }),
    }
}

/// Reads a host, as `1-ff00:0:112,7`: its AS, as `read_as`, and its number there, below 2^32.
pub fn read_host(text: &[u8]) -> Result<HostId, Spelling>
    requires { length text.now < 2 ^ 32 }
    ensures ok { IfOk result (λ h. host_of text.now ≡ Some h) }
    ensures err { IfErr result (λ s. IsMisspelt host_of text.now s.at) }
{
    match host(text, 1) {
        Ok(host) => Ok(host),
        Err(at) => Err(Spelling { at: at as u32 }),
    }
}

/// Reads a host as `read_host` does, but of any AS, as `read_any_as`.
pub fn read_any_host(text: &[u8]) -> Result<HostId, Spelling>
    requires { length text.now < 2 ^ 32 }
    ensures ok { IfOk result (λ h. host_from 0 text.now ≡ Some h) }
    ensures err { IfErr result (λ s. IsMisspelt (host_from 0) text.now s.at) }
{
    match host(text, 0) {
        Ok(host) => Ok(host),
        Err(at) => Err(Spelling { at: at as u32 }),
    }
}

/// Reads a decimal number of at most `most`, without a sign and without a leading zero.
pub fn read_number(text: &[u8], most: u64) -> Result<u64, Spelling>
    requires { length text.now < 2 ^ 32 }
    ensures ok { IfOk result (λ n. number_within most text.now ≡ Some n) }
    ensures err { IfErr result (λ s. IsMisspelt (number_within most) text.now s.at) }
{
    match numeral(text, 10, 0, most) {
        Ok(n) => Ok(n),
        Err(at) => Err(Spelling { at: at as u32 }),
    }
}

#[cfg(test)]
mod tests;
