//! Reads the parts of the texts of ASes and hosts.
ghost use Rattle.std.specs.Prelude.{◌≡◌, ◌^◌, ◌<◌, ◌≤◌, ◌==◌, length, position, IfOk, IfErr, None, Some};
ghost use Rattle.epic_num.specs.Names.{as_from, as_part_of, group_of, groups_of, host_from, isd_of, low_groups_of, small_part_of};
ghost use Rattle.epic_num.specs.Spellings.{IsMisspelt};

use crate::read_numeral::numeral;
use crate::spelling::{AS_PARTS, GROUP_VALUES, SMALL_AS_PARTS};
use crate::{AsId, HostId};

/// Reads a host of an AS whose isolation domain and number are `least` or more. An error is the length of the longest
/// front that begins a host, and likewise below.
pub(crate) fn host(text: &[u8], least: u64) -> Result<HostId, usize>
    requires { least ≤ 1 }
    ensures ok { IfOk result (λ h. host_from least text.now ≡ Some h) }
    ensures err { IfErr result (IsMisspelt (host_from least) text.now) }
{
    let Some(i) = place_of(text, b',') else {
        return Err(end_of(as_number(text, least), text.len()));
    };
    match (
        as_number(&text[..i], least),
        numeral(&text[i + 1..], 10, 0, 0xffff_ffff),
    ) {
        (Err(at), _) => Err(at),
        (Ok(_), Err(at)) => Err(i + 1 + at),
        (Ok(a), Ok(host)) => Ok(HostId {
            asn: AsId(a),
            host: host as u32,
        }),
    }
}

/// Reads an AS as a number.
pub(crate) fn as_number(text: &[u8], least: u64) -> Result<u64, usize>
    requires { least ≤ 1 }
    ensures ok { IfOk result (λ a. as_from least text.now ≡ Some a) }
    ensures err { IfErr result (IsMisspelt (as_from least) text.now) }
{
    let Some(i) = place_of(text, b'-') else {
        return Err(end_of(isd(text, least), text.len()));
    };
    match (isd(&text[..i], least), as_part(&text[i + 1..], least)) {
        (Err(at), _) => Err(at),
        (Ok(_), Err(at)) => Err(i + 1 + at),
        (Ok(isd), Ok(part)) => Ok(isd * AS_PARTS + part),
    }
}

/// Reads an isolation domain.
fn isd(text: &[u8], least: u64) -> Result<u64, usize>
    requires { least ≤ 1 }
    ensures ok { IfOk result (λ n. isd_of least text.now ≡ Some n) }
    ensures most { IfOk result (λ n. n < 2 ^ 16) }
    ensures err { IfErr result (IsMisspelt (isd_of least) text.now) }
{
    numeral(text, 10, least, 0xffff)
}

/// Reads an AS's number in its isolation domain, which has one of two forms.
fn as_part(text: &[u8], least: u64) -> Result<u64, usize>
    requires { least ≤ 1 }
    ensures ok { IfOk result (λ n. as_part_of least text.now ≡ Some n) }
    ensures most { IfOk result (λ n. n < 2 ^ 48) }
    ensures err { IfErr result (IsMisspelt (as_part_of least) text.now) }
{
    match (small_part(text, least), groups(text)) {
        (Ok(n), _) => Ok(n),
        (Err(_), Ok(n)) => Ok(n),
        (Err(at), Err(other)) => Err(at.max(other)),
    }
}

/// Reads an AS number in decimal digits.
fn small_part(text: &[u8], least: u64) -> Result<u64, usize>
    requires { least ≤ 1 }
    ensures ok { IfOk result (λ n. small_part_of least text.now ≡ Some n) }
    ensures most { IfOk result (λ n. n < 2 ^ 32) }
    ensures err { IfErr result (IsMisspelt (small_part_of least) text.now) }
{
    numeral(text, 10, least, 0xffff_ffff)
}

/// Reads an AS number of three groups.
fn groups(text: &[u8]) -> Result<u64, usize>
    ensures ok { IfOk result (λ n. groups_of text.now ≡ Some n) }
    ensures most { IfOk result (λ n. n < 2 ^ 48) }
    ensures err { IfErr result (IsMisspelt groups_of text.now) }
{
    let Some(i) = place_of(text, b':') else {
        return Err(end_of(group(text, 1), text.len()));
    };
    match (group(&text[..i], 1), low_groups(&text[i + 1..])) {
        (Err(at), _) => Err(at),
        (Ok(_), Err(at)) => Err(i + 1 + at),
        (Ok(high), Ok(low)) => Ok(high * SMALL_AS_PARTS + low),
    }
}

/// Reads the second and the third group.
fn low_groups(text: &[u8]) -> Result<u64, usize>
    ensures ok { IfOk result (λ n. low_groups_of text.now ≡ Some n) }
    ensures most { IfOk result (λ n. n < 2 ^ 32) }
    ensures err { IfErr result (IsMisspelt low_groups_of text.now) }
{
    let Some(i) = place_of(text, b':') else {
        return Err(end_of(group(text, 0), text.len()));
    };
    match (group(&text[..i], 0), group(&text[i + 1..], 0)) {
        (Err(at), _) => Err(at),
        (Ok(_), Err(at)) => Err(i + 1 + at),
        (Ok(high), Ok(low)) => Ok(high * GROUP_VALUES + low),
    }
}

/// Reads a group of at least `least`.
fn group(text: &[u8], least: u64) -> Result<u64, usize>
    requires { least ≤ 1 }
    ensures ok { IfOk result (λ n. group_of least text.now ≡ Some n) }
    ensures most { IfOk result (λ n. n < 2 ^ 16) }
    ensures err { IfErr result (IsMisspelt (group_of least) text.now) }
{
    numeral(text, 16, least, 0xffff)
}

/// The first place of the byte.
fn place_of(text: &[u8], byte: u8) -> Option<usize>
    ensures { result ≡ position (λ b. b == byte) text.now }
{
    text.iter().position(|b| *b == byte)
}

/// Where a text without a mark ends, whose part before the mark would be all of it.
fn end_of(part: Result<u64, usize>, len: usize) -> usize
    ensures ok { IfOk part (λ n. result ≡ len) }
    ensures err { IfErr part (λ at. result ≡ at) }
{
    match part {
        Ok(_) => len,
        Err(at) => at,
    }
}
