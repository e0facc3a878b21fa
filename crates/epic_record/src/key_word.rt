//! The name of a key, as a word of a verdict file.

ghost use Rattle.std.specs.Prelude.{◌≡◌, ◌≤◌, length, map, take, IfOk};
ghost use Rattle.std.specs.List.{All, slice_split};
ghost use Rattle.epic_num.specs.Names.{as_from, number_within};
ghost use Rattle.epic_text.specs.RunScript.{as_named, is_comma, most32, most64};
ghost use Rattle.epic_text.specs.Script.{IsShort};
ghost use Rattle.epic_record.specs.VerdictWords.{dest_named, field_key, field_named, fwd_named, host_in, key_named, key_of, over_key_named};
ghost use Rattle.epic_record.specs.Words.{IsWord};

use crate::fault::LineError;
use crate::word::bad;
use epic_num::{AsId, HostId, KeyName, read_any_as, read_number};
use std::alloc::{AllocError, Global};

/// An AS.
#[tactic(auto, unfolding(epic_text::specs::RunScript::as_named))]
fn as_part(text: &[u8]) -> Option<AsId>
    requires { IsShort text.now }
    ensures { result ≡ as_named text.now }
{
    epic_num::read_as(text).ok()
}

/// A number of 32 bits.
#[tactic(auto, using(epic_text::proofs::Numbers::number_most))]
fn u32_part(text: &[u8]) -> Option<u32>
    requires { IsShort text.now }
    ensures { result ≡ number_within most32 text.now }
{
    match read_number(text, u64::from(u32::MAX)) {
        Ok(n) => Some(n as u32),
        Err(_) => None,
    }
}

/// A number of 64 bits.
fn u64_part(text: &[u8]) -> Option<u64>
    requires { IsShort text.now }
    ensures { result ≡ number_within most64 text.now }
{
    read_number(text, u64::MAX).ok()
}

/// A host by the texts of its AS and its number.
fn host_parts(asn: &[u8], number: &[u8]) -> Option<HostId>
    requires asn { IsShort asn.now }
    requires number { IsShort number.now }
    ensures { result ≡ host_in 1 asn.now number.now }
{
    match (epic_num::read_as(asn), u32_part(number)) {
        (Ok(asn), Some(host)) => Some(HostId { asn, host }),
        _ => None,
    }
}

/// A host of any AS by the texts of its AS and its number.
fn source_parts(asn: &[u8], number: &[u8]) -> Option<HostId>
    requires asn { IsShort asn.now }
    requires number { IsShort number.now }
    ensures { result ≡ host_in 0 asn.now number.now }
{
    match (read_any_as(asn), u32_part(number)) {
        (Ok(asn), Some(host)) => Some(HostId { asn, host }),
        _ => None,
    }
}

/// A forwarding key by the texts of its AS and its generation.
fn fwd(asn: &[u8], generation: &[u8]) -> Option<KeyName>
    requires asn { IsShort asn.now }
    requires generation { IsShort generation.now }
    ensures { result ≡ fwd_named asn.now generation.now }
{
    match (as_part(asn), u32_part(generation)) {
        (Some(a), Some(g)) => Some(KeyName::Fwd { a, g }),
        _ => None,
    }
}

/// The key that an AS shares with a source in an epoch.
fn field(asn: &[u8], src: &[u8], host: &[u8], epoch: &[u8]) -> Option<KeyName>
    requires asn { IsShort asn.now }
    requires src { IsShort src.now }
    requires host { IsShort host.now }
    requires epoch { IsShort epoch.now }
    ensures { result ≡ field_named asn.now src.now host.now epoch.now }
{
    match (as_part(asn), source_parts(src, host), u64_part(epoch)) {
        (Some(a), Some(src), Some(epoch)) => Some(KeyName::Field { a, src, epoch }),
        _ => None,
    }
}

/// The key that a destination shares with a source in an epoch.
fn dest(dst: &[u8], number: &[u8], src: &[u8], host: &[u8], epoch: &[u8]) -> Option<KeyName>
    requires dst { IsShort dst.now }
    requires number { IsShort number.now }
    requires src { IsShort src.now }
    requires host { IsShort host.now }
    requires epoch { IsShort epoch.now }
    ensures { result ≡ dest_named dst.now number.now src.now host.now epoch.now }
{
    match (
        host_parts(dst, number),
        source_parts(src, host),
        u64_part(epoch),
    ) {
        (Some(dst), Some(src), Some(epoch)) => Some(KeyName::Dest { dst, src, epoch }),
        _ => None,
    }
}

/// A key by the parts of its name.
fn key_of(parts: &[&[u8]]) -> Option<KeyName>
    requires { All (λ part. IsShort part.now) parts.now }
    ensures { result ≡ key_of (map (λ part. part.now) parts.now) }
{
    match parts {
        [kind, asn, generation] => {
            if *kind == b"fwd".as_slice() {
                fwd(asn, generation)
            } else {
                None
            }
        }
        [kind, asn, src, host, epoch] => {
            if *kind == b"field".as_slice() {
                field(asn, src, host, epoch)
            } else {
                None
            }
        }
        [kind, dst, number, src, host, epoch] => {
            if *kind == b"dest".as_slice() {
                dest(dst, number, src, host, epoch)
            } else {
                None
            }
        }
        _ => None,
    }
}

/// The first seven parts of a word, between which there are commas: no key's name has more than six.
fn first_parts<'a>(alloc: Global, text: &'a [u8]) -> Result<Vec<&'a [u8]>, AllocError>
    ensures value { IfOk result (λ v. map (λ part. part.now) v.items ≡ take 7 (slice_split is_comma text.entry.now)) }
    ensures within { IfOk result (λ v. All (λ part. length part.now ≤ length text.entry.now) v.items) }
{
    text.split(|&byte| byte == b',').take(7).collect(alloc)
}

/// The name of a key.
fn key_in(alloc: Global, text: &[u8]) -> Result<Option<KeyName>, AllocError>
    requires { IsShort text.now }
    ensures { IfOk result (λ key. key ≡ key_named text.now) }
{
    let parts = first_parts(alloc, text)?;
    Ok(key_of(&parts))
}

/// The name of a key.
pub fn read_key(alloc: Global, text: &[u8], word: u32) -> Result<KeyName, LineError>
    requires { IsShort text.now }
    ensures { IsWord word (key_named text.now) result }
{
    match key_in(alloc, text)? {
        Some(key) => Ok(key),
        None => Err(bad(word)),
    }
}

/// A key that an AS shares with a source.
fn field_key(key: KeyName) -> Option<Option<KeyName>>
    ensures { result ≡ field_key key }
{
    match key {
        KeyName::Field { .. } => Some(Some(key)),
        _ => None,
    }
}

/// The key of a field over an authenticator: none where it is the authenticator itself.
#[tactic(auto, unfolding(crate::specs::VerdictWords::over_key_named))]
pub fn read_over_key(alloc: Global, text: &[u8], word: u32) -> Result<Option<KeyName>, LineError>
    requires { IsShort text.now }
    ensures { IsWord word (over_key_named text.now) result }
{
    if text == b"sigma".as_slice() {
        return Ok(None);
    }
    let key = read_key(alloc, text, word)?;
    match field_key(key) {
        Some(key) => Ok(key),
        None => Err(bad(word)),
    }
}
