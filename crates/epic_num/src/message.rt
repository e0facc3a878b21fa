//! What the tags of hops and the keys are made over, laid out without memory.
ghost use Rattle.std.specs.Prelude.{◌≡◌, ◌+◌, ◌≤◌, ◌++◌, length, take, drop, sum_by, flat_map, IsTrue};
ghost use Rattle.epic_num.specs.Bodies.{body_bytes};
ghost use Rattle.epic_num.specs.Levels.{is_tagged};
ghost use Rattle.epic_num.specs.Messages.{authenticator_message, link_message, field1_message, field_domain, field23_message, forwarding_message, secret_message, as_key_message, host_key_message, dest_key_message};

use crate::{AsId, Body, HostId};

// The first byte of each kind of message.
const AUTHENTICATOR: u8 = 0x01;

const LINK_TAG: u8 = 0x02;

const LEVEL_1_FIELD: u8 = 0x11;

const AS_KEY: u8 = 0x41;

const DESTINATION_KEY: u8 = 0x44;

const FORWARDING_KEY: u8 = 0x46;

const HOST_KEY: u8 = 0x48;

const SECRET_VALUE: u8 = 0x53;

/// Writes the parts one after the other. They fill the bytes.
fn fill(bytes: &mut [u8], parts: &[&[u8]])
    requires { sum_by (λ p. length p.now) parts.now ≡ length bytes.old }
    ensures { bytes.new ≡ flat_map (λ p. p.now) parts.now }
{
    let mut at = 0;
    for part in parts {
        put(bytes, at, part);
        at += part.len();
    }
}

/// Writes `part` from `at` on.
fn put(bytes: &mut [u8], at: usize, part: &[u8])
    requires { at + length part.now ≤ length bytes.old }
    ensures { bytes.new ≡ take at bytes.old ++ (part.now ++ drop (at + length part.now) bytes.old) }
{
    bytes[at..at + part.len()].copy_from_slice(part);
}

/// The parts one after the other, as many bytes as the array has.
fn joined<const N: usize>(parts: &[&[u8]]) -> [u8; N]
    requires { sum_by (λ p. length p.now) parts.now ≡ N }
    ensures { result ≡ flat_map (λ p. p.now) parts.now }
{
    let mut bytes = [0; N];
    fill(&mut bytes, parts);
    bytes
}

impl Body {
    /// The 18 bytes of the body: position, expiry, timestamp, both interfaces, link tag; numbers are big-endian.
    #[tactic(auto, unfolding(crate::specs::Bodies::body_bytes, crate::specs::BigEndian::u16_bytes, crate::specs::BigEndian::u32_bytes))]
    pub fn to_bytes(&self) -> [u8; 18]
        ensures { result ≡ body_bytes self.now }
    {
        joined(&[
            &[self.pos, self.exp],
            &self.ts_path.to_be_bytes(),
            &self.inn.to_be_bytes(),
            &self.out.to_be_bytes(),
            &self.link,
        ])
    }
}

/// What a hop's authenticator is the tag of, under the forwarding key of its AS.
#[tactic(auto, unfolding(crate::specs::Messages::authenticator_message))]
pub fn authenticator_message(body: &Body) -> [u8; 19]
    ensures { result ≡ authenticator_message body.now }
{
    joined(&[&[AUTHENTICATOR], &body.to_bytes()])
}

/// What a hop's link tag is taken from the tag of, under the forwarding key of its AS.
#[tactic(auto, unfolding(crate::specs::Messages::link_message))]
pub fn link_message(body: &Body) -> [u8; 19]
    ensures { result ≡ link_message body.now }
{
    joined(&[&[LINK_TAG], &body.to_bytes()])
}

/// What a field of level 1 is taken from the tag of, under the hop's authenticator.
/// `ts` is the packet's timestamp in microseconds, `hop` the hop's index in travel order, from 0.
#[tactic(auto, unfolding(crate::specs::Messages::field1_message, crate::specs::Messages::host_bytes, crate::specs::BigEndian::u32_bytes, crate::specs::BigEndian::u64_bytes))]
pub fn field1_message(ts: u64, src: HostId, hop: u8) -> [u8; 22]
    ensures { result ≡ field1_message ts src hop }
{
    joined(&[
        &[LEVEL_1_FIELD],
        &ts.to_be_bytes(),
        &src.asn.0.to_be_bytes(),
        &src.host.to_be_bytes(),
        &[hop],
    ])
}

/// The first byte of the message of a field of level 2 or 3, by the packet's first byte.
#[tactic(auto, unfolding(crate::specs::Messages::field_domain, crate::specs::Levels::is_tagged))]
fn field_domain(first: u8) -> u8
    requires { IsTrue (is_tagged first) }
    ensures { result ≡ field_domain first }
{
    match first {
        0xE2 => 0x12,
        0xE3 => 0x13,
        0xF2 => 0x32,
        _ => 0x33,
    }
}

/// What a field of level 2 or 3 is taken from the tag of, under the key that the hop's AS shares with the source.
/// `first` is the packet's first byte, `ts` its timestamp in microseconds, `hop` the hop's index in travel order,
/// from 0, and `sigma` the hop's authenticator.
#[tactic(auto, unfolding(crate::specs::Messages::field23_message, crate::specs::Messages::host_bytes, crate::specs::BigEndian::u32_bytes, crate::specs::BigEndian::u64_bytes))]
pub fn field23_message(first: u8, ts: u64, src: HostId, hop: u8, sigma: &[u8; 16]) -> [u8; 38]
    requires { IsTrue (is_tagged first) }
    ensures { result ≡ field23_message first ts src hop sigma.now }
{
    joined(&[
        &[field_domain(first)],
        &ts.to_be_bytes(),
        &src.asn.0.to_be_bytes(),
        &src.host.to_be_bytes(),
        &[hop],
        sigma,
    ])
}

/// What a forwarding key of this generation is the tag of, under the AS's master key.
#[tactic(auto, unfolding(crate::specs::Messages::forwarding_message, crate::specs::BigEndian::u32_bytes))]
pub fn forwarding_message(generation: u32) -> [u8; 5]
    ensures { result ≡ forwarding_message generation }
{
    joined(&[&[FORWARDING_KEY], &generation.to_be_bytes()])
}

/// What the secret value of an epoch is the tag of, under the AS's master key.
#[tactic(auto, unfolding(crate::specs::Messages::secret_message, crate::specs::BigEndian::u64_bytes))]
pub fn secret_message(epoch: u64) -> [u8; 9]
    ensures { result ≡ secret_message epoch }
{
    joined(&[&[SECRET_VALUE], &epoch.to_be_bytes()])
}

/// What the key for the AS `a` is the tag of, under a secret value.
#[tactic(auto, unfolding(crate::specs::Messages::as_key_message, crate::specs::BigEndian::u64_bytes))]
pub fn as_key_message(a: AsId) -> [u8; 9]
    ensures { result ≡ as_key_message a }
{
    joined(&[&[AS_KEY], &a.0.to_be_bytes()])
}

/// What the key for a host is the tag of, under the key for its AS. `host` is its number there.
#[tactic(auto, unfolding(crate::specs::Messages::host_key_message, crate::specs::BigEndian::u32_bytes))]
pub fn host_key_message(host: u32) -> [u8; 5]
    ensures { result ≡ host_key_message host }
{
    joined(&[&[HOST_KEY], &host.to_be_bytes()])
}

/// What the key that two hosts share is the tag of, under the key of the destination's AS for the source's.
/// `dst` and `src` are the hosts' numbers in their ASes.
#[tactic(auto, unfolding(crate::specs::Messages::dest_key_message, crate::specs::BigEndian::u32_bytes))]
pub fn dest_key_message(dst: u32, src: u32) -> [u8; 9]
    ensures { result ≡ dest_key_message dst src }
{
    joined(&[&[DESTINATION_KEY], &dst.to_be_bytes(), &src.to_be_bytes()])
}
