//! The tags of hops and of their fields, under given keys.

ghost use Rattle.std.specs.Prelude.{◌≡◌, take, IsTrue};
ghost use Rattle.epic_num.specs.Levels.{is_tagged, width_of};
ghost use Rattle.epic_layout.specs.Contents.{as_field};
ghost use Rattle.epic_fields.specs.Formulas as formulas;

use epic_cmac::{CmacKey, cmac};
use epic_num::{
    Body, Field, HostId, authenticator_message, field1_message, field23_message, link_message,
    version_of,
};

/// A hop's authenticator, under the forwarding key of its AS.
#[tactic(auto, unfolding(crate::specs::Formulas::authenticator))]
pub fn authenticator(fk: &[u8; 16], body: &Body) -> [u8; 16]
    ensures { result ≡ formulas.authenticator fk.now body.now }
{
    cmac(fk, &authenticator_message(body))
}

/// A hop's link tag, under the forwarding key of its AS. The next hop of its segment carries it.
#[tactic(auto, unfolding(crate::specs::Formulas::link_tag))]
pub fn link_tag(fk: &[u8; 16], body: &Body) -> [u8; 8]
    ensures { result ≡ formulas.link_tag fk.now body.now }
{
    first_eight(&cmac(fk, &link_message(body)))
}

/// A hop's authenticator and its link tag, under a forwarding key that was made ready before. The two are made side by side, in
/// less time than one after the other.
#[tactic(auto, unfolding(crate::specs::Formulas::authenticator, crate::specs::Formulas::link_tag))]
pub fn authenticator_and_link_tag_by(key: &CmacKey, body: &Body) -> ([u8; 16], [u8; 8])
    ensures authenticator { result.0 ≡ formulas.authenticator key.now body.now }
    ensures link_tag { result.1 ≡ formulas.link_tag key.now body.now }
{
    let (sigma, link) = key.tag_both(&authenticator_message(body), key, &link_message(body));
    (sigma, first_eight(&link))
}

/// A hop's field at level 0, from the hop's authenticator.
#[tactic(auto, unfolding(crate::specs::Formulas::field0))]
pub fn field0(sigma: &[u8; 16]) -> [u8; 3]
    ensures { result ≡ formulas.field0 sigma.now }
{
    first_three(sigma)
}

/// A hop's field at level 1, under the hop's authenticator. `ts` is the packet's timestamp in microseconds, `hop` the
/// hop's index in travel order, from 0.
#[tactic(auto, unfolding(crate::specs::Formulas::field1))]
pub fn field1(sigma: &[u8; 16], ts: u64, src: HostId, hop: u8) -> [u8; 3]
    ensures { result ≡ formulas.field1 sigma.now ts src hop }
{
    first_three(&cmac(sigma, &field1_message(ts, src, hop)))
}

/// The tag of which a field of level 2 or 3 and its update are parts, under the key that the hop's AS shares with the
/// source. `first` is the packet's first byte; the others are as for `field1`.
#[tactic(auto, unfolding(crate::specs::Formulas::field23))]
pub fn field23(
    key: &[u8; 16],
    first: u8,
    ts: u64,
    src: HostId,
    hop: u8,
    sigma: &[u8; 16],
) -> [u8; 16]
    requires { IsTrue (is_tagged first) }
    ensures { result ≡ formulas.field23 key.now first ts src hop sigma.now }
{
    cmac(key, &field23_message(first, ts, src, hop, sigma))
}

/// The field that is the first part of the tag, as wide as fields are by the packet's first byte.
#[tactic(auto, unfolding(crate::specs::Formulas::field_part, epic_num::specs::Levels::width_of, epic_num::specs::Levels::version_of))]
pub fn field_part(first: u8, tag: &[u8; 16]) -> Field
    ensures bytes { result ≡ as_field (formulas.field_part first tag.now) }
    ensures width { result.width ≡ width_of first }
{
    if version_of(first) == 1 {
        narrow(first_three(tag))
    } else {
        wide([tag[0], tag[1], tag[2], tag[3], tag[4], tag[5]])
    }
}

/// The update that is the next part of the tag, as wide as fields are by the packet's first byte.
#[tactic(auto, unfolding(crate::specs::Formulas::update_part, epic_num::specs::Levels::width_of, epic_num::specs::Levels::version_of))]
pub fn update_part(first: u8, tag: &[u8; 16]) -> Field
    ensures bytes { result ≡ as_field (formulas.update_part first tag.now) }
    ensures width { result.width ≡ width_of first }
{
    if version_of(first) == 1 {
        narrow([tag[3], tag[4], tag[5]])
    } else {
        wide([tag[6], tag[7], tag[8], tag[9], tag[10], tag[11]])
    }
}

/// A field of three bytes.
#[tactic(auto, unfolding(epic_layout::specs::Contents::as_field))]
pub(crate) fn narrow(bytes: [u8; 3]) -> Field
    ensures bytes { result ≡ as_field bytes }
    ensures width { result.width ≡ 3 }
{
    Field {
        bytes: [bytes[0], bytes[1], bytes[2], 0, 0, 0],
        width: 3,
    }
}

/// A field of six bytes.
#[tactic(auto, unfolding(epic_layout::specs::Contents::as_field))]
fn wide(bytes: [u8; 6]) -> Field
    ensures bytes { result ≡ as_field bytes }
    ensures width { result.width ≡ 6 }
{
    Field { bytes, width: 6 }
}

/// The first three bytes of a tag.
fn first_three(tag: &[u8; 16]) -> [u8; 3]
    ensures { result ≡ take 3 tag.now }
{
    [tag[0], tag[1], tag[2]]
}

/// The first eight bytes of a tag.
fn first_eight(tag: &[u8; 16]) -> [u8; 8]
    ensures { result ≡ take 8 tag.now }
{
    let mut first = [0; 8];
    first.copy_from_slice(&tag[..8]);
    first
}
