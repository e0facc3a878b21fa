//! When a source sends: each function tells the first refusal of its part.
ghost use Rattle.std.specs.Prelude.{◌≡◌, ◌≤◌, ◌∷◌, [], ◌++◌, length, map};
ghost use Rattle.epic_num.specs.Paths.{path_hops, path_start, path_end};
ghost use Rattle.epic_num.specs.Tables.{first_row};
ghost use Rattle.epic_keys.specs.Fetches as fetches;
ghost use Rattle.epic_keys.specs.Fetches.{is_fetched};
ghost use Rattle.epic_ends.specs.Admitting.{end_rows, key_owners, key_rows, send_rows};
ghost use Rattle.epic_ends.specs.Filling.{expired_rows};

use crate::path_parts::{hops_of, start_of};
use epic_keys::KeyStore;
use epic_layout::wire::MAX_PAYLOAD;
use epic_num::{AsId, HostId, NoKey, Path, SegHop, SendError, is_expired, is_tagged, same_as};
use epic_path::end_of;

/// The path leads elsewhere, or the payload is too long.
#[tactic(auto, unfolding(crate::specs::Admitting::end_rows))]
fn end_refusal(path: &Path, src: HostId, dst: HostId, payload: &[u8]) -> Option<SendError>
    ensures { result ≡ first_row (end_rows path.now.legs.items src dst payload.now) }
{
    if !(same_as(start_of(path), src.asn) && same_as(end_of(path), dst.asn)) {
        return Some(SendError::WrongEnds);
    }
    if payload.len() > MAX_PAYLOAD as usize {
        return Some(SendError::PayloadTooLong);
    }
    None
}

/// The first hop whose validity is over.
fn expiry_refusal(hops: &[SegHop], now: u64) -> Option<SendError>
    requires { length hops.now ≤ 32 }
    ensures { result ≡ first_row (expired_rows hops.now now) }
{
    for (j, hop) in hops.iter().enumerate() {
        if is_expired(hop.body.ts_path, hop.body.exp, now) {
            return Some(SendError::Expired { hop: j as u8 });
        }
    }
    None
}

/// The keys of an AS aren't known.
#[tactic(auto, unfolding(crate::specs::Admitting::key_rows))]
fn owner_refusal(keys: &KeyStore, source: AsId, owner: AsId, epoch: u64) -> Option<SendError>
    ensures { result ≡ first_row (key_rows (λ a. fetches.is_known (is_fetched keys.now) (record { source = source; owner = a; epoch = epoch })) epoch (owner ∷ [])) }
{
    if keys.is_known(source, owner, epoch) {
        None
    } else {
        Some(SendError::NoKey(NoKey { owner, epoch }))
    }
}

/// The first hop whose AS's keys aren't known.
fn hop_key_refusal(keys: &KeyStore, source: AsId, hops: &[SegHop], epoch: u64) -> Option<SendError>
    ensures { result ≡ first_row (key_rows (λ a. fetches.is_known (is_fetched keys.now) (record { source = source; owner = a; epoch = epoch })) epoch (map (λ h. h.asn) hops.now)) }
{
    for hop in hops {
        if let Some(refusal) = owner_refusal(keys, source, hop.asn, epoch) {
            return Some(refusal);
        }
    }
    None
}

/// The first hop whose AS's keys aren't known, and then the destination.
fn key_refusal(
    keys: &KeyStore,
    source: AsId,
    hops: &[SegHop],
    destination: AsId,
    epoch: u64,
) -> Option<SendError>
    ensures { result ≡ first_row (key_rows (λ a. fetches.is_known (is_fetched keys.now) (record { source = source; owner = a; epoch = epoch })) epoch (map (λ h. h.asn) hops.now ++ destination ∷ [])) }
{
    if let Some(refusal) = hop_key_refusal(keys, source, hops, epoch) {
        return Some(refusal);
    }
    owner_refusal(keys, source, destination, epoch)
}

/// All refusals of a packet with this first byte, whose timestamp lies in this epoch.
#[tactic(auto, using(epic_num::proofs::TableLaws::tables), unfolding(crate::specs::Admitting::send_rows))]
pub fn refusal(
    keys: &KeyStore,
    path: &Path,
    first: u8,
    src: HostId,
    dst: HostId,
    payload: &[u8],
    now: u64,
    epoch: u64,
) -> Option<SendError>
    ensures { result ≡ first_row (send_rows (λ a. fetches.is_known (is_fetched keys.now) (record { source = src.asn; owner = a; epoch = epoch })) epoch path.now.legs.items first src dst payload.now now) }
{
    if let Some(refusal) = end_refusal(path, src, dst, payload) {
        return Some(refusal);
    }
    let all = hops_of(path);
    let hops = all.as_slice();
    if let Some(refusal) = expiry_refusal(hops, now) {
        return Some(refusal);
    }
    if is_tagged(first) {
        key_refusal(keys, src.asn, hops, dst.asn, epoch)
    } else {
        None
    }
}
