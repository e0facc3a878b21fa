//! What is made of the seed.

ghost use Rattle.std.specs.Prelude.{◌≡◌, [], ◌++◌, IfOk};
ghost use Rattle.std.specs.Int.{w64, to_be_bytes};
ghost use Rattle.epic_cmac.specs.Cmac.{cmac};
ghost use Rattle.epic_gen.specs.Names.{generator_key, master_of, payload_of};

use epic_cmac::CmacState;
use std::alloc::{AllocError, Global};

/// The key under which keys, payloads and the digest of a report are made.
const GENERATOR_KEY: [u8; 16] = [0, 1, 2, 3, 4, 5, 6, 7, 8, 9, 10, 11, 12, 13, 14, 15];

/// A tag under the generator's key of a message that is still empty.
pub fn generator_tag() -> CmacState
    ensures { result ≡ record { key = generator_key; message = [] } }
{
    CmacState::start(&GENERATOR_KEY)
}

/// The tag of the seed and what follows it.
fn seed_tag(seed: u64, rest: &[u8]) -> [u8; 16]
    ensures { result ≡ cmac generator_key (to_be_bytes w64 seed ++ rest.now) }
{
    let mut state = generator_tag();
    state.update(&seed.to_be_bytes());
    state.update(rest);
    state.finish()
}

/// The master key of the AS at a place of the topology, from 0.
#[tactic(auto, unfolding(crate::specs::Names::master_of))]
pub(crate) fn master_of(seed: u64, place: u8) -> [u8; 16]
    ensures { result ≡ master_of seed place }
{
    seed_tag(seed, &[place])
}

/// What the packet with a number, from 0, carries: 8 bytes.
#[tactic(auto, unfolding(crate::specs::Names::payload_of))]
pub(crate) fn payload_of(alloc: Global, seed: u64, number: u64) -> Result<Vec<u8>, AllocError>
    ensures { IfOk result (λ payload. payload.items ≡ payload_of seed number) }
{
    let tag = seed_tag(seed, &number.to_be_bytes());
    let mut payload = Vec::new(alloc);
    payload.extend_from_slice(&tag[..8])?;
    Ok(payload)
}
