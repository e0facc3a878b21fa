//! A hash that nobody can foresee who doesn't know a secret seed.
ghost use Rattle.std.specs.Prelude.{◌≡◌};
ghost use Rattle.std.specs.Hash.FoldHasher as folding;

use std::hash::{BuildHasher, FoldHasher, Hasher};

/// Makes hashers that have taken in a secret seed before they take in a key.
#[derive(Clone, Copy)]
pub struct Seeded {
    start: FoldHasher,
}

impl Seeded {
    pub fn new(seed: &[u8; 16]) -> Seeded
        ensures { result.start ≡ folding.write folding.initial seed.now }
    {
        let mut start = FoldHasher::default();
        start.write(seed);
        Seeded { start }
    }
}

impl BuildHasher for Seeded {
    type Hasher = FoldHasher;

    ghost build_hasher = { λ s. s.start };

    fn build_hasher(&self) -> FoldHasher {
        self.start
    }
}
