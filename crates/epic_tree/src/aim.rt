//! What is sought among places.
ghost use Rattle.std.specs.Prelude.{◌≡◌, ℕ};
ghost use Rattle.std.specs.declared.cmp.Ordering.{Ordering};

use std::cmp::Ordering;

/// Something that is sought among places, which are numbered from 0. It says on which side of each it
/// stands, and has a tag: 32 bits that are compared with the tag of a place before the place itself is
/// looked at.
pub trait Aim {
    /// Whether it can be held against a place.
    ghost knows: { Self → ℕ → Type 0 };

    /// On which side of a place it stands.
    ghost side: { Self → ℕ → Ordering };

    /// Its tag.
    ghost tag: { Self → ℕ };

    /// On which side of a place it stands.
    fn side(&self, at: u32) -> Ordering
        requires { knows self.now at }
        ensures { result ≡ side self.now at };

    /// Its tag.
    fn tag(&self) -> u32
        ensures { result ≡ tag self.now };
}
