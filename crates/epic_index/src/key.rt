//! What rows are sought by.
ghost use Rattle.std.specs.Prelude.{◌≡◌, ℕ};
ghost use Rattle.epic_tree.specs.Index.{IsTagOf};

/// A key of rows. It has a tag: 32 bits of it, which are compared before the whole key is.
pub trait Key: Ord + Copy {
    /// Its tag.
    ghost tag: { Self → ℕ };

    /// Its tag.
    fn tag(&self) -> u32
        ensures { result ≡ tag self.now };

    /// Equal keys have one tag.
    ghost tagged: { IsTagOf Self.cmp tag };
}
