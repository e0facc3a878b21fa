//! What parts of a name are worth, and the laws of their texts.
ghost use Rattle.std.specs.Prelude.{ℕ, ◌^◌, ◌<◌, ◌≤◌, decimal};
ghost use Rattle.epic_num.specs.Names.{as_from, as_text, host_from, host_text, number_within, IsFrom, IsHostFrom};
ghost use Rattle.epic_num.specs.Spellings.{HasOneSpelling};

/// How many numbers an isolation domain has for its ASes.
pub(crate) const AS_PARTS: u64 = 0x1_0000_0000_0000;

/// How many of them are written in decimal digits.
pub(crate) const SMALL_AS_PARTS: u64 = 0x1_0000_0000;

/// How many numbers a group of hexadecimal digits has.
pub(crate) const GROUP_VALUES: u64 = 0x1_0000;

/// A text isn't of its form.
#[derive(Clone, Copy, Debug, PartialEq, Eq)]
pub struct Spelling {
    /// How many bytes of the text begin some text of the form, at most.
    pub at: u32,
}

/// A law: a number has one text.
pub fn number_has_one_spelling()
    ensures { (most : ℕ) → most < 2 ^ 64 → HasOneSpelling (number_within most) (λ n. n ≤ most) decimal }
{}

/// A law: an AS whose isolation domain and number may be `least` and more has one text. With 0 that is each number of 64
/// bits; scripts and topologies read those from 1 on.
pub fn as_has_one_spelling()
    ensures { (least : ℕ) → least < 2 ^ 16 → HasOneSpelling (as_from least) (IsFrom least) as_text }
{}

/// A law: a host of such an AS has one text.
pub fn host_has_one_spelling()
    ensures { (least : ℕ) → least < 2 ^ 16 → HasOneSpelling (host_from least) (IsHostFrom least) host_text }
{}
