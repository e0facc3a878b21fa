//! What can be wrong with a capture, whatever its form.

ghost use Rattle.std.specs.Prelude.{◌≡◌};
ghost use Rattle.epic_feed.specs.Damages.{classic_word, ng_word, offset_of, word_of};

use epic_capture::{CaptureError, CaptureKind};
use epic_pcapng::{NgError, NgKind};

/// The first damage of a capture.
#[derive(Clone, Copy, Debug, PartialEq, Eq)]
pub enum Damage {
    /// The capture isn't in the form of pcapng.
    Classic(CaptureError),
    /// The capture is in the form of pcapng.
    Ng(NgError),
}

/// The word of a damage in the classic form.
#[tactic(auto, unfolding(crate::specs::Damages::classic_word))]
fn classic_word(kind: CaptureKind) -> &'static str
    ensures { result.now ≡ classic_word kind }
{
    match kind {
        CaptureKind::Truncated => "truncated",
        CaptureKind::Magic => "magic",
        CaptureKind::VersionNumber => "version-number",
        CaptureKind::LinkType => "link-type",
        CaptureKind::Fraction => "fraction",
        CaptureKind::RecordTooLong => "record-too-long",
        CaptureKind::PseudoHeader => "pseudo-header",
        CaptureKind::TooMany => "too-many",
        CaptureKind::TooLong => "too-long",
    }
}

/// The word of a damage in the form of pcapng.
#[tactic(auto, unfolding(crate::specs::Damages::ng_word))]
fn ng_word(kind: NgKind) -> &'static str
    ensures { result.now ≡ ng_word kind }
{
    match kind {
        NgKind::Truncated => "truncated",
        NgKind::ByteOrder => "byte-order",
        NgKind::BlockLength => "block-length",
        NgKind::BlockTooLong => "block-too-long",
        NgKind::VersionNumber => "version-number",
        NgKind::LinkType => "link-type",
        NgKind::Bad => "option",
        NgKind::Resolution => "resolution",
        NgKind::Interface => "interface",
        NgKind::Moment => "moment",
        NgKind::RecordTooLong => "record-too-long",
        NgKind::PseudoHeader => "pseudo-header",
        NgKind::TooMany => "too-many",
        NgKind::TooLong => "too-long",
    }
}

impl Damage {
    /// The damage's word, as in `link-type`.
    pub fn word(&self) -> &'static str
        ensures { result.now ≡ word_of self.now }
    {
        match self {
            Damage::Classic(error) => classic_word(error.kind),
            Damage::Ng(error) => ng_word(error.kind),
        }
    }

    /// The place of the damage, in bytes from the file's beginning.
    pub fn offset(&self) -> u64
        ensures { result ≡ offset_of self.now }
    {
        match self {
            Damage::Classic(error) => error.offset,
            Damage::Ng(error) => error.offset,
        }
    }
}
