//! The words of refusals.

ghost use Rattle.std.specs.Prelude.{◌≡◌, ◌∷◌, [], codes, IfOk};
ghost use Rattle.std.specs.String.{string_bytes};
ghost use Rattle.epic_audit.specs.ForgedText.{words_text};
ghost use Rattle.epic_text.specs.Refusals as spec;

use epic_num::{AsId, BeaconError, Check, DestCheck, LayoutError, PathError, Refusal, SendError};
use std::alloc::{AllocError, Global};

/// The word of a layout fault.
#[tactic(auto, unfolding(crate::specs::Refusals::layout_word))]
fn layout_word(fault: LayoutError) -> &'static str
    ensures { result.now ≡ spec.layout_word fault }
{
    match fault {
        LayoutError::Short => "short",
        LayoutError::Version => "version",
        LayoutError::Flags => "flags",
        LayoutError::SegmentCount => "segment-count",
        LayoutError::Reserved => "reserved",
        LayoutError::HopCount => "hop-count",
        LayoutError::HeaderLength => "header-length",
        LayoutError::PayloadLength => "payload-length",
        LayoutError::CurrentHop => "current-hop",
    }
}

/// The words of bytes that are no packet.
fn layout_words(alloc: Global, fault: LayoutError) -> Result<String, AllocError>
    ensures { IfOk result (λ words. string_bytes words ≡
        words_text (codes "refused" ∷ codes "layout" ∷ spec.layout_word fault ∷ [])) }
{
    let word = layout_word(fault);
    format!(in alloc; "refused layout {word}")
}

/// A turn that a check refuses at a hop.
fn at_hop(alloc: Global, check: &str, hop: u8) -> Result<String, AllocError>
    ensures { IfOk result (λ words. string_bytes words ≡ words_text (spec.at_hop check.now hop)) }
{
    format!(in alloc; "refused {check} hop {hop}")
}

/// The same, where the check names a number besides.
fn numbered_at_hop(alloc: Global, check: &str, number: u32, hop: u8) -> Result<String, AllocError>
    ensures { IfOk result (λ words. string_bytes words ≡
        words_text (spec.numbered_at_hop check.now number hop)) }
{
    format!(in alloc; "refused {check} {number} hop {hop}")
}

/// A turn that is refused.
pub fn turn_words(alloc: Global, check: &Check, hop: u8) -> Result<String, AllocError>
    ensures { IfOk result (λ words. string_bytes words ≡
        words_text (spec.turn_words check.now hop)) }
{
    match *check {
        Check::Layout(fault) => layout_words(alloc, fault),
        Check::Ended => at_hop(alloc, "ended", hop),
        Check::WrongIngress => at_hop(alloc, "wrong-ingress", hop),
        Check::WrongSource => at_hop(alloc, "wrong-source", hop),
        Check::PathFuture => at_hop(alloc, "path-future", hop),
        Check::Expired => at_hop(alloc, "expired", hop),
        Check::Stale => at_hop(alloc, "stale", hop),
        Check::Early => at_hop(alloc, "early", hop),
        Check::BadField => at_hop(alloc, "bad-field", hop),
        Check::BadLink => at_hop(alloc, "bad-link", hop),
        Check::WrongSwitch => at_hop(alloc, "wrong-switch", hop),
        Check::NoInterface => at_hop(alloc, "no-interface", hop),
        Check::WrongDestination => at_hop(alloc, "wrong-destination", hop),
        Check::Replay { first } => numbered_at_hop(alloc, "replay", first, hop),
        Check::WindowFull { live } => numbered_at_hop(alloc, "window-full", live, hop),
    }
}

/// A refusal.
fn refused(alloc: Global, cause: &str) -> Result<String, AllocError>
    ensures { IfOk result (λ words. string_bytes words ≡ words_text (spec.refused cause.now)) }
{
    format!(in alloc; "refused {cause}")
}

/// A refusal that names a number.
fn refused_number(alloc: Global, cause: &str, number: u32) -> Result<String, AllocError>
    ensures { IfOk result (λ words. string_bytes words ≡
        words_text (spec.refused_number cause.now number)) }
{
    format!(in alloc; "refused {cause} {number}")
}

/// A refusal that names an AS.
fn refused_as(alloc: Global, cause: &str, asn: AsId) -> Result<String, AllocError>
    ensures { IfOk result (λ words. string_bytes words ≡ words_text (spec.refused_as cause.now asn)) }
{
    format!(in alloc; "refused {cause} {asn}")
}

/// An arrival that is refused.
pub fn arrival_words(alloc: Global, check: &DestCheck) -> Result<String, AllocError>
    ensures { IfOk result (λ words. string_bytes words ≡ words_text (spec.arrival_words check.now)) }
{
    match *check {
        DestCheck::Layout(fault) => layout_words(alloc, fault),
        DestCheck::WrongHost => refused(alloc, "wrong-host"),
        DestCheck::NotAtEnd => refused(alloc, "not-at-end"),
        DestCheck::Stale => refused(alloc, "stale"),
        DestCheck::Early => refused(alloc, "early"),
        DestCheck::BadDestinationField => refused(alloc, "bad-destination-field"),
        DestCheck::Replay { first } => refused_number(alloc, "replay", first),
        DestCheck::WindowFull { live } => refused_number(alloc, "window-full", live),
    }
}

/// An issue that is refused.
fn beacon_words(alloc: Global, error: &BeaconError) -> Result<String, AllocError>
    ensures { IfOk result (λ words. string_bytes words ≡ words_text (spec.beacon_words error.now)) }
{
    match *error {
        BeaconError::NotCore => refused(alloc, "not-core"),
        BeaconError::Unknown => refused(alloc, "unknown"),
        BeaconError::Ended => refused(alloc, "ended"),
        BeaconError::TooLong => refused(alloc, "too-long"),
        BeaconError::Loop(asn) => refused_as(alloc, "loop", asn),
        BeaconError::UnknownInterface => refused(alloc, "unknown-interface"),
        BeaconError::WrongKind => refused(alloc, "wrong-kind"),
        BeaconError::Expired => refused(alloc, "expired"),
        BeaconError::Duplicate(number) => refused_number(alloc, "duplicate", number),
        BeaconError::Full => refused(alloc, "full"),
        BeaconError::OutOfMemory => refused(alloc, "memory"),
    }
}

/// Segments that make no path.
fn path_error_words(alloc: Global, error: &PathError) -> Result<String, AllocError>
    ensures { IfOk result (λ words. string_bytes words ≡
        words_text (spec.path_error_words error.now)) }
{
    match *error {
        PathError::Empty => refused(alloc, "path-empty"),
        PathError::TooLong => refused(alloc, "path-too-long"),
        PathError::Unjoined { leg } => refused_number(alloc, "unjoined", u32::from(leg)),
        PathError::WrongKind => refused(alloc, "path-kind"),
    }
}

/// A packet that wasn't sent.
fn send_error_words(alloc: Global, error: &SendError) -> Result<String, AllocError>
    ensures { IfOk result (λ words. string_bytes words ≡
        words_text (spec.send_error_words error.now)) }
{
    match *error {
        SendError::WrongEnds => refused(alloc, "wrong-ends"),
        SendError::PayloadTooLong => refused(alloc, "payload-too-long"),
        SendError::Expired { hop } => refused_number(alloc, "expired", u32::from(hop)),
        SendError::NoKey(key) => {
            let owner = key.owner;
            let epoch = key.epoch;
            format!(in alloc; "refused no-key {owner} {epoch}")
        }
        SendError::OutOfMemory => refused(alloc, "memory"),
    }
}

/// A step that is refused.
#[tactic(auto, unfolding(crate::specs::Refusals::refusal_words))]
pub fn refusal_words(alloc: Global, refusal: &Refusal) -> Result<String, AllocError>
    ensures { IfOk result (λ words. string_bytes words ≡
        words_text (spec.refusal_words refusal.now)) }
{
    match refusal {
        Refusal::UnknownAs(asn) => refused_as(alloc, "unknown-as", *asn),
        Refusal::Beacon(error) => beacon_words(alloc, error),
        Refusal::TooManyPaths => refused(alloc, "too-many-paths"),
        Refusal::NoSegment(number) => refused_number(alloc, "no-segment", *number),
        Refusal::Path(error) => path_error_words(alloc, error),
        Refusal::Send(error) => send_error_words(alloc, error),
        Refusal::Full => refused(alloc, "full"),
        Refusal::UnknownEmission(emission) => refused_number(alloc, "unknown-emission", *emission),
    }
}

#[cfg(test)]
mod tests;
