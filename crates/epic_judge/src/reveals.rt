//! Whose keys became known to all.
ghost use Rattle.std.specs.Prelude.{◌≡◌};
ghost use Rattle.epic_num.specs.Holders.{holders};
ghost use Rattle.epic_ledger.specs.Facts.{facts_of};
ghost use Rattle.epic_judging.specs.Given as given;

use epic_index::Index;
use epic_num::{Holder, KeyName};

/// Whether one of the holders was revealed at a step.
#[tactic(auto, unfolding(epic_judging::specs::Given::any_revealed_at, epic_judging::specs::Given::is_revealed_at))]
pub fn any_revealed_at(index: &Index<'_>, holders: &[Holder], step: u32) -> bool
    ensures { result ≡ given.any_revealed_at (facts_of index.now.history).reveals holders.now step }
{
    match holders {
        [] => false,
        [holder, more @ ..] => {
            index.is_revealed_at(holder, step) || any_revealed_at(index, more, step)
        }
    }
}

/// Whether none of the holders was revealed.
#[tactic(auto, unfolding(epic_judging::specs::Given::none_revealed))]
pub fn none_revealed(index: &Index<'_>, holders: &[Holder]) -> bool
    ensures { result ≡ given.none_revealed (facts_of index.now.history).reveals holders.now }
{
    match holders {
        [] => true,
        [holder, more @ ..] => !index.is_revealed(holder) && none_revealed(index, more),
    }
}

/// Whether a holder of the key was revealed at a step.
#[tactic(auto, unfolding(epic_num::specs::Holders::holders))]
pub fn key_revealed_at(index: &Index<'_>, key: &KeyName, step: u32) -> bool
    ensures { result ≡ given.any_revealed_at (facts_of index.now.history).reveals (holders key.now) step }
{
    match *key {
        KeyName::Fwd { a, .. } => any_revealed_at(index, &[Holder::As(a)], step),
        KeyName::Field { a, src, .. } => any_revealed_at(
            index,
            &[Holder::As(a), Holder::As(src.asn), Holder::Host(src)],
            step,
        ),
        KeyName::Dest { dst, src, .. } => any_revealed_at(
            index,
            &[
                Holder::As(dst.asn),
                Holder::Host(dst),
                Holder::As(src.asn),
                Holder::Host(src),
            ],
            step,
        ),
    }
}

/// Whether no holder of the key was revealed.
#[tactic(auto, unfolding(epic_num::specs::Holders::holders))]
pub fn key_unrevealed(index: &Index<'_>, key: &KeyName) -> bool
    ensures { result ≡ given.none_revealed (facts_of index.now.history).reveals (holders key.now) }
{
    match *key {
        KeyName::Fwd { a, .. } => none_revealed(index, &[Holder::As(a)]),
        KeyName::Field { a, src, .. } => none_revealed(
            index,
            &[Holder::As(a), Holder::As(src.asn), Holder::Host(src)],
        ),
        KeyName::Dest { dst, src, .. } => none_revealed(
            index,
            &[
                Holder::As(dst.asn),
                Holder::Host(dst),
                Holder::As(src.asn),
                Holder::Host(src),
            ],
        ),
    }
}
