//! Who was revealed of those that hold a key.
ghost use Rattle.std.specs.Prelude.{◌≡◌};
ghost use Rattle.epic_num.specs.Holders.{holders};
ghost use Rattle.epic_ledger.specs.Facts.{facts_of};
ghost use Rattle.epic_audit.specs.Reveals as reveals;

use crate::reveals::least_step;
use epic_ledger::Ledger;
use epic_num::{Holder, KeyName};

/// The least step at which the keys of a holder of this key became known to all.
#[tactic(auto, unfolding(epic_num::specs::Holders::holders))]
pub fn opened_at(ledger: &Ledger, key: &KeyName) -> Option<u32>
    ensures { result ≡ reveals.least_step (facts_of ledger.now.history).reveals (holders key.now) }
{
    match *key {
        KeyName::Fwd { a, .. } => least_step(ledger, &[Holder::As(a)]),
        KeyName::Field { a, src, .. } => least_step(
            ledger,
            &[Holder::As(a), Holder::As(src.asn), Holder::Host(src)],
        ),
        KeyName::Dest { dst, src, .. } => least_step(
            ledger,
            &[
                Holder::As(dst.asn),
                Holder::Host(dst),
                Holder::As(src.asn),
                Holder::Host(src),
            ],
        ),
    }
}
