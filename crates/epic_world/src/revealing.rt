//! Keys that become known to all, and keys that are replaced.
ghost use Rattle.std.specs.Prelude.{◌≡◌, ◌-◌, ◌^◌, ◌<◌, true};
ghost use Rattle.epic_ledger.specs.Facts.{facts_of, reveals_in};
ghost use Rattle.epic_audit.specs.Reveals.{is_revealed};
ghost use Rattle.epic_model.specs.Steps.{as_of};

use crate::World;
use crate::laws::goes_on;
use epic_ledger::{Event, Ledger};
use epic_num::{Answer, AsId, Holder, OutOfMemory, Refusal};

/// The AS of a holder.
#[tactic(auto, unfolding(epic_model::specs::Steps::as_of))]
fn as_of(holder: Holder) -> AsId
    ensures { result ≡ as_of holder }
{
    match holder {
        Holder::As(a) => a,
        Holder::Host(host) => host.asn,
    }
}

/// Whether the holder was revealed.
#[tactic(auto, unfolding(epic_audit::specs::Reveals::is_revealed, epic_ledger::specs::Facts::facts_of))]
fn is_revealed(ledger: &Ledger, holder: Holder) -> bool
    ensures { result ≡ is_revealed (reveals_in ledger.now.history.events) holder }
{
    ledger.revealed(&holder).is_some()
}

impl World {
    ghost use Rattle.epic_world.specs.Stepped.{Steps};
    ghost use Rattle.epic_model.specs.Steps.{next_reveal, next_roll};

    // The keys of a holder become known to all.
    #[tactic(auto, unfolding(epic_model::specs::Steps::next_reveal))]
    pub(crate) fn reveal(&mut self, holder: Holder) -> Result<Answer, OutOfMemory>
        requires { self.old.state.steps < 2 ^ 30 - 1 }
        ensures step { Steps (next_reveal self.old.network self.old.state holder) result self.old.state self.new.state }
        ensures network { self.new.network ≡ self.old.network }
    {
        let a = as_of(holder);
        if !self.topo.has(a) {
            return Ok(self.refused(Refusal::UnknownAs(a)));
        }
        if is_revealed(&self.ledger, holder) {
            return Ok(self.answered(Answer::Known));
        }
        self.ledger.reserve(1, 0, 0)?;
        goes_on(&self.topo);
        self.ledger.push(Event::Reveal {
            step: self.steps + 1,
            holder,
        });
        self.steps += 1;
        Ok(Answer::Revealed)
    }

    // The AS `a` gets a new forwarding key, of the next generation.
    #[tactic(auto, unfolding(epic_model::specs::Steps::next_roll))]
    pub(crate) fn roll(&mut self, a: AsId) -> Result<Answer, OutOfMemory>
        requires { self.old.state.steps < 2 ^ 30 - 1 }
        ensures step { Steps (next_roll self.old.network self.old.state a) result self.old.state self.new.state }
        ensures network { self.new.network ≡ self.old.network }
    {
        if !self.topo.has(a) {
            return Ok(self.refused(Refusal::UnknownAs(a)));
        }
        self.ledger.reserve(1, 0, 0)?;
        match self.beacons.roll(a) {
            Ok(generation) => {
                goes_on(&self.topo);
                self.ledger.push(Event::Roll {
                    step: self.steps + 1,
                    a,
                    generation,
                });
                self.steps += 1;
                Ok(Answer::Rolled { generation })
            }
            Err(OutOfMemory) => Err(OutOfMemory),
        }
    }
}
