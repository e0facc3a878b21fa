//! Hops that ASes issue.
ghost use Rattle.std.specs.Prelude.{◌≡◌, ◌⊎◌, ◌-◌, ◌^◌, ◌<◌, ◌≤◌, IsSome, Some, Result, Err};
ghost use Rattle.epic_num.specs.Chains.{Issue, issue_at};
ghost use Rattle.epic_beacon.specs.Store.{issues_of};
ghost use Rattle.epic_ledger.specs.Facts.{issues_in};
ghost use Rattle.epic_ledger.specs.Lawful.{FitsIssue, IsLast};
ghost use Rattle.epic_ledger.specs.declared.event.Event.TheVariants as event;
ghost use Rattle.epic_ledger.specs.OneMore.{with_event};

use crate::World;
use crate::laws::goes_on;
use epic_beacon::Beacons;
use epic_ledger::{Event, Ledger};
use epic_num::{Answer, AsId, BeaconError, OutOfMemory, Refusal};

/// Records the issue of a number, which is the next.
#[tactic(auto, unfolding(epic_ledger::specs::History::step_of))]
fn record_issue(beacons: &Beacons, ledger: &mut Ledger, step: u32, no: u32)
    requires room { 1 ≤ ledger.old.spare.events }
    requires there { IsSome (issue_at (issues_of beacons.now.beacons) no) }
    requires fits { (i : Issue) → issue_at (issues_of beacons.now.beacons) no ≡ Some i → FitsIssue (issues_in ledger.old.history.events) no i.parent }
    requires last { IsLast ledger.old.history.events step }
    ensures { (i : Issue) → issue_at (issues_of beacons.now.beacons) no ≡ Some i → ledger.new.history ≡ with_event ledger.old.history (event.Issue step no i.name i.parent) }
{
    match beacons.issue(no) {
        Some((name, parent)) => ledger.push(Event::Issue {
            step,
            no,
            name,
            parent,
        }),
        None => unreachable!(),
    }
}

impl World {
    ghost use Rattle.epic_num.specs.declared.beacon_error.BeaconError.{BeaconError};
    ghost use Rattle.epic_beacon.specs.declared.beacon.Beacon.{Beacon};
    ghost use Rattle.epic_world.specs.Stepped.{Steps};
    ghost use Rattle.epic_model.specs.Steps.{issued, next_extend, next_originate};

    // A hop isn't issued. Where memory was wanting, this is no step.
    fn not_issued(&mut self, error: BeaconError) -> Result<Answer, OutOfMemory>
        requires { self.old.state.steps < 2 ^ 30 - 1 }
        ensures step { (told : Result Beacon BeaconError) → (error ≡ BeaconError.OutOfMemory) ⊎ (told ≡ Err error) → Steps (issued self.old.state told) result self.old.state self.new.state }
        ensures network { self.new.network ≡ self.old.network }
    {
        match error {
            BeaconError::OutOfMemory => Err(OutOfMemory),
            error => Ok(self.refused(Refusal::Beacon(error))),
        }
    }

    // The AS `a` begins a chain at its interface `out`, with the expiry byte `exp`.
    #[tactic(auto, unfolding(epic_model::specs::Steps::next_originate))]
    pub(crate) fn originate(&mut self, a: AsId, out: u16, exp: u8) -> Result<Answer, OutOfMemory>
        requires { self.old.state.steps < 2 ^ 30 - 1 }
        ensures step { Steps (next_originate self.old.network self.old.state a out exp) result self.old.state self.new.state }
        ensures network { self.new.network ≡ self.old.network }
    {
        if !self.topo.has(a) {
            return Ok(self.refused(Refusal::UnknownAs(a)));
        }
        self.ledger.reserve(1, 0, 0)?;
        match self.beacons.originate(&self.topo, a, out, exp, self.moment) {
            Ok(no) => {
                goes_on(&self.topo);
                record_issue(&self.beacons, &mut self.ledger, self.steps + 1, no);
                self.steps += 1;
                Ok(Answer::Issued { no })
            }
            Err(error) => self.not_issued(error),
        }
    }

    // The AS behind the issue `parent` goes on from it, with the egress `out` and the expiry byte `exp`.
    #[tactic(auto, unfolding(epic_model::specs::Steps::next_extend))]
    pub(crate) fn extend(&mut self, parent: u32, out: u16, exp: u8) -> Result<Answer, OutOfMemory>
        requires { self.old.state.steps < 2 ^ 30 - 1 }
        ensures step { Steps (next_extend self.old.network self.old.state parent out exp) result self.old.state self.new.state }
        ensures network { self.new.network ≡ self.old.network }
    {
        self.ledger.reserve(1, 0, 0)?;
        match self
            .beacons
            .extend(&self.topo, parent, out, exp, self.moment)
        {
            Ok(no) => {
                goes_on(&self.topo);
                record_issue(&self.beacons, &mut self.ledger, self.steps + 1, no);
                self.steps += 1;
                Ok(Answer::Issued { no })
            }
            Err(error) => self.not_issued(error),
        }
    }
}
