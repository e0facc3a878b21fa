//! The steps of events.
ghost use Rattle.std.specs.Prelude.{◌≡◌};
ghost use Rattle.epic_ledger.specs.History.{step_of};
ghost use Rattle.epic_index.specs.Stepping.{at_step};

use epic_ledger::Event;

/// The step that an event is of.
#[tactic(auto, unfolding(epic_ledger::specs::History::step_of))]
pub fn step_of(event: &Event) -> u32
    ensures { result ≡ step_of event.now }
{
    match event {
        Event::Issue { step, .. }
        | Event::Fetch { step, .. }
        | Event::Send { step, .. }
        | Event::Pass { step, .. }
        | Event::Arrive { step, .. }
        | Event::Reveal { step, .. }
        | Event::Roll { step, .. } => *step,
    }
}

/// The event at step 0.
#[tactic(auto, unfolding(crate::specs::Stepping::at_step))]
pub fn at_start(event: Event) -> Event
    ensures { result ≡ at_step 0 event }
{
    match event {
        Event::Issue {
            no,
            name,
            parent,
            ..
        } => Event::Issue {
            step: 0,
            no,
            name,
            parent,
        },
        Event::Fetch {
            source,
            owner,
            epoch,
            ..
        } => Event::Fetch {
            step: 0,
            source,
            owner,
            epoch,
        },
        Event::Send {
            emission,
            segments,
            ..
        } => Event::Send {
            step: 0,
            emission,
            segments,
        },
        Event::Pass {
            a,
            hop,
            generation,
            emission,
            ..
        } => Event::Pass {
            step: 0,
            a,
            hop,
            generation,
            emission,
        },
        Event::Arrive {
            host,
            src,
            ts,
            hops,
            checked,
            ..
        } => Event::Arrive {
            step: 0,
            host,
            src,
            ts,
            hops,
            checked,
        },
        Event::Reveal { holder, .. } => Event::Reveal { step: 0, holder },
        Event::Roll { a, generation, .. } => Event::Roll {
            step: 0,
            a,
            generation,
        },
    }
}
