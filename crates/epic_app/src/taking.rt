//! The records of a capture as steps of a run.

ghost use Rattle.std.specs.Prelude.{◌≡◌, ◌-◌, ◌^◌, ◌<◌, ◌≤◌, ◌∷◌, [], OnOk, IfErr};
ghost use Rattle.epic_num.specs.declared.command.Command.TheVariants.{At};
ghost use Rattle.epic_num.specs.declared.moment.TheConstants.{MAX_MOMENT};
ghost use Rattle.epic_text.specs.Counts.{total};
ghost use Rattle.epic_world.specs.Stepped.{IsPossible};
ghost use Rattle.epic_app.specs.Acts as acts;
ghost use Rattle.epic_app.specs.Captures as captures;
ghost use Rattle.epic_app.specs.Keeping.{kept_in};
ghost use Rattle.epic_app.specs.Performing.{Works};
ghost use Rattle.epic_app.specs.Taking.{Ran, StopsIn};

use crate::keeping::Keeping;
use crate::run_report::{Tally, write_step};
use crate::showing::Showing;
use epic_capture::Record;
use epic_feed::Taker;
use epic_num::{Bytes, Command, Place};
use epic_policer::Policers;
use epic_ports::{PortError, Sink, Store};
use epic_rerun::names_fit;
use epic_world::{World, fits};
use std::alloc::Global;

/// A run behind its script, which takes the records of a capture: each is two steps, one to its
/// moment and one of its packet.
#[derive(Drop)]
pub struct Records<'a> {
    pub alloc: Global,
    pub world: World,
    /// The policers, if packets are policed.
    pub police: Option<Policers>,
    pub tally: Tally,
    pub show: Showing,
    /// The files that are written.
    pub keep: Keeping<'a>,
}

/// The command that sets the clock to a moment, in microseconds.
#[tactic(auto, unfolding(epic_world::specs::Stepped::IsPossible))]
fn at(moment: u64) -> Command
    requires { moment ≤ MAX_MOMENT }
    ensures value { result ≡ At moment }
    ensures possible { IsPossible result }
{
    Command::At { moment }
}

/// The command of a packet that comes to the place where it is due.
#[tactic(auto, unfolding(epic_world::specs::Stepped::IsPossible))]
fn due(place: Place, bytes: Bytes) -> Command
    ensures value { result ≡ captures.due place bytes }
    ensures possible { IsPossible result }
{
    match place {
        Place::Router { asn, iface } => Command::Turn {
            a: asn,
            iface,
            bytes,
        },
        Place::Host(host) => Command::Arrive { host, bytes },
    }
}

impl Records<'_> {
    /// Does a command as a step of the run.
    fn step<S: Store, O: Sink>(
        &mut self,
        command: &Command,
        store: &mut S,
        out: &mut O,
    ) -> Result<(), PortError>
        requires possible { IsPossible command.now }
        requires few { self.old.world.state.steps < 2 ^ 30 - 1 }
        requires room { total self.old.tally.counts < 2 ^ 63 }
        ensures ok { OnOk result (Ran self.old self.new (command.now ∷ [])
            (acts.world (S.contents store.old) (S.reads store.old) (S.writes store.old)
            (O.written out.old) (O.faults out.old))
            (acts.world (S.contents store.new) (S.reads store.new) (S.writes store.new)
            (O.written out.new) (O.faults out.new))) }
        ensures err { IfErr result (λ e. StopsIn self.old (command.now ∷ []) e
            (acts.world (S.contents store.old) (S.reads store.old) (S.writes store.old)
            (O.written out.old) (O.faults out.old))
            (acts.world (S.contents store.new) (S.reads store.new) (S.writes store.new)
            (O.written out.new) (O.faults out.new))) }
        ensures keep { self.new.keep ≡ self.old.keep }
        ensures works { Works (kept_in self.old.keep)
            (acts.world (S.contents store.old) (S.reads store.old) (S.writes store.old)
            (O.written out.old) (O.faults out.old))
            (acts.world (S.contents store.new) (S.reads store.new) (S.writes store.new)
            (O.written out.new) (O.faults out.new)) }
        ensures reads { S.reads store.new ≡ S.reads store.old }
    {
        fits(command);
        names_fit(command);
        match write_step(
            self.alloc,
            &mut self.world,
            &mut self.police,
            &self.show,
            command,
            self.tally,
            &self.keep,
            store,
            out,
        ) {
            Ok(tally) => {
                self.tally = tally;
                Ok(())
            }
            Err(error) => Err(error),
        }
    }
}

impl<S: Store, O: Sink> Taker<S, O> for Records<'_> {
    ghost use Rattle.std.specs.Prelude.{◌∷◌, ◌++◌, []};
    ghost use Rattle.epic_app.specs.Acts.{world};
    ghost use Rattle.epic_app.specs.Captures.{records_commands};
    ghost use Rattle.epic_app.specs.Taking.{Ran, StopsIn, room_in, spares_in};

    ghost took = { λ x s o xs y t p. Ran x y (records_commands xs)
        (world (S.contents s) (S.reads s) (S.writes s) (O.written o) (O.faults o))
        (world (S.contents t) (S.reads t) (S.writes t) (O.written p) (O.faults p)) };

    ghost stopped = { λ x s o xs c e y t p. StopsIn x (records_commands (xs ++ c ∷ [])) e
        (world (S.contents s) (S.reads s) (S.writes s) (O.written o) (O.faults o))
        (world (S.contents t) (S.reads t) (S.writes t) (O.written p) (O.faults p)) };

    ghost spares = { spares_in };

    ghost room = { room_in };

    fn take(&mut self, store: &mut S, out: &mut O, found: &Record<'_>) -> Result<(), PortError> {
        let Ok(bytes) = Vec::from_slice(self.alloc, found.bytes) else {
            return Err(PortError::OutOfMemory);
        };
        let moment = at(found.moment);
        match self.step(&moment, store, out) {
            Ok(()) => {
                let packet = due(found.place, Bytes::from_vec(bytes));
                self.step(&packet, store, out)
            }
            Err(error) => Err(error),
        }
    }
}
