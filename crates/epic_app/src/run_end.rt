//! How a run ends behind its script.

ghost use Rattle.std.specs.Prelude.{◌≡◌, ◌*◌, ◌^◌, ◌<◌, ◌≤◌, All, IfOk, List, Some, length, nat_lt, ◌||◌};
ghost use Rattle.epic_num.specs.declared.command.Command.{Command};
ghost use Rattle.epic_text.specs.Counts.{end_line, total};
ghost use Rattle.epic_topo.specs.Network.{Network};
ghost use Rattle.epic_words.specs.Answers.{names_in};
ghost use Rattle.epic_world.specs.Stepped.{IsPossible};
ghost use Rattle.epic_app.specs.Acts as acts;
ghost use Rattle.epic_app.specs.Captures as captures;
ghost use Rattle.epic_app.specs.Doing.{showing};
ghost use Rattle.epic_app.specs.Keeping.{kept_by, kept_in};
ghost use Rattle.epic_app.specs.RunEnding.{IsBehind, IsUnshared, RunEnds};
ghost use Rattle.epic_app.specs.Taking.{spares_in};
ghost use Rattle.epic_app.specs.Writing.{Writes};

use crate::end::{End, ended};
use crate::keeping::Keeping;
use crate::policing::policers_of;
use crate::run_report::{shown, tells_alarm, write_end, write_script};
use crate::showing::Showing;
use crate::taking::Records;
use epic_feed::{FeedError, feed};
use epic_num::Command;
use epic_ports::{PortError, Sink, Store};
use epic_text::Counts;
use epic_topo::Topology;
use epic_words::RunWords;
use epic_world::World;
use std::alloc::Global;

/// Writes the last line of a run whose steps were all done, and says whether some verdict is forged
/// or collided, or some maker that was shown.
fn write_last<O: Sink>(run: &Records<'_>, out: &mut O) -> Result<bool, PortError>
    requires { total run.now.tally.counts < 2 ^ 63 }
    ensures text { Writes
        (end_line (record run.now.tally.counts { steps = captures.shown run.now.show.script run.now.world.state.steps }))
        (O.written out.old) (O.written out.new) (O.faults out.old) (O.faults out.new) result }
    ensures later { O.faults out.old ≤ O.faults out.new }
    ensures forged { IfOk result (λ forged. forged ≡
        ((nat_lt 0 run.now.tally.counts.forged || nat_lt 0 run.now.tally.counts.collided) || run.now.tally.alarm)) }
{
    let counts = Counts {
        steps: shown(run.show.script(), run.world.steps()),
        ..run.tally.counts
    };
    write_end(run.alloc, &counts, out)?;
    Ok(tells_alarm(&counts) || run.tally.alarm)
}

/// Does the records of a capture behind a script, and ends the run.
fn write_capture<'a, S: Store, O: Sink>(
    alloc: Global,
    name: &'a str,
    run: &mut Records<'_>,
    store: &mut S,
    out: &mut O,
) -> End<'a>
    requires spares { spares_in run.old name.now }
    requires steps { run.old.world.state.steps ≤ 524288 }
    requires total { total run.old.tally.counts ≤ 66 * 524288 }
    ensures { (t : Network) (commands : List Command) (u : acts.World)
        → IsBehind run.old t commands u
        (acts.world (S.contents store.old) (S.reads store.old) (S.writes store.old)
        (O.written out.old) (O.faults out.old))
        → RunEnds (Some name.entry.now) (kept_in run.old.keep) run.old.show t commands u
        (acts.world (S.contents store.new) (S.reads store.new) (S.writes store.new)
        (O.written out.new) (O.faults out.new)) result }
{
    match feed(alloc, name, run, store, out) {
        Ok(()) => ended(write_last(run, out)),
        Err(FeedError::Damaged(damage)) => End::BadCapture(damage),
        Err(FeedError::Failed) => End::ReadFault(name),
        Err(FeedError::Stopped(error)) => ended(Err(error)),
        Err(FeedError::OutOfMemory) => End::OutOfMemory,
    }
}

/// Makes the files that are written besides the output, and does the commands of a script over a topology one
/// after the other, and then those of a capture's records, if one is named. The lines of each are
/// written, and the files grow by what it tells, before the next is done.
pub fn write_run<'a, S: Store, O: Sink>(
    alloc: Global,
    topo: Topology,
    commands: &[Command],
    words: &RunWords<'a>,
    store: &mut S,
    out: &mut O,
) -> End<'a>
    requires possible { All IsPossible commands.now }
    requires few { length commands.now ≤ 524288 }
    requires unshared { IsUnshared (names_in words.now) }
    ensures { RunEnds (names_in words.now).capture (kept_by (names_in words.now))
        (showing (names_in words.now) (length commands.now)) topo commands.now
        (acts.world (S.contents store.old) (S.reads store.old) (S.writes store.old)
        (O.written out.old) (O.faults out.old))
        (acts.world (S.contents store.new) (S.reads store.new) (S.writes store.new)
        (O.written out.new) (O.faults out.new))
        result }
{
    let script = commands.len() as u32;
    let show = Showing::new(script, words.makers, words.police);
    let Ok(mut police) = policers_of(alloc, &topo, words.police) else {
        return End::OutOfMemory;
    };
    let keep = Keeping {
        save: words.save,
        ledger: words.ledger,
        verdicts: words.verdicts,
    };
    let mut world = World::new(alloc, topo);
    let tally = match write_script(
        alloc,
        &mut world,
        &mut police,
        &show,
        commands,
        &keep,
        store,
        out,
    ) {
        Ok(tally) => tally,
        Err(error) => return ended(Err(error)),
    };
    let mut run = Records {
        alloc,
        world,
        police,
        tally,
        show,
        keep,
    };
    match words.capture {
        Some(name) => write_capture(alloc, name, &mut run, store, out),
        None => ended(write_last(&run, out)),
    }
}
