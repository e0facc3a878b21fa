//! The report of a run, step by step.

ghost use Rattle.std.specs.Prelude.{◌≡◌, ◌+◌, ◌-◌, ◌*◌, ◌^◌, ◌<◌, ◌≤◌, ◌∷◌, ◌++◌, [], All, IfOk, IfSome, List, OnOk, drop, flat_map, length, map, nat_lt, ◌||◌};
ghost use Rattle.std.specs.List.{list_any};
ghost use Rattle.epic_capture.specs.Saving.{saved_record};
ghost use Rattle.epic_ledger.specs.Facts.{facts_of};
ghost use Rattle.epic_record.specs.LedgerText.{ledger_text};
ghost use Rattle.epic_policer.specs.Policing.{Offer};
ghost use Rattle.epic_text.specs.Counts.{counts_of, end_line, total};
ghost use Rattle.epic_text.specs.Report.{IsToldAnswer, bytes_in, emission_bytes};
ghost use Rattle.epic_model.specs.State.{start};
ghost use Rattle.epic_model.specs.Steps.{next};
ghost use Rattle.epic_world.specs.Run.{Done, done_by, run, state_after};
ghost use Rattle.epic_world.specs.Stepped.{IsPossible};
ghost use Rattle.epic_app.specs.Acts as acts;
ghost use Rattle.epic_app.specs.Captures.{shown};
ghost use Rattle.epic_app.specs.Doing.{step_acts, steps_acts};
ghost use Rattle.epic_app.specs.Keeping.{kept_in};
ghost use Rattle.epic_app.specs.Noting.{all_offered, notes_after, offers_of, passes_after, shows_alarm, some_alarms};
ghost use Rattle.epic_app.specs.Performing.{Performs, Stays};
ghost use Rattle.epic_app.specs.Policed.{ArePoliced, IsNotablePass};
ghost use Rattle.epic_app.specs.RunReport.{all_verdicts, answered_text, verdicts_in};
ghost use Rattle.epic_app.specs.Saved.{as_captured};
ghost use Rattle.epic_app.specs.StepLines.{count_all};
ghost use Rattle.epic_app.specs.Telling.{AreTold, AreWithin, passes_verdicts, told_since};
ghost use Rattle.epic_app.specs.Writing.{Writes};

use crate::judging::verdict_lines;
use crate::keeping::{Added, Keeping, add_kept, open_kept};
use crate::noting::answer_notes;
use crate::saving::saved_records;
use crate::showing::Showing;
use crate::telling::{Mark, held, ledger_lines};
use crate::writing::write_text;
use epic_num::{Answer, Command, OutOfMemory, Passed, Verdict};
use epic_policer::Policers;
use epic_ports::{PortError, Sink, Store};
use epic_text::{Counts, bytes_in, counted, print_answer, print_end};
use epic_world::{World, fits};
use std::alloc::Global;

/// The number that is shown for a step, where a script has so many: behind them the two steps of a
/// record count as one.
#[tactic(auto, unfolding(crate::specs::Captures::shown))]
pub fn shown(script: u32, step: u32) -> u32
    ensures { result ≡ shown script step }
{
    step.min(script) + step.saturating_sub(script) / 2
}

/// The lines of a step, and whether a maker among them is an alarm.
#[derive(Drop)]
pub(crate) struct StepLines {
    pub(crate) text: Vec<u8>,
    pub(crate) alarm: bool,
}

/// The lines of a step that was done, after which the world is this. The packets that routers sent
/// on are offered to the policers.
pub(crate) fn step_lines(
    alloc: Global,
    world: &World,
    show: &Showing,
    police: &mut Option<Policers>,
    command: &Command,
    answer: &Answer,
) -> Result<StepLines, OutOfMemory>
    requires told { IsToldAnswer world.now.network world.now.state.history
        (bytes_in (emission_bytes world.now.state.history.emissions) command.now) answer.now }
    requires notable { All (IsNotablePass world.now.network) (passes_after command.now answer.now world.now.state) }
    ensures text { (offers : List Offer) → ArePoliced world.now.network show.now.police police.old offers world.now.state.moment
        → IfOk result (λ r. r.text.items ≡
        answered_text (shown show.now.script world.now.state.steps) world.now.network command.now answer.now
        (notes_after show.now world.now.network (shown show.now.script world.now.state.steps) offers command.now answer.now world.now.state)
        world.now.state) }
    ensures alarm { IfOk result (λ r. r.alarm
        ≡ some_alarms show.now world.now.network (facts_of world.now.state.history) (passes_after command.now answer.now world.now.state)) }
    ensures police { (offers : List Offer) → ArePoliced world.now.network show.now.police police.old offers world.now.state.moment
        → OnOk result (ArePoliced world.now.network show.now.police police.new (offers ++ all_offered world.now.state.moment (passes_after command.now answer.now world.now.state)) world.now.state.moment) }
{
    let ledger = world.ledger();
    let came = bytes_in(ledger, command);
    let number = shown(show.script(), world.steps());
    let noted = answer_notes(alloc, world, show, number, police, command, answer)?;
    let mut text = Vec::new(alloc);
    print_answer(
        &mut text,
        number,
        world.topology(),
        ledger,
        came,
        &noted.notes,
        answer,
    )?;
    Ok(StepLines {
        text,
        alarm: noted.alarm,
    })
}

/// The counts with further verdicts.
fn count_each(counts: Counts, verdicts: &[Verdict]) -> Counts
    requires few { total counts + length verdicts.now < 2 ^ 64 - 1 }
    ensures value { result ≡ count_all counts verdicts.now }
    ensures total { total result ≡ total counts + length verdicts.now }
{
    let mut counts = counts;
    for verdict in verdicts {
        counts = counted(counts, verdict);
    }
    counts
}

/// The counts with the verdicts of passes.
fn count_passes(counts: Counts, passes: &[Passed]) -> Counts
    requires few { total counts + length (flat_map (λ p. p.verdicts.items) passes.now) < 2 ^ 64 - 1 }
    ensures value { result ≡ count_all counts (flat_map (λ p. p.verdicts.items) passes.now) }
    ensures total { total result ≡ total counts + length (flat_map (λ p. p.verdicts.items) passes.now) }
{
    let mut counts = counts;
    for passed in passes {
        counts = count_each(counts, passed.verdicts.as_slice());
    }
    counts
}

/// The counts with the verdicts of an answer.
#[tactic(auto, unfolding(crate::specs::RunReport::verdicts_in, crate::specs::StepLines::count_all))]
pub(crate) fn count(counts: Counts, answer: &Answer) -> Counts
    requires few { total counts + length (verdicts_in answer.now) < 2 ^ 64 - 1 }
    ensures value { result ≡ count_all counts (verdicts_in answer.now) }
    ensures total { total result ≡ total counts + length (verdicts_in answer.now) }
{
    match answer {
        Answer::Passed(passed) => count_each(counts, passed.verdicts.as_slice()),
        Answer::Carried(passes) => count_passes(counts, passes.as_slice()),
        Answer::Moment
        | Answer::Issued { .. }
        | Answer::Fetched
        | Answer::Known
        | Answer::Paths(_)
        | Answer::Sent { .. }
        | Answer::Revealed
        | Answer::Rolled { .. }
        | Answer::Refused(_) => counts,
    }
}

/// What a step adds to the files that are kept, over the world after it. The ledger held so much
/// before.
fn step_files(
    alloc: Global,
    world: &World,
    keep: &Keeping<'_>,
    before: Mark,
    command: &Command,
    answer: &Answer,
) -> Result<Added, OutOfMemory>
    requires before { before.emissions ≤ length world.now.state.history.emissions }
    requires within { AreWithin world.now.state.history before (passes_after command.now answer.now world.now.state) }
    requires told { AreTold world.now.network (passes_after command.now answer.now world.now.state) }
    ensures saved { IfOk result (λ r. IfSome keep.now.save (λ name. r.saved.items
        ≡ flat_map saved_record (map (as_captured world.now.state.moment) (drop before.emissions world.now.state.history.emissions)))) }
    ensures ledger { IfOk result (λ r. IfSome keep.now.ledger (λ name. r.ledger.items
        ≡ ledger_text (told_since world.now.state.history before (passes_after command.now answer.now world.now.state)))) }
    ensures verdicts { IfOk result (λ r. IfSome keep.now.verdicts (λ name. r.verdicts.items
        ≡ passes_verdicts world.now.network (passes_after command.now answer.now world.now.state))) }
{
    let saved = match keep.save {
        Some(_) => saved_records(alloc, world, before.emissions)?,
        None => Vec::new(alloc),
    };
    let ledger = match keep.ledger {
        Some(_) => ledger_lines(alloc, world, before, command, answer)?,
        None => Vec::new(alloc),
    };
    let verdicts = match keep.verdicts {
        Some(_) => verdict_lines(alloc, world, command, answer)?,
        None => Vec::new(alloc),
    };
    Ok(Added {
        saved,
        ledger,
        verdicts,
    })
}

/// Does a command, writes its lines, and then adds what it tells to the files that are kept. The packets that routers sent on are offered to the policers.
pub fn write_step<S: Store, O: Sink>(
    alloc: Global,
    world: &mut World,
    police: &mut Option<Policers>,
    show: &Showing,
    command: &Command,
    tally: Tally,
    keep: &Keeping<'_>,
    store: &mut S,
    out: &mut O,
) -> Result<Tally, PortError>
    requires possible { IsPossible command.now }
    requires few { world.old.state.steps < 2 ^ 30 - 1 }
    requires room { total tally.counts < 2 ^ 63 }
    ensures network { world.new.network ≡ world.old.network }
    ensures state { OnOk result (world.new.state ≡
        (next world.old.network world.old.state command.now).state) }
    ensures counts { IfOk result (λ y. y.counts ≡
        count_all tally.counts (verdicts_in (next world.old.network world.old.state command.now).answer)) }
    ensures total { IfOk result (λ y. total y.counts ≤ total tally.counts + 66) }
    ensures alarm { IfOk result (λ y. y.alarm ≡
        (tally.alarm || shows_alarm show.now world.old.network (done_by world.old.network world.old.state command.now))) }
    ensures police { (before : List Done) → ArePoliced world.old.network show.now.police police.old (offers_of before) world.old.state.moment
        → OnOk result (ArePoliced world.old.network show.now.police police.new
        (offers_of (before ++ done_by world.old.network world.old.state command.now ∷ [])) world.new.state.moment) }
    ensures performs { (before : List Done) → ArePoliced world.old.network show.now.police police.old (offers_of before) world.old.state.moment
        → Performs (kept_in keep.now)
        (step_acts (kept_in keep.now) show.now world.old.network before
        (done_by world.old.network world.old.state command.now))
        (acts.world (S.contents store.old) (S.reads store.old) (S.writes store.old)
        (O.written out.old) (O.faults out.old))
        (acts.world (S.contents store.new) (S.reads store.new) (S.writes store.new)
        (O.written out.new) (O.faults out.new))
        result }
    ensures stays { Stays (kept_in keep.now)
        (acts.world (S.contents store.old) (S.reads store.old) (S.writes store.old)
        (O.written out.old) (O.faults out.old))
        (acts.world (S.contents store.new) (S.reads store.new) (S.writes store.new)
        (O.written out.new) (O.faults out.new)) }
{
    let _profile = world.topology().profile();
    fits(command);
    let before = held(world.ledger());
    let answer = match world.step(alloc, command) {
        Ok(answer) => answer,
        Err(OutOfMemory) => return Err(PortError::OutOfMemory),
    };
    let lines = match step_lines(alloc, world, show, police, command, &answer) {
        Ok(lines) => lines,
        Err(OutOfMemory) => return Err(PortError::OutOfMemory),
    };
    let added = match step_files(alloc, world, keep, before, command, &answer) {
        Ok(added) => added,
        Err(OutOfMemory) => return Err(PortError::OutOfMemory),
    };
    write_text(&lines.text, out)?;
    add_kept(keep, &added, store)?;
    Ok(Tally {
        counts: count(tally.counts, &answer),
        alarm: tally.alarm | lines.alarm,
    })
}

/// Writes the last line.
pub fn write_end<O: Sink>(alloc: Global, counts: &Counts, out: &mut O) -> Result<(), PortError>
    requires { total counts.now < 2 ^ 63 }
    ensures text { Writes (end_line counts.now)
        (O.written out.old) (O.written out.new) (O.faults out.old) (O.faults out.new) result }
    ensures later { O.faults out.old ≤ O.faults out.new }
{
    let mut line = Vec::new(alloc);
    match print_end(&mut line, counts) {
        Ok(()) => write_text(&line, out),
        Err(OutOfMemory) => Err(PortError::OutOfMemory),
    }
}

/// The counts of the verdicts of steps, and whether a maker that was shown is forged or collided.
#[derive(Clone, Copy)]
pub struct Tally {
    pub counts: Counts,
    pub alarm: bool,
}

/// Whether some verdict is forged or collided.
pub fn tells_alarm(counts: &Counts) -> bool
    ensures { result ≡ (nat_lt 0 counts.now.forged || nat_lt 0 counts.now.collided) }
{
    counts.forged > 0 || counts.collided > 0
}

/// Makes the files that are kept, and does the commands of a script one after the other in a new
/// world, with policers to which nothing was offered. The lines of each are written, and the files
/// grow by what it tells, before the next is done.
///
/// Answers the counts of the verdicts. `PortError::Failed` comes only where `out` or such a file
/// counted a failed write.
pub fn write_script<S: Store, O: Sink>(
    alloc: Global,
    world: &mut World,
    police: &mut Option<Policers>,
    show: &Showing,
    commands: &[Command],
    keep: &Keeping<'_>,
    store: &mut S,
    out: &mut O,
) -> Result<Tally, PortError>
    requires new { world.old.state ≡ start }
    requires unused { ArePoliced world.old.network show.now.police police.old [] 0 }
    requires possible { All IsPossible commands.now }
    requires few { length commands.now ≤ 524288 }
    ensures network { world.new.network ≡ world.old.network }
    ensures state { OnOk result (world.new.state ≡
        state_after world.old.network start commands.now) }
    ensures counts { IfOk result (λ y. y.counts ≡
        counts_of 0 (all_verdicts (run world.old.network commands.now))) }
    ensures steps { OnOk result (world.new.state.steps ≡ length commands.now) }
    ensures total { IfOk result (λ y. total y.counts ≤ 66 * length commands.now) }
    ensures alarm { IfOk result (λ y. y.alarm ≡
        list_any (shows_alarm show.now world.old.network) (run world.old.network commands.now)) }
    ensures police { OnOk result (ArePoliced world.old.network show.now.police police.new
        (offers_of (run world.old.network commands.now)) world.new.state.moment) }
    ensures performs { Performs (kept_in keep.now)
        (steps_acts (kept_in keep.now) show.now world.old.network (run world.old.network commands.now))
        (acts.world (S.contents store.old) (S.reads store.old) (S.writes store.old)
        (O.written out.old) (O.faults out.old))
        (acts.world (S.contents store.new) (S.reads store.new) (S.writes store.new)
        (O.written out.new) (O.faults out.new))
        result }
    ensures stays { Stays (kept_in keep.now)
        (acts.world (S.contents store.old) (S.reads store.old) (S.writes store.old)
        (O.written out.old) (O.faults out.old))
        (acts.world (S.contents store.new) (S.reads store.new) (S.writes store.new)
        (O.written out.new) (O.faults out.new)) }
{
    open_kept(keep, store)?;
    let mut tally = Tally {
        counts: Counts::default(),
        alarm: false,
    };
    for command in commands {
        tally = write_step(alloc, world, police, show, command, tally, keep, store, out)?;
    }
    Ok(tally)
}
