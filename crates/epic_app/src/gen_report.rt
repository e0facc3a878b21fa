//! The report of a generated run, of which the last line and a digest are kept.

ghost use Rattle.std.specs.Prelude.{◌≡◌, ◌+◌, ◌-◌, ◌^◌, ◌<◌, ◌≤◌, ◌++◌, IfOk, List, OnOk, string_bytes};
ghost use Rattle.epic_gen.specs.Script.{generated};
ghost use Rattle.epic_gen.specs.Names.{generator_key};
ghost use Rattle.epic_model.specs.Steps.{next};
ghost use Rattle.epic_text.specs.Counts.{end_line, total};
ghost use Rattle.epic_world.specs.Run.{Done, done_by, run};
ghost use Rattle.epic_world.specs.Stepped.{IsPossible};
ghost use Rattle.epic_app.specs.Generating.{digest_line, gen_text, plainly};
ghost use Rattle.epic_app.specs.RunReport.{has_alarm, step_text, verdicts_in};
ghost use Rattle.epic_app.specs.StepLines.{count_all};

use crate::run_report::{count, step_lines, tells_alarm};
use crate::showing::Showing;
use epic_cmac::CmacState;
use epic_gen::{command_at, generator_tag};
use epic_num::{Command, OutOfMemory};
use epic_text::{Counts, print_end};
use epic_topo::Topology;
use epic_world::{World, fits};
use std::alloc::{AllocError, Global};

/// Does a command of a script of so many, and puts its lines behind what the digest has taken.
fn digest_step(
    alloc: Global,
    world: &mut World,
    script: u32,
    command: &Command,
    counts: Counts,
    digest: &mut CmacState,
) -> Result<Counts, OutOfMemory>
    requires possible { IsPossible command.now }
    requires few { world.old.state.steps < 2 ^ 30 - 1 }
    requires room { total counts < 2 ^ 63 }
    ensures network { world.new.network ≡ world.old.network }
    ensures state { OnOk result (world.new.state ≡
        (next world.old.network world.old.state command.now).state) }
    ensures counts { IfOk result (λ c. c ≡
        count_all counts (verdicts_in (next world.old.network world.old.state command.now).answer)) }
    ensures total { IfOk result (λ c. total c ≤ total counts + 66) }
    ensures digest { (before : List Done) → OnOk result (digest.new ≡ record digest.old {
      message = digest.old.message ++
          step_text (plainly script) world.old.network before (done_by world.old.network world.old.state command.now);
    }) }
{
    let _profile = world.topology().profile();
    fits(command);
    let _ledger = world.ledger();
    let answer = match world.step(alloc, command) {
        Ok(answer) => answer,
        Err(OutOfMemory) => return Err(OutOfMemory),
    };
    let show = Showing::new(script, false, None);
    let lines = match step_lines(alloc, world, &show, &mut None, command, &answer) {
        Ok(lines) => lines,
        Err(OutOfMemory) => return Err(OutOfMemory),
    };
    digest.update(&lines.text);
    Ok(count(counts, &answer))
}

/// The line with the digest of a report.
fn digest_text(alloc: Global, digest: CmacState) -> Result<String, AllocError>
    requires { digest.key ≡ generator_key }
    ensures { IfOk result (λ text. string_bytes text ≡ digest_line digest.message) }
{
    let tag = hex::encode(alloc, digest.finish())?;
    format!(in alloc; "digest {tag}\n")
}

/// The last lines, after all steps.
fn last_lines(alloc: Global, counts: &Counts, mut digest: CmacState) -> Result<Vec<u8>, OutOfMemory>
    requires key { digest.key ≡ generator_key }
    requires room { total counts.now < 2 ^ 63 }
    ensures { IfOk result (λ text. text.items ≡
        end_line counts.now ++ digest_line (digest.message ++ end_line counts.now)) }
{
    let mut text = Vec::new(alloc);
    print_end(&mut text, counts)?;
    digest.update(&text);
    let Ok(line) = digest_text(alloc, digest) else {
        return Err(OutOfMemory);
    };
    match text.extend_from_slice(line.as_bytes()) {
        Ok(()) => Ok(text),
        Err(_) => Err(OutOfMemory),
    }
}

/// Does the commands that are generated from a seed and some number of packets, one after the
/// other over a topology. Of the report its last line and the line of its digest are made, and
/// whether some verdict is forged or collided.
pub fn generated_report(
    alloc: Global,
    topo: Topology,
    seed: u64,
    packets: u32,
) -> Result<(Vec<u8>, bool), OutOfMemory>
    requires { packets ≤ 100000 }
    ensures text { IfOk result (λ r. r.0.items ≡ gen_text topo (run topo (generated seed packets))) }
    ensures alarm { IfOk result (λ r. r.1 ≡ has_alarm (run topo (generated seed packets))) }
{
    let mut digest = generator_tag();
    let mut world = World::new(alloc, topo);
    let mut counts = Counts::default();
    let steps = 14 + 3 * packets;
    for place in 0..steps {
        let Ok(command) = command_at(alloc, seed, packets, place) else {
            return Err(OutOfMemory);
        };
        counts = digest_step(alloc, &mut world, steps, &command, counts, &mut digest)?;
    }
    let counts = Counts { steps, ..counts };
    let text = last_lines(alloc, &counts, digest)?;
    Ok((text, tells_alarm(&counts)))
}
