//! The text that is printed.

ghost use Rattle.std.specs.Prelude.{◌≡◌, ◌<◌, [], IfOk, IfErr};
ghost use Rattle.std.specs.String.{string_bytes};
ghost use Rattle.epic_bench.specs.Lines.{IsLine, IsTimedLine, line, time_text};
ghost use Rattle.epic_bench.specs.Request.{HasRounds};
ghost use Rattle.epic_bench.specs.Run.{AreLines, GivesNothing, IsTextOf, IsUnready, MakesNothing};
ghost use Rattle.epic_bench.specs.Tasks.{work_of_task};
ghost use Rattle.epic_bench.specs.Works.{IsDigest};

use crate::top::End;
use crate::words::Request;
use crate::work::{Load, Task, Work};
use epic_num::Level;
use std::alloc::{AllocError, Global};
use std::rt::Clock;
use std::time::Instant;

/// The line of a work with this digest, with what follows it.
#[tactic(auto, unfolding(crate::specs::Lines::line))]
fn line(
    alloc: Global,
    work: Work,
    rounds: u32,
    digest: &[u8; 16],
    more: &str,
) -> Result<String, AllocError>
    ensures { IfOk result (λ text. string_bytes text ≡ line work rounds digest.now more.now) }
{
    let name = work.name();
    let operations = work.operations(rounds);
    let unit = work.unit();
    let digest = hex::encode(alloc, digest.as_slice())?;
    format!(in alloc; "{name} {operations} {unit} {digest}{more}\n")
}

/// The nanoseconds that an operation took, where so many, at least one, took `nanos`.
fn time_text(alloc: Global, nanos: u64, operations: u64) -> Result<String, AllocError>
    requires { 0 < operations }
    ensures { IfOk result (λ text. string_bytes text ≡ time_text nanos operations) }
{
    let tenths = u128::from(nanos) * 10 / u128::from(operations);
    let whole = tenths / 10;
    let part = tenths % 10;
    format!(in alloc; " {whole}.{part} ns")
}

/// The line of a work without its time.
fn digest_line(alloc: Global, work: Work, rounds: u32) -> Result<String, End>
    ensures ok { IfOk result (λ text. IsLine work rounds (string_bytes text)) }
    ensures err { IfErr result (IsUnready work) }
{
    let mut task = Task::new(alloc, work, rounds)?;
    let digest = task.run(alloc, rounds)?;
    Ok(line(alloc, work, rounds, &digest, "")?)
}

/// The lines of all works without times.
fn digest_lines(alloc: Global, rounds: u32) -> Result<String, End>
    ensures ok { IfOk result (λ text. AreLines rounds (string_bytes text)) }
    ensures err { IfErr result MakesNothing }
{
    let aes = digest_line(alloc, Work::Aes, rounds)?;
    let cmac = digest_line(alloc, Work::Cmac, rounds)?;
    let short = digest_line(alloc, Work::Short, rounds)?;
    let level_0 = digest_line(alloc, Work::Routed(Level::L0), rounds)?;
    let level_1 = digest_line(alloc, Work::Routed(Level::L1), rounds)?;
    let level_2 = digest_line(alloc, Work::Routed(Level::L2), rounds)?;
    let level_3 = digest_line(alloc, Work::Routed(Level::L3), rounds)?;
    let arrival = digest_line(alloc, Work::Arrived, rounds)?;
    let send = digest_line(alloc, Work::Sends, rounds)?;
    let one = digest_line(alloc, Work::Window(Load::One), rounds)?;
    let hundred = digest_line(alloc, Work::Window(Load::Hundred), rounds)?;
    let thousands = digest_line(alloc, Work::Window(Load::Thousands), rounds)?;
    let police = digest_line(alloc, Work::Policing, rounds)?;
    let windows = format!(in alloc; "{one}{hundred}{thousands}{police}")?;
    let ends = format!(in alloc; "{arrival}{send}{windows}")?;
    let levels = format!(in alloc; "{level_0}{level_1}{level_2}{level_3}{ends}")?;
    Ok(format!(in alloc; "{aes}{cmac}{short}{levels}")?)
}

/// The digest of a work, and how many nanoseconds its rounds took.
fn timed<R: Clock + AllocGlobal>(
    rt: &R,
    task: &mut Task,
    rounds: u32,
) -> Result<([u8; 16], u64), End>
    ensures ok { IfOk result (λ answer. IsDigest (work_of_task task.old) rounds answer.0) }
    ensures err { IfErr result (GivesNothing (Request.Time (work_of_task task.old) rounds)) }
{
    let Ok(start) = Instant::now(rt) else {
        return Err(End::NoClock);
    };
    let digest = task.run(rt.alloc(), rounds)?;
    let Ok(time) = start.elapsed(rt) else {
        return Err(End::NoClock);
    };
    Ok((digest, u64::try_from(time.as_nanos()).unwrap_or(u64::MAX)))
}

/// The line of a work with its time.
fn timed_line<R: Clock + AllocGlobal>(rt: &R, work: Work, rounds: u32) -> Result<String, End>
    requires { 0 < rounds }
    ensures ok { IfOk result (λ text. IsTimedLine work rounds (string_bytes text)) }
    ensures err { IfErr result (GivesNothing (Request.Time work rounds)) }
{
    let mut task = Task::new(rt.alloc(), work, rounds)?;
    let (digest, nanos) = timed(rt, &mut task, rounds)?;
    let time = time_text(rt.alloc(), nanos, work.operations(rounds))?;
    Ok(line(rt.alloc(), work, rounds, &digest, time.as_str())?)
}

/// The text that the request asks for.
pub(crate) fn text<R: Clock + AllocGlobal>(rt: &R, request: Request) -> Result<String, End>
    requires { HasRounds request }
    ensures ok { IfOk result (λ text. IsTextOf request (string_bytes text)) }
    ensures err { IfErr result (GivesNothing request) }
{
    match request {
        Request::Digests(rounds) => digest_lines(rt.alloc(), rounds),
        Request::Time(work, rounds) => timed_line(rt, work, rounds),
    }
}
