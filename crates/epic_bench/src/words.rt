//! The words of the command line.

ghost use Rattle.std.specs.Prelude.{◌≡◌, ◌<◌, map, IfSome};
ghost use Rattle.std.specs.String.{string_bytes};
ghost use Rattle.epic_bench.specs.Request.{HasRounds, request_of, rounds_of, work_of};

use crate::work::{Load, Work};
use epic_num::{Level, read_number};

/// What the words ask for.
#[derive(Clone, Copy, Debug)]
pub(crate) enum Request {
    /// `WORK ROUNDS`: the time of one work.
    Time(Work, u32),
    /// `digests ROUNDS`: what all works give, without times.
    Digests(u32),
}

/// How many digits a number of rounds has at most.
const MAX_DIGITS: usize = 10;

/// A number of rounds, from 1 to 2^32 - 1.
fn rounds(word: &[u8]) -> Option<u32>
    ensures value { result ≡ rounds_of word.now }
    ensures some { IfSome result (λ rounds. 0 < rounds) }
{
    if word.len() > MAX_DIGITS {
        return None;
    }
    let rounds = read_number(word, 0xffff_ffff).ok()?;
    if rounds == 0 {
        return None;
    }
    Some(rounds as u32)
}

/// The work of a name.
fn work(word: &str) -> Option<Work>
    ensures { result ≡ work_of word.now }
{
    match word {
        "aes" => Some(Work::Aes),
        "cmac" => Some(Work::Cmac),
        "short" => Some(Work::Short),
        "turn0" => Some(Work::Routed(Level::L0)),
        "turn1" => Some(Work::Routed(Level::L1)),
        "turn2" => Some(Work::Routed(Level::L2)),
        "turn3" => Some(Work::Routed(Level::L3)),
        "arrive3" => Some(Work::Arrived),
        "send3" => Some(Work::Sends),
        "window-1" => Some(Work::Window(Load::One)),
        "window-100" => Some(Work::Window(Load::Hundred)),
        "window-4096" => Some(Work::Window(Load::Thousands)),
        "police" => Some(Work::Policing),
        _ => None,
    }
}

/// What the words ask for. `None` where they are no command.
pub(crate) fn requested(words: &[String]) -> Option<Request>
    ensures value { result ≡ request_of (map string_bytes words.now) }
    ensures some { IfSome result HasRounds }
{
    let [word, rounds_word] = words else {
        return None;
    };
    let rounds = rounds(rounds_word.as_bytes())?;
    if word.as_str() == "digests" {
        return Some(Request::Digests(rounds));
    }
    let work = work(word.as_str())?;
    Some(Request::Time(work, rounds))
}
