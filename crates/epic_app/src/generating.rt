//! The command `gen`: a run of any length over a topology and a script that are made from two
//! numbers.

ghost use Rattle.std.specs.Prelude.{◌≡◌, ℕ, ◌≤◌, IfOk, List, Option};
ghost use Rattle.epic_ports.specs.Files.{Files};
ghost use Rattle.epic_app.specs.Acts.{world};
ghost use Rattle.epic_app.specs.End.{EndsAs};
ghost use Rattle.epic_app.specs.Writing.{Writes};
ghost use Rattle.epic_words.specs.Answers.{gen_in};

use crate::end::{End, ended};
use crate::gen_report::generated_report;
use crate::writing::write_text;
use epic_gen::generated_topology;
use epic_ports::{PortError, Sink};
use epic_words::GenWords;
use std::alloc::Global;

/// Writes a text, and answers this after it.
fn write_answer<O: Sink>(text: &[u8], answer: bool, out: &mut O) -> Result<bool, PortError>
    ensures text { Writes text.now (O.written out.old) (O.written out.new)
        (O.faults out.old) (O.faults out.new) result }
    ensures answer { IfOk result (λ b. b ≡ answer) }
{
    write_text(text, out)?;
    Ok(answer)
}

/// Makes the topology, does the commands one after the other, and writes the last line of their
/// report and the line of its digest. No file is read or written.
pub fn generate<'a, O: Sink>(alloc: Global, words: &GenWords, out: &mut O) -> End<'a>
    requires { words.now.packets ≤ 100000 }
    ensures { (contents : Option Files) (reads writes : List ℕ → ℕ) → EndsAs (gen_in words.now)
        (world contents reads writes (O.written out.old) (O.faults out.old))
        (world contents reads writes (O.written out.new) (O.faults out.new))
        result }
{
    let Ok(topo) = generated_topology(alloc, words.seed) else {
        return End::OutOfMemory;
    };
    let (text, alarm) = match generated_report(alloc, topo, words.seed, words.packets) {
        Ok(report) => report,
        Err(_) => return End::OutOfMemory,
    };
    ended(write_answer(&text, alarm, out))
}
