//! The report of `judge`: one line.

ghost use Rattle.std.specs.Prelude.{◌≡◌, IfOk};
ghost use Rattle.std.specs.String.{string_bytes};
ghost use Rattle.epic_app.specs.JudgeReport.{is_no, judged_text};
ghost use Rattle.epic_app.specs.Writing.{Writes};

use crate::writing::write_text;
use epic_judging::Judged;
use epic_ports::{PortError, Sink};
use std::alloc::{AllocError, Global};

/// The line of what the judge says.
fn judged_line(alloc: Global, said: &Judged) -> Result<String, AllocError>
    ensures { IfOk result (λ text. string_bytes text ≡ judged_text said.now) }
{
    match said {
        Judged::Yes { verdicts } => format!(in alloc; "judged {verdicts} yes\n"),
        Judged::No { verdicts, first } => format!(in alloc; "judged {verdicts} no {first}\n"),
    }
}

/// Whether some verdict isn't true.
fn is_no(said: &Judged) -> bool
    ensures { result ≡ is_no said.now }
{
    matches!(said, Judged::No { .. })
}

/// Writes the line of what the judge says, and answers whether some verdict isn't true.
pub fn write_judged<O: Sink>(alloc: Global, said: &Judged, out: &mut O) -> Result<bool, PortError>
    ensures text { Writes (judged_text said.now)
        (O.written out.old) (O.written out.new) (O.faults out.old) (O.faults out.new) result }
    ensures no { IfOk result (λ b. b ≡ is_no said.now) }
{
    let line = judged_line(alloc, said)?;
    write_text(line.as_bytes(), out)?;
    Ok(is_no(said))
}
