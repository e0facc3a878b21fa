//! The report of `hop`, line by line.

ghost use Rattle.std.specs.Prelude.{◌≡◌, ◌+◌, ◌^◌, ◌<◌, ◌≤◌, length, count_by, nat_lt, if◌then◌else◌, IfOk, OnOk, OnErr};
ghost use Rattle.std.specs.String.{string_bytes};
ghost use Rattle.epic_app.specs.declared.hop_answer.HopAnswer.TheVariants.{Issued, Forged};
ghost use Rattle.epic_app.specs.HopReport.{answers, end_text, is_accept, hop_report, is_forged, line_text};
ghost use Rattle.epic_app.specs.Writing.{Writes};

use crate::hop_answer::{HopAnswer, answer};
use crate::hop_file::HopCommand;
use crate::writing::write_text;
use epic_num::{Body, authenticator_message};
use epic_ports::{PortError, Sink};
use std::alloc::{AllocError, Global};

/// The line of an issue.
fn issued(
    alloc: Global,
    number: usize,
    authenticator: &[u8; 16],
    link: &[u8; 8],
) -> Result<String, AllocError>
    ensures { IfOk result (λ text. string_bytes text ≡
        line_text number (Issued authenticator.now link.now)) }
{
    let authenticator = hex::encode(alloc, authenticator.as_slice())?;
    let link = hex::encode(alloc, link.as_slice())?;
    format!(in alloc; "{number} issue {authenticator} {link}\n")
}

/// The line of a right field of a body that nobody issued.
fn forged(alloc: Global, number: usize, body: &Body, field: &[u8; 3]) -> Result<String, AllocError>
    ensures { IfOk result (λ text. string_bytes text ≡
        line_text number (Forged body.now field.now)) }
{
    let message = hex::encode(alloc, authenticator_message(body).as_slice())?;
    let field = hex::encode(alloc, field.as_slice())?;
    format!(in alloc; "{number} accept forged {message} {field}\n")
}

/// The text of an answer with the number of its command.
fn line(alloc: Global, number: usize, answer: &HopAnswer) -> Result<String, AllocError>
    ensures { IfOk result (λ text. string_bytes text ≡ line_text number answer.now) }
{
    match answer {
        HopAnswer::Issued(authenticator, link) => issued(alloc, number, authenticator, link),
        HopAnswer::Refused => format!(in alloc; "{number} refuse\n"),
        HopAnswer::Proved(issue) => format!(in alloc; "{number} accept proved {issue}\n"),
        HopAnswer::Forged(body, field) => forged(alloc, number, body, field),
    }
}

/// The last line, with the numbers of commands, of accepted checks and of forged ones.
fn last_line(
    alloc: Global,
    commands: usize,
    accepted: usize,
    forged: usize,
) -> Result<String, AllocError>
    ensures { IfOk result (λ text. string_bytes text ≡ end_text commands accepted forged) }
{
    format!(in alloc; "end {commands} accepted {accepted} forged {forged}\n")
}

/// Writes the line of an answer.
fn write_line<O: Sink>(
    alloc: Global,
    number: usize,
    answer: &HopAnswer,
    out: &mut O,
) -> Result<(), PortError>
    ensures text { Writes (line_text number answer.now)
        (O.written out.old) (O.written out.new) (O.faults out.old) (O.faults out.new) result }
    ensures later { O.faults out.old ≤ O.faults out.new }
{
    let line = line(alloc, number, answer)?;
    write_text(line.as_bytes(), out)
}

/// Writes the last line.
fn write_last_line<O: Sink>(
    alloc: Global,
    commands: usize,
    accepted: usize,
    forged: usize,
    out: &mut O,
) -> Result<(), PortError>
    ensures text { Writes (end_text commands accepted forged)
        (O.written out.old) (O.written out.new) (O.faults out.old) (O.faults out.new) result }
    ensures later { O.faults out.old ≤ O.faults out.new }
{
    let line = last_line(alloc, commands, accepted, forged)?;
    write_text(line.as_bytes(), out)
}

/// `count`, or one more where `more` is true.
fn counted(count: usize, more: bool) -> usize
    requires { count < 2 ^ 32 }
    ensures value { result ≡ count + (if more then 1 else 0) }
    ensures few { result ≤ count + 1 }
{
    count + usize::from(more)
}

/// Writes the report of `commands`, fewer than 2^32, under the forwarding key `key`, each line as it
/// is answered.
///
/// Answers whether some check is of a forged field. `PortError::Failed` comes only where `out`
/// counted a failed write.
pub fn write_report<O: Sink>(
    alloc: Global,
    key: &[u8; 16],
    commands: &[HopCommand],
    out: &mut O,
) -> Result<bool, PortError>
    requires { length commands.now < 2 ^ 32 }
    ensures text { Writes (hop_report key.now commands.now)
        (O.written out.old) (O.written out.new) (O.faults out.old) (O.faults out.new) result }
    ensures forged { IfOk result (λ forged. forged ≡
        nat_lt 0 (count_by is_forged (answers key.now commands.now))) }
    ensures later { O.faults out.old ≤ O.faults out.new }
{
    let mut accepted = 0;
    let mut forged = 0;
    for (i, command) in commands.iter().enumerate() {
        let answer = answer(key, &commands[..i], command);
        write_line(alloc, i + 1, &answer, out)?;
        accepted = counted(accepted, answer.is_accept());
        forged = counted(forged, answer.is_forged());
    }
    write_last_line(alloc, commands.len(), accepted, forged, out)?;
    Ok(forged > 0)
}
