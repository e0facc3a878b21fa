//! How far a verdict file is judged.
ghost use Rattle.std.specs.Prelude.{◌≡◌, ◌+◌, ◌≤◌, None};
ghost use Rattle.epic_record.specs.VerdictFile.{most_verdicts};
ghost use Rattle.epic_judge.specs.Reaching.{behind, first_after};

use epic_judging::JudgeError;
use epic_record::LineError;
use std::marker::Model;

/// How far a verdict file is judged.
#[derive(Drop)]
pub struct Progress<'v> {
    /// What is left of the file.
    pub rest: &'v [u8],
    /// How many of its lines were judged.
    pub number: u32,
    /// The number of the first line that isn't true, from 1.
    pub first: Option<u32>,
}

impl<'v> Model for Progress<'v> {
    ghost use Rattle.epic_judge.specs.Reaching.{Reached};

    ghost Value = { Reached };

    ghost view = { λ p. record { rest = p.rest.now; number = p.number; first = p.first } };
}

/// The number of the first line that isn't true, after one more.
fn first_after(first: Option<u32>, number: u32, is_true: bool) -> Option<u32>
    ensures { result ≡ first_after first number is_true }
{
    match first {
        Some(first) => Some(first),
        None if is_true => None,
        None => Some(number),
    }
}

/// Before the first line.
pub fn at_first(verdicts: &[u8]) -> Progress<'_>
    ensures { result ≡ record { rest = verdicts.now; number = 0; first = None } }
{
    Progress {
        rest: verdicts,
        number: 0,
        first: None,
    }
}

/// What is reached behind a line, by whether it is true, or why it wasn't read.
pub fn behind<'v>(
    progress: Progress<'_>,
    rest: &'v [u8],
    read: Result<bool, LineError>,
) -> Result<Progress<'v>, JudgeError>
    requires { progress.number + 1 ≤ most_verdicts }
    ensures { result ≡ behind progress.entry rest.now read }
{
    let number = progress.number + 1;
    match read {
        Ok(is_true) => Ok(Progress {
            rest,
            number,
            first: first_after(progress.first, number, is_true),
        }),
        Err(LineError::Refused(kind)) => Err(JudgeError::Verdicts { line: number, kind }),
        Err(LineError::OutOfMemory) => Err(JudgeError::OutOfMemory),
    }
}
