//! Reads a capture's header and records off the front of the bytes that are held.
ghost use Rattle.std.specs.Prelude.{◌≡◌, ◌≤◌, ℕ, List, [], length, drop, None, Ok, Err, IfOk, IfErr, IfSome};
ghost use Rattle.std.specs.Result.{result_err};
ghost use Rattle.epic_num.specs.declared.moment.TheConstants.{MAX_MOMENT};
ghost use Rattle.epic_capture.specs.Capture.{head};
ghost use Rattle.epic_capture.specs.Streams.{Follows, next};
ghost use Rattle.epic_capture.specs.Reading.{capture, passed, start, with_bytes};
ghost use Rattle.epic_capture.specs.Steps.{reading_of, opening, opened, answer_of, told_by, unread};

use crate::CaptureKind::Truncated;
use crate::damage::damage;
use crate::format::{HEAD, head};
use crate::found::{Found, found_at};
use crate::progress::Progress;
use crate::{Buffer, CaptureError};

/// How many bytes a reader holds: a record of the greatest length.
pub(crate) const SIZE: usize = 16_400;

/// The bytes that are held, and what is known of the file before them.
#[derive(Drop)]
pub(crate) struct Cursor {
    pub(crate) buffer: Buffer<SIZE>,
    /// None until the file's header was read.
    pub(crate) progress: Option<Progress>,
}

/// The answer at damage: none where further bytes may mend it.
fn unless_early(error: CaptureError) -> Result<Option<Found>, CaptureError>
    ensures answer { (bytes : List ℕ) → told_by result bytes ≡ answer_of error }
    ensures none { IfOk result (λ found. found ≡ None) }
{
    if error.kind == Truncated {
        Ok(None)
    } else {
        Err(error)
    }
}

/// What is left of a file whose last `len` bytes, from `begin` on, are no whole record.
#[tactic(auto, unfolding(crate::specs::Steps::unread))]
fn unread(begin: u64, len: usize) -> Result<(), CaptureError>
    ensures { result_err result ≡ unread begin len }
{
    if len == 0 {
        Ok(())
    } else {
        Err(damage(Truncated, begin))
    }
}

impl Cursor {
    /// Reads the file's header where that wasn't done yet.
    fn open(&mut self) -> Result<Progress, CaptureError>
        ensures answer { result ≡ opening (reading_of self.old) }
        ensures after { reading_of self.new ≡ opened (reading_of self.old) }
    {
        if let Some(progress) = self.progress {
            return Ok(progress);
        }
        let format = head(self.buffer.held())?;
        self.buffer.pass(HEAD);
        let progress = Progress::begun(format);
        self.progress = Some(progress);
        Ok(progress)
    }

    /// Passes the next record, which is then what the buffer passed last.
    pub(crate) fn advance(&mut self) -> Result<Option<Found>, CaptureError>
        requires limit { passed self.old.progress ≤ 67108864 }
        ensures answer { told_by result self.new.buffer.last ≡ next capture (reading_of self.old) }
        ensures after { Follows capture (reading_of self.old) (told_by result self.new.buffer.last) (reading_of self.new) }
        ensures limit { passed self.new.progress ≤ 67108864 }
        ensures moment { IfOk result (λ found. IfSome found (λ f. f.moment ≤ MAX_MOMENT)) }
        ensures long { IfOk result (λ found. IfSome found (λ f. 32 ≤ length self.new.buffer.last)) }
    {
        let progress = match self.open() {
            Ok(progress) => progress,
            Err(error) => return unless_early(error),
        };
        let found = match found_at(&progress, self.buffer.held()) {
            Ok(found) => found,
            Err(error) => return unless_early(error),
        };
        self.progress = Some(progress.behind(found.len));
        self.buffer.pass(found.len);
        Ok(Some(found))
    }

    /// The packet of the record that was passed last.
    pub(crate) fn packet(&self) -> &[u8]
        requires { 32 ≤ length self.now.buffer.last }
        ensures { result.now ≡ drop 32 self.now.buffer.last }
    {
        &self.buffer.last()[32..]
    }

    /// Whether the file may end here, or how it is damaged then.
    pub(crate) fn end(&self) -> Result<(), CaptureError>
        requires { next capture (reading_of self.now) ≡ Ok None }
        ensures { capture.to_come (reading_of self.now) [] ≡ record { items = []; damage = result_err result } }
    {
        let held = self.buffer.held();
        if let Some(progress) = self.progress {
            return unread(progress.offset, held.len());
        }
        match head(held) {
            Ok(_) => unread(24, held.len() - HEAD),
            Err(error) => Err(error),
        }
    }
}
