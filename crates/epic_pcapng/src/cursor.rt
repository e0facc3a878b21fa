//! Reads a capture's blocks off the front of the bytes that are held.
ghost use Rattle.std.specs.Prelude.{◌≡◌, ◌≢◌, ◌≤◌, ◌+◌, ℕ, List, [], length, take, drop, Some, None, Ok, IfOk, IfSome};
ghost use Rattle.epic_num.specs.declared.moment.TheConstants.{MAX_MOMENT};
ghost use Rattle.std.specs.Result.{result_err};
ghost use Rattle.epic_capture.specs.Streams.{Follows, next};
ghost use Rattle.epic_pcapng.specs.declared.block.Kind.TheVariants.{Other};
ghost use Rattle.epic_pcapng.specs.Blocks.{heading};
ghost use Rattle.epic_pcapng.specs.Reading.{ngcapture};
ghost use Rattle.epic_pcapng.specs.Steps.{reading_of, passed, IsSound, answer_of, EndsAs, StepsTo, IsThere, told_by};

use crate::NgError;
use crate::block::{Head, Kind, behind, ends, front, heading};
use crate::content::content;
use crate::packet::Found;
use crate::section::Section;
use epic_capture::{Buffer, Order};

/// How many bytes a reader holds: a block of the greatest length that is read.
pub(crate) const SIZE: usize = 65_536;

/// A block that is being skipped.
#[derive(Clone, Copy, Debug, PartialEq, Eq)]
pub struct Skip {
    /// Where it begins in the file.
    pub begin: u64,
    /// How many bytes it has.
    pub len: u32,
}

/// The bytes that are held, and what is known of the file before them.
#[derive(Drop)]
pub(crate) struct Cursor {
    pub(crate) buffer: Buffer<SIZE>,
    pub(crate) section: Section,
    /// The block of which the first bytes were passed.
    pub(crate) skip: Option<Skip>,
    /// Where the bytes that are held begin in the file.
    pub(crate) offset: u64,
}

/// The answer at damage: none where further bytes may mend it.
fn unless_early(error: NgError) -> Result<Option<Found>, NgError>
    ensures answer { (bytes : List ℕ) → told_by result bytes ≡ answer_of error }
    ensures there { (bytes : List ℕ) → IsThere result bytes }
    ensures moment { IfOk result (λ found. IfSome found (λ f. f.moment ≤ MAX_MOMENT)) }
{
    if error.is_early() {
        Ok(None)
    } else {
        Err(error)
    }
}

/// How a file is damaged that ends behind these bytes, which hold no packet and no other damage.
fn unread(order: Order, begin: u64, bytes: &[u8]) -> Result<(), NgError>
    requires { begin ≤ 67108864 }
    ensures { EndsAs order begin bytes.now result }
{
    let mut order = order;
    let mut at = begin;
    let mut rest = bytes;
    while !rest.is_empty() {
        let head = heading(order, at, rest)?;
        ends(head.order, at, head.len, 0, rest)?;
        order = head.order;
        at += u64::from(head.len);
        rest = behind(rest, head.len as usize);
    }
    Ok(())
}

impl Cursor {
    /// Lets the first `count` bytes go.
    fn pass(&mut self, count: usize)
        requires count { count ≤ length self.old.buffer.held }
        requires limit { self.old.offset + count ≤ 67108864 }
        ensures reading { reading_of self.new ≡ passed (reading_of self.old) count }
        ensures last { self.new.buffer.last ≡ take count self.old.buffer.held }
    {
        self.buffer.pass(count);
        self.offset += count as u64;
    }

    /// Goes on in a block that is skipped: passes the rest of it, or what is there of its bytes but the last 4.
    fn skip_on(&mut self, skip: Skip) -> Result<Option<Found>, NgError>
        requires sound { IsSound (reading_of self.old) }
        requires skip { self.old.skip ≡ Some skip }
        ensures moment { IfOk result (λ found. IfSome found (λ f. f.moment ≤ MAX_MOMENT)) }
        ensures step { StepsTo (reading_of self.old) result self.new.buffer.last (reading_of self.new) }
        ensures sound { IsSound (reading_of self.new) }
    {
        let gone = self.offset - skip.begin;
        let held = self.buffer.held();
        match ends(self.section.order, skip.begin, skip.len, gone, held) {
            Ok(()) => {
                self.skip = None;
                self.pass((u64::from(skip.len) - gone) as usize);
                Ok(None)
            }
            Err(error) => {
                if !error.is_early() {
                    return Err(error);
                }
                let count = held.len().min((u64::from(skip.len) - 4 - gone) as usize);
                if count == 0 {
                    return Err(error);
                }
                self.pass(count);
                Ok(None)
            }
        }
    }

    /// Reads a whole block.
    fn read_whole(&mut self, head: &Head) -> Result<Option<Found>, NgError>
        requires sound { IsSound (reading_of self.old) }
        requires skip { self.old.skip ≡ None }
        requires head { heading self.old.section.order self.old.offset self.old.buffer.held ≡ Ok head.now }
        requires kind { head.now.kind ≢ Other }
        ensures moment { IfOk result (λ found. IfSome found (λ f. f.moment ≤ MAX_MOMENT)) }
        ensures step { StepsTo (reading_of self.old) result self.new.buffer.last (reading_of self.new) }
        ensures sound { IsSound (reading_of self.new) }
    {
        let held = self.buffer.held();
        ends(head.order, self.offset, head.len, 0, held)?;
        let len = head.len as usize;
        let block = front(held, len);
        let found = content(&mut self.section, self.offset, head, block)?;
        self.pass(len);
        Ok(found)
    }

    /// Reads a block, or begins to skip it.
    fn read_block(&mut self) -> Result<Option<Found>, NgError>
        requires sound { IsSound (reading_of self.old) }
        requires skip { self.old.skip ≡ None }
        ensures moment { IfOk result (λ found. IfSome found (λ f. f.moment ≤ MAX_MOMENT)) }
        ensures step { StepsTo (reading_of self.old) result self.new.buffer.last (reading_of self.new) }
        ensures sound { IsSound (reading_of self.new) }
    {
        let head = heading(self.section.order, self.offset, self.buffer.held())?;
        match head.kind {
            Kind::Other => {
                self.skip = Some(Skip {
                    begin: self.offset,
                    len: head.len,
                });
                self.pass(8);
                Ok(None)
            }
            _ => self.read_whole(&head),
        }
    }

    /// Passes the next block, or a part of a block that is skipped.
    fn step(&mut self) -> Result<Option<Found>, NgError>
        requires { IsSound (reading_of self.old) }
        ensures moment { IfOk result (λ found. IfSome found (λ f. f.moment ≤ MAX_MOMENT)) }
        ensures step { StepsTo (reading_of self.old) result self.new.buffer.last (reading_of self.new) }
        ensures sound { IsSound (reading_of self.new) }
    {
        match self.skip {
            Some(skip) => self.skip_on(skip),
            None => self.read_block(),
        }
    }

    /// Passes the next packet, whose block is then what the buffer passed last.
    pub(crate) fn advance(&mut self) -> Result<Option<Found>, NgError>
        requires { IsSound (reading_of self.old) }
        ensures answer { told_by result self.new.buffer.last ≡ next ngcapture (reading_of self.old) }
        ensures after { Follows ngcapture (reading_of self.old) (told_by result self.new.buffer.last) (reading_of self.new) }
        ensures sound { IsSound (reading_of self.new) }
        ensures there { IsThere result self.new.buffer.last }
        ensures moment { IfOk result (λ found. IfSome found (λ f. f.moment ≤ MAX_MOMENT)) }
    {
        loop {
            match self.step() {
                Ok(Some(found)) => return Ok(Some(found)),
                Ok(None) => {}
                Err(error) => return unless_early(error),
            }
        }
    }

    /// A packet in the block that was passed last.
    pub(crate) fn packet(&self, start: usize, len: usize) -> &[u8]
        requires { start + len ≤ length self.now.buffer.last }
        ensures { result.now ≡ take len (drop start self.now.buffer.last) }
    {
        &self.buffer.last()[start..start + len]
    }

    /// How the file is damaged that ends inside or behind a block that is skipped.
    fn end_skipped(&self, skip: Skip) -> Result<(), NgError>
        requires sound { IsSound (reading_of self.now) }
        requires skip { self.now.skip ≡ Some skip }
        requires none { next ngcapture (reading_of self.now) ≡ Ok None }
        ensures { ngcapture.to_come (reading_of self.now) [] ≡ record { items = []; damage = result_err result } }
    {
        let held = self.buffer.held();
        let gone = self.offset - skip.begin;
        ends(self.section.order, skip.begin, skip.len, gone, held)?;
        let count = (u64::from(skip.len) - gone) as usize;
        let rest = behind(held, count);
        unread(self.section.order, self.offset + count as u64, rest)
    }

    /// Whether the file may end here, or how it is damaged then.
    pub(crate) fn end(&self) -> Result<(), NgError>
        requires sound { IsSound (reading_of self.now) }
        requires none { next ngcapture (reading_of self.now) ≡ Ok None }
        ensures { ngcapture.to_come (reading_of self.now) [] ≡ record { items = []; damage = result_err result } }
    {
        match self.skip {
            Some(skip) => self.end_skipped(skip),
            None => unread(self.section.order, self.offset, self.buffer.held()),
        }
    }
}
