//! The reader of a capture that comes in pieces.
ghost use Rattle.std.specs.Prelude.{◌≡◌, ◌≤◌, ◌-◌, [], length, take, min, None, Ok, IfOk, IfSome};
ghost use Rattle.std.specs.Result.{result_err};
ghost use Rattle.std.specs.Borrow.{sem};
ghost use Rattle.std.specs.Io.BufRead.{Rests};
ghost use Rattle.epic_num.specs.declared.moment.TheConstants.{MAX_MOMENT};
ghost use Rattle.epic_capture.specs.Streams.{Follows, next};
ghost use Rattle.epic_capture.specs.Reading.{capture, start, with_bytes};
ghost use Rattle.epic_capture.specs.Seen.{seen};

use crate::cursor::Cursor;
use crate::{Buffer, CaptureError, Record};
use epic_num::OutOfMemory;
use std::alloc::Global;
use std::marker::Model;

/// Reads the records of a capture whose bytes come in pieces, however they are cut. It keeps at most 16,400 of them.
#[derive(Drop)]
pub struct Reader {
    cursor: Cursor,
}

impl Model for Reader {
    ghost use Rattle.std.specs.Prelude.{◌≤◌};
    ghost use Rattle.epic_capture.specs.Reading.{Reading, passed};

    ghost Value = { Reading };

    ghost use Rattle.epic_capture.specs.Steps.{reading_of};

    ghost view = { λ r. reading_of r.cursor };

    ghost invariant = { λ r. passed r.cursor.progress ≤ 67108864 };
}

impl Reader {
    ghost use Rattle.epic_capture.specs.contracts.reader.Reader.{the_row};

    /// A reader that was fed nothing. No other call takes memory.
    pub fn new(alloc: Global) -> Result<Reader, OutOfMemory>
        ensures { IfOk result (λ r. r ≡ start) }
    {
        let buffer = Buffer::new(alloc)?;
        Ok(Reader {
            cursor: Cursor {
                buffer,
                progress: None,
            },
        })
    }

    /// Takes as many bytes of the next piece as there is room for, and says how many. Records that were handed out make
    /// room, and so does the file's header once `next_record` has read it.
    pub fn feed(&mut self, piece: &[u8]) -> usize
        ensures count { result ≡ min (length piece.now) (16400 - length self.old.held) }
        ensures bytes { self.new ≡ with_bytes self.old (take result piece.now) }
    {
        self.cursor.buffer.feed(piece)
    }

    /// The next record; none where the bytes fed hold no further whole record and no damage; or the capture's first
    /// damage, and then the same at each call. What is to come is the answer, and then what is to come after it.
    pub fn next_record(&mut self) -> Result<Option<Record<'_>>, CaptureError>
        ensures answer { seen result ≡ next capture self.old }
        ensures moment { IfOk result (λ found. IfSome found (λ r. r.moment ≤ MAX_MOMENT)) }
        ensures* after { sem 𝓛 (Rests the_row self.entry (λ new. Follows capture self.old (seen result) new)) }
    {
        match self.cursor.advance() {
            Ok(Some(found)) => Ok(Some(Record {
                moment: found.moment,
                place: found.place,
                bytes: self.cursor.packet(),
            })),
            Ok(None) => Ok(None),
            Err(error) => Err(error),
        }
    }

    /// Whether the capture may end behind the bytes fed: `Truncated` where a part of a header or record is left over.
    pub fn end(&self) -> Result<(), CaptureError>
        requires { next capture self.now ≡ Ok None }
        ensures { capture.to_come self.now [] ≡ record { items = []; damage = result_err result } }
    {
        self.cursor.end()
    }
}
