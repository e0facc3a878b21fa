//! The reader of a capture in the form of pcapng that comes in pieces.
ghost use Rattle.std.specs.Prelude.{◌≡◌, ◌≤◌, ◌-◌, [], length, take, min, None, Ok, IfOk, IfSome};
ghost use Rattle.std.specs.Borrow.{sem};
ghost use Rattle.std.specs.Io.BufRead.{Rests};
ghost use Rattle.std.specs.Result.{result_err};
ghost use Rattle.epic_num.specs.declared.moment.TheConstants.{MAX_MOMENT};
ghost use Rattle.epic_capture.specs.Streams.{Follows, next};
ghost use Rattle.epic_capture.specs.Seen.{seen};
ghost use Rattle.epic_pcapng.specs.Reading.{ngcapture, start, with_bytes};

use crate::NgError;
use crate::cursor::Cursor;
use crate::interfaces::Interfaces;
use crate::section::Section;
use epic_capture::{Buffer, Order, Record};
use epic_num::OutOfMemory;
use std::alloc::Global;
use std::marker::Model;

/// How many packets a capture has at most.
const MOST_PACKETS: u32 = 262_144;

/// Reads the packets of a capture in the form of pcapng whose bytes come in pieces, however they are cut. It keeps at most
/// 65,536 of them.
#[derive(Drop)]
pub struct NgReader {
    cursor: Cursor,
}

impl Model for NgReader {
    ghost use Rattle.epic_pcapng.specs.Reading.{Reading};

    ghost Value = { Reading };

    ghost use Rattle.epic_pcapng.specs.Steps.{reading_of, IsSound};

    ghost view = { λ r. reading_of r.cursor };

    ghost invariant = { λ r. IsSound (reading_of r.cursor) };
}

impl NgReader {
    ghost use Rattle.epic_pcapng.specs.contracts.reader.NgReader.{the_row};

    /// A reader that was fed nothing. No other call takes memory.
    #[tactic(auto, unfolding(crate::specs::Grammar::first_section))]
    pub fn new(alloc: Global) -> Result<NgReader, OutOfMemory>
        ensures { IfOk result (λ r. r ≡ start) }
    {
        let buffer = Buffer::new(alloc)?;
        let interfaces = Interfaces::new(alloc)?;
        Ok(NgReader {
            cursor: Cursor {
                buffer,
                section: Section {
                    order: Order::Little,
                    interfaces,
                    left: MOST_PACKETS,
                },
                skip: None,
                offset: 0,
            },
        })
    }

    /// Takes as many bytes of the next piece as there is room for, and says how many. Blocks that were handled make room, and
    /// so do the bytes of a block that is skipped, but for its last 4.
    pub fn feed(&mut self, piece: &[u8]) -> usize
        ensures count { result ≡ min (length piece.now) (65536 - length self.old.held) }
        ensures bytes { self.new ≡ with_bytes self.old (take result piece.now) }
    {
        self.cursor.buffer.feed(piece)
    }

    /// The next packet; none where the bytes fed hold no further whole packet and no damage; or the capture's first damage,
    /// and then the same at each call. What is to come is the answer, and then what is to come after it.
    pub fn next_record(&mut self) -> Result<Option<Record<'_>>, NgError>
        ensures answer { seen result ≡ next ngcapture self.old }
        ensures moment { IfOk result (λ found. IfSome found (λ r. r.moment ≤ MAX_MOMENT)) }
        ensures* after { sem 𝓛 (Rests the_row self.entry (λ new. Follows ngcapture self.old (seen result) new)) }
    {
        match self.cursor.advance() {
            Ok(Some(found)) => Ok(Some(Record {
                moment: found.moment,
                place: found.place,
                bytes: self.cursor.packet(found.start, found.len),
            })),
            Ok(None) => Ok(None),
            Err(error) => Err(error),
        }
    }

    /// Whether the capture may end behind the bytes fed: `Truncated` where a part of a block is left over.
    pub fn end(&self) -> Result<(), NgError>
        requires { next ngcapture self.now ≡ Ok None }
        ensures { ngcapture.to_come self.now [] ≡ record { items = []; damage = result_err result } }
    {
        self.cursor.end()
    }
}
