//! The readers of the two forms, as one reads them.

ghost use Rattle.std.specs.Prelude.{◌≡◌, ◌+◌, ◌-◌, ◌≤◌, ℕ, List, [], ◌++◌, length, take, min, None, Ok, IfOk, IfSome};
ghost use Rattle.std.specs.Borrow.{sem};
ghost use Rattle.std.specs.Io.BufRead.{Rests};
ghost use Rattle.std.specs.Result.{result_err};
ghost use Rattle.epic_num.specs.declared.moment.TheConstants.{MAX_MOMENT};
ghost use Rattle.epic_capture.specs.Seen.{seen};
ghost use Rattle.epic_capture.specs.Streams.{Follows, Stream, next};
ghost use Rattle.epic_feed.specs.declared.damage.Damage.{Damage};

use crate::Damage;
use epic_capture::{Reader, Record};
use epic_pcapng::NgReader;

/// A reader of captures in one form.
pub(crate) trait Form {
    ghost stream: { Stream Self Damage };

    /// Takes as many bytes of the next piece as there is room for, and says how many.
    fn feed(&mut self, piece: &[u8]) -> usize
        ensures count { result ≡ min (length piece.now) (stream.size - length (stream.held self.old)) }
        ensures held { length (stream.held self.new) ≡ length (stream.held self.old) + result }
        ensures fed { stream.fed self.new ≡ stream.fed self.old + result }
        ensures bytes { (rest : List ℕ)
            → stream.to_come self.new rest ≡ stream.to_come self.old (take result piece.now ++ rest) };

    /// The next record, or the first damage; none where more bytes are needed.
    fn next_record(&mut self) -> Result<Option<Record<'_>>, Damage>
        ensures answer { seen result ≡ next stream self.old }
        ensures moment { IfOk result (λ found. IfSome found (λ r. r.moment ≤ MAX_MOMENT)) }
        ensures* after { sem 𝓛 (Rests Self.row self.entry (λ new. Follows stream self.old (seen result) new)) };

    /// Whether the capture may end here.
    fn end(&self) -> Result<(), Damage>
        requires { next stream self.now ≡ Ok None }
        ensures { stream.to_come self.now [] ≡ record { items = []; damage = result_err result } };

    ghost is_large: { 4100 ≤ stream.size };

    ghost is_small: { stream.size ≤ 65536 };
}

impl Form for Reader {
    ghost use Rattle.std.proofs.Common.{rules};
    ghost use Rattle.epic_feed.specs.Forms.{classic};

    ghost stream = { classic };

    fn feed(&mut self, piece: &[u8]) -> usize {
        Reader::feed(self, piece)
    }

    #[tactic(auto, using(crate::proofs::Told::classic_some, crate::proofs::Told::classic_none, crate::proofs::Told::classic_err, crate::proofs::Told::classic_next))]
    fn next_record(&mut self) -> Result<Option<Record<'_>>, Damage> {
        match Reader::next_record(self) {
            Ok(Some(found)) => Ok(Some(found)),
            Ok(None) => Ok(None),
            Err(error) => Err(Damage::Classic(error)),
        }
    }

    fn end(&self) -> Result<(), Damage> {
        match Reader::end(self) {
            Ok(()) => Ok(()),
            Err(error) => Err(Damage::Classic(error)),
        }
    }

    ghost is_large = { Prim.search rules };

    ghost is_small = { Prim.search rules };
}

impl Form for NgReader {
    ghost use Rattle.std.proofs.Common.{rules};
    ghost use Rattle.epic_feed.specs.Forms.{ng};

    ghost stream = { ng };

    fn feed(&mut self, piece: &[u8]) -> usize {
        NgReader::feed(self, piece)
    }

    #[tactic(auto, using(crate::proofs::Told::ng_some, crate::proofs::Told::ng_none, crate::proofs::Told::ng_err, crate::proofs::Told::ng_next))]
    fn next_record(&mut self) -> Result<Option<Record<'_>>, Damage> {
        match NgReader::next_record(self) {
            Ok(Some(found)) => Ok(Some(found)),
            Ok(None) => Ok(None),
            Err(error) => Err(Damage::Ng(error)),
        }
    }

    fn end(&self) -> Result<(), Damage> {
        match NgReader::end(self) {
            Ok(()) => Ok(()),
            Err(error) => Err(Damage::Ng(error)),
        }
    }

    ghost is_large = { Prim.search rules };

    ghost is_small = { Prim.search rules };
}
