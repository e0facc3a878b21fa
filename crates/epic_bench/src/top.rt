//! The top call.

ghost use Rattle.std.specs.Prelude.{◌≡◌, map, IfOk};
ghost use Rattle.std.specs.String.{string_bytes};
ghost use Rattle.epic_bench.specs.Request.{HasRounds, request_of};
ghost use Rattle.epic_bench.specs.Run.{Ends, EndsWith, Tells, error_line, output, status_of};

use crate::report::text;
use crate::words::{Request, requested};
use epic_ports::{Sink, write_all};
use std::alloc::AllocError;
use std::rt::Clock;

/// How a run ended.
#[derive(Clone, Copy, Debug)]
pub(crate) enum End {
    Done,
    /// The words are no command.
    BadWords,
    /// The packet for the turns can't be made.
    NoPacket,
    /// The clock couldn't be read.
    NoClock,
    /// A write failed.
    WriteFailed,
    OutOfMemory,
}

impl End {
    /// The status of the process.
    pub(crate) fn status(self) -> u8
        ensures { result ≡ status_of self }
    {
        match self {
            End::Done => 0,
            End::BadWords => 2,
            End::NoPacket => 4,
            End::NoClock => 6,
            End::WriteFailed => 7,
            End::OutOfMemory => 8,
        }
    }

    /// What the errors get.
    fn line(self) -> &'static [u8]
        ensures { result.now ≡ error_line self }
    {
        match self {
            End::Done => b"",
            End::BadWords => b"epic_bench: words\n",
            End::NoPacket => b"epic_bench: packet\n",
            End::NoClock => b"epic_bench: clock\n",
            End::WriteFailed => b"epic_bench: write\n",
            End::OutOfMemory => b"epic_bench: memory\n",
        }
    }
}

impl From<AllocError> for End {
    ghost use Rattle.epic_bench.specs.declared.top.End.TheVariants.{OutOfMemory};

    ghost from_gives = { λ _ e. e ≡ OutOfMemory };

    fn from(_e: AllocError) -> End {
        End::OutOfMemory
    }
}

/// Prints what the request asks for.
fn print<R: Clock + AllocGlobal, O: Sink>(rt: &R, request: Request, out: &mut O) -> End
    requires { HasRounds request }
    ensures { EndsWith request
        (output (O.written out.old) (O.faults out.old))
        (output (O.written out.new) (O.faults out.new))
        result }
{
    match text(rt, request) {
        Ok(text) => match write_all(out, text.as_bytes()) {
            Ok(()) => End::Done,
            Err(_) => End::WriteFailed,
        },
        Err(end) => end,
    }
}

/// Tells the end to the errors. A failure of theirs changes nothing else.
fn tell<E: Sink>(err: &mut E, end: End)
    ensures { Tells
        (output (E.written err.old) (E.faults err.old))
        (output (E.written err.new) (E.faults err.new))
        (error_line end) }
{
    let _ = write_all(err, end.line());
}

/// Does what the words after the program's name ask for: `WORK ROUNDS` prints the line of a work with its time, `digests
/// ROUNDS` the lines of all works without times.
pub(crate) fn bench<R: Clock + AllocGlobal, O: Sink, E: Sink>(
    rt: &R,
    words: &[String],
    out: &mut O,
    err: &mut E,
) -> End
    ensures ends { Ends (request_of (map string_bytes words.now))
        (output (O.written out.old) (O.faults out.old))
        (output (O.written out.new) (O.faults out.new))
        result }
    ensures told { Tells
        (output (E.written err.old) (E.faults err.old))
        (output (E.written err.new) (E.faults err.new))
        (error_line result) }
{
    let end = match requested(words) {
        Some(request) => print(rt, request, out),
        None => End::BadWords,
    };
    tell(err, end);
    end
}
