//! How a command ends.

ghost use Rattle.std.specs.Prelude.{◌≡◌, ◌≤◌, flat_map, OnOk, OnErr};
ghost use Rattle.epic_ports.specs.Faults.{FailsOnlyBy};
ghost use Rattle.epic_ports.specs.Written.{Appends, WritesBefore};
ghost use Rattle.epic_record.specs.declared.fault.FileKind.TheVariants as file_kind;
ghost use Rattle.epic_text.specs.declared.script.ScriptKind.TheVariants.{BadWord};
ghost use Rattle.epic_app.specs.End.{end_after, line_of, status_of};
ghost use Rattle.epic_app.specs.FaultLines.{capture_line, fault_line, file_line, named_file_line};
ghost use Rattle.epic_app.specs.FaultLines.{named_line, topology_line};
ghost use Rattle.epic_app.specs.Outcome.{Tells, error_sink};

use crate::judge_file::JudgedFile;
use epic_feed::Damage;
use epic_ports::{PortError, Sink, write_all};
use epic_record::FileKind;
use epic_text::ScriptKind;
use epic_topo::{TopoKey, TopoKind};
use itoa::Buffer;

/// How a command ended.
#[derive(Clone, Copy, Debug)]
pub enum End<'a> {
    /// The command was done; some tag was forged or stands for two hops, or some verdict isn't true,
    /// or none.
    Done {
        forged: bool,
    },
    /// The words are no command.
    BadWords,
    /// The topology is refused: its first fault.
    BadTopology {
        kind: TopoKind,
        key: TopoKey,
        item: u32,
    },
    /// The topology is too long.
    LongTopology,
    /// This line of the script, counted from 1, is refused.
    BadScript {
        line: u32,
        kind: ScriptKind,
    },
    /// The script is too long.
    LongScript,
    /// The capture holds a damage.
    BadCapture(Damage),
    /// This line of a file that is judged, counted from 1, is refused; 0 stands for the whole file.
    BadFile {
        file: JudgedFile,
        line: u32,
        kind: FileKind,
    },
    /// A read of the file with this name failed.
    ReadFault(&'a str),
    /// A write failed.
    WriteFault,
    OutOfMemory,
}

impl End<'_> {
    /// The status of the process.
    pub fn status(&self) -> u8
        ensures { result ≡ status_of self.now }
    {
        match self {
            End::Done { forged } => u8::from(*forged),
            End::BadWords => 2,
            End::BadTopology { .. } | End::LongTopology => 3,
            End::BadScript { .. } | End::LongScript | End::BadFile { .. } => 4,
            End::BadCapture(_) => 5,
            End::ReadFault(_) => 6,
            End::WriteFault => 7,
            End::OutOfMemory => 8,
        }
    }
}

/// The end of a command that answers this to the writing of its report.
pub fn ended<'a>(written: Result<bool, PortError>) -> End<'a>
    ensures { result ≡ end_after written }
{
    match written {
        Ok(forged) => End::Done { forged },
        Err(PortError::Failed) => End::WriteFault,
        Err(PortError::OutOfMemory) => End::OutOfMemory,
    }
}

/// Writes the pieces one after the other. After an error less of them was written.
fn write_pieces<E: Sink>(err: &mut E, pieces: &[&[u8]]) -> Result<(), PortError>
    ensures ok { OnOk result (Appends (E.written err.old) (E.written err.new)
        (flat_map (λ piece. piece.now) pieces.now)) }
    ensures err { OnErr result (WritesBefore (E.written err.old) (E.written err.new)
        (flat_map (λ piece. piece.now) pieces.now)) }
    ensures later { E.faults err.old ≤ E.faults err.new }
    ensures cause { FailsOnlyBy (E.faults err.old) (E.faults err.new) result }
{
    for piece in pieces {
        write_all(err, piece)?;
    }
    Ok(())
}

/// Writes the line of a script's fault that has a name alone.
fn write_named<E: Sink>(err: &mut E, line: u32, name: &[u8]) -> Result<(), PortError>
    ensures ok { OnOk result (Appends (E.written err.old) (E.written err.new)
        (named_line line name.now)) }
    ensures err { OnErr result (WritesBefore (E.written err.old) (E.written err.new)
        (named_line line name.now)) }
    ensures cause { FailsOnlyBy (E.faults err.old) (E.faults err.new) result }
{
    let mut number = Buffer::new();
    write_pieces(
        err,
        &[
            b"epic: script ",
            number.format(line).as_bytes(),
            b" ",
            name,
            b"\n",
        ],
    )
}

/// Writes the line of a script's fault.
fn write_fault<E: Sink>(err: &mut E, line: u32, kind: ScriptKind) -> Result<(), PortError>
    ensures ok { OnOk result (Appends (E.written err.old) (E.written err.new)
        (fault_line line kind)) }
    ensures err { OnErr result (WritesBefore (E.written err.old) (E.written err.new)
        (fault_line line kind)) }
    ensures cause { FailsOnlyBy (E.faults err.old) (E.faults err.new) result }
{
    match kind {
        ScriptKind::NotText => write_named(err, line, b"not-text"),
        ScriptKind::UnknownVerb => write_named(err, line, b"unknown-verb"),
        ScriptKind::WordCount => write_named(err, line, b"word-count"),
        ScriptKind::BadWord { word } => write_bad_word(err, line, word),
        ScriptKind::TooMany => write_named(err, line, b"too-many"),
    }
}

/// Writes the line of the fault of a word.
fn write_bad_word<E: Sink>(err: &mut E, line: u32, word: u32) -> Result<(), PortError>
    ensures ok { OnOk result (Appends (E.written err.old) (E.written err.new)
        (fault_line line (BadWord word))) }
    ensures err { OnErr result (WritesBefore (E.written err.old) (E.written err.new)
        (fault_line line (BadWord word))) }
    ensures cause { FailsOnlyBy (E.faults err.old) (E.faults err.new) result }
{
    let mut line_digits = Buffer::new();
    let mut word_digits = Buffer::new();
    write_pieces(
        err,
        &[
            b"epic: script ",
            line_digits.format(line).as_bytes(),
            b" bad-word ",
            word_digits.format(word).as_bytes(),
            b"\n",
        ],
    )
}

/// Writes the line of a topology's fault.
fn write_topology_fault<E: Sink>(
    err: &mut E,
    kind: TopoKind,
    key: TopoKey,
    item: u32,
) -> Result<(), PortError>
    ensures ok { OnOk result (Appends (E.written err.old) (E.written err.new)
        (topology_line kind key item)) }
    ensures err { OnErr result (WritesBefore (E.written err.old) (E.written err.new)
        (topology_line kind key item)) }
    ensures cause { FailsOnlyBy (E.faults err.old) (E.faults err.new) result }
{
    let mut number = Buffer::new();
    write_pieces(
        err,
        &[
            b"epic: topology ",
            kind.word().as_bytes(),
            b" ",
            key.word().as_bytes(),
            b" ",
            number.format(item).as_bytes(),
            b"\n",
        ],
    )
}

/// Writes the line of a capture's damage.
fn write_damage<E: Sink>(err: &mut E, damage: Damage) -> Result<(), PortError>
    ensures ok { OnOk result (Appends (E.written err.old) (E.written err.new)
        (capture_line damage)) }
    ensures err { OnErr result (WritesBefore (E.written err.old) (E.written err.new)
        (capture_line damage)) }
    ensures cause { FailsOnlyBy (E.faults err.old) (E.faults err.new) result }
{
    let mut number = Buffer::new();
    write_pieces(
        err,
        &[
            b"epic: capture ",
            damage.word().as_bytes(),
            b" ",
            number.format(damage.offset()).as_bytes(),
            b"\n",
        ],
    )
}

/// Writes the line of a judged file's fault that has a name alone.
fn write_named_fault<E: Sink>(
    err: &mut E,
    file: JudgedFile,
    line: u32,
    name: &'static [u8],
) -> Result<(), PortError>
    ensures ok { OnOk result (Appends (E.written err.old) (E.written err.new)
        (named_file_line file line name.now)) }
    ensures err { OnErr result (WritesBefore (E.written err.old) (E.written err.new)
        (named_file_line file line name.now)) }
    ensures cause { FailsOnlyBy (E.faults err.old) (E.faults err.new) result }
{
    let mut number = Buffer::new();
    write_pieces(
        err,
        &[
            b"epic: ",
            file.word().as_bytes(),
            b" ",
            number.format(line).as_bytes(),
            b" ",
            name,
            b"\n",
        ],
    )
}

/// Writes the line of the fault of a word in a judged file.
fn write_file_word<E: Sink>(
    err: &mut E,
    file: JudgedFile,
    line: u32,
    word: u32,
) -> Result<(), PortError>
    ensures ok { OnOk result (Appends (E.written err.old) (E.written err.new)
        (file_line file line (file_kind.BadWord word))) }
    ensures err { OnErr result (WritesBefore (E.written err.old) (E.written err.new)
        (file_line file line (file_kind.BadWord word))) }
    ensures cause { FailsOnlyBy (E.faults err.old) (E.faults err.new) result }
{
    let mut line_digits = Buffer::new();
    let mut word_digits = Buffer::new();
    write_pieces(
        err,
        &[
            b"epic: ",
            file.word().as_bytes(),
            b" ",
            line_digits.format(line).as_bytes(),
            b" bad-word ",
            word_digits.format(word).as_bytes(),
            b"\n",
        ],
    )
}

/// Writes the line of a judged file's fault.
fn write_file_fault<E: Sink>(
    err: &mut E,
    file: JudgedFile,
    line: u32,
    kind: FileKind,
) -> Result<(), PortError>
    ensures ok { OnOk result (Appends (E.written err.old) (E.written err.new)
        (file_line file line kind)) }
    ensures err { OnErr result (WritesBefore (E.written err.old) (E.written err.new)
        (file_line file line kind)) }
    ensures cause { FailsOnlyBy (E.faults err.old) (E.faults err.new) result }
{
    match kind {
        FileKind::NotText => write_named_fault(err, file, line, b"not-text"),
        FileKind::UnknownVerb => write_named_fault(err, file, line, b"unknown-verb"),
        FileKind::WordCount => write_named_fault(err, file, line, b"word-count"),
        FileKind::BadWord { word } => write_file_word(err, file, line, word),
        FileKind::BadPlace => write_named_fault(err, file, line, b"bad-place"),
        FileKind::Missing => write_named_fault(err, file, line, b"missing"),
        FileKind::Extra => write_named_fault(err, file, line, b"extra"),
        FileKind::TooLong => write_named_fault(err, file, line, b"too-long"),
    }
}

/// Writes the line of `end`, if it has one.
fn write_end<E: Sink>(err: &mut E, end: &End<'_>) -> Result<(), PortError>
    ensures ok { OnOk result (Appends (E.written err.old) (E.written err.new) (line_of end.now)) }
    ensures err { OnErr result (WritesBefore (E.written err.old) (E.written err.new)
        (line_of end.now)) }
    ensures cause { FailsOnlyBy (E.faults err.old) (E.faults err.new) result }
{
    match end {
        End::Done { .. } => Ok(()),
        End::BadWords => write_all(err, b"epic: words\n"),
        End::BadScript { line, kind } => write_fault(err, *line, *kind),
        End::BadTopology { kind, key, item } => write_topology_fault(err, *kind, *key, *item),
        End::LongTopology => write_all(err, b"epic: topology too-long text 0\n"),
        End::LongScript => write_all(err, b"epic: script too-long\n"),
        End::BadCapture(damage) => write_damage(err, *damage),
        End::BadFile { file, line, kind } => write_file_fault(err, *file, *line, *kind),
        End::ReadFault(name) => write_pieces(err, &[b"epic: read ", name.as_bytes(), b"\n"]),
        End::WriteFault => write_all(err, b"epic: write\n"),
        End::OutOfMemory => write_all(err, b"epic: memory\n"),
    }
}

/// Tells `end` to the errors. No memory is taken, and a failure of the errors changes nothing
/// else.
pub fn tell<E: Sink>(err: &mut E, end: &End<'_>)
    ensures { Tells
        (error_sink (E.written err.old) (E.faults err.old))
        (error_sink (E.written err.new) (E.faults err.new))
        (line_of end.now) }
{
    let _ = write_end(err, end);
}
