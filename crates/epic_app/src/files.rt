//! The files that commands read: a topology, commands line by line, and the two that are judged.

ghost use Rattle.std.specs.Prelude.{◌≡◌, ◌^◌, ◌<◌, ◌≤◌, IfOk, List, ℕ, Ok, length};
ghost use Rattle.epic_ports.specs.Faults.{CountsOnly};
ghost use Rattle.epic_ports.specs.Files.{KeepsFiles};
ghost use Rattle.epic_text.specs.Script.{commands_of};
ghost use Rattle.epic_app.specs.Doing.{on_commands, on_judged, on_topology};
ghost use Rattle.epic_app.specs.FilesRead.{Leads};

use crate::end::End;
use crate::judge_file::JudgedFile;
use epic_ports::{ReadError, Store, read_whole};
use epic_record::FileKind;
use epic_text::{FromWords, ScriptError, read_script};
use epic_topo::{TopoError, Topology, read_topology};
use std::alloc::Global;

/// The greatest length of a topology, in bytes.
const TOPOLOGY_LIMIT: u64 = 1_048_576;

/// The topology of a file, or how the command ends without one.
pub fn topology_in<'a, S: Store>(
    alloc: Global,
    name: &'a str,
    store: &mut S,
) -> Result<Topology, End<'a>>
    ensures leads { Leads (S.contents store.old) name.entry.now
        (S.reads store.old name.entry.now) (S.reads store.new name.entry.now)
        (on_topology name.entry.now) (λ t. t) result }
    ensures contents { KeepsFiles (S.contents store.old) (S.contents store.new) }
    ensures reads { CountsOnly name.entry.now (S.reads store.old) (S.reads store.new) }
    ensures writes { S.writes store.new ≡ S.writes store.old }
{
    let text = match read_whole(alloc, store, name, TOPOLOGY_LIMIT) {
        Ok(text) => text,
        Err(ReadError::Failed) => return Err(End::ReadFault(name)),
        Err(ReadError::TooLong) => return Err(End::LongTopology),
        Err(ReadError::OutOfMemory) => return Err(End::OutOfMemory),
    };
    match read_topology(alloc, &text) {
        Ok(topo) => Ok(topo),
        Err(TopoError::Bad { kind, key, item }) => Err(End::BadTopology { kind, key, item }),
        Err(TopoError::OutOfMemory) => Err(End::OutOfMemory),
    }
}

/// The commands of a file of at most `limit` bytes, or how the command ends without them.
pub fn commands_in<'a, C: FromWords, S: Store>(
    alloc: Global,
    name: &'a str,
    limit: u64,
    store: &mut S,
) -> Result<Vec<C>, End<'a>>
    requires { limit < 2 ^ 32 }
    ensures leads { Leads (S.contents store.old) name.entry.now
        (S.reads store.old name.entry.now) (S.reads store.new name.entry.now)
        (on_commands name.entry.now limit C.rule) (λ commands. commands.items) result }
    ensures spelled { IfOk result (λ commands.
        (text : List ℕ) × (commands_of C.rule text ≡ Ok commands.items)) }
    ensures few { IfOk result (λ commands. length commands.items ≤ 524288) }
    ensures contents { KeepsFiles (S.contents store.old) (S.contents store.new) }
    ensures reads { CountsOnly name.entry.now (S.reads store.old) (S.reads store.new) }
    ensures writes { S.writes store.new ≡ S.writes store.old }
{
    let text = match read_whole(alloc, store, name, limit) {
        Ok(text) => text,
        Err(ReadError::Failed) => return Err(End::ReadFault(name)),
        Err(ReadError::TooLong) => return Err(End::LongScript),
        Err(ReadError::OutOfMemory) => return Err(End::OutOfMemory),
    };
    match read_script::<C>(alloc, &text) {
        Ok(commands) => Ok(commands),
        Err(ScriptError::Bad { line, kind }) => Err(End::BadScript { line, kind }),
        Err(ScriptError::OutOfMemory) => Err(End::OutOfMemory),
    }
}

/// The bytes of a file that is to be judged, or how the command ends without them.
pub fn judged_in<'a, S: Store>(
    alloc: Global,
    name: &'a str,
    file: JudgedFile,
    store: &mut S,
) -> Result<Vec<u8>, End<'a>>
    ensures leads { Leads (S.contents store.old) name.entry.now
        (S.reads store.old name.entry.now) (S.reads store.new name.entry.now)
        (on_judged file name.entry.now) (λ text. text.items) result }
    ensures contents { KeepsFiles (S.contents store.old) (S.contents store.new) }
    ensures reads { CountsOnly name.entry.now (S.reads store.old) (S.reads store.new) }
    ensures writes { S.writes store.new ≡ S.writes store.old }
{
    match read_whole(alloc, store, name, file.limit()) {
        Ok(text) => Ok(text),
        Err(ReadError::Failed) => Err(End::ReadFault(name)),
        Err(ReadError::TooLong) => Err(End::BadFile {
            file,
            line: 0,
            kind: FileKind::TooLong,
        }),
        Err(ReadError::OutOfMemory) => Err(End::OutOfMemory),
    }
}
