//! The command `hop`: one AS issues hops and checks their fields.

ghost use Rattle.epic_app.specs.Acts.{world};
ghost use Rattle.epic_app.specs.End.{EndsAs};
ghost use Rattle.epic_words.specs.Request.{Hop};

use crate::end::{End, ended};
use crate::files::commands_in;
use crate::hop_file::HopCommand;
use crate::hop_report::write_report;
use epic_ports::{Sink, Store};
use std::alloc::Global;

/// The greatest length of its file, in bytes.
const FILE_LIMIT: u64 = 1_048_576;

/// Reads and checks the whole file, then answers it line by line under the forwarding key `key`.
pub fn hop<'a, S: Store, O: Sink>(
    alloc: Global,
    key: &[u8; 16],
    file: &'a str,
    store: &mut S,
    out: &mut O,
) -> End<'a>
    ensures { EndsAs (Hop key.now file.entry.now)
        (world (S.contents store.old) (S.reads store.old) (S.writes store.old)
        (O.written out.old) (O.faults out.old))
        (world (S.contents store.new) (S.reads store.new) (S.writes store.new)
        (O.written out.new) (O.faults out.new))
        result }
{
    let commands = match commands_in::<HopCommand, S>(alloc, file, FILE_LIMIT, store) {
        Ok(commands) => commands,
        Err(end) => return end,
    };
    ended(write_report(alloc, key, &commands, out))
}
