//! Text that is written to the output.

ghost use Rattle.std.specs.Prelude.{◌≤◌};
ghost use Rattle.epic_app.specs.Writing.{Writes};

use epic_ports::{PortError, Sink, write_all};

/// Writes a text, or less of it after an error.
pub fn write_text<O: Sink>(text: &[u8], out: &mut O) -> Result<(), PortError>
    ensures text { Writes text.now (O.written out.old) (O.written out.new)
        (O.faults out.old) (O.faults out.new) result }
    ensures later { O.faults out.old ≤ O.faults out.new }
{
    write_all(out, text)
}
