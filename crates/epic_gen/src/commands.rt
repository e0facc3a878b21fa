//! The commands of a generated script, one at a time.

ghost use Rattle.std.specs.Prelude.{◌≡◌, ◌+◌, ◌*◌, ◌<◌, ◌≤◌, IfOk, Some, slice_get};
ghost use Rattle.epic_num.specs.declared.command.Command.TheVariants.{Extend, Fetch, Originate};
ghost use Rattle.epic_gen.specs.Names.{source};
ghost use Rattle.epic_gen.specs.Script.{generated, head_commands};

use crate::packets::{FIRST_MOMENT, packet_command};
use epic_num::{AsId, Command};
use std::alloc::{AllocError, Global};

/// How many commands come before those of packets.
const HEAD: u32 = 14;

/// The epoch of keys in which the script's moments lie.
const EPOCH: u64 = 19675;

const FIRST_CORE: AsId = AsId(0x0001_ff00_0000_0110);

const SECOND_CORE: AsId = AsId(0x0001_ff00_0000_0120);

const FIRST_CHILD: AsId = AsId(0x0001_ff00_0000_0111);

const SOURCE: AsId = AsId(0x0001_ff00_0000_0112);

const SECOND_CHILD: AsId = AsId(0x0001_ff00_0000_0121);

const DESTINATION: AsId = AsId(0x0001_ff00_0000_0122);

/// The command at a place before those of packets.
#[tactic(auto, unfolding(crate::specs::Script::head_commands))]
fn head_command(place: u32) -> Command
    requires { place < 14 }
    ensures { slice_get head_commands place ≡ Some result }
{
    match place {
        0 => Command::At {
            moment: FIRST_MOMENT,
        },
        1 => originate(FIRST_CORE, 2),
        2 => extend(1, 2),
        3 => extend(2, 0),
        4 => originate(FIRST_CORE, 1),
        5 => extend(4, 0),
        6 => originate(SECOND_CORE, 2),
        7 => extend(6, 2),
        8 => extend(7, 0),
        9 => fetch(FIRST_CHILD),
        10 => fetch(FIRST_CORE),
        11 => fetch(SECOND_CORE),
        12 => fetch(SECOND_CHILD),
        _ => fetch(DESTINATION),
    }
}

/// A beacon that starts at a core AS.
fn originate(a: AsId, out: u16) -> Command
    ensures { result ≡ Originate a out 63 }
{
    Command::Originate { a, out, exp: 63 }
}

/// A beacon that goes on from an issue.
fn extend(parent: u32, out: u16) -> Command
    ensures { result ≡ Extend parent out 63 }
{
    Command::Extend {
        parent,
        out,
        exp: 63,
    }
}

/// The source gets its key of another AS.
fn fetch(owner: AsId) -> Command
    ensures { result ≡ Fetch source owner 19675 }
{
    Command::Fetch {
        source: SOURCE,
        owner,
        epoch: EPOCH,
    }
}

/// The command at a place, from 0, of the script that is generated from a seed and some number of
/// packets.
#[tactic(auto, unfolding(crate::specs::Script::generated))]
pub fn command_at(alloc: Global, seed: u64, packets: u32, place: u32) -> Result<Command, AllocError>
    requires few { packets ≤ 100000 }
    requires place { place < 14 + 3 * packets }
    ensures { IfOk result (λ c. slice_get (generated seed packets) place ≡ Some c) }
{
    let _packets = packets;
    if place < HEAD {
        return Ok(head_command(place));
    }
    let place = place - HEAD;
    packet_command(alloc, seed, place / 3, place % 3)
}
