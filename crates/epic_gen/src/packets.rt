//! The commands of one packet.

ghost use Rattle.std.specs.Prelude.{◌≡◌, ◌<◌, ◌≤◌, [], ◌∷◌, IfOk, Some, slice_get};
ghost use Rattle.epic_num.specs.declared.command.Command.TheVariants.{Send};
ghost use Rattle.epic_gen.specs.Names.{destination, payload_of, source};
ghost use Rattle.epic_gen.specs.Script.{level_at, packet_commands};

use crate::keys::payload_of;
use arrayvec::ArrayVec;
use epic_num::{AsId, Bytes, Command, HostId, Level};
use std::alloc::{AllocError, Global};

/// The first moment of a script, in microseconds.
pub(crate) const FIRST_MOMENT: u64 = 1_700_000_000_000_000;

/// The host that sends.
const SENDER: HostId = HostId {
    asn: AsId(0x0001_ff00_0000_0112),
    host: 1,
};

/// The host that it sends to.
const RECEIVER: HostId = HostId {
    asn: AsId(0x0001_ff00_0000_0122),
    host: 2,
};

/// The level of the packet with a number, from 0.
fn level_at(number: u32) -> Level
    ensures { result ≡ level_at number }
{
    match number % 4 {
        0 => Level::L0,
        1 => Level::L1,
        2 => Level::L2,
        _ => Level::L3,
    }
}

/// The last issues of the three segments of a packet's path.
fn path_segments() -> ArrayVec<u32, 3>
    ensures { result.items ≡ 3 ∷ 5 ∷ 8 ∷ [] }
{
    let mut segments = ArrayVec::new();
    segments.push(3);
    segments.push(5);
    segments.push(8);
    segments
}

/// The send of the packet with a number, from 0.
fn send(alloc: Global, seed: u64, number: u32) -> Result<Command, AllocError>
    ensures { IfOk result (λ c. c ≡ Send 1 (level_at number)
        (record { asn = source; host = 1 }) (record { asn = destination; host = 2 })
        (record { items = 3 ∷ 5 ∷ 8 ∷ [] }) (payload_of seed number)) }
{
    let payload = payload_of(alloc, seed, u64::from(number))?;
    Ok(Command::Send {
        version: 1,
        level: level_at(number),
        src: SENDER,
        dst: RECEIVER,
        segments: path_segments(),
        payload: Bytes::from_vec(payload),
    })
}

/// One of the three commands of the packet with a number, from 0: the `at`, the `send` or the
/// `carry`.
#[tactic(auto, unfolding(crate::specs::Script::packet_commands))]
pub(crate) fn packet_command(
    alloc: Global,
    seed: u64,
    number: u32,
    part: u32,
) -> Result<Command, AllocError>
    requires few { number ≤ 100000 }
    requires part { part < 3 }
    ensures { IfOk result (λ c. slice_get (packet_commands seed number) part ≡ Some c) }
{
    match part {
        0 => Ok(Command::At {
            moment: FIRST_MOMENT + 1000 * u64::from(number),
        }),
        1 => {
            let command = send(alloc, seed, number)?;
            Ok(command)
        }
        _ => Ok(Command::Carry {
            emission: 7 * number + 1,
        }),
    }
}
