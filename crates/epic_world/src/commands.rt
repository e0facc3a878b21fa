//! What commands worlds take, and what they are made of.
ghost use Rattle.std.specs.Prelude.{◌≡◌, ◌↔◌, ◌^◌, ◌<◌, IsTrue};
ghost use Rattle.epic_num.specs.Messages.{IsHost};
ghost use Rattle.epic_layout.specs.Contents.{IsBytes};
ghost use Rattle.epic_model.specs.World.{Fits};
ghost use Rattle.epic_world.specs.Stepped.{IsPossible};

use epic_num::{Command, HostId, MAX_MOMENT, first_byte, is_first_byte};

/// Whether the command's moment is at most `MAX_MOMENT`, and its packet's level and version exist.
#[tactic(auto, unfolding(crate::specs::Stepped::IsPossible))]
pub fn is_possible(command: &Command) -> bool
    ensures { IsTrue result ↔ IsPossible command.now }
{
    match command {
        Command::At { moment } => *moment <= MAX_MOMENT,
        Command::Send { version, level, .. } => is_first_byte(first_byte(*version, *level)),
        _ => true,
    }
}

/// What a slice of bytes holds are bytes.
pub(crate) fn are_bytes(_bytes: &[u8])
    ensures { IsBytes _bytes.now }
{}

/// The parts of a host fit their types.
fn is_host(_host: HostId)
    ensures { IsHost _host }
{}

/// The egress and the expiry of an issue fit their types.
fn is_issue(_out: u16, _exp: u8)
    ensures out { _out < 2 ^ 16 }
    ensures exp { _exp < 2 ^ 8 }
{}

/// A law of every command whose moment, level and version exist: its parts fit their types.
#[tactic(auto, unfolding(crate::specs::Stepped::IsPossible))]
pub fn fits(command: &Command)
    requires { IsPossible command.now }
    ensures { Fits command.now }
{
    match command {
        Command::Originate { out, exp, .. } => is_issue(*out, *exp),
        Command::Extend { out, exp, .. } => is_issue(*out, *exp),
        Command::Send {
            src,
            dst,
            payload,
            ..
        } => {
            is_host(*src);
            is_host(*dst);
            are_bytes(payload.as_slice());
        }
        Command::Turn { bytes, .. } => are_bytes(bytes.as_slice()),
        Command::Arrive { bytes, .. } => are_bytes(bytes.as_slice()),
        _ => {}
    }
}
