//! What the types of a command's parts say of them.
ghost use Rattle.std.specs.Prelude.{◌^◌, ◌<◌};
ghost use Rattle.epic_num.specs.Messages.{IsHost};
ghost use Rattle.epic_text.specs.RunScript.{HolderFits};
ghost use Rattle.epic_rerun.specs.Rerun.{NamesFit};

use epic_num::{Command, Holder, HostId};

/// The parts of a host fit their types.
fn is_host(_host: HostId)
    ensures { IsHost _host }
{}

/// An epoch fits its type.
fn is_epoch(_epoch: u64)
    ensures { _epoch < 2 ^ 64 }
{}

/// The host of a holder that is one fits its types.
fn is_holder(holder: Holder)
    ensures { HolderFits holder }
{
    match holder {
        Holder::Host(host) => is_host(host),
        Holder::As(_) => {}
    }
}

/// A law of every command: what a ledger has from it alone fits its type.
pub fn names_fit(command: &Command)
    ensures { NamesFit command.now }
{
    match command {
        Command::Fetch { epoch, .. } => is_epoch(*epoch),
        Command::Arrive { host, .. } => is_host(*host),
        Command::Reveal { holder } => is_holder(*holder),
        _ => {}
    }
}
