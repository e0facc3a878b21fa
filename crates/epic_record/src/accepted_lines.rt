//! The lines of what was accepted of the bytes that came to a place.

ghost use Rattle.std.specs.Prelude.{◌≡◌, ◌++◌, ◌<◌, ◌^◌, length, take, OnErr, OnOk};
ghost use Rattle.epic_layout.specs.Layout.{parse};
ghost use Rattle.epic_text.specs.Line.{Prints};
ghost use Rattle.epic_record.specs.LedgerText.{ledger_text};
ghost use Rattle.epic_record.specs.Passing.{accepted_items, generations_of, hops_from};

use crate::ledger_line::{print_accept, print_accept_dest};
use epic_layout::wire::CURRENT_AT;
use epic_num::{Arrival, AsId, OutOfMemory, PassResult, Place, Turn};

/// The index of a packet's current hop, 0 where the bytes are too few to have one.
#[tactic(auto, unfolding(epic_layout::specs::Layout::parse))]
fn current_hop(bytes: &[u8]) -> usize
    ensures value { result ≡ (parse bytes.now).current }
    ensures small { result < 2 ^ 8 }
{
    if CURRENT_AT < bytes.len() {
        usize::from(bytes[CURRENT_AT])
    } else {
        0
    }
}

/// Appends the lines of hops that the router of an AS accepted, from one on, each under a generation of its key. On an
/// error a part of them may stand behind what was there.
fn append_hops(
    to: &mut Vec<u8>,
    a: AsId,
    first: usize,
    hops: u8,
    generations: &[u32; 2],
    came: &[u8],
) -> Result<(), OutOfMemory>
    requires { first < 2 ^ 8 }
    ensures ok { OnOk result (to.new.items ≡
        to.old.items ++ ledger_text (hops_from a first came.now (take hops generations.now))) }
    ensures err { OnErr result (take (length to.old.items) to.new.items ≡ to.old.items) }
{
    if hops == 0 {
        return Ok(());
    }
    let [generation, next] = *generations;
    print_accept(to, a, generation, first, came)?;
    if hops == 1 {
        return Ok(());
    }
    print_accept(to, a, next, first + 1, came)?;
    Ok(())
}

/// Appends the lines of hops that the router of an AS accepted, from the packet's current one on. On an error `to` is as
/// it was.
fn print_hops(
    to: &mut Vec<u8>,
    a: AsId,
    hops: u8,
    generations: &[u32; 2],
    came: &[u8],
) -> Result<(), OutOfMemory>
    ensures { Prints to.old.items to.new.items
        (ledger_text (hops_from a (parse came.now).current came.now (take hops generations.now)))
        result }
{
    let start = to.len();
    let done = append_hops(to, a, current_hop(came), hops, generations, came);
    if done.is_err() {
        to.truncate(start);
    }
    done
}

/// Appends the lines of what the router of an AS accepted.
#[tactic(auto, unfolding(crate::specs::Passing::accepted_items, crate::specs::Passing::generations_of, crate::specs::LedgerText::ledger_text))]
fn print_turned(to: &mut Vec<u8>, a: AsId, turn: &Turn, came: &[u8]) -> Result<(), OutOfMemory>
    ensures { Prints to.old.items to.new.items
        (ledger_text (hops_from a (parse came.now).current came.now (generations_of turn.now)))
        result }
{
    match turn {
        Turn::Forward {
            hops,
            generations,
            ..
        } => print_hops(to, a, *hops, generations, came),
        Turn::Deliver {
            hops,
            generations,
            ..
        } => print_hops(to, a, *hops, generations, came),
        Turn::Refused { .. } => Ok(()),
    }
}

/// Appends the lines of what was accepted of the bytes that came to a place: the hops that a router handled, from the
/// packet's current one on, or the packet itself at its destination; none where they were refused.
///
/// On an error `to` is as it was.
#[tactic(auto, unfolding(crate::specs::Passing::accepted_items, crate::specs::LedgerText::ledger_text))]
pub fn print_accepted(
    to: &mut Vec<u8>,
    place: &Place,
    came: &[u8],
    outcome: &PassResult,
) -> Result<(), OutOfMemory>
    ensures { Prints to.old.items to.new.items
        (ledger_text (accepted_items place.now came.now outcome.now))
        result }
{
    match (place, outcome) {
        (Place::Router { asn, .. }, PassResult::Turned(turn)) => {
            print_turned(to, *asn, turn, came)
        }
        (Place::Host(host), PassResult::Arrived(Arrival::Accepted | Arrival::Unchecked)) => {
            print_accept_dest(to, *host, came)
        }
        _ => Ok(()),
    }
}
