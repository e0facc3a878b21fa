//! Destination fields that a packet's source made, sought along the events of an index.
ghost use Rattle.std.specs.Prelude.{◌≡◌, false};
ghost use Rattle.std.specs.Option.{option_map_or};
ghost use Rattle.epic_ledger.specs.Facts.{facts_of};
ghost use Rattle.epic_index.specs.Events.{send_at, sent_name_at};
ghost use Rattle.epic_judging.specs.Given as given;
ghost use Rattle.epic_judge.specs.Known.{AreKnown};
ghost use Rattle.epic_judge.specs.Sendings.{makes_dest_by};

use crate::dest_bytes::is_sent_message;
use epic_index::Index;
use epic_num::{HostId, is_tagged, same_host};
use epic_view::PacketRef;

/// Whether the packet that the event sent is of the source, to the destination and of the epoch, and its destination field
/// is made over the message.
fn makes_dest(
    index: &Index<'_>,
    number: u64,
    dst: HostId,
    src: HostId,
    epoch: u64,
    message: &[u8],
    sent: &PacketRef<'_>,
) -> bool
    requires { AreKnown index.now.network (facts_of index.now.history) }
    ensures { result ≡ makes_dest_by index.now.network dst src epoch message.now sent.now (sent_name_at index.now.history number) }
{
    same_host(sent.src(), src)
        && same_host(sent.dst(), dst)
        && is_tagged(sent.first_byte())
        && index.topology().profile().epoch_of(sent.ts()) == epoch
        && is_sent_message(index, number, sent, message)
}

/// Whether the source sent such a packet by the event.
fn dest_made_at(
    index: &Index<'_>,
    number: u64,
    dst: HostId,
    src: HostId,
    epoch: u64,
    message: &[u8],
) -> bool
    requires { AreKnown index.now.network (facts_of index.now.history) }
    ensures { result ≡ option_map_or (given.makes_dest index.now.network (facts_of index.now.history).issues dst src epoch message.now) (send_at index.now.history number) false }
{
    match index.sent_at(number) {
        Some((_, sent)) => makes_dest(index, number, dst, src, epoch, message, &sent),
        None => false,
    }
}

/// Whether the source made a destination field over the message in the epoch.
pub fn made_dest(index: &Index<'_>, dst: HostId, src: HostId, epoch: u64, message: &[u8]) -> bool
    requires { AreKnown index.now.network (facts_of index.now.history) }
    ensures { result ≡ given.made_dest index.now.network (facts_of index.now.history) dst src epoch message.now }
{
    for number in 0..index.events() {
        if dest_made_at(index, number, dst, src, epoch, message) {
            return true;
        }
    }
    false
}
