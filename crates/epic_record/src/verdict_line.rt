//! The lines of a verdict file.

ghost use Rattle.epic_text.specs.Line.{Prints};
ghost use Rattle.epic_text.specs.VerdictText.{IsTellable};
ghost use Rattle.epic_record.specs.VerdictLines.{dest_verdict_line, hop_verdict_line};

use crate::line::{allocated, append, end_line};
use epic_num::{OutOfMemory, Verdict};
use epic_text::print_verdict;
use epic_topo::Topology;
use epic_view::PacketRef;

/// Appends the line of a verdict on a hop that a router accepted, by its index in the packet, from 0. `packet` is as it
/// came in. On an error `to` is as it was.
#[tactic(auto, using(epic_text::proofs::VerdictLemmas::hop_front))]
pub fn print_hop_verdict(
    to: &mut Vec<u8>,
    topo: &Topology,
    packet: &PacketRef<'_>,
    hop: u8,
    verdict: &Verdict,
) -> Result<(), OutOfMemory>
    requires { IsTellable topo.now packet.now verdict.now }
    ensures { Prints to.old.items to.new.items (hop_verdict_line topo.now packet.now hop verdict.now) result }
{
    let mut line = allocated(format!(in *to.allocator(); "hop {hop} "))?.into_bytes();
    print_verdict(&mut line, topo, packet, verdict)?;
    end_line(&mut line)?;
    append(to, &line)
}

/// Appends the line of a verdict on a packet that its destination took. `packet` is as it came in. On an error `to` is as
/// it was.
#[tactic(auto, using(epic_text::proofs::VerdictLemmas::dest_front))]
pub fn print_dest_verdict(
    to: &mut Vec<u8>,
    topo: &Topology,
    packet: &PacketRef<'_>,
    verdict: &Verdict,
) -> Result<(), OutOfMemory>
    requires { IsTellable topo.now packet.now verdict.now }
    ensures { Prints to.old.items to.new.items (dest_verdict_line topo.now packet.now verdict.now) result }
{
    let mut line = allocated(Vec::from_slice(*to.allocator(), b"dest "))?;
    print_verdict(&mut line, topo, packet, verdict)?;
    end_line(&mut line)?;
    append(to, &line)
}
