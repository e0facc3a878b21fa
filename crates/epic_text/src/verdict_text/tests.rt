//! The words of verdicts.

ghost use Rattle.epic_text.specs.VerdictText.{IsTellable};

use super::*;
use crate::samples::{BEFORE, LAST, LEAF, MIDDLE, NEVER_ISSUED, decoded, reads, topology};
use epic_num::{ForgedKind, Forgery, KeyName};
use std::test::Fail;

/// Appends the line of a hop's verdict.
fn push_hop(
    to: &mut Vec<u8>,
    step: u32,
    topo: &Topology,
    packet: &PacketRef<'_>,
    hop: usize,
    verdict: &Verdict,
) -> Result<(), Fail>
    requires { IsTellable topo.now packet.now verdict.now }
{
    print_hop(to, step, topo, packet, hop, verdict)?;
    Ok(())
}

/// Appends the line of the verdict of a packet that arrived.
fn push_dest(
    to: &mut Vec<u8>,
    step: u32,
    topo: &Topology,
    packet: &PacketRef<'_>,
    verdict: &Verdict,
) -> Result<(), Fail>
    requires { IsTellable topo.now packet.now verdict.now }
{
    print_dest(to, step, topo, packet, verdict)?;
    Ok(())
}

#[test]
fn words_of_verdicts(rt: HostRuntime) -> Result<(), Fail> {
    let alloc = rt.alloc();
    let topo = topology(&rt, alloc)?;
    let came = decoded(alloc, NEVER_ISSUED)?;
    let packet = PacketRef::look(&came)?;
    let mut to = Vec::new(alloc);
    let proved = Verdict::Proved { issue: 3, send: 0 };
    push_hop(&mut to, 5, &topo, &packet, 0, &proved)?;
    let proved = Verdict::Proved { issue: 3, send: 2 };
    push_hop(&mut to, 5, &topo, &packet, 1, &proved)?;
    let proved = Verdict::Proved { issue: 0, send: 2 };
    push_dest(&mut to, 5, &topo, &packet, &proved)?;
    push_dest(&mut to, 5, &topo, &packet, &Verdict::Unclaimed)?;
    let opened = Verdict::Opened { step: 4 };
    push_hop(&mut to, 5, &topo, &packet, 2, &opened)?;
    let lines =
        "5 hop 0 proved 3\n5 hop 1 proved 3 2\n5 dest proved 2\n5 dest unclaimed\n5 hop 2 opened 4\n";
    reads(&rt, to.as_slice(), lines);
    Ok(())
}

#[test]
#[tactic(auto, unfolding(epic_audit::specs::ForgedText::has_form, epic_audit::specs::ForgedText::fits_level, epic_keys::specs::Keys::owner))]
fn words_of_faults(rt: HostRuntime) -> Result<(), Fail> {
    let alloc = rt.alloc();
    let topo = topology(&rt, alloc)?;
    let came = decoded(alloc, NEVER_ISSUED)?;
    let packet = PacketRef::look(&came)?;
    let mut to = Vec::new(alloc);
    assert!(rt; topo.has(LEAF));
    assert!(rt; topo.has(MIDDLE));
    assert!(rt; 0 < packet.shape().hops);
    let forgery = Forgery {
        kind: ForgedKind::Issue,
        hop: 0,
        key: KeyName::Fwd { a: LEAF, g: 0 },
        generation: 0,
    };
    push_hop(&mut to, 5, &topo, &packet, 0, &Verdict::Forged(forgery))?;
    let link = Collision {
        part: Part::Link,
        left: BEFORE,
        right: LAST,
    };
    push_hop(&mut to, 6, &topo, &packet, 1, &Verdict::Collided(link))?;
    let sigma = Collision {
        part: Part::Sigma,
        left: LAST,
        right: BEFORE,
    };
    push_dest(&mut to, 7, &topo, &packet, &Verdict::Collided(sigma))?;
    let lines =
        "5 hop 0 forged issue fwd,1-ff00:0:112,0 01033e6553f10000010000f02fdcef5be86197 f8c961\n\
            6 hop 1 collided link 1-ff00:0:111 0 023f6553f100000100025fc8567cf27d6859 1-ff00:0:11\
            2 0 033f6553f10000010000f02fdcef5be86197 f02fdcef5be86197\n7 dest collided sigma 1-ff00:\
            0:112 0 033f6553f10000010000f02fdcef5be86197 1-ff00:0:111 0 023f6553f100000100025fc8567c\
            f27d6859 3095d2a19c79f0250e31f22fb0d3b59d\n";
    reads(&rt, to.as_slice(), lines);
    Ok(())
}
