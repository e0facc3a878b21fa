//! What is said of a packet while the ledger fills.
ghost use Rattle.std.specs.Prelude.{◌≡◌, ◌≤◌, [], IfOk};

use super::*;
use epic_ledger::{Event, Ledger};
use epic_num::{AsId, ForgedKind, Forgery, Holder, HopName, HostId, KeyName, Verdict};
use epic_topo::{Topology, read_topology};
use epic_view::PacketRef;
use std::alloc::Global;
use std::process::Abort;
use std::test::Fail;

/// A core AS, a child of it, and a child of that.
const TEXT: &[u8] =
    b"[[as]]\nname='1-ff00:0:110'\ncore=true\nkey='01010101010101010101010101010101'\n[[as]]\nname='1-ff00:0:111'\nkey='03030303030303030303030303030303'\n[[as]]\nname='1-ff00:0:112'\nkey='04040404040404040404040404040404'\n[[link]]\nkind='child'\na='1-ff00:0:110'\na_if=2\nb='1-ff00:0:111'\nb_if=1\n[[link]]\nkind='child'\na='1-ff00:0:111'\na_if=2\nb='1-ff00:0:112'\nb_if=1\n";

const LEAF: AsId = AsId(0x0001_ff00_0000_0112);

const SOURCE: HostId = HostId { asn: LEAF, host: 1 };

const TARGET: HostId = HostId {
    asn: AsId(0x0001_ff00_0000_0110),
    host: 3,
};

/// From a host of the leaf AS up to one of the core AS, over three hops, in epoch 0.
const UPWARDS: [u8; 96] = [
    0xe0, 0x00, 0x00, 0x60, 0x00, 0x00, 0x01, 0x00, 0x00, 0x01, 0xff, 0x00, 0x00, 0x00, 0x01, 0x12,
    0x00, 0x01, 0xff, 0x00, 0x00, 0x00, 0x01, 0x10, 0x00, 0x00, 0x00, 0x01, 0x00, 0x00, 0x00, 0x03,
    0x00, 0x00, 0x00, 0x00, 0x00, 0x00, 0x00, 0x00, 0x01, 0x03, 0x00, 0x00, 0x65, 0x53, 0xf1, 0x00,
    0x3f, 0x00, 0x01, 0x00, 0x00, 0xf0, 0x2f, 0xdc, 0xef, 0x5b, 0xe8, 0x61, 0x97, 0x30, 0x95, 0xd2,
    0x3f, 0x00, 0x01, 0x00, 0x02, 0x5f, 0xc8, 0x56, 0x7c, 0xf2, 0x7d, 0x68, 0x59, 0x54, 0x5a, 0x3e,
    0x3f, 0x00, 0x00, 0x00, 0x02, 0x00, 0x00, 0x00, 0x00, 0x00, 0x00, 0x00, 0x00, 0xc1, 0x1c, 0x94,
];

fn topology(rt: &impl Abort, alloc: Global) -> Result<Topology, Fail> {
    assert!(rt; TEXT.len() <= 1_048_576);
    Ok(read_topology(alloc, TEXT)?)
}

/// A ledger with room for one event.
fn ledger(rt: &impl Abort, alloc: Global) -> Result<Ledger, Fail>
    ensures events { IfOk result (λ l. l.history.events ≡ []) }
    ensures room { IfOk result (λ l. 1 ≤ l.spare.events) }
{
    let mut ledger = Ledger::new(alloc);
    assert!(rt; ledger.emitted() == 0);
    ledger.reserve(1, 0, 0)?;
    Ok(ledger)
}

#[test]
fn a_hop_is_forged_or_opened(rt: HostRuntime) -> Result<(), Fail> {
    let topo = topology(&rt, rt.alloc())?;
    assert!(rt; topo.has(LEAF));
    let Ok(packet) = PacketRef::look(&UPWARDS) else {
        return Err("a packet".into());
    };
    assert!(rt; packet.shape().hops > 0);
    let name = HopName {
        asn: LEAF,
        generation: 0,
        body: packet.body(0),
    };
    let mut opened = ledger(&rt, rt.alloc())?;
    let _none = opened.events();
    let verdict = verdict::lines(&opened, &topo, &name, &packet, 0);
    assert_eq!(rt;
        verdict,
        Verdict::Forged(Forgery {
            kind: ForgedKind::Issue,
            hop: 0,
            key: KeyName::Fwd { a: LEAF, g: 0 },
            generation: 0,
        })
    );
    opened.push(Event::Reveal {
        step: 3,
        holder: Holder::As(LEAF),
    });
    let _one = opened.events();
    let verdict = verdict::lines(&opened, &topo, &name, &packet, 0);
    assert_eq!(rt; verdict, Verdict::Opened { step: 3 });
    Ok(())
}

#[test]
fn an_issued_hop_is_proved(rt: HostRuntime) -> Result<(), Fail> {
    let topo = topology(&rt, rt.alloc())?;
    assert!(rt; topo.has(LEAF));
    let Ok(packet) = PacketRef::look(&UPWARDS) else {
        return Err("a packet".into());
    };
    assert!(rt; packet.shape().hops > 0);
    let name = HopName {
        asn: LEAF,
        generation: 0,
        body: packet.body(0),
    };
    let mut issued = ledger(&rt, rt.alloc())?;
    issued.push(Event::Issue {
        step: 4,
        no: 1,
        name,
        parent: 0,
    });
    let _one = issued.events();
    let verdict = verdict::lines(&issued, &topo, &name, &packet, 0);
    assert_eq!(rt; verdict, Verdict::Proved { issue: 1, send: 0 });
    Ok(())
}

#[test]
fn a_packet_that_was_never_sent_is_forged_or_opened(rt: HostRuntime) -> Result<(), Fail> {
    let topo = topology(&rt, rt.alloc())?;
    let Ok(packet) = PacketRef::look(&UPWARDS) else {
        return Err("a packet".into());
    };
    let mut ledger = ledger(&rt, rt.alloc())?;
    let key = KeyName::Dest {
        dst: TARGET,
        src: SOURCE,
        epoch: 0,
    };
    let verdict = arrival::unsent(&ledger, &topo, &packet);
    assert_eq!(rt;
        verdict,
        Verdict::Forged(Forgery {
            kind: ForgedKind::Dest,
            hop: 0,
            key,
            generation: 0,
        })
    );
    ledger.push(Event::Reveal {
        step: 5,
        holder: Holder::Host(SOURCE),
    });
    let verdict = arrival::unsent(&ledger, &topo, &packet);
    assert_eq!(rt; verdict, Verdict::Opened { step: 5 });
    Ok(())
}
