//! The words of makers.
ghost use Rattle.std.specs.Prelude.{◌≡◌, ◌<◌, ◌↔◌, IsTrue};
ghost use Rattle.epic_num.specs.declared.hop.Level.TheVariants.{L1};
ghost use Rattle.epic_num.specs.Levels as levels;
ghost use Rattle.epic_layout.specs.Contents.{hop_count};
ghost use Rattle.epic_topo.specs.Network.{has};
ghost use Rattle.epic_fields.specs.HopChecks.{hop_name};
ghost use Rattle.epic_holders.specs.MakerText.{IsOfHop};

use super::*;
use epic_num::{AsId, Level, level_of};
use epic_topo::{Topology, read_topology};
use epic_view::PacketRef;
use std::alloc::Global;
use std::process::Abort;
use std::test::Fail;

const SOURCE_AS: AsId = AsId(0x0001_ff00_0000_0112);

// Two ASes, each with one byte as its master key.
const TEXT: &[u8] =
    b"[[as]]\nname='1-ff00:0:112'\nkey='04040404040404040404040404040404'\n[[as]]\nname='1-ff00:0:122'\nkey='06060606060606060606060606060606'\n";

// A packet of level 1 whose fields are right.
const LEVEL_1: &str =
    "e10000c0000503000001ff00000001120001ff0000000122000000010000000200060a24181e40000103000065\
    53f100000200006553f100000300006553f1003f00010000f02fdcef5be861978ba0753f000100025fc8567cf2\
    7d6859343bb73f00000002000000000000000035601c3f000000010000000000000000538c5a3f000100007db5\
    07adf12d140f298f7e3f000000020000000000000000ee7de83f0001000298e46be4f0e2e0d9eb52a13f000100\
    00ab5c8a43f69d5d1449cd8a68656c6c6f";

fn topology(rt: &impl Abort, alloc: Global) -> Result<Topology, Fail> {
    assert!(rt; TEXT.len() <= 1_048_576);
    Ok(read_topology(alloc, TEXT)?)
}

/// Whether the packet is of level 1.
fn is_level_1(packet: &PacketRef<'_>) -> bool
    ensures { IsTrue result ↔ (levels.level_of packet.now.first ≡ L1) }
{
    match level_of(packet.first_byte()) {
        Level::L1 => true,
        Level::L0 | Level::L2 | Level::L3 => false,
    }
}

/// The words of a maker of the packet's first field.
fn words(
    rt: &impl Abort,
    alloc: Global,
    topo: &Topology,
    packet: &PacketRef<'_>,
    maker: &Maker,
) -> Result<Vec<u8>, Fail>
    requires level { levels.level_of packet.now.first ≡ L1 }
    requires within { 0 < hop_count packet.now }
    requires known { IsTrue (has topo.now SOURCE_AS) }
    requires left { IsOfHop (hop_name SOURCE_AS 0 packet.now 0) maker.now }
{
    let mut to = Vec::from_slice(alloc, "> ".as_bytes())?;
    print_maker(&mut to, topo, SOURCE_AS, 0, packet, 0, maker)?;
    Ok(to)
}

#[test]
fn words_of_makers(rt: HostRuntime) -> Result<(), Fail> {
    let topo = topology(&rt, rt.alloc())?;
    assert!(rt; topo.has(SOURCE_AS));
    let bytes = hex::decode(rt.alloc(), LEVEL_1)?;
    let packet = PacketRef::look(&bytes)?;
    assert!(rt; packet.shape().hops > 0);
    assert!(rt; is_level_1(&packet));
    let text = words(&rt, rt.alloc(), &topo, &packet, &Maker::AsHop)?;
    assert_eq!(rt; text.as_slice(), "> as-hop".as_bytes());
    let text = words(
        &rt,
        rt.alloc(),
        &topo,
        &packet,
        &Maker::Made { emission: 4 },
    )?;
    assert_eq!(rt; text.as_slice(), "> made 4".as_bytes());
    let text = words(&rt, rt.alloc(), &topo, &packet, &Maker::Opened { step: 10 })?;
    assert_eq!(rt; text.as_slice(), "> opened 10".as_bytes());
    let text = words(&rt, rt.alloc(), &topo, &packet, &Maker::Forged)?;
    assert_eq!(rt;
        text.as_slice(),
        "> forged 1-ff00:0:112 0 033f6553f10000010000f02fdcef5be86197 1100060a24181e40000001ff00000001120000000100 8ba075".as_bytes()
    );
    Ok(())
}
