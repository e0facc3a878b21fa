//! Keys and their holders in tables.

use super::*;
use epic_cmac::cmac;
use epic_num::{AsId, Holder, HostId, KeyName};
use epic_topo::{Topology, read_topology};
use std::alloc::Global;
use std::process::Abort;
use std::test::Fail;

// Four ASes of isolation domain 1, each with one byte as its master key.
const TEXT: &[u8] =
    b"[[as]]\nname='1-ff00:0:110'\ncore=true\nkey='01010101010101010101010101010101'\n[[as]]\nname='1-ff00:0:111'\nkey='03030303030303030303030303030303'\n[[as]]\nname='1-ff00:0:112'\nkey='04040404040404040404040404040404'\n[[as]]\nname='1-ff00:0:122'\nkey='06060606060606060606060606060606'\n";

const CORE: AsId = AsId(0x0001_ff00_0000_0110);

const MIDDLE: AsId = AsId(0x0001_ff00_0000_0111);

const SOURCE: AsId = AsId(0x0001_ff00_0000_0112);

const TARGET: AsId = AsId(0x0001_ff00_0000_0122);

const SENDER: HostId = HostId {
    asn: SOURCE,
    host: 1,
};

const RECEIVER: HostId = HostId {
    asn: TARGET,
    host: 2,
};

fn topology(rt: &impl Abort, alloc: Global) -> Result<Topology, Fail> {
    assert!(rt; TEXT.len() <= 1_048_576);
    Ok(read_topology(alloc, TEXT)?)
}

#[test]
fn keys_are_derived_by_name(rt: HostRuntime) -> Result<(), Fail> {
    let topo = topology(&rt, rt.alloc())?;
    let rows = [
        (
            KeyName::Fwd { a: CORE, g: 0 },
            0x2803a3b3fdbdf0c29887c43c95d9209e_u128,
        ),
        (
            KeyName::Fwd { a: SOURCE, g: 1 },
            0x761290ad18704473f1f773f6dfde78ab,
        ),
        (
            KeyName::Field {
                a: CORE,
                src: SENDER,
                epoch: 19675,
            },
            0xbfd37b262d102a08b24883d6a88f6b89,
        ),
        (
            KeyName::Field {
                a: MIDDLE,
                src: HostId {
                    asn: SOURCE,
                    host: u32::MAX,
                },
                epoch: u64::MAX,
            },
            0x013b84ebc673efd0654c02e1d35b6967,
        ),
        (
            KeyName::Dest {
                dst: RECEIVER,
                src: SENDER,
                epoch: 19675,
            },
            0x1a618d9fb20c9fe2894e71f1dbffa2bb,
        ),
        (
            KeyName::Dest {
                dst: RECEIVER,
                src: SENDER,
                epoch: 19676,
            },
            0x9728c1fbff0d3a853cafc60acd6179f0,
        ),
    ];
    for (name, key) in rows {
        assert!(rt; topo.has(owner(&name)));
        assert_eq!(rt; derive(&topo, &name), key.to_be_bytes(), "{name:?}");
    }
    Ok(())
}

#[test]
fn holders_are_the_ones_that_a_key_is_handed_to(rt: HostRuntime) {
    let forwarding = KeyName::Fwd { a: CORE, g: 0 };
    let field = KeyName::Field {
        a: CORE,
        src: SENDER,
        epoch: 0,
    };
    let dest = KeyName::Dest {
        dst: RECEIVER,
        src: SENDER,
        epoch: 0,
    };
    let sender_of_another_number = Holder::Host(HostId {
        asn: SOURCE,
        host: 2,
    });
    let rows = [
        (Holder::As(CORE), [true, true, false]),
        (Holder::As(SOURCE), [false, true, true]),
        (Holder::As(TARGET), [false, false, true]),
        (Holder::As(MIDDLE), [false, false, false]),
        (Holder::Host(SENDER), [false, true, true]),
        (Holder::Host(RECEIVER), [false, false, true]),
        (sender_of_another_number, [false, false, false]),
    ];
    for (holder, held) in rows {
        let found = [
            is_holder(&forwarding, &holder),
            is_holder(&field, &holder),
            is_holder(&dest, &holder),
        ];
        assert_eq!(rt; found, held, "{holder:?}");
    }
}

#[test]
fn a_source_has_the_keys_that_its_as_fetched(rt: HostRuntime) -> Result<(), Fail> {
    let topo = topology(&rt, rt.alloc())?;
    let mut store = KeyStore::new(rt.alloc());
    assert!(rt; topo.has(CORE));
    assert!(rt; topo.has(SOURCE));
    assert!(rt; topo.has(TARGET));
    let missing = NoKey {
        owner: CORE,
        epoch: 19675,
    };
    assert!(rt; store.field_key(&topo, CORE, SENDER, 19675) == Err(missing));
    assert!(rt; store.fetch(&topo, SOURCE, CORE, 19675)? == Fetched::New);
    assert!(rt; store.fetch(&topo, SOURCE, CORE, 19675)? == Fetched::Known);
    assert!(rt; store.fetch(&topo, SOURCE, SOURCE, 0)? == Fetched::Known);

    let field = 0xbfd37b262d102a08b24883d6a88f6b89_u128.to_be_bytes();
    assert!(rt; store.field_key(&topo, CORE, SENDER, 19675) == Ok(field));
    let later = NoKey {
        owner: CORE,
        epoch: 19676,
    };
    assert!(rt; store.field_key(&topo, CORE, SENDER, 19676) == Err(later));
    let own = 0x48d449bb7ca8df17d6d4415a8c56923a_u128.to_be_bytes();
    assert!(rt; store.field_key(&topo, SOURCE, SENDER, 0) == Ok(own));

    let unfetched = NoKey {
        owner: TARGET,
        epoch: 19675,
    };
    assert!(rt; store.dest_key(&topo, RECEIVER, SENDER, 19675) == Err(unfetched));
    assert!(rt; store.fetch(&topo, SOURCE, TARGET, 19675)? == Fetched::New);
    let dest = 0x1a618d9fb20c9fe2894e71f1dbffa2bb_u128.to_be_bytes();
    assert!(rt; store.dest_key(&topo, RECEIVER, SENDER, 19675) == Ok(dest));
    Ok(())
}

// The second name has the place of the first.
#[test]
fn a_kept_key_is_that_of_its_name(rt: HostRuntime) -> Result<(), Fail> {
    let topo = topology(&rt, rt.alloc())?;
    let name = KeyName::Dest {
        dst: RECEIVER,
        src: SENDER,
        epoch: 19675,
    };
    let later = KeyName::Dest {
        dst: RECEIVER,
        src: SENDER,
        epoch: 19676,
    };
    let key = 0x1a618d9fb20c9fe2894e71f1dbffa2bb_u128.to_be_bytes();
    let later_key = 0x9728c1fbff0d3a853cafc60acd6179f0_u128.to_be_bytes();
    let mut keys = SharedKeys::new();
    for (name, key) in [(name, key), (name, key), (later, later_key), (name, key)] {
        assert!(rt; topo.has(owner(&name)));
        keys.prepare(&topo, &name);
        assert_eq!(rt;
            keys.get(&name).tag(b"kept"),
            cmac(&key, b"kept"),
            "{name:?}"
        );
    }
    Ok(())
}
