//! Topologies and their faults in tables.

use super::*;
use epic_num::AsId;
use std::alloc::Global;
use std::process::Abort;
use std::test::Fail;

// A core AS, another AS, and a child link between them.
const FIRST: &str = "[[as]]\nname='1-1'\ncore=true\nkey='00000000000000000000000000000000'\n";

const SECOND: &str = "[[as]]\nname='1-2'\nkey='00000000000000000000000000000000'\n";

const LINK: &str = "[[link]]\nkind='child'\na='1-1'\na_if=1\nb='1-2'\nb_if=1\n";

// What is read of a text: the words of its first fault, or `good`.
fn told(rt: &impl Abort, alloc: Global, text: &[u8]) -> Result<String, Fail> {
    assert!(rt; text.len() <= 1_048_576);
    match read_topology(alloc, text) {
        Ok(_) => Ok(format!(in alloc; "good")?),
        Err(TopoError::Bad { kind, key, item }) => {
            let kind = kind.word();
            let key = key.word();
            Ok(format!(in alloc; "{kind} {key} {item}")?)
        }
        Err(TopoError::OutOfMemory) => Ok(format!(in alloc; "memory")?),
    }
}

#[test]
fn settings_and_ases_are_read(rt: HostRuntime) -> Result<(), Fail> {
    let rows = [
        ("", "good"),
        ("as=[]\nlink=[]\nother=3", "good"),
        ("a = ", "not-toml text 0"),
        ("a=1\na=2", "not-toml text 0"),
        ("profile=1", "wrong-kind profile 0"),
        ("[profile]\nlifetime_us=1.0", "wrong-kind lifetime_us 0"),
        (
            "[profile]\nlifetime_us=0\nskew_us=true",
            "bad-profile lifetime_us 0",
        ),
        (
            "[profile]\nlifetime_us=3600000001",
            "bad-profile lifetime_us 0",
        ),
        ("[profile]\nskew_us=-1", "bad-profile skew_us 0"),
        (
            "[profile]\nwindow=65537\nepoch_s=31536001",
            "bad-profile epoch_s 0",
        ),
        ("[profile]\nwindow=true", "wrong-kind window 0"),
        ("[as]\nname=1", "wrong-kind as 0"),
        ("as=[1]", "wrong-kind as 1"),
        ("[[as]]\nkey=1", "missing name 1"),
        ("[[as]]\nname=1", "wrong-kind name 1"),
        ("[[as]]\nname='1-01'\ncore=1", "bad-as name 1"),
        ("[[as]]\nname='1-4294967296'\nkey=1", "bad-as name 1"),
        ("[[as]]\nname='1-1:0:0'\nkey=1", "wrong-kind key 1"),
        ("[[as]]\nname='1-1'\ncore=1", "wrong-kind core 1"),
        ("[[as]]\nname='1-1'", "missing key 1"),
        ("[[as]]\nname='1-1'\nkey='zz'", "bad-key key 1"),
        ("link=3", "wrong-kind link 0"),
        ("link=[3]", "wrong-kind link 1"),
        ("[[link]]\na=1", "missing kind 1"),
        ("[[link]]\nkind='peer'", "wrong-kind kind 1"),
        ("[[link]]\nkind='core'", "missing a 1"),
    ];
    for (text, expected) in rows {
        let outcome = told(&rt, rt.alloc(), text.as_bytes())?;
        assert_eq!(rt; outcome.as_str(), expected, "{text}");
    }
    let outcome = told(&rt, rt.alloc(), b"a='\xff'")?;
    assert_eq!(rt; outcome.as_str(), "not-toml text 0");
    Ok(())
}

#[test]
fn links_are_read(rt: HostRuntime) -> Result<(), Fail> {
    let rows = [
        ("kind='child'\na='1-1'\na_if=1\nb='1-2'\nb_if=1", "good"),
        ("kind='child'\na='x'\na_if=1", "bad-as a 1"),
        ("kind='child'\na='1-9'\na_if=1", "unknown-as a 1"),
        ("kind='core'\na='1-1'\nb='1-9'", "missing a_if 1"),
        (
            "kind='child'\na='1-1'\na_if=true\nb='x'",
            "wrong-kind a_if 1",
        ),
        ("kind='child'\na='1-1'\na_if=0", "bad-interface a_if 1"),
        ("kind='child'\na='1-1'\na_if=65536", "bad-interface a_if 1"),
        (
            "kind='child'\na='1-1'\na_if=1\nb='1-9'\nb_if=1",
            "unknown-as b 1",
        ),
        (
            "kind='child'\na='1-1'\na_if=1\nb='1-2'\nb_if=65536",
            "bad-interface b_if 1",
        ),
        (
            "kind='child'\na='1-1'\na_if=1\nb='1-1'\nb_if=1",
            "self-link b 1",
        ),
        (
            "kind='core'\na='1-1'\na_if=1\nb='1-2'\nb_if=1",
            "core-rule kind 1",
        ),
        (
            "kind='child'\na='1-2'\na_if=1\nb='1-1'\nb_if=1",
            "core-rule kind 1",
        ),
    ];
    for (link, expected) in rows {
        let text = format!(in rt.alloc(); "{FIRST}{SECOND}[[link]]\n{link}")?;
        let outcome = told(&rt, rt.alloc(), text.as_bytes())?;
        assert_eq!(rt; outcome.as_str(), expected, "{link}");
    }
    Ok(())
}

#[test]
fn earlier_ases_and_links_are_known(rt: HostRuntime) -> Result<(), Fail> {
    let text = format!(in rt.alloc(); "{FIRST}{FIRST}")?;
    let outcome = told(&rt, rt.alloc(), text.as_bytes())?;
    assert_eq!(rt; outcome.as_str(), "duplicate-as name 2");
    let rows = [
        (
            "kind='child'\na='1-1'\na_if=1\nb='1-2'\nb_if=1",
            "interface-twice a_if 2",
        ),
        (
            "kind='core'\na='1-2'\na_if=1\nb='1-1'\nb_if=2",
            "interface-twice a_if 2",
        ),
        (
            "kind='child'\na='1-1'\na_if=2\nb='1-2'\nb_if=1",
            "interface-twice b_if 2",
        ),
        ("kind='child'\na='1-1'\na_if=2\nb='1-2'\nb_if=2", "good"),
    ];
    for (link, expected) in rows {
        let text = format!(in rt.alloc(); "{FIRST}{SECOND}{LINK}[[link]]\n{link}")?;
        let outcome = told(&rt, rt.alloc(), text.as_bytes())?;
        assert_eq!(rt; outcome.as_str(), expected, "{link}");
    }
    Ok(())
}

const OTHER_ASES: &str = "
[[as]]
name = \"1-ff00:0:120\"
core = true
key = \"02020202020202020202020202020202\"

[[as]]
name = \"1-ff00:0:111\"
core = false
key = \"03030303030303030303030303030303\"

[[as]]
name = \"1-ff00:0:112\"
core = false
key = \"04040404040404040404040404040404\"

[[as]]
name = \"1-ff00:0:121\"
core = false
key = \"05050505050505050505050505050505\"

[[as]]
name = \"1-ff00:0:122\"
core = false
key = \"06060606060606060606060606060606\"

[[link]]
kind = \"core\"
a = \"1-ff00:0:110\"
a_if = 1
b = \"1-ff00:0:120\"
b_if = 1
";

const OTHER_LINKS: &str = "
[[link]]
kind = \"child\"
a = \"1-ff00:0:111\"
a_if = 2
b = \"1-ff00:0:112\"
b_if = 1

[[link]]
kind = \"child\"
a = \"1-ff00:0:120\"
a_if = 2
b = \"1-ff00:0:121\"
b_if = 1

[[link]]
kind = \"child\"
a = \"1-ff00:0:121\"
a_if = 2
b = \"1-ff00:0:122\"
b_if = 1
";

// Two core ASes with two ASes below each, a key of the first AS and an interface of the second link.
fn six_ases(alloc: Global, key: &str, iface: u16) -> Result<String, Fail> {
    Ok(format!(in alloc;
        "[[as]]\nname='1-ff00:0:110'\ncore=true\nkey='{key}'\n{OTHER_ASES}[[link]]\nkind='child'\na='1-ff00:0:110'\na_if={iface}\nb='1-ff00:0:111'\nb_if=1\n{OTHER_LINKS}"
    )?)
}

#[test]
fn the_first_fault_is_told(rt: HostRuntime) -> Result<(), Fail> {
    let rows = [
        ("01010101010101010101010101010101", 2, "good"),
        (
            "01010101010101010101010101010101",
            1,
            "interface-twice a_if 2",
        ),
        ("00", 2, "bad-key key 1"),
        ("00", 1, "bad-key key 1"),
    ];
    for (key, iface, expected) in rows {
        let text = six_ases(rt.alloc(), key, iface)?;
        let outcome = told(&rt, rt.alloc(), text.as_bytes())?;
        assert_eq!(rt; outcome.as_str(), expected, "{key} {iface}");
    }
    Ok(())
}

const fn asn(number: u64) -> AsId {
    AsId(0x0001_ff00_0000_0000 | number)
}

#[test]
fn queries_are_answered(rt: HostRuntime) -> Result<(), Fail> {
    let text = six_ases(rt.alloc(), "aAaAaAaAaAaAaAaA0101010101010101", 2)?;
    assert!(rt; text.len() <= 1_048_576);
    let topology = read_topology(rt.alloc(), text.as_bytes())?;
    let profile = topology.profile();
    assert_eq!(rt; profile.lifetime_us, 2_000_000);
    assert_eq!(rt; profile.skew_us, 1_000_000);
    assert_eq!(rt; profile.epoch_us, 86_400_000_000);
    assert_eq!(rt; profile.window, 4096);
    let ases = [
        (0, 0x110, true),
        (1, 0x120, true),
        (2, 0x111, false),
        (3, 0x112, false),
        (4, 0x121, false),
        (5, 0x122, false),
    ];
    for (i, number, is_core) in ases {
        assert!(rt; topology.has(asn(number)));
        assert_eq!(rt; topology.is_core(asn(number)), is_core);
        assert!(rt; topology.as_at(i) == Some(asn(number)));
    }
    assert!(rt; topology.as_at(6).is_none());
    assert!(rt; !topology.has(asn(0x113)));
    assert!(rt; !topology.is_core(asn(0x113)));
    assert!(rt; topology.master(asn(0x113)).is_none());
    assert!(rt; topology.master(asn(0x122)) == Some([6; 16]));
    let mixed = [
        0xaa, 0xaa, 0xaa, 0xaa, 0xaa, 0xaa, 0xaa, 0xaa, 1, 1, 1, 1, 1, 1, 1, 1,
    ];
    assert!(rt; topology.master(asn(0x110)) == Some(mixed));
    let links = [
        (0x110, 1, 0x120, 1, LinkKind::Core, LinkKind::Core),
        (0x110, 2, 0x111, 1, LinkKind::Parent, LinkKind::Child),
        (0x111, 2, 0x112, 1, LinkKind::Parent, LinkKind::Child),
        (0x120, 2, 0x121, 1, LinkKind::Parent, LinkKind::Child),
        (0x121, 2, 0x122, 1, LinkKind::Parent, LinkKind::Child),
    ];
    for (a, a_iface, b, b_iface, kind, kind_at_b) in links {
        assert!(rt; topology.neighbour(asn(a), a_iface) == Some((asn(b), b_iface, kind)));
        assert!(rt; topology.neighbour(asn(b), b_iface) == Some((asn(a), a_iface, kind_at_b)));
    }
    assert!(rt; topology.neighbour(asn(0x112), 2).is_none());
    assert!(rt; topology.neighbour(asn(0x113), 1).is_none());
    Ok(())
}

// The text of a topology at its limits: 8 isolation domains of 512 ASes, each AS the parent of four
// others.
fn largest_text(alloc: Global) -> Result<String, Fail> {
    let mut text = String::from_str(alloc, "as=[")?;
    for i in 0..4096u32 {
        let isd = i / 512 + 1;
        let number = i % 512 + 1;
        write!(
            text,
            "{{name='{isd}-{number}',key='00000000000000000000000000000000'}},"
        )?;
    }
    text.push_str("]\nlink=[")?;
    for i in 0..16384u32 {
        let isd = i % 4096 / 512 + 1;
        let parent = i % 512 + 1;
        let round = i / 4096 + 1;
        let child = (i + round) % 512 + 1;
        let child_iface = round + 4;
        write!(
            text,
            "{{kind='child',a='{isd}-{parent}',a_if={round},b='{isd}-{child}',b_if={child_iface}}},"
        )?;
    }
    text.push_str("]")?;
    Ok(text)
}

#[test]
fn the_largest_topology_is_read(rt: HostRuntime) -> Result<(), Fail> {
    let text = largest_text(rt.alloc())?;
    assert!(rt; text.len() <= 1_048_576);
    let topology = read_topology(rt.alloc(), text.as_bytes())?;
    let first = AsId(0x0001_0000_0000_0001);
    let fifth = AsId(0x0001_0000_0000_0005);
    let last = AsId(0x0008_0000_0000_0200);
    assert!(rt; topology.as_at(0) == Some(first));
    assert!(rt; topology.as_at(4095) == Some(last));
    assert!(rt; topology.as_at(4096).is_none());
    assert!(rt; topology.neighbour(first, 4) == Some((fifth, 8, LinkKind::Parent)));
    assert!(rt; topology.neighbour(fifth, 8) == Some((first, 4, LinkKind::Child)));
    Ok(())
}

#[test]
fn one_item_more_is_too_many(rt: HostRuntime) -> Result<(), Fail> {
    for (key, most) in [("as", 4096u32), ("link", 16384)] {
        let mut text = format!(in rt.alloc(); "{key}=[1")?;
        for _ in 0..most {
            text.push_str(",1")?;
        }
        text.push_str("]")?;
        let outcome = told(&rt, rt.alloc(), text.as_bytes())?;
        let expected = format!(in rt.alloc(); "too-many {key} 0")?;
        assert_eq!(rt; outcome.as_str(), expected.as_str());
    }
    Ok(())
}
