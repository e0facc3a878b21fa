//! Tests of the command `run`.

use crate::epic;
use epic_ports::{MemSink, MemStore, NamedStore};
use std::alloc::Global;
use std::process::Abort;
use std::test::Fail;

// Six ASes in two isolation trees below core ASes that are linked. The expected reports were
// computed by another program.
pub(crate) const TOPOLOGY: &str =
    "[[as]]\nname='1-ff00:0:110'\ncore=true\nkey='01010101010101010101010101010101'\n\
    [[as]]\nname='1-ff00:0:120'\ncore=true\nkey='02020202020202020202020202020202'\n\
    [[as]]\nname='1-ff00:0:111'\nkey='03030303030303030303030303030303'\n\
    [[as]]\nname='1-ff00:0:112'\nkey='04040404040404040404040404040404'\n\
    [[as]]\nname='1-ff00:0:121'\nkey='05050505050505050505050505050505'\n\
    [[as]]\nname='1-ff00:0:122'\nkey='06060606060606060606060606060606'\n\
    [[link]]\nkind='core'\na='1-ff00:0:110'\na_if=1\nb='1-ff00:0:120'\nb_if=1\n\
    [[link]]\nkind='child'\na='1-ff00:0:110'\na_if=2\nb='1-ff00:0:111'\nb_if=1\n\
    [[link]]\nkind='child'\na='1-ff00:0:111'\na_if=2\nb='1-ff00:0:112'\nb_if=1\n\
    [[link]]\nkind='child'\na='1-ff00:0:120'\na_if=2\nb='1-ff00:0:121'\nb_if=1\n\
    [[link]]\nkind='child'\na='1-ff00:0:121'\na_if=2\nb='1-ff00:0:122'\nb_if=1\n";

const SPARE: usize = 8192;

/// The status of a run, the files after it, and what the output and the errors got.
#[derive(Drop)]
pub(crate) struct Run {
    pub status: u8,
    pub store: NamedStore,
    pub out: MemSink,
    pub err: MemSink,
}

/// Which calls fail.
#[derive(Clone, Copy)]
pub(crate) struct Faults<'a> {
    /// The first call that names this file, if any, or the first append to it.
    file: &'a str,
    appends: bool,
    /// The write of this number, counted from 1.
    write: u64,
    /// The write of this number to the errors.
    tell: u64,
}

pub(crate) const NO_FAULTS: Faults<'static> = Faults {
    file: "",
    appends: false,
    write: 0,
    tell: 0,
};

/// `run t s`, with further words, over a store with these two files.
pub(crate) fn run_files(
    rt: &impl Abort,
    alloc: Global,
    options: &[&str],
    topology: &[u8],
    script: &[u8],
    faults: &Faults<'_>,
) -> Result<Run, Fail> {
    let files = [("t", topology), ("s", script)];
    run_over(rt, alloc, options, &files, faults)
}

/// `run t s`, with further words, over a store with these files.
fn run_over(
    rt: &impl Abort,
    alloc: Global,
    options: &[&str],
    held: &[(&str, &[u8])],
    faults: &Faults<'_>,
) -> Result<Run, Fail> {
    let mut given = Vec::new(alloc);
    for word in ["run", "t", "s"] {
        given.push(String::from_str(alloc, word)?)?;
    }
    for word in options {
        given.push(String::from_str(alloc, word)?)?;
    }
    let mut files = Vec::new(alloc);
    for (name, text) in held {
        files.push((
            String::from_str(alloc, name)?,
            Vec::from_slice(alloc, text)?,
        ))?;
    }
    assert!(rt; MemStore::names_differ(files.as_slice()));
    let below = MemStore::new(files, Vec::new(alloc));
    let mut store = NamedStore::new(below, String::from_str(alloc, faults.file)?, faults.appends);
    let mut out = MemSink::new(
        alloc,
        SPARE,
        SPARE,
        Vec::from_slice(alloc, &[faults.write])?,
    )?;
    let mut err = MemSink::new(alloc, SPARE, SPARE, Vec::from_slice(alloc, &[faults.tell])?)?;
    let status = epic(alloc, &given, &mut store, &mut out, &mut err);
    Ok(Run {
        status,
        store,
        out,
        err,
    })
}

#[test]
fn reports_of_run(rt: HostRuntime) -> Result<(), Fail> {
    for (script, status, out) in [
        // Nothing to do.
        (
            "",
            0,
            "end 0 accepted 0 proved 0 opened 0 forged 0 collided 0 unclaimed 0\n",
        ),
        // A packet of level 0 whose hops were issued.
        (
            "at 1700000000000000\n\
        originate 1-ff00:0:110 2 63\n\
        extend 1 2 63\n\
        extend 2 0 63\n\
        turn 1-ff00:0:112 0 e0000060000001000001ff00000001120001ff000000011000000001000000030000000000000000010300006553f1003f00010000f02fdcef5be861973095d23f000100025fc8567cf27d6859545a3e3f000000020000000000000000c11c94\n",
            0,
            "2 issue 1 1-ff00:0:110 013f6553f100000000020000000000000000 c11c948b57032617ec82805c462ebb18\n\
        3 issue 2 1-ff00:0:111 023f6553f100000100025fc8567cf27d6859 545a3ebf4ce89321245a9f2ef90ba2ac\n\
        4 issue 3 1-ff00:0:112 033f6553f10000010000f02fdcef5be86197 3095d2a19c79f0250e31f22fb0d3b59d\n\
        5 forward 1 1 e0000060000001010001ff00000001120001ff000000011000000001000000030000000000000000010300006553f1003f00010000f02fdcef5be861973095d23f000100025fc8567cf27d6859545a3e3f000000020000000000000000c11c94\n\
        5 hop 0 proved 3\n\
        end 5 accepted 1 proved 1 opened 0 forged 0 collided 0 unclaimed 0\n",
        ),
        // A right field of a hop that was never issued.
        (
            "at 1700000000000000\n\
        originate 1-ff00:0:110 2 63\n\
        extend 1 2 63\n\
        extend 2 0 63\n\
        turn 1-ff00:0:112 0 e0000060000001000001ff00000001120001ff000000011000000001000000030000000000000000010300006553f1003e00010000f02fdcef5be86197f8c9613f000100025fc8567cf27d6859545a3e3f000000020000000000000000c11c94\n",
            1,
            "2 issue 1 1-ff00:0:110 013f6553f100000000020000000000000000 c11c948b57032617ec82805c462ebb18\n\
        3 issue 2 1-ff00:0:111 023f6553f100000100025fc8567cf27d6859 545a3ebf4ce89321245a9f2ef90ba2ac\n\
        4 issue 3 1-ff00:0:112 033f6553f10000010000f02fdcef5be86197 3095d2a19c79f0250e31f22fb0d3b59d\n\
        5 forward 1 1 e0000060000001010001ff00000001120001ff000000011000000001000000030000000000000000010300006553f1003e00010000f02fdcef5be86197f8c9613f000100025fc8567cf27d6859545a3e3f000000020000000000000000c11c94\n\
        5 hop 0 forged issue fwd,1-ff00:0:112,0 01033e6553f10000010000f02fdcef5be86197 f8c961\n\
        end 5 accepted 1 proved 0 opened 0 forged 1 collided 0 unclaimed 0\n",
        ),
        // A first byte that no packet has.
        (
            "at 1700000000000000\n\
        originate 1-ff00:0:110 2 63\n\
        extend 1 2 63\n\
        extend 2 0 63\n\
        turn 1-ff00:0:112 0 e4000060000001000001ff00000001120001ff000000011000000001000000030000000000000000010300006553f1003f00010000f02fdcef5be861973095d23f000100025fc8567cf27d6859545a3e3f000000020000000000000000c11c94\n",
            0,
            "2 issue 1 1-ff00:0:110 013f6553f100000000020000000000000000 c11c948b57032617ec82805c462ebb18\n\
        3 issue 2 1-ff00:0:111 023f6553f100000100025fc8567cf27d6859 545a3ebf4ce89321245a9f2ef90ba2ac\n\
        4 issue 3 1-ff00:0:112 033f6553f10000010000f02fdcef5be86197 3095d2a19c79f0250e31f22fb0d3b59d\n\
        5 refused layout version\n\
        end 5 accepted 0 proved 0 opened 0 forged 0 collided 0 unclaimed 0\n",
        ),
        // The packet on another interface.
        (
            "at 1700000000000000\n\
        originate 1-ff00:0:110 2 63\n\
        extend 1 2 63\n\
        extend 2 0 63\n\
        turn 1-ff00:0:112 1 e0000060000001000001ff00000001120001ff000000011000000001000000030000000000000000010300006553f1003f00010000f02fdcef5be861973095d23f000100025fc8567cf27d6859545a3e3f000000020000000000000000c11c94\n",
            0,
            "2 issue 1 1-ff00:0:110 013f6553f100000000020000000000000000 c11c948b57032617ec82805c462ebb18\n\
        3 issue 2 1-ff00:0:111 023f6553f100000100025fc8567cf27d6859 545a3ebf4ce89321245a9f2ef90ba2ac\n\
        4 issue 3 1-ff00:0:112 033f6553f10000010000f02fdcef5be86197 3095d2a19c79f0250e31f22fb0d3b59d\n\
        5 refused wrong-ingress hop 0\n\
        end 5 accepted 0 proved 0 opened 0 forged 0 collided 0 unclaimed 0\n",
        ),
        // Each refusal of beacons that a short script reaches.
        (
            "at 1700000000000000\n\
        originate 1-ff00:0:110 2 63\n\
        extend 1 2 63\n\
        extend 2 0 63\n\
        originate 1-ff00:0:110 1 63\n\
        extend 4 0 63\n\
        originate 1-ff00:0:120 2 63\n\
        extend 6 2 63\n\
        extend 7 0 63\n\
        originate 1-ff00:0:111 2 63\n\
        originate 1-ff00:0:110 9 63\n\
        originate 1-ff00:0:110 2 63\n\
        extend 3 2 63\n\
        extend 99 0 63\n\
        extend 4 2 63\n\
        extend 4 1 63\n\
        extend 9 0 63\n",
            0,
            "2 issue 1 1-ff00:0:110 013f6553f100000000020000000000000000 c11c948b57032617ec82805c462ebb18\n\
        3 issue 2 1-ff00:0:111 023f6553f100000100025fc8567cf27d6859 545a3ebf4ce89321245a9f2ef90ba2ac\n\
        4 issue 3 1-ff00:0:112 033f6553f10000010000f02fdcef5be86197 3095d2a19c79f0250e31f22fb0d3b59d\n\
        5 issue 4 1-ff00:0:110 013f6553f100000000010000000000000000 e7fa82e4dfb83057fa0f188e614da1bc\n\
        6 issue 5 1-ff00:0:120 023f6553f100000100007db507adf12d140f 3d5d486891031f740b32f5585d538b2c\n\
        7 issue 6 1-ff00:0:120 013f6553f100000000020000000000000000 8e438e7cc300e646f7aab4101d0fde56\n\
        8 issue 7 1-ff00:0:121 023f6553f1000001000298e46be4f0e2e0d9 6fe6b0a51fba4c7d6ea9770cc0f8a8a9\n\
        9 issue 8 1-ff00:0:122 033f6553f10000010000ab5c8a43f69d5d14 b76d951ff13c0459b4d1dae7c6004cd1\n\
        10 refused not-core\n\
        11 refused unknown-interface\n\
        12 refused duplicate 1\n\
        13 refused ended\n\
        14 refused unknown\n\
        15 refused wrong-kind\n\
        16 issue 9 1-ff00:0:120 023f6553f100000100017db507adf12d140f 0f431b9f3b08d86b13c47c1763c52c43\n\
        17 refused loop 1-ff00:0:110\n\
        end 17 accepted 0 proved 0 opened 0 forged 0 collided 0 unclaimed 0\n",
        ),
        // Paths over three segments and over one.
        (
            "at 1700000000000000\n\
        originate 1-ff00:0:110 2 63\n\
        extend 1 2 63\n\
        extend 2 0 63\n\
        originate 1-ff00:0:110 1 63\n\
        extend 4 0 63\n\
        originate 1-ff00:0:120 2 63\n\
        extend 6 2 63\n\
        extend 7 0 63\n\
        paths 1-ff00:0:112 1-ff00:0:122\n\
        paths 1-ff00:0:112 1-ff00:0:110\n",
            0,
            "2 issue 1 1-ff00:0:110 013f6553f100000000020000000000000000 c11c948b57032617ec82805c462ebb18\n\
        3 issue 2 1-ff00:0:111 023f6553f100000100025fc8567cf27d6859 545a3ebf4ce89321245a9f2ef90ba2ac\n\
        4 issue 3 1-ff00:0:112 033f6553f10000010000f02fdcef5be86197 3095d2a19c79f0250e31f22fb0d3b59d\n\
        5 issue 4 1-ff00:0:110 013f6553f100000000010000000000000000 e7fa82e4dfb83057fa0f188e614da1bc\n\
        6 issue 5 1-ff00:0:120 023f6553f100000100007db507adf12d140f 3d5d486891031f740b32f5585d538b2c\n\
        7 issue 6 1-ff00:0:120 013f6553f100000000020000000000000000 8e438e7cc300e646f7aab4101d0fde56\n\
        8 issue 7 1-ff00:0:121 023f6553f1000001000298e46be4f0e2e0d9 6fe6b0a51fba4c7d6ea9770cc0f8a8a9\n\
        9 issue 8 1-ff00:0:122 033f6553f10000010000ab5c8a43f69d5d14 b76d951ff13c0459b4d1dae7c6004cd1\n\
        10 path 8 3,5,8\n\
        11 path 3 3\n\
        end 11 accepted 0 proved 0 opened 0 forged 0 collided 0 unclaimed 0\n",
        ),
        // Keys that are fetched, known, and of an AS that is not there.
        (
            "at 1700000000000000\n\
        originate 1-ff00:0:110 2 63\n\
        extend 1 2 63\n\
        extend 2 0 63\n\
        originate 1-ff00:0:110 1 63\n\
        extend 4 0 63\n\
        originate 1-ff00:0:120 2 63\n\
        extend 6 2 63\n\
        extend 7 0 63\n\
        fetch 1-ff00:0:112 1-ff00:0:111 19675\n\
        fetch 1-ff00:0:112 1-ff00:0:110 19675\n\
        fetch 1-ff00:0:112 1-ff00:0:120 19675\n\
        fetch 1-ff00:0:112 1-ff00:0:121 19675\n\
        fetch 1-ff00:0:112 1-ff00:0:122 19675\n\
        fetch 1-ff00:0:112 1-ff00:0:111 19675\n\
        fetch 1-ff00:0:112 1-ff00:0:110 19675\n\
        fetch 1-ff00:0:112 1-ff00:0:120 19675\n\
        fetch 1-ff00:0:112 1-ff00:0:121 19675\n\
        fetch 1-ff00:0:112 1-ff00:0:122 19675\n\
        fetch 1-ff00:0:112 1-ff00:0:112 0\n\
        fetch 1-9 1-ff00:0:112 0\n",
            0,
            "2 issue 1 1-ff00:0:110 013f6553f100000000020000000000000000 c11c948b57032617ec82805c462ebb18\n\
        3 issue 2 1-ff00:0:111 023f6553f100000100025fc8567cf27d6859 545a3ebf4ce89321245a9f2ef90ba2ac\n\
        4 issue 3 1-ff00:0:112 033f6553f10000010000f02fdcef5be86197 3095d2a19c79f0250e31f22fb0d3b59d\n\
        5 issue 4 1-ff00:0:110 013f6553f100000000010000000000000000 e7fa82e4dfb83057fa0f188e614da1bc\n\
        6 issue 5 1-ff00:0:120 023f6553f100000100007db507adf12d140f 3d5d486891031f740b32f5585d538b2c\n\
        7 issue 6 1-ff00:0:120 013f6553f100000000020000000000000000 8e438e7cc300e646f7aab4101d0fde56\n\
        8 issue 7 1-ff00:0:121 023f6553f1000001000298e46be4f0e2e0d9 6fe6b0a51fba4c7d6ea9770cc0f8a8a9\n\
        9 issue 8 1-ff00:0:122 033f6553f10000010000ab5c8a43f69d5d14 b76d951ff13c0459b4d1dae7c6004cd1\n\
        10 fetched\n\
        11 fetched\n\
        12 fetched\n\
        13 fetched\n\
        14 fetched\n\
        15 known\n\
        16 known\n\
        17 known\n\
        18 known\n\
        19 known\n\
        20 known\n\
        21 refused unknown-as 1-9\n\
        end 21 accepted 0 proved 0 opened 0 forged 0 collided 0 unclaimed 0\n",
        ),
    ] {
        let run = run_files(
            &rt,
            rt.alloc(),
            &[],
            TOPOLOGY.as_bytes(),
            script.as_bytes(),
            &NO_FAULTS,
        )?;
        assert_eq!(rt; run.out.written(), out.as_bytes(), "{script}");
        assert_eq!(rt; run.err.written(), b"".as_slice(), "{script}");
        assert_eq!(rt; run.status, status, "{script}");
    }
    Ok(())
}

#[test]
fn runs_that_are_refused(rt: HostRuntime) -> Result<(), Fail> {
    for (topology, script, status, err) in [
        // The first fault of a topology is told, and before any of the script.
        (
            "[[as]]\nname='1-1'\nkey='00'\n",
            "jump",
            3,
            "epic: topology bad-key key 1\n",
        ),
        (
            "[[as]]\nname='1-1'\nkey='00000000000000000000000000000000'\n\
            [[as]]\nname='1-2'\nkey='00000000000000000000000000000000'\n\
            [[link]]\nkind='child'\na='1-1'\na_if=1\nb='1-2'\nb_if=1\n\
            [[link]]\nkind='child'\na='1-1'\na_if=1\nb='1-2'\nb_if=2\n",
            "",
            3,
            "epic: topology interface-twice a_if 2\n",
        ),
        (
            "",
            "at 5\nextend x 0 63\n",
            4,
            "epic: script 2 bad-word 2\n",
        ),
        ("", "jump", 4, "epic: script 1 unknown-verb\n"),
        ("", "orig", 4, "epic: script 1 unknown-verb\n"),
        ("", "turn 1-1 0 e", 4, "epic: script 1 bad-word 4\n"),
    ] {
        let run = run_files(
            &rt,
            rt.alloc(),
            &[],
            topology.as_bytes(),
            script.as_bytes(),
            &NO_FAULTS,
        )?;
        assert_eq!(rt; run.out.written(), b"".as_slice(), "{script}");
        assert_eq!(rt; run.err.written(), err.as_bytes(), "{script}");
        assert_eq!(rt; run.status, status, "{script}");
    }
    for (length, status, err) in [
        (1_048_576, 0, ""),
        (1_048_577, 3, "epic: topology too-long text 0\n"),
    ] {
        let topology = vec![in rt.alloc(); b'#'; length]?;
        let run = run_files(&rt, rt.alloc(), &[], &topology, b"", &NO_FAULTS)?;
        assert_eq!(rt; run.err.written(), err.as_bytes());
        assert_eq!(rt; run.status, status);
    }
    Ok(())
}

#[test]
fn calls_of_run_that_fail(rt: HostRuntime) -> Result<(), Fail> {
    let file = |file| Faults { file, ..NO_FAULTS };
    let write = |write| Faults { write, ..NO_FAULTS };
    let issued =
        "2 issue 1 1-ff00:0:110 013f6553f100000000020000000000000000 c11c948b57032617ec82805c462ebb18\n";
    let issue = "at 1700000000000000\noriginate 1-ff00:0:110 2 63\n";
    for (script, faults, status, out, err) in [
        // A read of either file.
        (issue, file("t"), 6, "", "epic: read t\n"),
        ("jump", file("s"), 6, "", "epic: read s\n"),
        // The lines of a step are one write, before the next step is done.
        (issue, write(1), 7, "", "epic: write\n"),
        (issue, write(2), 7, issued, "epic: write\n"),
        // A failure of the errors changes no status.
        (
            "jump",
            Faults {
                tell: 1,
                ..NO_FAULTS
            },
            4,
            "",
            "",
        ),
        (
            "jump",
            Faults {
                tell: 2,
                ..NO_FAULTS
            },
            4,
            "",
            "epic: script ",
        ),
    ] {
        let run = run_files(
            &rt,
            rt.alloc(),
            &[],
            TOPOLOGY.as_bytes(),
            script.as_bytes(),
            &faults,
        )?;
        assert_eq!(rt; run.out.written(), out.as_bytes(), "{script}");
        assert_eq!(rt; run.err.written(), err.as_bytes(), "{script}");
        assert_eq!(rt; run.status, status, "{script}");
    }
    Ok(())
}

// Hops of a path, and a packet of level 0 over it.
const SENDING: &str = "at 1700000000000000\n\
    originate 1-ff00:0:110 2 63\n\
    extend 1 2 63\n\
    extend 2 0 63\n\
    turn 1-ff00:0:112 0 e0000060000001000001ff00000001120001ff000000011000000001000000030000000000000000010300006553f1003f00010000f02fdcef5be861973095d23f000100025fc8567cf27d6859545a3e3f000000020000000000000000c11c94\n";

// The header of a capture; and it with a record of the packet, due at interface 2 of 1-ff00:0:111.
const HEAD: &str = "d4c3b2a1020004000000000000000000ffff000093000000";

const WHOLE: &str =
    "d4c3b2a1020004000000000000000000ffff00009300000000f153650000000070000000700000000001ff00000001110000000200000000e0000060000001010001ff00000001120001ff000000011000000001000000030000000000000000010300006553f1003f00010000f02fdcef5be861973095d23f000100025fc8567cf27d6859545a3e3f000000020000000000000000c11c94";

#[test]
fn runs_that_save(rt: HostRuntime) -> Result<(), Fail> {
    let write = |write| Faults { write, ..NO_FAULTS };
    let file = |appends| Faults {
        file: "w",
        appends,
        ..NO_FAULTS
    };
    for (faults, status, saved, err) in [
        (NO_FAULTS, 0, WHOLE, ""),
        // The packet's lines are written before it is saved, and the counts behind that.
        (write(4), 7, HEAD, "epic: write\n"),
        (write(5), 7, WHOLE, "epic: write\n"),
        // The file can't be made, or takes nothing.
        (file(false), 7, "", "epic: write\n"),
        (file(true), 7, "", "epic: write\n"),
    ] {
        let run = run_files(
            &rt,
            rt.alloc(),
            &["--save", "w"],
            TOPOLOGY.as_bytes(),
            SENDING.as_bytes(),
            &faults,
        )?;
        let held = hex::encode(rt.alloc(), run.store.file("w").unwrap_or(&[]))?;
        assert_eq!(rt; held.as_str(), saved);
        assert_eq!(rt; run.err.written(), err.as_bytes());
        assert_eq!(rt; run.status, status);
    }
    Ok(())
}

// A right field of a hop that was never issued.
const FORGING: &str = "at 1700000000000000\n\
    originate 1-ff00:0:110 2 63\n\
    extend 1 2 63\n\
    extend 2 0 63\n\
    turn 1-ff00:0:112 0 e0000060000001000001ff00000001120001ff000000011000000001000000030000000000000000010300006553f1003e00010000f02fdcef5be86197f8c9613f000100025fc8567cf27d6859545a3e3f000000020000000000000000c11c94\n";

const LEDGER: &str = "issue 2 1 1-ff00:0:110 0 013f6553f100000000020000000000000000 0\n\
    issue 3 2 1-ff00:0:111 0 023f6553f100000100025fc8567cf27d6859 1\n\
    issue 4 3 1-ff00:0:112 0 033f6553f10000010000f02fdcef5be86197 2\n\
    accept hop 1-ff00:0:112 0 0 e0000060000001000001ff00000001120001ff000000011000000001000000030000000000000000010300006553f1003e00010000f02fdcef5be86197f8c9613f000100025fc8567cf27d6859545a3e3f000000020000000000000000c11c94\n\
    emit 1 turn 1-ff00:0:111 2 e0000060000001010001ff00000001120001ff000000011000000001000000030000000000000000010300006553f1003e00010000f02fdcef5be86197f8c9613f000100025fc8567cf27d6859545a3e3f000000020000000000000000c11c94\n\
    pass 5 1-ff00:0:112 0 0 1\n";

const VERDICTS: &str =
    "hop 0 forged issue fwd,1-ff00:0:112,0 01033e6553f10000010000f02fdcef5be86197 f8c961\n";

#[test]
fn runs_that_are_kept(rt: HostRuntime) -> Result<(), Fail> {
    let file = |file| Faults { file, ..NO_FAULTS };
    for (faults, status, ledger, verdicts) in [
        (NO_FAULTS, 1, LEDGER, VERDICTS),
        // The files are made one after the other.
        (file("v"), 7, "", ""),
    ] {
        let run = run_files(
            &rt,
            rt.alloc(),
            &["--ledger", "l", "--verdicts", "v"],
            TOPOLOGY.as_bytes(),
            FORGING.as_bytes(),
            &faults,
        )?;
        assert_eq!(rt; run.store.file("l").unwrap_or(&[]), ledger.as_bytes());
        assert_eq!(rt; run.store.file("v").unwrap_or(&[]), verdicts.as_bytes());
        assert_eq!(rt; run.status, status);
    }
    Ok(())
}

// The lines of the packet that the capture holds, at the next router.
const CAPTURED: &str =
    "6 forward 1 2 e0000060000001020001ff00000001120001ff000000011000000001000000030000000000000000010300006553f1003f00010000f02fdcef5be861973095d23f000100025fc8567cf27d6859545a3e3f000000020000000000000000c11c94\n\
    6 hop 1 proved 2\n";

#[test]
fn captures_come_behind_the_script(rt: HostRuntime) -> Result<(), Fail> {
    let alloc = rt.alloc();
    let fails = Faults {
        file: "c",
        ..NO_FAULTS
    };
    let end = "end 6 accepted 2 proved 2 opened 0 forged 0 collided 0 unclaimed 0\n";
    let capture = hex::decode(alloc, WHOLE)?;
    for (len, faults, status, lines, last, err) in [
        (152, NO_FAULTS, 0, CAPTURED, end, ""),
        (151, NO_FAULTS, 5, "", "", "epic: capture truncated 24\n"),
        (152, fails, 6, "", "", "epic: read c\n"),
    ] {
        assert!(rt; len <= capture.len());
        let files = [
            ("t", TOPOLOGY.as_bytes()),
            ("s", SENDING.as_bytes()),
            ("c", &capture[..len]),
        ];
        let run = run_over(&rt, alloc, &["--capture", "c"], &files, &faults)?;
        let lines = format!(in alloc; "{lines}{last}")?;
        assert!(rt; run.out.written().ends_with(lines.as_bytes()));
        assert_eq!(rt; run.err.written(), err.as_bytes());
        assert_eq!(rt; run.status, status);
    }
    Ok(())
}
