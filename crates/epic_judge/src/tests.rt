//! Two small files, judged.

use super::*;
use epic_judging::{JudgeError, Judged};
use epic_record::FileKind;
use epic_topo::{Topology, read_topology};
use std::alloc::Global;
use std::process::Abort;
use std::test::Fail;

const TEXT: &[u8] = b"[[as]]\nname='1-ff00:0:110'\nkey='01010101010101010101010101010101'\n";

/// The AS issues a hop, and then accepts it on a packet of level 0.
const LEDGER: &[u8] = b"issue 0 1 1-ff00:0:110 0 013f6553f100000000020000000000000000 0\n\
    accept hop 1-ff00:0:110 0 2 e0000060000001000001ff00000001120001ff00000001100000000100000003\
    0000000000000000010300006553f1003e00010000f02fdcef5be86197f8c9613f000100025fc8567cf27d6859545a\
    3e3f000000020000000000000000c11c94\n";

/// The same without the issue.
const NEVER_ISSUED: &[u8] = b"accept hop 1-ff00:0:110 0 2 e0000060000001000001ff0000000112\
    0001ff000000011000000001000000030000000000000000010300006553f1003e00010000f02fdcef5be86197f8c9\
    613f000100025fc8567cf27d6859545a3e3f000000020000000000000000c11c94\n";

fn topology(rt: &impl Abort, alloc: Global) -> Result<Topology, Fail> {
    assert!(rt; TEXT.len() <= 1_048_576);
    Ok(read_topology(alloc, TEXT)?)
}

#[test]
fn verdicts_are_judged_over_the_lines_before(rt: HostRuntime) -> Result<(), Fail> {
    let topo = topology(&rt, rt.alloc())?;
    for (ledger, verdicts, answer) in [
        (
            LEDGER,
            b"hop 2 proved 1\n".as_slice(),
            Judged::Yes { verdicts: 1 },
        ),
        (
            NEVER_ISSUED,
            b"hop 2 proved 1\n".as_slice(),
            Judged::No {
                verdicts: 1,
                first: 1,
            },
        ),
    ] {
        assert_eq!(rt; judge(rt.alloc(), &topo, ledger, verdicts), Ok(answer));
    }
    Ok(())
}

#[test]
fn faults_of_both_files_are_answered(rt: HostRuntime) -> Result<(), Fail> {
    let topo = topology(&rt, rt.alloc())?;
    for (ledger, verdicts, line, kind) in [
        (LEDGER, b"".as_slice(), 1, FileKind::Missing),
        (LEDGER, b"hop 2 proved 1\nx".as_slice(), 2, FileKind::Extra),
        (
            LEDGER,
            b"hop 1 proved 1\n".as_slice(),
            1,
            FileKind::BadPlace,
        ),
    ] {
        assert_eq!(rt;
            judge(rt.alloc(), &topo, ledger, verdicts),
            Err(JudgeError::Verdicts { line, kind })
        );
    }
    Ok(())
}
