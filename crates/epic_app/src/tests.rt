//! Tests of the commands `hop`, `gen` and `judge`.

use crate::epic;
use epic_ports::{MemSink, MemStore};
use std::alloc::Global;
use std::process::Abort;
use std::test::Fail;

const KEY: &str = "2b7e151628aed2a6abf7158809cf4f3c";

const SPARE: usize = 4096;

/// Which calls fail, counted from 1, and how many bytes the output takes at most in a call.
#[derive(Clone, Copy)]
struct Faults {
    read: u64,
    write: u64,
    tell: u64,
    most: usize,
}

const NO_FAULTS: Faults = Faults {
    read: 0,
    write: 0,
    tell: 0,
    most: SPARE,
};

/// The status of a run, and what the output and the errors got.
#[derive(Drop)]
struct Run {
    status: u8,
    out: MemSink,
    err: MemSink,
}

/// A run of the words after the program's name over a store with the file `f`.
fn run_words(
    rt: &impl Abort,
    alloc: Global,
    words: &[&str],
    file: &[u8],
    faults: Faults,
) -> Result<Run, Fail> {
    let mut given = Vec::new(alloc);
    for word in words {
        given.push(String::from_str(alloc, word)?)?;
    }
    let mut files = Vec::new(alloc);
    files.push((String::from_str(alloc, "f")?, Vec::from_slice(alloc, file)?))?;
    assert!(rt; MemStore::names_differ(files.as_slice()));
    assert!(rt; 1 <= faults.most);
    let mut store = MemStore::new(files, Vec::from_slice(alloc, &[faults.read])?);
    let mut out = MemSink::new(
        alloc,
        faults.most,
        SPARE,
        Vec::from_slice(alloc, &[faults.write])?,
    )?;
    let mut err = MemSink::new(alloc, SPARE, SPARE, Vec::from_slice(alloc, &[faults.tell])?)?;
    let status = epic(alloc, &given, &mut store, &mut out, &mut err);
    assert_eq!(rt; store.file("f"), Some(file));
    Ok(Run { status, out, err })
}

#[test]
fn reports_of_hop(rt: HostRuntime) -> Result<(), Fail> {
    for (file, status, out) in [
        // An issue, a right check and one whose last bit is flipped.
        (
            "issue 013f6553f100000000020000000000000000\n\
            check 013f6553f100000000020000000000000000 f58348\n\
            check 013f6553f100000000020000000000000000 f58349\n",
            0,
            "1 issue f58348e54bebdb3d58d500f00adf3841 ce0eda92f139a1d5\n2 accept proved 1\n3 refuse\n\
            end 3 accepted 1 forged 0\n",
        ),
        // A check before its issue, then two issues, the first of which is named.
        (
            "#\ncheck 013f6553f100000000020000000000000000 f58348\n\
            issue 013f6553f100000000020000000000000000\n\
            issue 013f6553f100000000020000000000000000\n\
            check 013f6553f100000000020000000000000000 f58348",
            1,
            "1 accept forged 01013f6553f100000000020000000000000000 f58348\n\
            2 issue f58348e54bebdb3d58d500f00adf3841 ce0eda92f139a1d5\n\
            3 issue f58348e54bebdb3d58d500f00adf3841 ce0eda92f139a1d5\n\
            4 accept proved 2\nend 4 accepted 2 forged 1\n",
        ),
        // Returns, blanks, a comment and digits of either case.
        (
            "\t\r\n#x\r\n check\t013F6553f100000000020000000000000000  F58348 \r",
            1,
            "1 accept forged 01013f6553f100000000020000000000000000 f58348\n\
            end 1 accepted 1 forged 1\n",
        ),
        ("", 0, "end 0 accepted 0 forged 0\n"),
    ] {
        let run = run_words(
            &rt,
            rt.alloc(),
            &["hop", KEY, "f"],
            file.as_bytes(),
            NO_FAULTS,
        )?;
        assert_eq!(rt; run.out.written(), out.as_bytes(), "{file}");
        assert_eq!(rt; run.err.written(), b"".as_slice(), "{file}");
        assert_eq!(rt; run.status, status, "{file}");
    }
    Ok(())
}

#[test]
fn files_that_are_refused(rt: HostRuntime) -> Result<(), Fail> {
    for (file, err) in [
        ("jump", "epic: script 1 unknown-verb\n"),
        ("issue 01\n# \u{e9}", "epic: script 1 bad-word 2\n"),
        ("\n# \u{e9}\njump", "epic: script 2 not-text\n"),
        ("issue\r\r\n", "epic: script 1 not-text\n"),
        ("\nissue 0 1", "epic: script 2 word-count\n"),
        (
            "issue 013f6553f10000000002000000000000000",
            "epic: script 1 bad-word 2\n",
        ),
        (
            "check 013f6553f100000000020000000000000000 f5834",
            "epic: script 1 bad-word 3\n",
        ),
        (
            "check 013f6553f100000000020000000000000000 f5834g",
            "epic: script 1 bad-word 3\n",
        ),
    ] {
        let run = run_words(
            &rt,
            rt.alloc(),
            &["hop", KEY, "f"],
            file.as_bytes(),
            NO_FAULTS,
        )?;
        assert_eq!(rt; run.out.written(), b"".as_slice(), "{file}");
        assert_eq!(rt; run.err.written(), err.as_bytes(), "{file}");
        assert_eq!(rt; run.status, 4, "{file}");
    }
    for (length, status, err) in [
        (1_048_576, 0, ""),
        (1_048_577, 4, "epic: script too-long\n"),
    ] {
        let file = vec![in rt.alloc(); b'#'; length]?;
        let run = run_words(&rt, rt.alloc(), &["hop", KEY, "f"], &file, NO_FAULTS)?;
        assert_eq!(rt; run.err.written(), err.as_bytes());
        assert_eq!(rt; run.status, status);
    }
    let run = run_words(&rt, rt.alloc(), &["hop", KEY, "g"], b"", NO_FAULTS)?;
    assert_eq!(rt; run.err.written(), b"epic: read g\n".as_slice());
    assert_eq!(rt; run.status, 6);
    Ok(())
}

#[test]
fn lines_of_gen_and_judge(rt: HostRuntime) -> Result<(), Fail> {
    let commands: [(&[&str], &str); 2] = [
        (
            &["gen", "7", "20"],
            "end 74 accepted 170 proved 170 opened 0 forged 0 collided 0 unclaimed 10\n\
            digest 4285b2de4a5c1e3914053de1fb86829f\n",
        ),
        // An empty topology is one, and nothing was said of nothing.
        (&["judge", "f", "f", "f"], "judged 0 yes\n"),
    ];
    for (words, out) in commands {
        let run = run_words(&rt, rt.alloc(), words, b"", NO_FAULTS)?;
        assert_eq!(rt; run.out.written(), out.as_bytes());
        assert_eq!(rt; run.err.written(), b"".as_slice());
        assert_eq!(rt; run.status, 0);
    }
    Ok(())
}

#[test]
fn words_that_are_no_command(rt: HostRuntime) -> Result<(), Fail> {
    let words: [&[&str]; 7] = [
        &[],
        &["fly"],
        &["hop", "zz", "f"],
        &["hop", "2b7e151628aed2a6abf7158809cf4f3", "f"],
        &["hop", KEY],
        &["hop", KEY, "f", "f"],
        &["Hop", KEY, "f"],
    ];
    for words in words {
        let run = run_words(&rt, rt.alloc(), words, b"", NO_FAULTS)?;
        assert_eq!(rt; run.out.written(), b"".as_slice());
        assert_eq!(rt; run.err.written(), b"epic: words\n".as_slice());
        assert_eq!(rt; run.status, 2);
    }
    Ok(())
}

#[test]
fn calls_that_fail(rt: HostRuntime) -> Result<(), Fail> {
    let file = b"check 013f6553f100000000020000000000000000 f58348";
    let report = "1 accept forged 01013f6553f100000000020000000000000000 f58348\n\
        end 1 accepted 1 forged 1\n";
    for (faults, status, out, err) in [
        (
            Faults {
                most: 1,
                ..NO_FAULTS
            },
            1,
            report,
            "",
        ),
        (
            Faults {
                write: 3,
                most: 16,
                ..NO_FAULTS
            },
            7,
            "1 accept forged 01013f6553f10000",
            "epic: write\n",
        ),
        (
            Faults {
                write: 1,
                ..NO_FAULTS
            },
            7,
            "",
            "epic: write\n",
        ),
        (
            Faults {
                read: 1,
                ..NO_FAULTS
            },
            6,
            "",
            "epic: read f\n",
        ),
        (
            Faults {
                read: 2,
                ..NO_FAULTS
            },
            6,
            "",
            "epic: read f\n",
        ),
        (
            Faults {
                read: 1,
                tell: 2,
                ..NO_FAULTS
            },
            6,
            "",
            "epic: read ",
        ),
    ] {
        let run = run_words(&rt, rt.alloc(), &["hop", KEY, "f"], file, faults)?;
        assert_eq!(rt; run.out.written(), out.as_bytes());
        assert_eq!(rt; run.err.written(), err.as_bytes());
        assert_eq!(rt; run.status, status);
    }
    Ok(())
}
