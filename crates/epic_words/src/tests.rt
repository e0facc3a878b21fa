//! Words and what they ask for, in tables.

use super::*;
use std::alloc::{AllocError, Global};
use std::test::Fail;

/// The words `run t s`.
const NAMES: RunWords<'static> = RunWords {
    topology: "t",
    script: "s",
    capture: None,
    save: None,
    ledger: None,
    verdicts: None,
    makers: false,
    police: None,
};

/// The words of a line, between its single spaces.
fn split(alloc: Global, line: &str) -> Result<Vec<String>, AllocError> {
    let mut words = Vec::new(alloc);
    for word in line.split(' ') {
        words.push(String::from_str(alloc, word)?)?;
    }
    Ok(words)
}

#[test]
fn words_of_run(rt: HostRuntime) -> Result<(), Fail> {
    let alloc = rt.alloc();
    for (line, names) in [
        ("run t s", NAMES),
        (
            "run t s --save d",
            RunWords {
                save: Some("d"),
                ..NAMES
            },
        ),
        (
            "run t --save=d s",
            RunWords {
                save: Some("d"),
                ..NAMES
            },
        ),
        (
            "run --save=-x --capture - t s",
            RunWords {
                capture: Some("-"),
                save: Some("-x"),
                ..NAMES
            },
        ),
        (
            "run t s --save=",
            RunWords {
                save: Some(""),
                ..NAMES
            },
        ),
        (
            "run t --verdicts=v s --ledger l",
            RunWords {
                ledger: Some("l"),
                verdicts: Some("v"),
                ..NAMES
            },
        ),
        (
            "run -- --save s",
            RunWords {
                topology: "--save",
                ..NAMES
            },
        ),
        (
            "run t t --capture t",
            RunWords {
                script: "t",
                capture: Some("t"),
                ..NAMES
            },
        ),
    ] {
        let words = split(alloc, line)?;
        assert!(rt; asked_for(alloc, &words) == Ok(Asked::Run(names)), "{line}");
    }
    Ok(())
}

#[test]
fn words_of_makers_and_police(rt: HostRuntime) -> Result<(), Fail> {
    let alloc = rt.alloc();
    for (line, makers, police) in [
        ("run t s --makers", true, None),
        ("run --makers t s", true, None),
        (
            "run t s --budget 400 --span 1000000",
            false,
            Some((400, 1_000_000)),
        ),
        ("run t --span=1 --budget=1 s --makers", true, Some((1, 1))),
        (
            "run t s --budget 1099511627776 --span 3600000000",
            false,
            Some((1_099_511_627_776, 3_600_000_000)),
        ),
    ] {
        let names = RunWords {
            makers,
            police: police.map(|(budget, span_us)| PoliceWords { budget, span_us }),
            ..NAMES
        };
        let words = split(alloc, line)?;
        assert!(rt; asked_for(alloc, &words) == Ok(Asked::Run(names)), "{line}");
    }
    Ok(())
}

#[test]
fn words_that_are_refused(rt: HostRuntime) -> Result<(), Fail> {
    let alloc = rt.alloc();
    assert!(rt; asked_for(alloc, &[]) == Err(WordsError::Refused));
    for line in [
        "",
        "fly",
        "--save=d run t s",
        "run t",
        "run t s x",
        "run t s --help",
        "run -h",
        "run --version",
        "run t s --sav d",
        "run t s --save",
        "run t s --save -x",
        "run t s --save -- d",
        "run -x s",
        "run t s --save=d --save=d",
        "run t s --save t",
        "run t s --save s",
        "run t s --capture=c --save=c",
        "run t s --ledger t",
        "run t s --capture=c --verdicts c",
        "run t s --save=d --ledger d",
        "run t s --save=d --verdicts d",
        "run t s --ledger=d --verdicts d",
        "run t s --makers --makers",
        "run t s --makers=1",
        "run t s --save --makers",
        "run t s --budget 400",
        "run t s --span 5",
        "run t s --budget 0 --span 5",
        "run t s --budget +4 --span 5",
        "run t s --budget 04 --span 5",
        "run t s --budget 1099511627777 --span 5",
        "run t s --budget 5 --span 0",
        "run t s --budget 5 --span 3600000001",
        "run t s --budget= --span 5",
        "hop zz f",
        "hop 000102030405060708090a0b0c0d0e0f",
        "hop 000102030405060708090a0b0c0d0e0f f --save=d",
        "gen",
        "gen 7",
        "gen 7 20 1",
        "gen 18446744073709551616 1",
        "gen 7 0",
        "gen 7 100001",
        "gen 07 1",
        "gen 7 01",
        "gen +7 1",
        "gen 7 1 --save=d",
        "gen -1 1",
        "gen 7 0x10",
        "gen 1-1 1",
        "gen 7 000000000000000000000",
        "judge t l",
        "judge t l v v",
    ] {
        let words = split(alloc, line)?;
        assert!(rt;
            asked_for(alloc, &words) == Err(WordsError::Refused),
            "{line}"
        );
    }
    Ok(())
}

#[test]
fn words_of_hop(rt: HostRuntime) -> Result<(), Fail> {
    let alloc = rt.alloc();
    let words = split(alloc, "hop 000102030405060708090a0b0c0d0E0F f")?;
    let hop = HopWords {
        key: [0, 1, 2, 3, 4, 5, 6, 7, 8, 9, 10, 11, 12, 13, 14, 15],
        file: "f",
    };
    assert!(rt; asked_for(alloc, &words) == Ok(Asked::Hop(hop)));
    Ok(())
}

#[test]
fn words_of_gen(rt: HostRuntime) -> Result<(), Fail> {
    let alloc = rt.alloc();
    for (line, seed, packets) in [
        ("gen 7 20", 7, 20),
        ("gen 0 1", 0, 1),
        ("gen 18446744073709551615 100000", u64::MAX, 100_000),
    ] {
        let words = split(alloc, line)?;
        let asked = Asked::Gen(GenWords { seed, packets });
        assert!(rt; asked_for(alloc, &words) == Ok(asked), "{line}");
    }
    Ok(())
}

#[test]
fn words_of_judge(rt: HostRuntime) -> Result<(), Fail> {
    let alloc = rt.alloc();
    let words = split(alloc, "judge t l l")?;
    let files = JudgeWords {
        topology: "t",
        ledger: "l",
        verdicts: "l",
    };
    assert!(rt; asked_for(alloc, &words) == Ok(Asked::Judge(files)));
    Ok(())
}
