//! The works of the benchmark in tables.

use crate::top::{End, bench};
use epic_ports::MemSink;
use std::alloc::Global;
use std::cell::Cell;
use std::io;
use std::process::Abort;
use std::rt::Clock;
use std::test::Fail;
use std::time::Duration;

/// A clock that goes on by a millisecond with each reading, or can't be read.
#[derive(Drop)]
struct StepClock {
    readings: Cell<u32>,
    works: bool,
}

impl Clock for StepClock {
    fn monotonic(&self) -> io::Result<Duration> {
        if !self.works {
            return Err(io::Error::from(io::ErrorKind::Other));
        }
        let reading = self.readings.get();
        self.readings.set(reading.saturating_add(1));
        Ok(Duration::from_millis(u64::from(reading)))
    }

    fn since_1970(&self) -> io::Result<Duration> {
        self.monotonic()
    }
}

/// A run of these words, with the clock as it is said, and the write of this number failing. What the output and the errors
/// got is compared with what they have to.
fn check_run(
    rt: &impl Abort,
    alloc: Global,
    words: &[&str],
    works: bool,
    fault: u64,
    want: (u8, &str, &str),
) -> Result<(), Fail> {
    let (status, text, line) = want;
    let mut given = Vec::new(alloc);
    for word in words {
        given.push(String::from_str(alloc, word)?)?;
    }
    let clock = StepClock {
        readings: Cell::new(0),
        works,
    };
    let mut out = MemSink::new(alloc, 4096, 4096, Vec::from_slice(alloc, &[fault])?)?;
    let mut err = MemSink::new(alloc, 4096, 4096, Vec::new(alloc))?;
    let end: End = bench(&(clock, alloc), &given, &mut out, &mut err);
    assert_eq!(rt; end.status(), status, "{words:?}");
    assert_eq!(rt; out.written(), text.as_bytes(), "{words:?}");
    assert_eq!(rt; err.written(), line.as_bytes(), "{words:?}");
    Ok(())
}

#[test]
fn prints_times(rt: HostRuntime) -> Result<(), Fail> {
    for (words, text) in [
        (
            ["aes", "2"],
            "aes 128 blocks b6acd2d5f35f0e67d8a54a2bd17b187e 7812.5 ns\n",
        ),
        (
            ["cmac", "1"],
            "cmac 1 messages 72d01f97eb68fd5a1834661a8f53e4db 1000000.0 ns\n",
        ),
        (
            ["short", "4"],
            "short 4 messages bb0caf06867ca92b4cde0f3e8965a478 250000.0 ns\n",
        ),
        (
            ["turn3", "2"],
            "turn3 2 turns e4eb03bb450921fe451ad63b0e2b379a 500000.0 ns\n",
        ),
        (
            ["window-4096", "2"],
            "window-4096 2 offers e4eb03bb450921fe451ad63b0e2b379a 500000.0 ns\n",
        ),
        (
            ["police", "2"],
            "police 2 offers e4eb03bb450921fe451ad63b0e2b379a 500000.0 ns\n",
        ),
    ] {
        check_run(&rt, rt.alloc(), &words, true, 0, (0, text, ""))?;
    }
    Ok(())
}

#[test]
fn tells_faults(rt: HostRuntime) -> Result<(), Fail> {
    let alloc = rt.alloc();
    for words in [
        ["aes", "0"],
        ["aes", "07"],
        ["aes", "4294967296"],
        ["des", "1"],
    ] {
        check_run(&rt, alloc, &words, true, 0, (2, "", "epic_bench: words\n"))?;
    }
    check_run(
        &rt,
        alloc,
        &["aes", "1", "1"],
        true,
        0,
        (2, "", "epic_bench: words\n"),
    )?;
    check_run(
        &rt,
        alloc,
        &["aes", "1"],
        false,
        0,
        (6, "", "epic_bench: clock\n"),
    )?;
    check_run(
        &rt,
        alloc,
        &["digests", "1"],
        false,
        1,
        (7, "", "epic_bench: write\n"),
    )
}
