//! The last line.

use super::*;
use crate::samples::reads;
use std::test::Fail;

#[test]
fn last_lines(rt: HostRuntime) -> Result<(), Fail> {
    let mut counts = Counts {
        steps: 5,
        ..Counts::default()
    };
    counts = counted(counts, &Verdict::Proved { issue: 3, send: 0 });
    counts = counted(counts, &Verdict::Opened { step: 4 });
    counts = counted(counts, &Verdict::Opened { step: 4 });
    counts = counted(counts, &Verdict::Unclaimed);
    let mut to = Vec::new(rt.alloc());
    print_end(&mut to, &counts)?;
    let line = "end 5 accepted 3 proved 1 opened 2 forged 0 collided 0 unclaimed 1\n";
    reads(&rt, to.as_slice(), line);
    Ok(())
}
