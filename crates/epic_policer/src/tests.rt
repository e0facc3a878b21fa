//! What a policer answers at the limits of its settings, and that it goes on when many packets are over.
use super::*;
use epic_num::{AsId, MAX_MOMENT};
use std::alloc::Global;
use std::process::Abort;
use std::test::Fail;

const NOW: u64 = 1_700_000_000_000_000;

/// The answer that a packet passes, with so many bytes used.
const fn pass(used: u64) -> Policed {
    Policed::Pass { used }
}

/// The answer that a packet is over the budget, with so many bytes used.
const fn over(used: u64) -> Policed {
    Policed::Over { used }
}

/// Makes room for one more packet, and offers one of an AS of this number.
fn offer(
    rt: &impl Abort,
    policer: &mut Policer,
    source: u64,
    bytes: u32,
    now: u64,
) -> Result<Policed, Fail> {
    policer.reserve(1)?;
    assert!(rt; policer.spare() >= 1 && policer.latest() <= now);
    Ok(policer.offer(AsId(source), bytes, now))
}

/// Offers packets to a new policer of the ASes 1 and 2, and compares the answers.
fn offer_all(
    rt: &impl Abort,
    alloc: Global,
    budget: u64,
    span_us: u64,
    rows: &[(u64, u32, u64, Policed)],
) -> Result<(), Fail> {
    let mut policer = Policer::new(alloc, &[AsId(1), AsId(2)], budget, span_us)?;
    for (source, bytes, now, want) in rows {
        let given = offer(rt, &mut policer, *source, *bytes, *now)?;
        assert_eq!(rt; given, *want, "AS {source} at {now}");
    }
    Ok(())
}

#[test]
fn a_source_has_its_own_budget_within_a_span(rt: HostRuntime) -> Result<(), Fail> {
    let rows = [
        (1, 213, NOW, pass(213)),
        (1, 213, NOW, over(213)),
        (2, 400, NOW, pass(400)),
        (3, 1, NOW, Policed::Unknown),
        (1, 187, NOW + 1, pass(400)),
        (1, 1, NOW + 999_999, over(400)),
        (1, 213, NOW + 1_000_000, pass(400)),
        (2, 400, NOW + 1_000_001, pass(400)),
        (1, 213, NOW + 1_000_001, over(213)),
    ];
    offer_all(&rt, rt.alloc(), 400, 1_000_000, &rows)
}

#[test]
fn a_policer_answers_at_the_limits(rt: HostRuntime) -> Result<(), Fail> {
    // The budget is below one packet.
    offer_all(
        &rt,
        rt.alloc(),
        1,
        1,
        &[(1, 2, 0, over(0)), (1, 1, 0, pass(1)), (1, 1, 1, pass(1))],
    )?;
    // The span is longer than the moment.
    offer_all(
        &rt,
        rt.alloc(),
        10,
        3_600_000_000,
        &[(1, 10, 0, pass(10)), (1, 1, 3_599_999_999, over(10))],
    )?;
    // The last moment, and a span whose end passes 2^64.
    offer_all(
        &rt,
        rt.alloc(),
        10,
        u64::MAX,
        &[(1, 10, MAX_MOMENT, pass(10)), (1, 1, MAX_MOMENT, over(10))],
    )?;
    // A span of no time at all, and packets of no bytes and of the most.
    let most = u64::from(u32::MAX);
    let rows = [
        (1, u32::MAX, 0, pass(most)),
        (1, 0, 0, pass(0)),
        (2, u32::MAX, u64::MAX, pass(most)),
    ];
    offer_all(&rt, rt.alloc(), u64::MAX, 0, &rows)
}

#[test]
fn a_policer_forgets_what_is_over(rt: HostRuntime) -> Result<(), Fail> {
    let mut policer = Policer::new(rt.alloc(), &[AsId(1)], 1_000, 10)?;
    for i in 0..300u64 {
        let given = offer(&rt, &mut policer, 1, 100, i)?;
        assert_eq!(rt; given, pass(100 * (i + 1).min(10)), "at {i}");
    }
    assert!(rt; policer.spare() <= 16);
    Ok(())
}

#[test]
fn each_as_has_a_policer_of_its_own(rt: HostRuntime) -> Result<(), Fail> {
    let rows = [
        (10, 1, 213, NOW, pass(213)),
        (10, 1, 213, NOW, over(213)),
        // Neither another AS nor another source is touched.
        (20, 1, 213, NOW, pass(213)),
        (10, 2, 400, NOW, pass(400)),
        (20, 3, 1, NOW, Policed::Unknown),
        (10, 1, 213, NOW + 999_999, over(213)),
        (20, 1, 187, NOW + 999_999, pass(400)),
        (10, 1, 213, NOW + 1_000_000, pass(213)),
        (20, 1, 214, NOW + 1_000_000, over(187)),
    ];
    let sources = Vec::from_array(rt.alloc(), [AsId(1), AsId(2)])?;
    let mut policers = Policers::new(rt.alloc(), sources, 400, 1_000_000);
    for (at, source, bytes, now, want) in rows {
        assert!(rt; policers.latest() <= now);
        let given = policers.offer(rt.alloc(), AsId(at), AsId(source), bytes, now)?;
        assert_eq!(rt; given, want, "AS {source} at {at}, {now}");
    }
    Ok(())
}
