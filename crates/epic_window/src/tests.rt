//! What an offer answers at the limits of the settings, and that a window stays small.
ghost use Rattle.std.specs.Prelude.{◌≡◌};

use super::*;
use epic_num::{AsId, HostId, MAX_MOMENT, OutOfMemory, Profile};
use std::process::Abort;
use std::test::Fail;

const NOW: u64 = 1_700_000_000_000_000;

const HOUR: u64 = 3_600_000_000;

fn profile(lifetime_us: u64, window: u32) -> Profile {
    Profile {
        lifetime_us,
        skew_us: 1_000_000,
        epoch_us: 86_400_000_000,
        window,
    }
}

/// A key of a source in an AS of this number.
fn key(asn: u64, ts: u64) -> WinKey {
    WinKey {
        src: HostId {
            asn: AsId(asn),
            host: 1,
        },
        ts,
        hop: 0,
    }
}

/// Makes room for one more entry, and offers a key.
fn offer(
    rt: &impl Abort,
    window: &mut Window,
    profile: &Profile,
    key: WinKey,
    now: u64,
    turn: u32,
) -> Result<Offer, Fail>
    requires { window.old.profile ≡ profile.now }
    ensures { window.new.profile ≡ profile.now }
{
    window.reserve(1)?;
    assert!(rt; window.spare() >= 1 && window.latest() <= now);
    if profile.is_early(key.ts, now) || profile.is_stale(key.ts, now) {
        return Err(Fail::from(OutOfMemory));
    }
    Ok(window.offer(key, now, turn))
}

/// Offers so many keys of two ASes in turn at one moment: each is fresh, or each was here.
fn offer_all(
    rt: &impl Abort,
    window: &mut Window,
    profile: &Profile,
    keys: u32,
    again: bool,
) -> Result<(), Fail>
    requires { window.old.profile ≡ profile.now }
    ensures { window.new.profile ≡ profile.now }
{
    for i in 0..keys {
        let key = key(u64::from(i % 2), NOW + u64::from(i));
        let given = offer(rt, window, profile, key, NOW, i)?;
        let want = if again {
            Offer::Seen { first: i }
        } else {
            Offer::Fresh
        };
        assert_eq!(rt; given, want, "key {i}");
    }
    Ok(())
}

#[test]
fn a_key_is_fresh_once(rt: HostRuntime) -> Result<(), Fail> {
    for (limit, keys) in [(4_096, 8_000), (4_000, 8_000)] {
        let profile = profile(HOUR, limit);
        let mut window = Window::new(rt.alloc(), &profile, b"a secret of 16 B");
        offer_all(&rt, &mut window, &profile, keys, false)?;
        offer_all(&rt, &mut window, &profile, keys, true)?;
        if limit * 2 == keys {
            let more = offer(&rt, &mut window, &profile, key(1, NOW - 1), NOW, 0)?;
            assert_eq!(rt; more, Offer::Full { live: limit });
        }
    }
    Ok(())
}

#[test]
fn an_entry_counts_until_its_last_bucket_is_over(rt: HostRuntime) -> Result<(), Fail> {
    let full = Offer::Full { live: 1 };
    let seen = Offer::Seen { first: 7 };
    // An entry at one moment, and what another offer of the AS is answered later.
    let rows = [
        (1, 1, 0, 0, seen),
        (1, 1, 0, 524_287, full),
        (1, 1, 0, 524_288, Offer::Fresh),
        (1, 65_536, 0, 524_287, Offer::Fresh),
        (HOUR, 1, 0, 3_600_285_695, full),
        (HOUR, 1, 0, 3_600_285_696, Offer::Fresh),
        (1, 1, MAX_MOMENT, MAX_MOMENT, seen),
        (HOUR, 1, MAX_MOMENT - HOUR, MAX_MOMENT, full),
        (HOUR, 65_536, MAX_MOMENT - HOUR, MAX_MOMENT, Offer::Fresh),
        (1, 1, 0, MAX_MOMENT, Offer::Fresh),
    ];
    for (lifetime, limit, before, now, want) in rows {
        let profile = profile(lifetime, limit);
        let mut window = Window::new(rt.alloc(), &profile, &[0; 16]);
        let first = offer(&rt, &mut window, &profile, key(1, before), before, 7)?;
        assert_eq!(rt; first, Offer::Fresh, "at {before}");
        let given = offer(&rt, &mut window, &profile, key(1, now), now, 8)?;
        assert_eq!(rt; given, want, "at {now}");
    }
    Ok(())
}

#[test]
fn a_window_forgets_what_is_over(rt: HostRuntime) -> Result<(), Fail> {
    let profile = profile(1, 1);
    let mut window = Window::new(rt.alloc(), &profile, &[0; 16]);
    for i in 0..10_000 {
        let now = i * 262_144;
        let given = offer(&rt, &mut window, &profile, key(i, now), now, 0)?;
        assert_eq!(rt; given, Offer::Fresh, "AS {i}");
    }
    let more = window.spare().saturating_add(1);
    window.reserve(more)?;
    assert!(rt; window.spare() < 1_000);
    Ok(())
}
