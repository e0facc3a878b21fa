//! Offers to a replay window.

ghost use Rattle.std.specs.Prelude.{◌≡◌, ◌<◌, ◌≤◌, IfOk, IfErr};
ghost use Rattle.epic_bench.specs.Offers.{fresh_by, key_of, moment_of, offers_digest, step_of};
ghost use Rattle.epic_bench.specs.declared.top.End.TheVariants.{OutOfMemory};

use crate::digests::digest;
use crate::top::End;
use crate::way::NOW;
use crate::work::{KEY, Load};
use epic_num::{AsId, HostId, Profile};
use epic_window::{Offer, WinKey, Window};
use std::alloc::Global;

/// The settings of the window: two seconds of lifetime, one of skew.
pub(crate) const PROFILE: Profile = Profile {
    lifetime_us: 2_000_000,
    skew_us: 1_000_000,
    epoch_us: 86_400_000_000,
    window: 65_536,
};

/// The host that sends all packets.
pub(crate) const SOURCE: HostId = HostId {
    asn: AsId(0x0001_0000_0000_0001),
    host: 1,
};

/// How many microseconds lie between two offers.
fn step(load: Load) -> u64
    ensures value { result ≡ step_of load }
    ensures small { result ≤ 2_000_000 }
{
    match load {
        Load::One => 2_000_000,
        Load::Hundred => 20_000,
        Load::Thousands => 488,
    }
}

/// The moment of the offer of a number, and the timestamp of its packet.
#[tactic(auto, unfolding(crate::specs::Offers::moment_of))]
fn moment(load: Load, i: u32) -> u64
    ensures { result ≡ moment_of load i }
{
    NOW + u64::from(i) * step(load)
}

/// The key of that packet.
#[tactic(auto, unfolding(crate::specs::Offers::key_of))]
fn key(load: Load, i: u32) -> WinKey
    ensures { result ≡ key_of load i }
{
    WinKey {
        src: SOURCE,
        ts: moment(load, i),
        hop: 0,
    }
}

/// 1 for a packet that wasn't here before, else 0.
fn fresh_by(given: &Offer) -> u64
    ensures value { result ≡ fresh_by given.now }
    ensures bound { result ≤ 1 }
{
    match given {
        Offer::Fresh => 1,
        Offer::Seen { .. } | Offer::Full { .. } => 0,
    }
}

/// Offers so many packets of one AS to an empty window, each at its timestamp.
pub(crate) fn offer_rounds(alloc: Global, load: Load, rounds: u32) -> Result<[u8; 16], End>
    ensures ok { IfOk result (λ given. given ≡ offers_digest load rounds) }
    ensures err { IfErr result (λ end. end ≡ OutOfMemory) }
{
    let mut window = Window::new(alloc, &PROFILE, &KEY);
    let mut fresh = 0;
    for i in 0..rounds {
        if window.reserve(1).is_err() {
            return Err(End::OutOfMemory);
        }
        let given = window.offer(key(load, i), moment(load, i), i);
        fresh += fresh_by(&given);
    }
    Ok(digest(fresh, &[]))
}
