//! Moments and durations: when hops end, when packets are fresh, and how replay windows count time.

ghost use Rattle.std.specs.Prelude.{◌≡◌, ◌<◌, ◌≤◌, ◌^◌};
ghost use Rattle.epic_num.specs.Moments.{bucket, valid_until, is_expired, is_path_future, is_early, is_stale, is_live, live_buckets, epoch_of};

use crate::Profile;

/// The greatest moment, in microseconds: the last one of the last second that 32 bits can tell.
pub const MAX_MOMENT: u64 = 4_294_967_295_999_999;

/// How long a replay window's bucket is, in microseconds.
const BUCKET: u64 = 262_144;

/// The bucket in which replay windows keep what has this timestamp, in microseconds.
#[tactic(auto, unfolding(crate::specs::Moments::bucket))]
pub fn bucket(moment: u64) -> u64
    ensures value { result ≡ bucket moment }
    ensures small { result < 2 ^ 46 }
{
    moment / BUCKET
}

/// The last moment, in microseconds, at which a hop is valid: `(exp + 1) * 337.5` seconds after `ts_path`, in seconds.
#[tactic(auto, unfolding(crate::specs::Moments::valid_until))]
pub fn valid_until(ts_path: u32, exp: u8) -> u64
    ensures { result ≡ valid_until ts_path exp }
{
    u64::from(ts_path) * 1_000_000 + (u64::from(exp) + 1) * 337_500_000
}

/// Whether a hop is no longer valid at `now`, in microseconds.
#[tactic(auto, unfolding(crate::specs::Moments::is_expired))]
pub fn is_expired(ts_path: u32, exp: u8, now: u64) -> bool
    ensures { result ≡ is_expired ts_path exp now }
{
    now > valid_until(ts_path, exp)
}

impl Profile {
    /// Whether a segment's timestamp `ts_path`, in seconds, lies too far ahead of `now`, in microseconds.
    #[tactic(auto, unfolding(crate::specs::Moments::is_path_future))]
    pub fn is_path_future(&self, ts_path: u32, now: u64) -> bool
        ensures { result ≡ is_path_future self.now ts_path now }
    {
        u64::from(ts_path) * 1_000_000 > now.saturating_add(self.skew_us)
    }

    /// Whether a packet's timestamp lies too far ahead of `now`, both in microseconds.
    #[tactic(auto, unfolding(crate::specs::Moments::is_early))]
    pub fn is_early(&self, ts: u64, now: u64) -> bool
        ensures { result ≡ is_early self.now ts now }
    {
        ts > now.saturating_add(self.skew_us)
    }

    /// Whether a packet's timestamp is too old at `now`, both in microseconds.
    #[tactic(auto, unfolding(crate::specs::Moments::is_stale))]
    pub fn is_stale(&self, ts: u64, now: u64) -> bool
        ensures { result ≡ is_stale self.now ts now }
    {
        now > ts.saturating_add(self.lifetime_us)
    }

    /// How many buckets past its own an entry of a replay window is live.
    #[tactic(auto, unfolding(crate::specs::Moments::live_buckets))]
    pub fn live_buckets(&self) -> u64
        ensures value { result ≡ live_buckets self.now }
        ensures small { result ≤ 2 ^ 46 }
    {
        bucket(self.lifetime_us) + 1
    }

    /// Whether a replay window still keeps an entry of this timestamp at `now`, both in microseconds.
    #[tactic(auto, unfolding(crate::specs::Moments::is_live))]
    pub fn is_live(&self, ts: u64, now: u64) -> bool
        ensures { result ≡ is_live self.now ts now }
    {
        bucket(now) <= bucket(ts) + self.live_buckets()
    }

    /// The key epoch of a timestamp, in microseconds.
    #[tactic(auto, unfolding(crate::specs::Moments::epoch_of))]
    pub fn epoch_of(&self, ts: u64) -> u64
        requires { 0 < self.now.epoch_us }
        ensures { result ≡ epoch_of self.now ts }
    {
        ts / self.epoch_us
    }
}
