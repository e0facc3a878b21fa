//! Time in buckets: where the live entries begin, and how far they reach.
ghost use Rattle.std.specs.Prelude.{◌≡◌, ◌^◌, ◌<◌};
ghost use Rattle.epic_window.specs.Counts.{first_bucket, most_buckets};

use epic_num::{Profile, bucket};

/// The first bucket whose entries are live at `now`, in microseconds.
#[tactic(auto, unfolding(crate::specs::Counts::first_bucket))]
pub fn first_bucket(profile: &Profile, now: u64) -> u64
    ensures value { result ≡ first_bucket profile.now now }
    ensures small { result < 2 ^ 62 }
{
    bucket(now).saturating_sub(profile.live_buckets())
}

/// In how many buckets, from the first live one on, what is fresh at one moment can stand.
#[tactic(auto, unfolding(crate::specs::Counts::most_buckets))]
pub fn most_buckets(profile: &Profile) -> u64
    ensures value { result ≡ most_buckets profile.now }
    ensures small { result < 2 ^ 62 }
{
    profile.live_buckets() + bucket(profile.skew_us) + 2
}
