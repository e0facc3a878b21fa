//! The moment of a packet, by its time in the units of its interface.
ghost use Rattle.std.specs.Prelude.{◌≡◌, ◌<◌, ◌^◌};
ghost use Rattle.epic_pcapng.specs.Packets.{moment_of};

/// Microseconds, of a time of `high * 2^32 + low` units, of which a second has `units`.
pub(crate) fn moment_of(high: u32, low: u32, units: u64) -> u128
    requires { 0 < units }
    ensures value { result ≡ moment_of high low units }
    ensures most { result < 2 ^ 84 }
{
    let time = u128::from(high) * 4_294_967_296 + u128::from(low);
    time * 1_000_000 / u128::from(units)
}
