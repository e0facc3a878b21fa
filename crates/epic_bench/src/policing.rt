//! Offers to a policer.

ghost use Rattle.std.specs.Prelude.{◌≡◌, ◌+◌, ◌<◌, ◌≤◌, ℕ, length, map, [], IfOk, IfErr};
ghost use Rattle.std.specs.List.{range_with_len};
ghost use Rattle.epic_num.specs.declared.name.AsId.{AsId};
ghost use Rattle.epic_policer.specs.Offers.{is_among};
ghost use Rattle.epic_bench.specs.Policing.{packet_of, passed_by, policed_digest, policy, source_of};
ghost use Rattle.epic_bench.specs.declared.top.End.TheVariants.{OutOfMemory};

use crate::digests::digest;
use crate::top::End;
use crate::way::NOW;
use epic_num::AsId;
use epic_policer::{Packet, Policed, Policer};
use std::alloc::Global;

/// How many sources there are.
const SOURCES: usize = 4_096;

/// How many bytes each may have passed within the span.
const BUDGET: u64 = 1_048_576;

/// The span, in microseconds.
const SPAN_US: u64 = 1_000_000;

/// How many bytes each packet has.
const BYTES: u32 = 213;

/// The source of a number.
fn source(i: u64) -> AsId
    requires { i < 4096 }
    ensures { result ≡ source_of i }
{
    AsId(0x0001_0000_0000_0001 + i)
}

/// The sources in order.
fn fill(sources: &mut [AsId])
    requires { length sources.old ≤ 4096 }
    ensures { sources.new ≡ map source_of (range_with_len 0 (length sources.old)) }
{
    for (i, asn) in sources.iter_mut().enumerate() {
        *asn = source(i as u64);
    }
}

/// The packet of a number.
#[tactic(auto, unfolding(crate::specs::Policing::packet_of))]
fn packet(i: u32) -> Packet
    ensures { result ≡ packet_of i }
{
    Packet {
        source: source(u64::from(i) % SOURCES as u64),
        bytes: BYTES,
        moment: NOW + u64::from(i) / 4,
    }
}

/// 1 for a packet that passes, else 0.
fn passed_by(given: &Policed) -> u64
    ensures value { result ≡ passed_by given.now }
    ensures bound { result ≤ 1 }
{
    match given {
        Policed::Pass { .. } => 1,
        Policed::Over { .. } | Policed::Unknown => 0,
    }
}

/// A policer of the sources that no packet has passed.
#[tactic(auto, unfolding(crate::specs::Policing::policy))]
fn open(alloc: Global) -> Result<Policer, End>
    ensures sources { IfOk result (λ p. (s : AsId) → is_among p.policy.sources s ≡ is_among policy.sources s) }
    ensures budget { IfOk result (λ p. p.policy.budget ≡ policy.budget) }
    ensures span { IfOk result (λ p. p.policy.span_us ≡ policy.span_us) }
    ensures passed { IfOk result (λ p. p.passed ≡ []) }
    ensures latest { IfOk result (λ p. p.latest ≡ 0) }
    ensures err { IfErr result (λ end. end ≡ OutOfMemory) }
{
    let mut sources = [AsId(0); SOURCES];
    fill(&mut sources);
    match Policer::new(alloc, &sources, BUDGET, SPAN_US) {
        Ok(policer) => Ok(policer),
        Err(_) => Err(End::OutOfMemory),
    }
}

/// Offers so many packets to a new policer, one after the other.
pub(crate) fn police_rounds(alloc: Global, rounds: u32) -> Result<[u8; 16], End>
    ensures ok { IfOk result (λ given. given ≡ policed_digest rounds) }
    ensures err { IfErr result (λ end. end ≡ OutOfMemory) }
{
    let mut policer = open(alloc)?;
    let mut passed = 0;
    for i in 0..rounds {
        if policer.reserve(1).is_err() {
            return Err(End::OutOfMemory);
        }
        let packet = packet(i);
        let given = policer.offer(packet.source, packet.bytes, packet.moment);
        passed += passed_by(&given);
    }
    Ok(digest(passed, &[]))
}
