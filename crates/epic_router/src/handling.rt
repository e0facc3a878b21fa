//! The checks of a packet before the window is asked: each function tells the first row that fails of one block of the
//! router's table, with the index of the hop there.
ghost use Rattle.std.specs.Prelude.{◌≡◌, ◌+◌, ◌<◌, ◌≤◌, None, Some, if◌then◌else◌, IfNone, IfSome, IfOk, IsTrue};
ghost use Rattle.std.specs.Result.{result_err};
ghost use Rattle.epic_layout.specs.Contents.{IsPacket, hop_count};
ghost use Rattle.epic_num.specs.Levels.{is_timed};
ghost use Rattle.epic_num.specs.Moments.{IsFresh};
ghost use Rattle.epic_num.specs.Tables.{first_row};
ghost use Rattle.epic_router.specs.Acceptance.{AreAccepted, IsAccepting};
ghost use Rattle.epic_router.specs.Blocks.{arrival_rows, checked_rows, hop_rows, hops_rows};
ghost use Rattle.epic_router.specs.Candidates.{candidates_of};
ghost use Rattle.epic_router.specs.Checks.{entry_rows, exit_rows, fresh_rows, has_second, is_wrong_source, is_wrong_switch, last_handled, second_rows, valid_rows};
ghost use Rattle.epic_router.specs.Ready.{IsReady};
ghost use Rattle.epic_topo.specs.Network.{has};

use crate::accepted::{Accepted, Handled};
use crate::ready::ReadyKeys;
use crate::tags::Visit;
use epic_cmac::CmacKey;
use epic_num::{AsId, Check, is_expired, is_timed, same_as};
use epic_topo::Topology;
use epic_view::PacketRef;

// ---- how a packet comes

/// Whether a packet comes from inside the AS without being at its first hop and of a source there, or is at its first hop
/// and comes from outside.
#[tactic(auto, unfolding(crate::specs::Checks::is_wrong_source))]
fn is_wrong_source(packet: &PacketRef<'_>, a: AsId, iface: u16) -> bool
    ensures { result ≡ is_wrong_source a iface packet.now }
{
    (iface == 0) != (packet.current() == 0) || (iface == 0 && !same_as(packet.src().asn, a))
}

/// The checks of how a packet comes to its current hop `j`.
#[tactic(auto, unfolding(crate::specs::Checks::entry_rows))]
fn entry_refusal(packet: &PacketRef<'_>, a: AsId, iface: u16, j: u8) -> Option<(Check, u8)>
    requires within { j ≤ hop_count packet.now }
    ensures packet { IsPacket packet.now }
    ensures value { result ≡ first_row (entry_rows a iface packet.now j) }
    ensures there { IfNone result (j < hop_count packet.now) }
{
    if j == packet.shape().hops {
        return Some((Check::Ended, j));
    }
    if packet.ingress(j) != iface {
        return Some((Check::WrongIngress, j));
    }
    if is_wrong_source(packet, a, iface) {
        return Some((Check::WrongSource, j));
    }
    None
}

/// The checks of whether hop `j` is valid at `now`, in microseconds.
#[tactic(auto, unfolding(crate::specs::Checks::valid_rows))]
fn valid_refusal(topo: &Topology, packet: &PacketRef<'_>, now: u64, j: u8) -> Option<(Check, u8)>
    requires { j < hop_count packet.now }
    ensures { result ≡ first_row (valid_rows topo.now now packet.now j) }
{
    let body = packet.body(j);
    if topo.profile().is_path_future(body.ts_path, now) {
        return Some((Check::PathFuture, j));
    }
    if is_expired(body.ts_path, body.exp, now) {
        return Some((Check::Expired, j));
    }
    None
}

/// The checks of whether a packet of level 1 to 3 is fresh at `now`, in microseconds.
#[tactic(auto, unfolding(crate::specs::Checks::fresh_rows, epic_num::specs::Windows::fresh_rows, epic_num::specs::Moments::is_stale, epic_num::specs::Moments::is_early))]
fn fresh_refusal(topo: &Topology, packet: &PacketRef<'_>, now: u64, j: u8) -> Option<(Check, u8)>
    ensures value { result ≡ first_row (fresh_rows topo.now now packet.now j) }
    ensures fresh { IfNone result (IsTrue (is_timed packet.now.first) → IsFresh topo.now.profile packet.now.ts now) }
{
    if !is_timed(packet.first_byte()) {
        return None;
    }
    if topo.profile().is_stale(packet.ts(), now) {
        return Some((Check::Stale, j));
    }
    if topo.profile().is_early(packet.ts(), now) {
        return Some((Check::Early, j));
    }
    None
}

/// The checks that need no key: how the packet comes to its current hop `j`, and whether the hop and the packet are of this
/// time.
#[tactic(auto, using(epic_num::proofs::TableLaws::tables), unfolding(crate::specs::Blocks::arrival_rows))]
fn arrival_refusal(
    topo: &Topology,
    packet: &PacketRef<'_>,
    a: AsId,
    iface: u16,
    now: u64,
) -> Option<(Check, u8)>
    requires within { packet.now.current ≤ hop_count packet.now }
    ensures packet { IsPacket packet.now }
    ensures value { result ≡ first_row (arrival_rows topo.now a iface now packet.now) }
    ensures there { IfNone result (packet.now.current < hop_count packet.now) }
    ensures fresh { IfNone result (IsTrue (is_timed packet.now.first) → IsFresh topo.now.profile packet.now.ts now) }
{
    let j = packet.current();
    if let Some(refusal) = entry_refusal(packet, a, iface, j) {
        return Some(refusal);
    }
    if let Some(refusal) = valid_refusal(topo, packet, now, j) {
        return Some(refusal);
    }
    fresh_refusal(topo, packet, now, j)
}

// ---- the hops

/// Whether hop `j` is entered or left from inside its AS elsewhere than at the ends of its segment, or is an end without it.
#[tactic(auto, unfolding(crate::specs::Checks::is_wrong_switch))]
fn is_wrong_switch(packet: &PacketRef<'_>, j: u8) -> bool
    requires { j < hop_count packet.now }
    ensures { result ≡ is_wrong_switch packet.now j }
{
    (packet.ingress(j) == 0) != packet.is_first(j) || (packet.egress(j) == 0) != packet.is_last(j)
}

/// The hop after hop `j`, where the router that handles hop `j` handles it too.
#[tactic(auto, unfolding(crate::specs::Checks::has_second))]
fn second_of(packet: &PacketRef<'_>, j: u8) -> Option<u8>
    requires { j < hop_count packet.now }
    ensures value { result ≡ (if has_second packet.now j then Some (j + 1) else None) }
    ensures there { IfSome result (λ next. next < hop_count packet.now) }
{
    let hops = packet.shape().hops;
    if packet.is_last(j) && j + 1 != hops {
        Some(j + 1)
    } else {
        None
    }
}

/// The last of the hops that are handled from hop `j` on.
#[tactic(auto, unfolding(crate::specs::Checks::last_handled))]
fn last_handled(packet: &PacketRef<'_>, j: u8) -> u8
    requires { j < hop_count packet.now }
    ensures value { result ≡ last_handled packet.now j }
    ensures there { result < hop_count packet.now }
{
    match second_of(packet, j) {
        Some(next) => next,
        None => j,
    }
}

impl Visit<'_, '_> {
    /// The checks of hop `j` by its tags and its place, under the generations that are taken.
    #[tactic(auto, using(epic_num::proofs::TableLaws::tables), unfolding(crate::specs::Blocks::hop_rows, crate::specs::Checks::switch_rows))]
    fn hop(&self, j: u8) -> Result<Accepted, (Check, u8)>
        requires there { j < hop_count self.now.packet.now }
        ensures refusal { result_err result ≡ first_row (hop_rows self.now.topo.now self.now.a (candidates_of self.now.present.now.number) self.now.packet.now j) }
        ensures accepted { IfOk result (λ x. IsAccepting self.now.topo.now self.now.a (candidates_of self.now.present.now.number) self.now.packet.now j x) }
    {
        match self.tags(j) {
            Err(refusal) => Err(refusal),
            Ok(_) if is_wrong_switch(self.packet, j) => Err((Check::WrongSwitch, j)),
            Ok(accepted) => Ok(accepted),
        }
    }

    /// The checks of hop `next`, which comes after hop `j` and is handled too.
    #[tactic(auto, using(epic_num::proofs::TableLaws::tables), unfolding(crate::specs::Blocks::hop_rows, crate::specs::Checks::second_rows))]
    fn second(&self, j: u8, next: u8) -> Result<Accepted, (Check, u8)>
        requires there { next < hop_count self.now.packet.now }
        requires next { next ≡ j + 1 }
        requires second { IsTrue (has_second self.now.packet.now j) }
        ensures refusal { result_err result ≡ first_row (second_rows self.now.topo.now self.now.a (candidates_of self.now.present.now.number) self.now.moment self.now.packet.now j) }
        ensures accepted { IfOk result (λ x. IsAccepting self.now.topo.now self.now.a (candidates_of self.now.present.now.number) self.now.packet.now (j + 1) x) }
    {
        if let Some(refusal) = valid_refusal(self.topo, self.packet, self.moment, next) {
            return Err(refusal);
        }
        self.hop(next)
    }

    /// The checks of the hops that the router handles, from hop `j` on.
    #[tactic(auto, using(epic_num::proofs::TableLaws::tables), unfolding(crate::specs::Blocks::hops_rows, crate::specs::Checks::second_rows))]
    fn hops(&self, j: u8) -> Result<Handled, (Check, u8)>
        requires there { j < hop_count self.now.packet.now }
        ensures refusal { result_err result ≡ first_row (hops_rows self.now.topo.now self.now.a (candidates_of self.now.present.now.number) self.now.moment self.now.packet.now j) }
        ensures accepted { IfOk result (λ h. AreAccepted self.now.topo.now self.now.a (candidates_of self.now.present.now.number) self.now.packet.now j h) }
    {
        let first = match self.hop(j) {
            Ok(accepted) => accepted,
            Err(refusal) => return Err(refusal),
        };
        let Some(next) = second_of(self.packet, j) else {
            return Ok(Handled {
                first,
                second: None,
            });
        };
        match self.second(j, next) {
            Ok(second) => Ok(Handled {
                first,
                second: Some(second),
            }),
            Err(refusal) => Err(refusal),
        }
    }
}

/// The checks of the hops that the router of the AS handles, from hop `j` on, by keys that were made ready.
fn hops_by<'a, 'p>(
    topo: &'a Topology,
    keys: &'a ReadyKeys,
    shared: &'a CmacKey,
    packet: &'a PacketRef<'p>,
    a: AsId,
    now: u64,
    j: u8,
) -> Result<Handled, (Check, u8)>
    requires ready { IsReady topo.now a packet.now keys.now.present keys.now.previous shared.now }
    requires there { j < hop_count packet.now }
    ensures refusal { result_err result ≡ first_row (hops_rows topo.now a (candidates_of keys.now.present.number) now packet.now j) }
    ensures accepted { IfOk result (λ h. AreAccepted topo.now a (candidates_of keys.now.present.number) packet.now j h) }
{
    let visit = Visit {
        topo,
        a,
        packet,
        moment: now,
        present: &keys.present,
        previous: &keys.previous,
        shared,
    };
    visit.hops(j)
}

// ---- how a packet leaves

/// The checks of how a packet leaves hop `j`.
#[tactic(auto, unfolding(crate::specs::Checks::exit_rows))]
fn exit_refusal(topo: &Topology, packet: &PacketRef<'_>, a: AsId, j: u8) -> Option<(Check, u8)>
    requires { j < hop_count packet.now }
    ensures { result ≡ first_row (exit_rows topo.now a packet.now j) }
{
    let out = packet.egress(j);
    if out != 0 && topo.neighbour(a, out).is_none() {
        return Some((Check::NoInterface, j));
    }
    if out == 0 && !same_as(packet.dst().asn, a) {
        return Some((Check::WrongDestination, j));
    }
    None
}

/// The hops that the router of the AS handles, from the current one on, where the packet passes all checks but those of the
/// window.
#[tactic(auto, using(epic_num::proofs::TableLaws::tables), unfolding(crate::specs::Blocks::checked_rows))]
pub(crate) fn checked_hops(
    topo: &Topology,
    keys: &mut ReadyKeys,
    packet: &PacketRef<'_>,
    a: AsId,
    iface: u16,
    generation: u32,
    now: u64,
) -> Result<Handled, (Check, u8)>
    requires known { IsTrue (has topo.now a) }
    requires within { packet.now.current ≤ hop_count packet.now }
    ensures packet { IsPacket packet.now }
    ensures refusal { result_err result ≡ first_row (checked_rows topo.now a (candidates_of generation) iface now packet.now) }
    ensures accepted { IfOk result (λ h. AreAccepted topo.now a (candidates_of generation) packet.now packet.now.current h) }
    ensures fresh { IfOk result (λ _. IsTrue (is_timed packet.now.first) → IsFresh topo.now.profile packet.now.ts now) }
    ensures there { IfOk result (λ _. packet.now.current < hop_count packet.now) }
{
    if let Some(refusal) = arrival_refusal(topo, packet, a, iface, now) {
        return Err(refusal);
    }
    let j = packet.current();
    keys.prepare(topo, a, generation);
    let name = keys.prepare_shared(topo, a, packet);
    let shared = keys.shared(topo, a, packet, &name);
    let handled = match hops_by(&*topo, &*keys, shared, &*packet, a, now, j) {
        Ok(handled) => handled,
        Err(refusal) => return Err(refusal),
    };
    match exit_refusal(topo, packet, a, last_handled(packet, j)) {
        Some(refusal) => Err(refusal),
        None => Ok(handled),
    }
}
