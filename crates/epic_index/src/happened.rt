//! What the events of a ledger say, one by one.
ghost use Rattle.std.specs.Prelude.{◌≡◌, ◌<◌, ℕ, option_map, option_and_then, slice_get, slice_index_or, IfSome, IsSome};
ghost use Rattle.std.specs.Option.{option_copied, option_map_or};
ghost use Rattle.epic_num.specs.Chains.{ancestor, issue_at, name_of};
ghost use Rattle.epic_layout.specs.Contents.{hop_count};
ghost use Rattle.epic_ledger.specs.Facts.{as_pass, as_send, facts_of, packet_at, pass_name, sent_name};
ghost use Rattle.epic_ledger.specs.History.{emission_at};
ghost use Rattle.epic_audit.specs.Searches as searches;
ghost use Rattle.epic_index.specs.Events.{pass_at, passed_at, send_at, sent_at, sent_name_at};
ghost use Rattle.epic_index.specs.Happened.{IsThere};

use epic_ledger::{Event, Ledger};
use epic_num::HopName;
use epic_view::PacketRef;

/// The packet of an emission that is there.
pub fn packet_of(ledger: &Ledger, emission: u32) -> PacketRef<'_>
    requires { IsSome (emission_at ledger.now.history.emissions emission) }
    ensures { result ≡ packet_at ledger.now.history.emissions emission }
{
    match ledger.packet(emission) {
        Some(packet) => packet,
        None => unreachable!(),
    }
}

/// The name of the issue of a number.
#[tactic(auto, unfolding(epic_num::specs::Chains::name_of))]
pub fn issue_name(ledger: &Ledger, number: u32) -> Option<HopName>
    ensures { result ≡ name_of (facts_of ledger.now.history).issues number }
{
    match ledger.issue(number) {
        Some((name, _)) => Some(name),
        None => None,
    }
}

/// The number of the issue that an issue goes on from, so many issues before it.
fn ancestor(ledger: &Ledger, number: u32, back: u8) -> u32
    ensures { result ≡ ancestor (facts_of ledger.now.history).issues number back }
{
    let mut at = number;
    for i in 0..back {
        at = parent_of(ledger, at);
    }
    at
}

/// The number of the issue that an issue goes on from, 0 for none.
fn parent_of(ledger: &Ledger, number: u32) -> u32
    ensures { result ≡ option_map_or (λ i. i.parent) (issue_at (facts_of ledger.now.history).issues number) 0 }
{
    match ledger.issue(number) {
        Some((_, parent)) => parent,
        None => 0,
    }
}

/// The last issue of a segment, 0 where there is no such segment.
fn last_issue(segments: &[u32], segment: u8) -> u32
    ensures { result ≡ slice_index_or segments.now segment 0 }
{
    segments.get(segment as usize).copied().unwrap_or(0)
}

/// The name of a hop of a packet that was sent over segments with these last issues.
#[tactic(auto, using(crate::proofs::Named::spots), unfolding(epic_layout::specs::Spelling::segment_bytes, epic_layout::specs::Route::body, epic_ledger::specs::Facts::sent_name, epic_ledger::specs::Facts::sent_issue))]
pub fn name_over(
    ledger: &Ledger,
    segments: &[u32],
    packet: &PacketRef<'_>,
    hop: u8,
) -> Option<HopName>
    ensures { (emission : ℕ) → result ≡ sent_name (facts_of ledger.now.history).issues (record { emission = emission; segments = segments.now; packet = packet.now }) hop }
{
    if hop >= packet.shape().hops {
        return None;
    }
    let segment = packet.segment_of(hop);
    let head = packet.segment_head(segment);
    let last = last_issue(segments, segment);
    issue_name(
        ledger,
        ancestor(ledger, last, head[1] - packet.body(hop).pos),
    )
}

/// The event of a number, from 0, of which the packet is there.
fn event_at(ledger: &Ledger, no: u64) -> Option<&Event>
    ensures value { option_copied result ≡ slice_get ledger.now.history.events no }
    ensures there { IfSome result (λ event. IsThere ledger.now.history.emissions event.now) }
{
    let _events = ledger.events();
    ledger.event(no)
}

/// The emission and the packet that was sent by an event.
#[tactic(auto, unfolding(epic_ledger::specs::Facts::as_send))]
pub fn sent_by<'a>(ledger: &'a Ledger, event: &Event) -> Option<(u32, PacketRef<'a>)>
    requires { IsThere ledger.now.history.emissions event.now }
    ensures { result ≡ option_map (λ s. (s.emission, s.packet)) (as_send ledger.now.history.emissions event.now) }
{
    if let Event::Send { emission, .. } = event {
        return Some((*emission, packet_of(ledger, *emission)));
    }
    None
}

/// The name of the packet's hop.
#[tactic(auto, unfolding(epic_ledger::specs::Facts::as_send))]
fn name_by(ledger: &Ledger, event: &Event, hop: u8) -> Option<HopName>
    requires { IsThere ledger.now.history.emissions event.now }
    ensures { result ≡ option_and_then (λ s. sent_name (facts_of ledger.now.history).issues s hop) (as_send ledger.now.history.emissions event.now) }
{
    if let Event::Send {
        emission,
        segments,
        ..
    } = event
    {
        return name_over(ledger, segments, &packet_of(ledger, *emission), hop);
    }
    None
}

/// The name and the index of the hop that was accepted by an event, and the packet.
#[tactic(auto, unfolding(epic_ledger::specs::Facts::as_pass, epic_ledger::specs::Facts::pass_name))]
fn passed_by<'a>(ledger: &'a Ledger, event: &Event) -> Option<(HopName, u8, PacketRef<'a>)>
    requires { IsThere ledger.now.history.emissions event.now }
    ensures { result ≡ option_map (λ w. (pass_name w, w.hop, w.packet)) (as_pass ledger.now.history.emissions event.now) }
{
    if let Event::Pass {
        a,
        hop,
        generation,
        emission,
        ..
    } = event
    {
        let packet = packet_of(ledger, *emission);
        let name = HopName {
            asn: *a,
            generation: *generation,
            body: packet.body(*hop),
        };
        return Some((name, *hop, packet));
    }
    None
}

/// The emission and the packet that was sent by the event of a number, from 0.
#[tactic(auto, unfolding(crate::specs::Events::sent_at, crate::specs::Events::send_at))]
pub fn sent(ledger: &Ledger, no: u64) -> Option<(u32, PacketRef<'_>)>
    ensures { result ≡ sent_at ledger.now.history no }
{
    match event_at(ledger, no) {
        Some(event) => sent_by(ledger, event),
        None => None,
    }
}

/// The emission of the packet that was sent by the event of a number, if one is named.
#[tactic(auto, unfolding(crate::specs::Events::sent_at))]
pub fn emission_sent(ledger: &Ledger, number: Option<u32>) -> Option<u32>
    ensures { result ≡ option_map (λ s. s.emission) (option_and_then (send_at ledger.now.history) number) }
{
    let (emission, _) = sent(ledger, number? as u64)?;
    Some(emission)
}

/// The name of the packet's hop.
#[tactic(auto, unfolding(crate::specs::Events::sent_name_at, crate::specs::Events::send_at))]
pub fn name_sent(ledger: &Ledger, no: u64, hop: u8) -> Option<HopName>
    ensures { result ≡ sent_name_at ledger.now.history no hop }
{
    match event_at(ledger, no) {
        Some(event) => name_by(ledger, event, hop),
        None => None,
    }
}

/// The name of the hop of the packet that was sent by the event of a number, if one is named.
#[tactic(auto, unfolding(crate::specs::Events::sent_name_at))]
pub fn name_named(ledger: &Ledger, number: Option<u32>, hop: u8) -> Option<HopName>
    ensures { result ≡ option_and_then (λ s. sent_name (facts_of ledger.now.history).issues s hop) (option_and_then (send_at ledger.now.history) number) }
{
    name_sent(ledger, number? as u64, hop)
}

/// The name and the index of the hop that was accepted by the event of a number, from 0, and the packet.
#[tactic(auto, unfolding(crate::specs::Events::passed_at, crate::specs::Events::pass_at))]
pub fn passed(ledger: &Ledger, no: u64) -> Option<(HopName, u8, PacketRef<'_>)>
    ensures { result ≡ passed_at ledger.now.history no }
{
    match event_at(ledger, no) {
        Some(event) => passed_by(ledger, event),
        None => None,
    }
}

/// The name of the hop that was accepted by the event of a number, if one is named.
#[tactic(auto, unfolding(crate::specs::Events::passed_at))]
pub fn name_passed(ledger: &Ledger, number: Option<u32>) -> Option<HopName>
    ensures { result ≡ option_map pass_name (option_and_then (pass_at ledger.now.history) number) }
{
    let (name, _, _) = passed(ledger, number? as u64)?;
    Some(name)
}

/// The hop that was passed before a packet's hop in its segment.
pub fn hop_before(ledger: &Ledger, packet: &PacketRef<'_>, hop: u8) -> Option<HopName>
    requires { hop < hop_count packet.now }
    ensures { result ≡ searches.passed_before (facts_of ledger.now.history) packet.now hop }
{
    let _events = ledger.events();
    let _shape = packet.shape();
    if packet.is_first(hop) {
        return None;
    }
    match ledger.chain_pass(packet, hop - 1) {
        Some((asn, generation, _)) => Some(HopName {
            asn,
            generation,
            body: packet.body(hop - 1),
        }),
        None => None,
    }
}
