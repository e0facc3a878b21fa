//! What becomes of a send over a path, and what the ledger records of it.
ghost use Rattle.std.specs.Prelude.{◌≡◌, ℕ, ◌+◌, ◌<◌, ◌≤◌, nat_lt, None, IfErr, IfOk, IsSome, IsTrue, Ok, length};
ghost use Rattle.epic_num.specs.Levels.{first_byte as spec_first_byte, is_first_byte};
ghost use Rattle.epic_num.specs.Messages.{IsHost};
ghost use Rattle.epic_num.specs.Paths as paths;
ghost use Rattle.epic_num.specs.declared.passed.Place.TheVariants.{Router};
ghost use Rattle.epic_layout.specs.Layout.{fault};
ghost use Rattle.epic_topo.specs.Lawful.{IsTopology};
ghost use Rattle.epic_topo.specs.Network.{has};
ghost use Rattle.epic_ends.specs.Sending.{sent_packet};
ghost use Rattle.epic_ledger.specs.Facts.{issues_in};
ghost use Rattle.epic_ledger.specs.History.{Emission, emitted};
ghost use Rattle.epic_ledger.specs.Lawful.{FitsSend, IsLast};
ghost use Rattle.epic_ledger.specs.OneMore.{with_emission, with_event};
ghost use Rattle.epic_ledger.specs.declared.event.Event.TheVariants as event;
ghost use Rattle.epic_model.specs.Passing.{most_emitted};
ghost use Rattle.epic_model.specs.Steps.{admission, emitted_by, over_path};
ghost use Rattle.epic_model.specs.World.{IsWorld, most_steps};
ghost use Rattle.epic_actors.specs.Sources.{IsPathOver, KeysStandFor, SourcesStandFor, most_bytes, packet_len, source_of, state_at};

use crate::Sources;
use crate::turning::MOST_EMITTED;
use arrayvec::ArrayVec;
use epic_keys::KeyStore;
use epic_layout::wire::header_len_of;
use epic_ledger::{Event, Ledger};
use epic_num::{Answer, HostId, Level, OutOfMemory, Path, Place, Refusal, first_byte};
use epic_topo::Topology;
use std::alloc::Global;

/// How many bytes a packet has at most.
pub const MOST_BYTES: u64 = 8880;

/// What is read of a topology is one.
fn is_topology(topo: &Topology)
    ensures { IsTopology topo.now }
{
    let _profile = topo.profile();
}

/// The parts of a host fit their types.
fn is_host(_host: HostId)
    ensures { IsHost _host }
{}

/// How many hops a path has.
#[tactic(auto, unfolding(epic_num::specs::Paths::hop_count))]
fn hop_count(path: &Path) -> u16
    ensures value { result ≡ paths.hop_count path.now.legs.items }
    ensures few { result ≤ 48 }
{
    let mut hops = 0;
    let legs = path.legs.as_slice();
    for leg in legs {
        hops += leg.segment.hops.as_slice().len() as u16;
    }
    hops
}

/// How many bytes a packet over the path has.
#[tactic(auto, unfolding(crate::specs::Sources::packet_len))]
fn packet_len(path: &Path, first: u8, payload: &[u8]) -> u64
    ensures { result ≡ packet_len path.now.legs.items first payload.now }
{
    let header = header_len_of(first, path.legs.as_slice().len() as u8, hop_count(path));
    header as u64 + payload.len() as u64
}

/// Whether the ledger has no room for a packet of so many bytes.
fn is_full_for(ledger: &Ledger, len: u64) -> bool
    ensures { result ≡ nat_lt most_emitted (emitted ledger.now.history.emissions + len) }
{
    MOST_EMITTED < ledger.emitted().saturating_add(len)
}

/// A packet's bytes are an emission at interface 0 of its source's AS, whose number is answered, and the send is recorded.
fn record_send(
    ledger: &mut Ledger,
    src: HostId,
    numbers: ArrayVec<u32, 3>,
    bytes: &[u8],
    step: u32,
) -> u32
    requires events { 1 ≤ ledger.old.spare.events }
    requires emissions { 1 ≤ ledger.old.spare.emissions }
    requires room { length bytes.now ≤ ledger.old.spare.bytes }
    requires faultless { fault is_first_byte bytes.now ≡ None }
    requires fits { FitsSend (with_emission ledger.old.history (record { place = Router src.asn 0; bytes = bytes.now })).emissions (issues_in ledger.old.history.events) (length ledger.old.history.emissions + 1) numbers.items }
    requires last { IsLast ledger.old.history.events step }
    ensures number { result ≡ length ledger.old.history.emissions + 1 }
    ensures events_spare { ledger.old.spare.events ≤ ledger.new.spare.events + 1 }
    ensures emissions_spare { ledger.old.spare.emissions ≤ ledger.new.spare.emissions + 1 }
    ensures bytes_spare { ledger.old.spare.bytes ≤ ledger.new.spare.bytes + length bytes.now }
    ensures history { ledger.new.history ≡ with_event (with_emission ledger.old.history (record { place = Router src.asn 0; bytes = bytes.now })) (event.Send step (length ledger.old.history.emissions + 1) numbers) }
{
    let due = Place::Router {
        asn: src.asn,
        iface: 0,
    };
    let emission = ledger.emit(due, bytes);
    ledger.push(Event::Send {
        step,
        emission,
        segments: numbers,
    });
    emission
}

/// A packet that its source doesn't refuse is sent, where the ledger has room for it.
fn sent_on(
    alloc: Global,
    topo: &Topology,
    ledger: &mut Ledger,
    sources: &mut Sources,
    keys: &KeyStore,
    path: &Path,
    numbers: ArrayVec<u32, 3>,
    version: u8,
    level: Level,
    src: HostId,
    dst: HostId,
    payload: &[u8],
    now: u64,
    steps: u32,
    ts: u64,
) -> Result<Answer, OutOfMemory>
    requires world { IsWorld topo.now (state_at now steps ledger.old.history) }
    requires few_steps { steps + 1 < most_steps }
    requires exists { IsTrue (is_first_byte (spec_first_byte version level)) }
    requires source { IsTrue (has topo.now src.asn) }
    requires destination { IsTrue (has topo.now dst.asn) }
    requires over { IsPathOver topo.now ledger.old.history src numbers.items path.now.legs.items }
    requires admitted { admission topo.now (state_at now steps ledger.old.history) version level src dst payload.now path.now.legs.items ≡ Ok ts }
    requires stand { SourcesStandFor sources.old ledger.old.history }
    requires keys { KeysStandFor keys.now ledger.old.history }
    requires ready { IsSome (source_of sources.old src) }
    requires events { 1 ≤ ledger.old.spare.events }
    requires emissions { 1 ≤ ledger.old.spare.emissions }
    requires bytes { most_bytes ≤ ledger.old.spare.bytes }
    ensures answer { IfOk result (λ a. a ≡ (emitted_by (state_at now steps ledger.old.history) numbers (sent_packet topo.now path.now.legs.items version level src dst ts payload.now)).answer) }
    ensures history { IfOk result (λ _. ledger.new.history ≡ (emitted_by (state_at now steps ledger.old.history) numbers (sent_packet topo.now path.now.legs.items version level src dst ts payload.now)).state.history) }
    ensures stand { SourcesStandFor sources.new ledger.new.history }
    ensures unchanged { IfErr result (λ _. ledger.new.history ≡ ledger.old.history) }
    ensures events_spare { ledger.old.spare.events ≤ ledger.new.spare.events + 1 }
    ensures emissions_spare { ledger.old.spare.emissions ≤ ledger.new.spare.emissions + 1 }
    ensures bytes_spare { ledger.old.spare.bytes ≤ ledger.new.spare.bytes + most_bytes }
    ensures made { (d : HostId) → IsSome (source_of sources.old d) → IsSome (source_of sources.new d) }
{
    is_topology(topo);
    is_host(src);
    is_host(dst);
    let len = packet_len(path, first_byte(version, level), payload);
    if is_full_for(ledger, len) {
        return Ok(Answer::Refused(Refusal::Full));
    }
    match sources.send(
        alloc, topo, ledger, keys, path, version, level, src, dst, payload, now,
    ) {
        Ok(sent) => {
            let emission = record_send(ledger, src, numbers, sent.bytes.as_slice(), steps + 1);
            Ok(Answer::Sent {
                emission,
                ts: sent.ts,
            })
        }
        Err(_) => Err(OutOfMemory),
    }
}

/// A host sends a packet over a path, at the moment `now` in microseconds, after so many steps of the world. `version` is 1, or 2 at
/// levels 2 and 3; `numbers` are those of the issues that ended the path's segments, in travel order.
///
/// Before, the host's source was made, and room in the ledger for an event, an emission and `MOST_BYTES` bytes. The ledger is a
/// world's, and the sources and the keys stand for it. The answer and the ledger after it are the model's (`over_path`), and the
/// sources stand for that ledger. Out of memory, the ledger is as before, and the sources stand for it.
pub fn send_at(
    alloc: Global,
    topo: &Topology,
    ledger: &mut Ledger,
    sources: &mut Sources,
    keys: &KeyStore,
    path: &Path,
    numbers: ArrayVec<u32, 3>,
    version: u8,
    level: Level,
    src: HostId,
    dst: HostId,
    payload: &[u8],
    now: u64,
    steps: u32,
) -> Result<Answer, OutOfMemory>
    requires world { IsWorld topo.now (state_at now steps ledger.old.history) }
    requires few_steps { steps + 1 < most_steps }
    requires exists { IsTrue (is_first_byte (spec_first_byte version level)) }
    requires source { IsTrue (has topo.now src.asn) }
    requires destination { IsTrue (has topo.now dst.asn) }
    requires over { IsPathOver topo.now ledger.old.history src numbers.items path.now.legs.items }
    requires stand { SourcesStandFor sources.old ledger.old.history }
    requires keys { KeysStandFor keys.now ledger.old.history }
    requires ready { IsSome (source_of sources.old src) }
    requires events { 1 ≤ ledger.old.spare.events }
    requires emissions { 1 ≤ ledger.old.spare.emissions }
    requires bytes { most_bytes ≤ ledger.old.spare.bytes }
    ensures answer { IfOk result (λ a. a ≡ (over_path topo.now (state_at now steps ledger.old.history) version level src dst numbers payload.now (Ok path.now.legs.items)).answer) }
    ensures history { IfOk result (λ _. ledger.new.history ≡ (over_path topo.now (state_at now steps ledger.old.history) version level src dst numbers payload.now (Ok path.now.legs.items)).state.history) }
    ensures stand { SourcesStandFor sources.new ledger.new.history }
    ensures unchanged { IfErr result (λ _. ledger.new.history ≡ ledger.old.history) }

    // It uses up no more room than was made for it, and no source is lost.
    ensures events_spare { ledger.old.spare.events ≤ ledger.new.spare.events + 1 }
    ensures emissions_spare { ledger.old.spare.emissions ≤ ledger.new.spare.emissions + 1 }
    ensures bytes_spare { ledger.old.spare.bytes ≤ ledger.new.spare.bytes + most_bytes }
    ensures made { (d : HostId) → IsSome (source_of sources.old d) → IsSome (source_of sources.new d) }
{
    match sources.admit(
        topo, ledger, keys, path, version, level, src, dst, payload, now,
    ) {
        Ok(ts) => sent_on(
            alloc, topo, ledger, sources, keys, path, numbers, version, level, src, dst, payload,
            now, steps, ts,
        ),
        Err(refusal) => Ok(Answer::Refused(Refusal::Send(refusal))),
    }
}
