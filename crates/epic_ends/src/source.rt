//! Hosts that send packets.
ghost use Rattle.std.specs.Prelude.{◌≡◌, ◌≤◌, ◌<◌, ◌^◌, All, IfErr, IfOk, IfSome, IsTrue, None, Ok, Err, Some, length};
ghost use Rattle.epic_num.specs.Levels.{first_byte as spec_first_byte, is_first_byte};
ghost use Rattle.epic_num.specs.Paths.{path_hops};
ghost use Rattle.epic_keys.specs.Fetches.{is_fetched};
ghost use Rattle.epic_layout.specs.Contents.{IsPacket, unfilled};
ghost use Rattle.epic_layout.specs.Layout.{fault, parse};
ghost use Rattle.epic_layout.specs.PathRoutes.{route_of};
ghost use Rattle.epic_layout.specs.Spelling.{Spells, spelling};
ghost use Rattle.epic_topo.specs.Network.{has};
ghost use Rattle.epic_ends.specs.Admitting.{next_ts};
ghost use Rattle.epic_ends.specs.Sending.{packet_over, sent_packet};
ghost use Rattle.epic_ends.specs.SentPackets.{IsRightPacket};
ghost use Rattle.epic_ends.specs.Sources.{answer};

use crate::admitting::refusal;
use crate::filling::fill;
use crate::path_parts::{hop_heads, hops_of, segment_heads};
use crate::ready_keys::ReadyKeys;
use epic_keys::KeyStore;
use epic_layout::unfilled_packet;
use epic_layout::wire::MAX_PAYLOAD;
use epic_num::{Bytes, HostId, Level, OutOfMemory, Path, SegHop, SendError, first_byte};
use epic_topo::Topology;
use std::alloc::Global;
use std::marker::Model;

/// A packet as its source sends it.
#[derive(Debug, Drop, PartialEq, Eq)]
pub struct Sent {
    /// Its timestamp, in microseconds.
    pub ts: u64,
    pub bytes: Bytes,
}

/// A host that sends packets. It gives each of them another timestamp.
#[derive(Drop)]
pub struct Source {
    // The keys of the host that sends.
    keys: ReadyKeys,
    last: Option<u64>,
}

impl Model for Source {
    ghost use Rattle.epic_ends.specs.Sources.{Sender};

    ghost Value = { Sender };

    ghost view = { λ s. record { host = s.keys; last = s.last } };
}

/// The packet of a path with zeros in the place of each field.
fn bare_packet(
    alloc: Global,
    path: &Path,
    hops: &[SegHop],
    first: u8,
    src: HostId,
    dst: HostId,
    ts: u64,
    payload: &[u8],
) -> Result<Vec<u8>, OutOfMemory>
    requires exists { IsTrue (is_first_byte first) }
    requires hops { hops.now ≡ path_hops path.now.legs.items }
    requires payload { length payload.now ≤ MAX_PAYLOAD }
    ensures packet { IfOk result (λ _. IsPacket (unfilled first src dst ts (route_of path.now.legs.items) payload.now)) }
    ensures spelled { IfOk result (λ bytes. bytes.items ≡ spelling (unfilled first src dst ts (route_of path.now.legs.items) payload.now)) }
    ensures faultless { IfOk result (λ bytes. fault is_first_byte bytes.items ≡ None) }
{
    let legs = path.legs.as_slice();
    unfilled_packet(
        alloc,
        first,
        src,
        dst,
        ts,
        &segment_heads(legs)[..legs.len()],
        &hop_heads(hops)[..hops.len()],
        payload,
    )
}

/// The bytes of a packet over a path, whose hops' authenticators are those that the source got with its segments.
fn packet(
    alloc: Global,
    topo: &Topology,
    keys: &mut ReadyKeys,
    path: &Path,
    first: u8,
    dst: HostId,
    ts: u64,
    payload: &[u8],
) -> Result<Vec<u8>, OutOfMemory>
    requires exists { IsTrue (is_first_byte first) }
    requires destination { IsTrue (has topo.now dst.asn) }
    requires hops { All (λ h. IsTrue (has topo.now h.asn)) (path_hops path.now.legs.items) }
    requires payload { length payload.now ≤ MAX_PAYLOAD }
    ensures same { keys.new ≡ keys.old }
    ensures spelled { IfOk result (λ bytes. bytes.items ≡ spelling (packet_over topo.now (λ h. h.sigma) path.now.legs.items first keys.old dst ts payload.now)) }
    ensures read { IfOk result (λ bytes. Spells bytes.items (packet_over topo.now (λ h. h.sigma) path.now.legs.items first keys.old dst ts payload.now)) }
{
    let all = hops_of(path);
    let hops = all.as_slice();
    let mut bytes = bare_packet(alloc, path, hops, first, keys.src(), dst, ts, payload)?;
    fill(topo, keys, hops, &mut bytes);
    Ok(bytes)
}

impl Source {
    /// A source that sent nothing yet.
    pub fn new(alloc: Global, src: HostId) -> Source
        ensures { result ≡ record { host = src; last = None } }
    {
        Source {
            keys: ReadyKeys::new(alloc, src),
            last: None,
        }
    }

    /// The timestamp of the last packet that was sent, in microseconds.
    pub fn last(&self) -> Option<u64>
        ensures { result ≡ self.now.last }
    {
        self.last
    }

    /// The timestamp of the next packet at `now`, both in microseconds.
    fn next_ts(&self, now: u64) -> u64
        requires { IfSome self.now.last (λ last. last < 2 ^ 63) }
        ensures { result ≡ next_ts self.now.last now }
    {
        match self.last {
            Some(last) => now.max(last + 1),
            None => now,
        }
    }

    /// The timestamp, in microseconds, that `send` takes at the moment `now`, or the refusal that it gives. `version` is 1, or
    /// 2 at levels 2 and 3.
    ///
    /// # Errors
    /// The first that applies: `WrongEnds`; `PayloadTooLong`; `Expired` for the first hop that isn't valid at `now`; at levels
    /// 2 and 3 `NoKey` for the first hop's AS, and then the destination's, whose keys of the timestamp's epoch weren't
    /// fetched.
    #[tactic(auto, unfolding(crate::specs::Sources::answer, crate::specs::Admitting::admitted))]
    pub fn admit(
        &self,
        topo: &Topology,
        keys: &KeyStore,
        path: &Path,
        version: u8,
        level: Level,
        dst: HostId,
        payload: &[u8],
        now: u64,
    ) -> Result<u64, SendError>
        requires { IfSome self.now.last (λ last. last < 2 ^ 63) }
        ensures { result ≡ answer topo.now (is_fetched keys.now) self.now path.now.legs.items (spec_first_byte version level) dst payload.now now }
    {
        let ts = self.next_ts(now);
        let epoch = topo.profile().epoch_of(ts);
        let first = first_byte(version, level);
        match refusal(keys, path, first, self.keys.src(), dst, payload, now, epoch) {
            Some(refusal) => Err(refusal),
            None => Ok(ts),
        }
    }

    /// The packet to the host `dst` over the path, with the payload, at the moment `now` in microseconds. The hops'
    /// authenticators are those that came with the path's segments. Its timestamp is then the source's last; after a refusal,
    /// and where memory is missing, the source is as before.
    ///
    /// # Errors
    /// Those of `admit`, and `OutOfMemory`.
    #[tactic(auto, unfolding(crate::specs::Sending::sent_packet))]
    pub fn send(
        &mut self,
        alloc: Global,
        topo: &Topology,
        keys: &KeyStore,
        path: &Path,
        version: u8,
        level: Level,
        dst: HostId,
        payload: &[u8],
        now: u64,
    ) -> Result<Sent, SendError>
        requires exists { IsTrue (is_first_byte (spec_first_byte version level)) }
        requires destination { IsTrue (has topo.now dst.asn) }
        requires hops { All (λ h. IsTrue (has topo.now h.asn)) (path_hops path.now.legs.items) }
        requires last { IfSome self.old.last (λ last. last < 2 ^ 63) }
        ensures sent { IfOk result (λ s. answer topo.now (is_fetched keys.now) self.old path.now.legs.items (spec_first_byte version level) dst payload.now now ≡ Ok s.ts) }
        ensures packet { IfOk result (λ s. s.bytes ≡ spelling (sent_packet topo.now path.now.legs.items version level self.old.host dst s.ts payload.now)) }
        ensures right { IfOk result (λ s. IsRightPacket topo.now path.now.legs.items s.bytes) }
        ensures taken { IfOk result (λ s. self.new ≡ record self.old { last = Some s.ts }) }
        ensures refused { IfErr (answer topo.now (is_fetched keys.now) self.old path.now.legs.items (spec_first_byte version level) dst payload.now now) (λ e. result ≡ Err e) }
        ensures memory { IfErr result (λ e. IfOk (answer topo.now (is_fetched keys.now) self.old path.now.legs.items (spec_first_byte version level) dst payload.now now) (λ _. e ≡ SendError.OutOfMemory)) }
        ensures kept { IfErr result (λ _. self.new ≡ self.old) }
    {
        let ts = self.admit(topo, keys, path, version, level, dst, payload, now)?;
        let first = first_byte(version, level);
        let Ok(bytes) = packet(alloc, topo, &mut self.keys, path, first, dst, ts, payload) else {
            return Err(SendError::OutOfMemory);
        };
        self.last = Some(ts);
        Ok(Sent {
            ts,
            bytes: Bytes::from_vec(bytes),
        })
    }
}
