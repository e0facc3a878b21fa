//! The hosts that send packets.
ghost use Rattle.std.specs.Prelude.{◌≡◌, ℕ, ◌<◌, ◌^◌, None, All, IfErr, IfOk, IfSome, IsOk, IsSome, IsTrue, OnOk, Ok, Err};
ghost use Rattle.epic_num.specs.Levels.{first_byte as spec_first_byte, is_first_byte};
ghost use Rattle.epic_num.specs.Paths.{path_hops};
ghost use Rattle.epic_layout.specs.Layout.{fault};
ghost use Rattle.epic_layout.specs.Spelling.{spelling};
ghost use Rattle.epic_topo.specs.Network.{has};
ghost use Rattle.epic_ends.specs.Sending.{sent_packet};
ghost use Rattle.epic_ledger.specs.Facts.{sends_in};
ghost use Rattle.epic_ledger.specs.History.{History};
ghost use Rattle.epic_model.specs.Keeping.{latest_sent};
ghost use Rattle.epic_model.specs.Steps.{admission};
ghost use Rattle.epic_actors.specs.Sources.{IsLatest, KeysStandBySends, KeysStandByFetches, KeysStandFor, NoSendersStand, SendersStandByArrivals, SendersStandByOthers, SendersStandByTurns, SourcesStandFor, source_of, state_at};

use epic_ends::{Sent, Source};
use epic_keys::KeyStore;
use epic_ledger::Ledger;
use epic_num::{HostId, Level, OutOfMemory, Path, SendError};
use epic_topo::Topology;
use std::alloc::Global;
use std::collections::BTreeMap;
use std::marker::Model;

/// The hosts that sent packets so far.
#[derive(Drop)]
pub struct Sources {
    pub(crate) by_name: BTreeMap<(u64, u32), Source>,
}

impl Model for Sources {
    ghost use Rattle.epic_actors.specs.Sources.{SourceTable};

    ghost Value = { SourceTable };

    ghost view = { λ s. record { entries = s.by_name.entries } };
}

impl Sources {
    /// No host has sent yet. It takes no memory.
    #[tactic(auto, unfolding(crate::specs::Sources::source_of))]
    pub fn new(alloc: Global) -> Sources
        ensures { (d : HostId) → source_of result d ≡ None }
    {
        Sources {
            by_name: BTreeMap::new(alloc),
        }
    }

    /// Makes the source of the host, where it has none. Out of memory, nothing that is remembered has changed.
    pub fn ready(&mut self, alloc: Global, host: HostId) -> Result<(), OutOfMemory>
        ensures made { OnOk result (IsSome (source_of self.new host)) }

        // It fails only where there was none.
        ensures succeeds { IsSome (source_of self.old host) → IsOk result }

        // Whatever the result, no source is lost, and the sources stand for what they stood for.
        ensures kept { (d : HostId) → IsSome (source_of self.old d) → IsSome (source_of self.new d) }
        ensures stand { (h : History) → SourcesStandFor self.old h → SourcesStandFor self.new h }
    {
        let name = (host.asn.0, host.host);
        if self.by_name.contains_key(&name) {
            return Ok(());
        }
        match self.by_name.insert(name, Source::new(alloc, host)) {
            Ok(_) => Ok(()),
            Err(_) => Err(OutOfMemory),
        }
    }

    /// The timestamp of the host's next packet over the path at the moment `now`, or its refusal, over the ledger so far.
    pub(crate) fn admit(
        &self,
        topo: &Topology,
        ledger: &Ledger,
        keys: &KeyStore,
        path: &Path,
        version: u8,
        level: Level,
        src: HostId,
        dst: HostId,
        payload: &[u8],
        now: u64,
    ) -> Result<u64, SendError>
        requires ready { IsSome (source_of self.now src) }
        requires stand { SourcesStandFor self.now ledger.now.history }
        requires keys { KeysStandFor keys.now ledger.now.history }
        requires last { IfSome (latest_sent (sends_in ledger.now.history) src) (λ last. last < 2 ^ 63) }
        ensures { (steps : ℕ) → result ≡ admission topo.now (state_at now steps ledger.now.history) version level src dst payload.now path.now.legs.items }
    {
        match self.by_name.get(&(src.asn.0, src.host)) {
            Some(source) => source.admit(topo, keys, path, version, level, dst, payload, now),
            None => unreachable!(),
        }
    }

    /// The host's next packet over the path at the moment `now`, over the ledger so far, with the errors of its source. After an
    /// error the sources stand for the ledger as before.
    pub(crate) fn send(
        &mut self,
        alloc: Global,
        topo: &Topology,
        ledger: &Ledger,
        keys: &KeyStore,
        path: &Path,
        version: u8,
        level: Level,
        src: HostId,
        dst: HostId,
        payload: &[u8],
        now: u64,
    ) -> Result<Sent, SendError>
        requires ready { IsSome (source_of self.old src) }
        requires stand { SourcesStandFor self.old ledger.now.history }
        requires keys { KeysStandFor keys.now ledger.now.history }
        requires last { IfSome (latest_sent (sends_in ledger.now.history) src) (λ last. last < 2 ^ 63) }
        requires exists { IsTrue (is_first_byte (spec_first_byte version level)) }
        requires destination { IsTrue (has topo.now dst.asn) }
        requires hops { All (λ h. IsTrue (has topo.now h.asn)) (path_hops path.now.legs.items) }
        ensures sent { IfOk result (λ s. (steps : ℕ) → admission topo.now (state_at now steps ledger.now.history) version level src dst payload.now path.now.legs.items ≡ Ok s.ts) }
        ensures packet { IfOk result (λ s. s.bytes ≡ spelling (sent_packet topo.now path.now.legs.items version level src dst s.ts payload.now)) }
        ensures faultless { IfOk result (λ s. fault is_first_byte s.bytes ≡ None) }
        ensures taken { IfOk result (λ s. (h : History) → IsLatest src s.ts ledger.now.history h → SourcesStandFor self.new h) }
        ensures refused { (steps : ℕ) → IfErr (admission topo.now (state_at now steps ledger.now.history) version level src dst payload.now path.now.legs.items) (λ e. result ≡ Err e) }
        ensures memory { (steps : ℕ) → IfErr result (λ e. IfOk (admission topo.now (state_at now steps ledger.now.history) version level src dst payload.now path.now.legs.items) (λ _. e ≡ SendError.OutOfMemory)) }
        ensures kept { IfErr result (λ _. SourcesStandFor self.new ledger.now.history) }
        ensures made { (d : HostId) → IsSome (source_of self.old d) → IsSome (source_of self.new d) }
    {
        match self.by_name.get_mut(&(src.asn.0, src.host)) {
            Some(source) => source.send(alloc, topo, keys, path, version, level, dst, payload, now),
            None => unreachable!(),
        }
    }
}

/// A law: before anything happened no source and no key are needed. Those that stand for a ledger go on to as anything else happens
/// than what concerns them: both after a turn, after an arrival and after another event, and the keys after a packet was sent. After a
/// fetch the keys stand that have the fetched ones besides.
pub fn senders_stand()
    ensures none { NoSendersStand }
    ensures turns { SendersStandByTurns }
    ensures arrivals { SendersStandByArrivals }
    ensures others { SendersStandByOthers }
    ensures sends { KeysStandBySends }
    ensures fetches { KeysStandByFetches }
{}
