//! Packets of level 3 that a host sends one after the other.

ghost use Rattle.std.specs.Prelude.{◌≡◌, ◌<◌, ◌^◌, All, Ok, IfSome, IfOk, IfErr, IsTrue};
ghost use Rattle.epic_num.specs.Paths.{path_hops};
ghost use Rattle.epic_keys.specs.Fetches.{is_fetched};
ghost use Rattle.epic_topo.specs.Network.{has};
ghost use Rattle.epic_topo.specs.Reading.{topology};
ghost use Rattle.epic_bench.specs.Run.{MakesNothing};
ghost use Rattle.epic_bench.specs.Sends.{IsSentDigest, sent, sent_one};
ghost use Rattle.epic_bench.specs.declared.arrived.TheConstants.{HOST};
ghost use Rattle.epic_bench.specs.declared.top.End.TheVariants.{OutOfMemory};
ghost use Rattle.epic_bench.specs.declared.way.TheConstants.{CHAIN};

use crate::arrived::HOST;
use crate::digests::digest;
use crate::offers::SOURCE;
use crate::top::End;
use crate::way::{ASES, CHAIN, NOW, chain, has_all, segment};
use epic_ends::{SendError, Source, has_path};
use epic_keys::KeyStore;
use epic_num::{Bytes, Level, Path};
use epic_path::{are_well_formed, join};
use epic_topo::Topology;
use std::alloc::Global;

/// What each packet carries.
pub(crate) const PAYLOAD: [u8; 16] = [0; 16];

/// The keys of all ASes of the chain, as its first one has fetched them.
fn keys(alloc: Global, topo: &Topology) -> Result<KeyStore, End>
    ensures { IfErr result MakesNothing }
{
    let epoch = topo.profile().epoch_of(NOW);
    let mut keys = KeyStore::new(alloc);
    for asn in &ASES {
        if !topo.has(SOURCE.asn) || !topo.has(*asn) {
            return Err(End::NoPacket);
        }
        if keys.fetch(topo, SOURCE.asn, *asn, epoch).is_err() {
            return Err(End::OutOfMemory);
        }
    }
    Ok(keys)
}

/// The path down the chain, and the keys for it.
#[derive(Drop)]
pub(crate) struct Sends {
    topo: Topology,
    keys: KeyStore,
    path: Path,
    pub ghost of_chain: { topology CHAIN.now ≡ Ok topo },
    pub ghost known: { IsTrue (has topo HOST.asn) },
    pub ghost hops: { All (λ h. IsTrue (has topo h.asn)) (path_hops path.legs.items) },
}

/// A host that sends, how many packets it sent, and the last one.
#[derive(Drop)]
pub(crate) struct Sending {
    source: Source,
    count: u64,
    packet: Bytes,
}

impl Sends {
    /// The path, and the keys.
    pub(crate) fn new(alloc: Global) -> Result<Sends, End>
        ensures { IfErr result MakesNothing }
    {
        let topo = chain(alloc)?;
        if !has_all(&topo) || !topo.has(HOST.asn) {
            return Err(End::NoPacket);
        }
        let segments = [segment(alloc, &topo)?];
        if !are_well_formed(&segments) {
            return Err(End::NoPacket);
        }
        let Ok(path) = join(SOURCE.asn, &segments) else {
            return Err(End::NoPacket);
        };
        if !has_path(&topo, &path) {
            return Err(End::NoPacket);
        }
        let keys = keys(alloc, &topo)?;
        Ok(Sends { topo, keys, path })
    }

    /// Sends one packet more, where it isn't refused.
    #[tactic(auto, unfolding(crate::specs::Sends::sent_one, epic_num::specs::Levels::is_first_byte, epic_num::specs::Levels::first_byte, epic_num::specs::Levels::level_number), using(crate::proofs::Sending::refused))]
    fn send_one(&self, alloc: Global, sending: &mut Sending) -> Result<(), End>
        requires last { IfSome sending.old.source.last (λ last. last < 2 ^ 63) }
        requires count { sending.old.count < 2 ^ 63 }
        ensures ok { IfOk result (λ _. sending.new ≡ sent_one self.now.topo (is_fetched self.now.keys) self.now.path.legs.items sending.old) }
        ensures err { IfErr result (λ end. end ≡ OutOfMemory) }
    {
        match sending.source.send(
            alloc,
            &self.topo,
            &self.keys,
            &self.path,
            1,
            Level::L3,
            HOST,
            &PAYLOAD,
            NOW,
        ) {
            Ok(packet) => {
                sending.count += 1;
                sending.packet = packet.bytes;
                Ok(())
            }
            Err(SendError::OutOfMemory) => Err(End::OutOfMemory),
            Err(_) => Ok(()),
        }
    }

    /// Has a new host send so many packets.
    fn sendings(&self, alloc: Global, rounds: u32) -> Result<Sending, End>
        ensures ok { IfOk result (λ s. s ≡ sent self.now.topo (is_fetched self.now.keys) self.now.path.legs.items rounds) }
        ensures err { IfErr result (λ end. end ≡ OutOfMemory) }
    {
        let mut sending = Sending {
            source: Source::new(alloc, SOURCE),
            count: 0,
            packet: Bytes::from_vec(Vec::new(alloc)),
        };
        for _ in 0..rounds {
            self.send_one(alloc, &mut sending)?;
        }
        Ok(sending)
    }

    /// The tag of how many of so many packets a new host sends, and of the last one.
    pub(crate) fn run(&self, alloc: Global, rounds: u32) -> Result<[u8; 16], End>
        ensures ok { IfOk result (IsSentDigest rounds) }
        ensures err { IfErr result (λ end. end ≡ OutOfMemory) }
    {
        let sending = self.sendings(alloc, rounds)?;
        Ok(digest(sending.count, sending.packet.as_slice()))
    }
}
