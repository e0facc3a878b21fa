//! Which keys of other ASes were fetched.

ghost use Rattle.std.specs.Prelude.{◌≡◌, IsTrue};
ghost use Rattle.epic_num.specs.declared.key_name.KeyName.TheVariants.{Dest, Field};
ghost use Rattle.epic_topo.specs.Network.{has};

use crate::derivation::derive;
use epic_num::{AsId, HostId, KeyName, NoKey, OutOfMemory, same_as};
use epic_topo::Topology;
use std::alloc::Global;
use std::collections::BTreeSet;
use std::marker::Model;

/// What a fetch did.
#[derive(Clone, Copy, Debug, PartialEq, Eq)]
pub enum Fetched {
    /// The keys weren't known before.
    New,
    /// They were fetched before, or the owner is the source itself.
    Known,
}

/// Which keys of other ASes each AS has fetched. A key itself is derived when it is used.
#[derive(Drop)]
pub struct KeyStore {
    // Source, owner and epoch of each fetch.
    fetches: BTreeSet<(u64, u64, u64)>,
}

impl Model for KeyStore {
    ghost use Rattle.epic_keys.specs.Fetches.{FetchSet};

    ghost Value = { FetchSet };

    ghost view = { λ s. s.fetches };
}

impl KeyStore {
    ghost use Rattle.epic_keys.specs.Fetches.{Fetches, IsNone, is_fetched, is_known, known_key};

    /// A store in which nothing was fetched.
    pub fn new(alloc: Global) -> KeyStore
        ensures { IsNone (is_fetched result) }
    {
        KeyStore {
            fetches: BTreeSet::new(alloc),
        }
    }

    /// Whether hosts of the AS `source` can make the keys of the AS `owner` for an epoch: it is their own, or has fetched them.
    #[tactic(auto, unfolding(crate::specs::Fetches::is_known, crate::specs::Fetches::is_fetched))]
    pub fn is_known(&self, source: AsId, owner: AsId, epoch: u64) -> bool
        ensures { result ≡ is_known (is_fetched self.now) (record { source = source; owner = owner; epoch = epoch }) }
    {
        same_as(owner, source) || self.fetches.contains(&(source.0, owner.0, epoch))
    }

    /// The AS `source` gets the keys of the AS `owner` for an epoch. Both are in the topology.
    pub fn fetch(
        &mut self,
        topo: &Topology,
        source: AsId,
        owner: AsId,
        epoch: u64,
    ) -> Result<Fetched, OutOfMemory>
        requires source { IsTrue (has topo.now source) }
        requires owner { IsTrue (has topo.now owner) }
        ensures { Fetches (is_fetched self.old) (is_fetched self.new) (record { source = source; owner = owner; epoch = epoch }) result }
    {
        if self.is_known(source, owner, epoch) {
            return Ok(Fetched::Known);
        }
        match self.fetches.insert((source.0, owner.0, epoch)) {
            Ok(_) => Ok(Fetched::New),
            Err(_) => Err(OutOfMemory),
        }
    }

    /// The key that routers of the AS `owner` share with the host `src` in an epoch, where the host's AS is the owner or
    /// has fetched it. Both ASes are in the topology.
    #[tactic(auto, unfolding(crate::specs::Keys::owner))]
    pub fn field_key(
        &self,
        topo: &Topology,
        owner: AsId,
        src: HostId,
        epoch: u64,
    ) -> Result<[u8; 16], NoKey>
        requires source { IsTrue (has topo.now src.asn) }
        requires owner { IsTrue (has topo.now owner) }
        ensures { result ≡ known_key topo.now (is_fetched self.now) (record { source = src.asn; owner = owner; epoch = epoch }) (Field owner src epoch) }
    {
        self.known_key(
            topo,
            src.asn,
            owner,
            epoch,
            &KeyName::Field {
                a: owner,
                src,
                epoch,
            },
        )
    }

    /// The key that the host `dst` shares with the host `src` in an epoch, where the source's AS is the destination's or
    /// has fetched it. Both ASes are in the topology.
    #[tactic(auto, unfolding(crate::specs::Keys::owner))]
    pub fn dest_key(
        &self,
        topo: &Topology,
        dst: HostId,
        src: HostId,
        epoch: u64,
    ) -> Result<[u8; 16], NoKey>
        requires source { IsTrue (has topo.now src.asn) }
        requires owner { IsTrue (has topo.now dst.asn) }
        ensures { result ≡ known_key topo.now (is_fetched self.now) (record { source = src.asn; owner = dst.asn; epoch = epoch }) (Dest dst src epoch) }
    {
        self.known_key(
            topo,
            src.asn,
            dst.asn,
            epoch,
            &KeyName::Dest { dst, src, epoch },
        )
    }
}

impl KeyStore {
    ghost use Rattle.epic_keys.specs.Fetches.{is_fetched, known_key as spec_known_key};
    ghost use Rattle.epic_keys.specs.Keys.{owner as spec_owner};

    // The key of a name whose owner is `owner`, where it is known.
    #[tactic(auto, unfolding(crate::specs::Fetches::known_key))]
    fn known_key(
        &self,
        topo: &Topology,
        source: AsId,
        owner: AsId,
        epoch: u64,
        name: &KeyName,
    ) -> Result<[u8; 16], NoKey>
        requires { IsTrue (has topo.now (spec_owner name.now)) }
        ensures { result ≡ spec_known_key topo.now (is_fetched self.now) (record { source = source; owner = owner; epoch = epoch }) name.now }
    {
        if self.is_known(source, owner, epoch) {
            Ok(derive(topo, name))
        } else {
            Err(NoKey { owner, epoch })
        }
    }
}
