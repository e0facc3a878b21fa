//! Keys that are kept ready from one packet to the next.

ghost use Rattle.std.specs.Prelude.{◌≡◌, ◌<◌, IsTrue, false, true};
ghost use Rattle.epic_keys.specs.Keys.{key, owner as spec_owner};
ghost use Rattle.epic_keys.specs.Ready.{IsKept, key_under, place as spec_place, place_of as spec_place_of};
ghost use Rattle.epic_topo.specs.Network.{Network, has};

use crate::derivation::{master_key, owner};
use crate::secrets::Secrets;
use epic_cmac::CmacKey;
use epic_num::{AsId, HostId, KeyName};
use epic_topo::Topology;
use std::marker::Model;

/// A place for a key that was made ready. Clauses see whether one was made yet, the master key that it was made from, and its
/// name.
#[derive(Drop)]
struct ReadyKey {
    is_made: bool,
    master: [u8; 16],
    name: KeyName,
    key: CmacKey,
}

impl Model for ReadyKey {
    ghost use Rattle.std.specs.Prelude.{◌≡◌, IsTrue};
    ghost use Rattle.epic_keys.specs.Ready.{Made, key_under};

    ghost Value = { Made };

    ghost view = { λ k. record { is_made = k.is_made; master = k.master; name = k.name } };

    ghost invariant = { λ k. IsTrue k.is_made → k.key ≡ key_under k.master k.name };
}

impl ReadyKey {
    /// No key yet.
    fn none() -> ReadyKey
        ensures { result.is_made ≡ false }
    {
        ReadyKey {
            is_made: false,
            master: [0; 16],
            name: KeyName::Fwd { a: AsId(0), g: 0 },
            key: CmacKey::new(&[0; 16]),
        }
    }

    /// The key of a name, where this is its owner's master key.
    fn new(secrets: &mut Secrets, master: &[u8; 16], name: &KeyName) -> ReadyKey
        ensures { result ≡ record { is_made = true; master = master.now; name = name.now } }
    {
        let key = secrets.derive(master, name);
        ReadyKey {
            is_made: true,
            master: *master,
            name: *name,
            key: CmacKey::new(&key),
        }
    }

    /// Makes the key anew, unless it is that of this name under this master key.
    fn prepare(&mut self, secrets: &mut Secrets, master: &[u8; 16], name: &KeyName)
        ensures { self.new ≡ record { is_made = true; master = master.now; name = name.now } }
    {
        if !self.is_made || self.name != *name || self.master != *master {
            *self = ReadyKey::new(secrets, master, name);
        }
    }

    fn key(&self) -> &CmacKey
        ensures { IsTrue self.now.is_made → result.now ≡ key_under self.now.master self.now.name }
    {
        &self.key
    }
}

/// Keys that hosts share with ASes or with one another, as many as four, ready for use. Each has its place by the numbers of its
/// hosts, and knows what it was made from. Clauses see the places.
#[derive(Drop)]
pub struct SharedKeys {
    secrets: Secrets,
    first: ReadyKey,
    second: ReadyKey,
    third: ReadyKey,
    fourth: ReadyKey,
}

impl Model for SharedKeys {
    ghost use Rattle.epic_keys.specs.Ready.{Places};

    ghost Value = { Places };

    ghost view = { λ k. record { first = k.first; second = k.second; third = k.third; fourth = k.fourth } };
}

impl SharedKeys {
    /// No key yet.
    pub fn new() -> SharedKeys {
        SharedKeys {
            secrets: Secrets::new(),
            first: ReadyKey::none(),
            second: ReadyKey::none(),
            third: ReadyKey::none(),
            fourth: ReadyKey::none(),
        }
    }

    /// Makes the key of a name ready, whose owner is in the topology. Where it is ready already, nothing is derived.
    #[tactic(auto, unfolding(crate::specs::Ready::IsKept, crate::specs::Ready::kept_at))]
    pub fn prepare(&mut self, topo: &Topology, name: &KeyName)
        requires { IsTrue (has topo.now (spec_owner name.now)) }
        ensures { IsKept self.new topo.now name.now }
    {
        let master = master_key(topo, owner(name));
        match place(name) {
            0 => self.first.prepare(&mut self.secrets, &master, name),
            1 => self.second.prepare(&mut self.secrets, &master, name),
            2 => self.third.prepare(&mut self.secrets, &master, name),
            _ => self.fourth.prepare(&mut self.secrets, &master, name),
        }
    }

    /// The key of a name that was made ready. Of another name it is any key.
    pub fn get(&self, name: &KeyName) -> &CmacKey
        ensures { (t : Network) → IsKept self.now t name.now → result.now ≡ key t name.now }
    {
        match place(name) {
            0 => self.first.key(),
            1 => self.second.key(),
            2 => self.third.key(),
            _ => self.fourth.key(),
        }
    }
}

/// The number of the place of a name.
#[tactic(auto, unfolding(crate::specs::Ready::place))]
fn place(name: &KeyName) -> u64
    ensures { result ≡ spec_place name.now }
{
    match *name {
        KeyName::Fwd { .. } => 0,
        KeyName::Field { src, .. } => place_of(src),
        KeyName::Dest { dst, src, .. } => (place_of(dst) + place_of(src)) % 4,
    }
}

/// The number, below 4, of the place of a host.
#[tactic(auto, unfolding(crate::specs::Ready::place_of))]
fn place_of(h: HostId) -> u64
    ensures value { result ≡ spec_place_of h }
    ensures below { result < 4 }
{
    (h.asn.0 % 4 + h.host as u64 % 4) % 4
}
