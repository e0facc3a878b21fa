//! Keys that a router keeps ready from one packet to the next.
ghost use Rattle.std.specs.Prelude.{◌≡◌, ◌-◌, IsTrue};
ghost use Rattle.epic_fields.specs.Formulas as formulas;
ghost use Rattle.epic_keys.specs.Keys.{forwarding_key, master_key};
ghost use Rattle.epic_router.specs.Ready.{IsShared, IsSharedKept};
ghost use Rattle.epic_topo.specs.Network.{has};

use epic_cmac::CmacKey;
use epic_fields::{authenticator_and_link_tag_by, field_name};
use epic_keys::{SharedKeys, forwarding_key, master_key};
use epic_num::{AsId, Body, KeyName, is_tagged};
use epic_topo::Topology;
use epic_view::PacketRef;
use std::marker::Model;

/// The forwarding key of a generation, made ready. Clauses see the master key that it was made from, and the generation.
#[derive(Drop)]
pub struct ForwardingKey {
    master: [u8; 16],
    generation: u32,
    key: CmacKey,
}

impl Model for ForwardingKey {
    ghost use Rattle.std.specs.Prelude.{◌≡◌};
    ghost use Rattle.epic_keys.specs.Keys.{forwarding_key};
    ghost use Rattle.epic_router.specs.Ready.{Numbered};

    ghost Value = { Numbered };

    ghost view = { λ k. record { master = k.master; number = k.generation } };

    ghost invariant = { λ k. k.key ≡ forwarding_key k.master k.generation };
}

impl ForwardingKey {
    /// The key of a generation, under a master key.
    pub fn new(master: &[u8; 16], generation: u32) -> ForwardingKey
        ensures { result ≡ record { master = master.now; number = generation } }
    {
        ForwardingKey {
            master: *master,
            generation,
            key: CmacKey::new(&forwarding_key(master, generation)),
        }
    }

    /// Makes the key anew, unless it is that of this generation under this master key.
    pub fn prepare(&mut self, master: &[u8; 16], generation: u32)
        ensures { self.new ≡ record { master = master.now; number = generation } }
    {
        if self.generation != generation || self.master != *master {
            *self = ForwardingKey::new(master, generation);
        }
    }

    pub fn generation(&self) -> u32
        ensures { result ≡ self.now.number }
    {
        self.generation
    }

    /// The authenticator of a hop, and its link tag, which the next hop of its segment carries.
    pub fn authenticator_and_link_tag(&self, body: &Body) -> ([u8; 16], [u8; 8])
        ensures authenticator { result.0 ≡ formulas.authenticator (forwarding_key self.now.master self.now.number) body.now }
        ensures link_tag { result.1 ≡ formulas.link_tag (forwarding_key self.now.master self.now.number) body.now }
    {
        authenticator_and_link_tag_by(&self.key, body)
    }
}

/// The keys that a router keeps: the forwarding keys of the present generation and of the one before it, and those that its AS
/// shares with the sources whose packets came last. Each knows what it was made from, so where the topology's master key is
/// another they are made anew.
#[derive(Drop)]
pub struct ReadyKeys {
    pub present: ForwardingKey,
    pub previous: ForwardingKey,
    shared: SharedKeys,
}

impl ReadyKeys {
    /// Keys from a master key of zeros, until a packet comes.
    pub fn new() -> ReadyKeys {
        let master = [0; 16];
        ReadyKeys {
            present: ForwardingKey::new(&master, 0),
            previous: ForwardingKey::new(&master, 0),
            shared: SharedKeys::new(),
        }
    }

    /// Makes the forwarding keys of the AS ready, of this generation and of the one before it.
    pub fn prepare(&mut self, topo: &Topology, a: AsId, generation: u32)
        requires known { IsTrue (has topo.now a) }
        ensures present { self.new.present ≡ record { master = master_key topo.now a; number = generation } }
        ensures previous { self.new.previous ≡ record { master = master_key topo.now a; number = generation - 1 } }
    {
        let master = master_key(topo, a);
        self.present.prepare(&master, generation);
        self.previous.prepare(&master, generation.saturating_sub(1));
    }

    /// Makes the key ready that the AS shares with the packet's source, in the epoch of the packet's timestamp, at levels 2 and 3.
    /// The answer is its name, and at levels 0 and 1 any name.
    #[tactic(auto, unfolding(epic_fields::specs::PacketTags::field_name, epic_keys::specs::Keys::owner))]
    pub fn prepare_shared(&mut self, topo: &Topology, a: AsId, packet: &PacketRef<'_>) -> KeyName
        requires known { IsTrue (has topo.now a) }
        ensures kept { IsSharedKept topo.now a packet.now self.new.shared result }
        ensures present { self.new.present ≡ self.old.present }
        ensures previous { self.new.previous ≡ self.old.previous }
    {
        if !is_tagged(packet.first_byte()) {
            return KeyName::Fwd { a, g: 0 };
        }
        let name = field_name(topo, a, packet);
        self.shared.prepare(topo, &name);
        name
    }

    /// The key that was made ready under this name, at levels 2 and 3; at levels 0 and 1 any key.
    #[tactic(auto, unfolding(epic_fields::specs::PacketTags::shared_key))]
    pub fn shared(
        &self,
        topo: &Topology,
        a: AsId,
        packet: &PacketRef<'_>,
        name: &KeyName,
    ) -> &CmacKey
        requires kept { IsSharedKept topo.now a packet.now self.now.shared name.now }
        ensures { IsShared topo.now a packet.now result.now }
    {
        self.shared.get(name)
    }
}
