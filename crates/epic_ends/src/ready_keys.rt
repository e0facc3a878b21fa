//! Keys that a source shares with the ASes of its paths and with its destinations, ready for use.
ghost use Rattle.std.specs.Prelude.{◌≡◌, All, IfSome, IsTrue, length, map};
ghost use Rattle.epic_cmac.specs.Cmac.{cmac};
ghost use Rattle.epic_fields.specs.PacketTags as packet_tags;
ghost use Rattle.epic_keys.specs.Keys as keys;
ghost use Rattle.epic_layout.specs.Contents.{field_bytes, hop_count};
ghost use Rattle.epic_layout.specs.Spelling.{update_count};
ghost use Rattle.epic_num.specs.Levels.{is_tagged, width_of};
ghost use Rattle.epic_num.specs.declared.key_name.KeyName.TheVariants as names;
ghost use Rattle.epic_topo.specs.Network.{has};
ghost use Rattle.epic_ends.specs.Filling.{IsReady};

use epic_cmac::CmacKey;
use epic_fields::dest_field_of;
use epic_keys::{SharedKeys, host_key, master_key, secret_value};
use epic_num::{AsId, Field, HostId};
use epic_topo::Topology;
use epic_view::PacketRef;
use std::alloc::Global;
use std::marker::Model;

/// How many keys are kept at most: those of one path.
const MOST_KEYS: usize = 32;

/// A key that a host shares with the AS of this master key in an epoch.
#[derive(Drop)]
pub struct ReadyKey {
    master: [u8; 16],
    epoch: u64,
    key: CmacKey,
}

/// Keys of one source, each made ready once as long as it is kept. Clauses see the source alone.
#[derive(Drop)]
pub struct ReadyKeys {
    src: HostId,
    kept: Vec<ReadyKey>,
    // Those that it shares with destinations.
    ends: SharedKeys,
}

impl Model for ReadyKeys {
    ghost use Rattle.std.specs.Prelude.{All};
    ghost use Rattle.epic_num.specs.declared.name.HostId.{HostId};
    ghost use Rattle.epic_ends.specs.Filling.{IsReady};

    ghost Value = { HostId };

    ghost view = { λ k. k.src };

    ghost invariant = { λ k. All (IsReady k.src) k.kept.items };
}

/// The tag of a message under the kept key of a master key and an epoch.
fn tag_by_kept(
    kept: &[ReadyKey],
    src: HostId,
    master: &[u8; 16],
    epoch: u64,
    message: &[u8],
) -> Option<[u8; 16]>
    requires { All (IsReady src) kept.now }
    ensures { IfSome result (λ tag. tag ≡ cmac (keys.host_key (keys.secret_value master.now epoch) src) message.now) }
{
    for ready in kept {
        if ready.epoch == epoch && ready.master == *master {
            return Some(ready.key.tag(message));
        }
    }
    None
}

impl ReadyKeys {
    /// No keys yet.
    pub fn new(alloc: Global, src: HostId) -> ReadyKeys
        ensures { result ≡ src }
    {
        ReadyKeys {
            src,
            kept: Vec::new(alloc),
            ends: SharedKeys::new(),
        }
    }

    /// The host that shares the keys.
    pub fn src(&self) -> HostId
        ensures { result ≡ self.now }
    {
        self.src
    }

    /// The tag of a message under the key that an AS shares with the source in an epoch.
    #[tactic(auto, unfolding(epic_keys::specs::Keys::key))]
    pub fn tag(&mut self, topo: &Topology, a: AsId, epoch: u64, message: &[u8]) -> [u8; 16]
        requires { IsTrue (has topo.now a) }
        ensures tag { result ≡ cmac (keys.key topo.now (names.Field a self.old epoch)) message.now }
        ensures same { self.new ≡ self.old }
    {
        let master = master_key(topo, a);
        let src = self.src;
        if let Some(tag) = tag_by_kept(self.kept.as_slice(), src, &master, epoch, message) {
            return tag;
        }
        let secret = CmacKey::new(&secret_value(&master, epoch));
        let key = CmacKey::new(&host_key(&secret, src));
        let tag = key.tag(message);
        self.keep(ReadyKey { master, epoch, key });
        tag
    }

    /// The destination field that a packet has over these updates.
    pub fn dest_field(
        &mut self,
        topo: &Topology,
        packet: &PacketRef<'_>,
        updates: &[Field],
    ) -> [u8; 16]
        requires known { IsTrue (has topo.now packet.now.dst.asn) }
        requires tagged { IsTrue (is_tagged packet.now.first) }
        requires count { length updates.now ≡ update_count packet.now.first (hop_count packet.now) }
        requires widths { All (λ u. u.width ≡ width_of packet.now.first) updates.now }
        ensures field { result ≡ packet_tags.dest_field_of topo.now packet.now (map field_bytes updates.now) }
        ensures same { self.new ≡ self.old }
    {
        dest_field_of(&mut self.ends, topo, packet, updates)
    }

    /// Keeps a key, unless memory is missing.
    fn keep(&mut self, ready: ReadyKey)
        requires { IsReady self.old ready }
        ensures { self.new ≡ self.old }
    {
        if self.kept.len() >= MOST_KEYS {
            self.kept.clear();
        }
        let _ = self.kept.push(ready);
    }
}
