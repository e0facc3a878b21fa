//! The key that a name stands for, and who may hold it.

ghost use Rattle.std.specs.Prelude.{◌≡◌, IsTrue};
ghost use Rattle.epic_num.specs.Holders.{holders, is_among};
ghost use Rattle.epic_topo.specs.Network.{has};
ghost use Rattle.epic_keys.specs.Keys.{as_key, dest_key, forwarding_key, host_key, key, master_key, owner, secret_value};

use epic_cmac::{CmacKey, cmac};
use epic_num::{
    AsId, Holder, HostId, KeyName, as_key_message, dest_key_message, forwarding_message,
    host_key_message, same_as, same_host, secret_message,
};
use epic_topo::Topology;

/// The AS from whose master key the key of the name is derived.
#[tactic(auto, unfolding(crate::specs::Keys::owner))]
pub fn owner(name: &KeyName) -> AsId
    ensures { result ≡ owner name.now }
{
    match *name {
        KeyName::Fwd { a, .. } => a,
        KeyName::Field { a, .. } => a,
        KeyName::Dest { dst, .. } => dst.asn,
    }
}

/// The key, of 16 bytes, of a name whose owner is in the topology. Each step is a tag by AES-CMAC (RFC 4493): a forwarding
/// key is that of its generation, under the owner's master key; the others begin with the owner's secret value of the
/// epoch, under which the source's AS gives a key, and under that the source's host, or both hosts. docs/FORMATS.md has the
/// messages.
#[tactic(auto, unfolding(crate::specs::Keys::key, crate::specs::Keys::owner))]
pub fn derive(topo: &Topology, name: &KeyName) -> [u8; 16]
    requires { IsTrue (has topo.now (owner name.now)) }
    ensures { result ≡ key topo.now name.now }
{
    match *name {
        KeyName::Fwd { a, g } => forwarding_key(&master_key(topo, a), g),
        KeyName::Field { a, src, epoch } => host_key(&ready_secret(topo, a, epoch), src),
        KeyName::Dest { dst, src, epoch } => {
            dest_key(&ready_secret(topo, dst.asn, epoch), dst.host, src)
        }
    }
}

/// Whether the holder may hold the key of the name.
#[tactic(auto, unfolding(epic_num::specs::Holders::holders, epic_num::specs::Holders::is_among, epic_num::specs::Same::same_holder))]
pub fn is_holder(name: &KeyName, holder: &Holder) -> bool
    ensures { result ≡ is_among holder.now (holders name.now) }
{
    match (*name, *holder) {
        (KeyName::Fwd { a, .. }, Holder::As(h)) => same_as(h, a),
        (KeyName::Fwd { .. }, Holder::Host(_)) => false,
        (KeyName::Field { a, src, .. }, Holder::As(h)) => same_as(h, a) || same_as(h, src.asn),
        (KeyName::Field { src, .. }, Holder::Host(h)) => same_host(h, src),
        (KeyName::Dest { dst, src, .. }, Holder::As(h)) => {
            same_as(h, dst.asn) || same_as(h, src.asn)
        }
        (KeyName::Dest { dst, src, .. }, Holder::Host(h)) => {
            same_host(h, dst) || same_host(h, src)
        }
    }
}

/// The master key of an AS of the topology.
#[tactic(auto, unfolding(crate::specs::Keys::master_key, epic_topo::specs::Network::has, epic_topo::specs::Network::master))]
pub fn master_key(topo: &Topology, a: AsId) -> [u8; 16]
    requires { IsTrue (has topo.now a) }
    ensures { result ≡ master_key topo.now a }
{
    match topo.master(a) {
        Some(master) => master,
        None => unreachable!(),
    }
}

/// The forwarding key of a generation, of the AS with this master key.
#[tactic(auto, unfolding(crate::specs::Keys::forwarding_key))]
pub fn forwarding_key(master: &[u8; 16], generation: u32) -> [u8; 16]
    ensures { result ≡ forwarding_key master.now generation }
{
    cmac(master, &forwarding_message(generation))
}

/// The secret value of an epoch, of the AS with this master key.
#[tactic(auto, unfolding(crate::specs::Keys::secret_value))]
pub fn secret_value(master: &[u8; 16], epoch: u64) -> [u8; 16]
    ensures { result ≡ secret_value master.now epoch }
{
    cmac(master, &secret_message(epoch))
}

/// The key for the host `src`, under the secret value of an epoch. Whoever derives many keys of one epoch makes its secret
/// value ready once.
#[tactic(auto, unfolding(crate::specs::Keys::host_key))]
pub fn host_key(secret: &CmacKey, src: HostId) -> [u8; 16]
    ensures { result ≡ host_key secret.now src }
{
    cmac(&as_key(secret, src.asn), &host_key_message(src.host))
}

/// The key for the AS `a`, under the secret value of an epoch.
#[tactic(auto, unfolding(crate::specs::Keys::as_key))]
pub(crate) fn as_key(secret: &CmacKey, a: AsId) -> [u8; 16]
    ensures { result ≡ as_key secret.now a }
{
    secret.tag(&as_key_message(a))
}

/// The key that the host of number `dst` shares with the host `src`, under the secret value of an epoch.
#[tactic(auto, unfolding(crate::specs::Keys::dest_key))]
fn dest_key(secret: &CmacKey, dst: u32, src: HostId) -> [u8; 16]
    ensures { result ≡ dest_key secret.now dst src }
{
    cmac(&as_key(secret, src.asn), &dest_key_message(dst, src.host))
}

/// The secret value of an epoch of the AS `a`, made ready.
fn ready_secret(topo: &Topology, a: AsId, epoch: u64) -> CmacKey
    requires { IsTrue (has topo.now a) }
    ensures { result ≡ secret_value (master_key topo.now a) epoch }
{
    CmacKey::new(&secret_value(&master_key(topo, a), epoch))
}
