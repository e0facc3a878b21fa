//! Secret values that are kept ready, from which the keys of an epoch are derived.

ghost use Rattle.std.specs.Prelude.{◌≡◌, true, false};
ghost use Rattle.epic_keys.specs.Keys as keys;
ghost use Rattle.epic_keys.specs.Ready.{key_under};

use crate::derivation::{as_key, forwarding_key, secret_value};
use epic_cmac::{CmacKey, cmac};
use epic_num::{AsId, KeyName, dest_key_message, host_key_message};
use std::marker::Model;

/// The secret value of an epoch, made ready. Clauses see whether it was made yet, the master key that it was made from, and the
/// epoch.
#[derive(Drop)]
struct SecretValue {
    is_made: bool,
    master: [u8; 16],
    epoch: u64,
    key: CmacKey,
}

impl Model for SecretValue {
    ghost use Rattle.std.specs.Prelude.{◌≡◌, IsTrue};
    ghost use Rattle.epic_keys.specs.Keys.{secret_value};
    ghost use Rattle.epic_keys.specs.Ready.{Secret};

    ghost Value = { Secret };

    ghost view = { λ k. record { is_made = k.is_made; master = k.master; epoch = k.epoch } };

    ghost invariant = { λ k. IsTrue k.is_made → k.key ≡ secret_value k.master k.epoch };
}

impl SecretValue {
    /// None yet.
    fn none() -> SecretValue
        ensures { result.is_made ≡ false }
    {
        SecretValue {
            is_made: false,
            master: [0; 16],
            epoch: 0,
            key: CmacKey::new(&[0; 16]),
        }
    }

    /// The secret value of an epoch, under a master key.
    fn new(master: &[u8; 16], epoch: u64) -> SecretValue
        ensures { result ≡ record { is_made = true; master = master.now; epoch = epoch } }
    {
        SecretValue {
            is_made: true,
            master: *master,
            epoch,
            key: CmacKey::new(&secret_value(master, epoch)),
        }
    }

    /// Makes the secret value anew, unless it is that of this epoch under this master key.
    fn prepare(&mut self, master: &[u8; 16], epoch: u64)
        ensures { self.new ≡ record { is_made = true; master = master.now; epoch = epoch } }
    {
        if !self.is_made || self.epoch != epoch || self.master != *master {
            *self = SecretValue::new(master, epoch);
        }
    }

    /// The key for the AS `a`.
    fn as_key(&self, a: AsId) -> [u8; 16]
        requires { self.now.is_made ≡ true }
        ensures { result ≡ keys.as_key (keys.secret_value self.now.master self.now.epoch) a }
    {
        as_key(&self.key, a)
    }
}

/// The secret values of two epochs, one of even and one of odd number. Each knows what it was made from, and is made anew where
/// another is asked for.
#[derive(Drop)]
pub(crate) struct Secrets {
    even: SecretValue,
    odd: SecretValue,
}

impl Secrets {
    pub(crate) fn new() -> Secrets {
        Secrets {
            even: SecretValue::none(),
            odd: SecretValue::none(),
        }
    }

    /// The key for the AS `a` under the secret value of an epoch, of the AS with this master key.
    fn as_key(&mut self, master: &[u8; 16], epoch: u64, a: AsId) -> [u8; 16]
        ensures { result ≡ keys.as_key (keys.secret_value master.now epoch) a }
    {
        if epoch % 2 == 0 {
            self.even.prepare(master, epoch);
            return self.even.as_key(a);
        }
        self.odd.prepare(master, epoch);
        self.odd.as_key(a)
    }

    /// The key of a name, where this is its owner's master key.
    #[tactic(auto, unfolding(crate::specs::Ready::key_under, crate::specs::Keys::host_key, crate::specs::Keys::dest_key))]
    pub(crate) fn derive(&mut self, master: &[u8; 16], name: &KeyName) -> [u8; 16]
        ensures { result ≡ key_under master.now name.now }
    {
        match *name {
            KeyName::Fwd { g, .. } => forwarding_key(master, g),
            KeyName::Field { src, epoch, .. } => {
                let shared = self.as_key(master, epoch, src.asn);
                cmac(&shared, &host_key_message(src.host))
            }
            KeyName::Dest { dst, src, epoch } => {
                let shared = self.as_key(master, epoch, src.asn);
                cmac(&shared, &dest_key_message(dst.host, src.host))
            }
        }
    }
}
