//! Generations of forwarding keys.
ghost use Rattle.std.specs.Prelude.{◌≡◌, ◌<◌};
ghost use Rattle.epic_beacon.specs.Store.{Rolls, store_of};

use crate::Beacons;
use epic_num::{AsId, OutOfMemory};

impl Beacons {
    /// The generation of the AS's forwarding key: how often the AS has rolled it.
    #[tactic(auto, unfolding(crate::specs::Store::generation_in))]
    pub fn generation(&self, a: AsId) -> u32
        ensures { result ≡ (store_of self.now).generations a }
    {
        self.generations.get(&a.0).copied().unwrap_or(0)
    }

    /// The AS gets a new forwarding key, of the next generation, which is answered. What was issued stays.
    pub fn roll(&mut self, a: AsId) -> Result<u32, OutOfMemory>
        requires { (store_of self.old).generations a < 4294967295 }
        ensures { Rolls (store_of self.old) (store_of self.new) a result }
    {
        let next = self.generation(a) + 1;
        match self.generations.insert(a.0, next) {
            Ok(_) => Ok(next),
            Err(_) => Err(OutOfMemory),
        }
    }
}
