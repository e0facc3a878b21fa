//! The packets that passed, oldest first.
ghost use Rattle.std.specs.Prelude.{◌≡◌, ◌∷◌, ◌≤◌, false, length, IfSome, IfNone};
ghost use Rattle.epic_policer.specs.Offers.{is_live};
ghost use Rattle.epic_policer.specs.Queue.{IsQueue, StartsLive, entries_of};

use crate::Packet;
use epic_pool::Pool;

/// Whether a packet still counts at `now`, in microseconds.
#[tactic(auto, unfolding(crate::specs::Offers::is_live))]
fn is_live(packet: &Packet, span_us: u64, now: u64) -> bool
    ensures { result ≡ is_live span_us now packet.now }
{
    match packet.moment.checked_add(span_us) {
        Some(end) => now < end,
        None => true,
    }
}

/// Takes the oldest packet out, if it no longer counts at `now`, in microseconds.
pub fn take_dead(pool: &mut Pool<Packet>, span_us: u64, now: u64) -> Option<Packet>
    requires { IsQueue pool.old }
    ensures taken { IfSome result (λ p. entries_of pool.old ≡ p ∷ entries_of pool.new) }
    ensures dead { IfSome result (λ p. is_live span_us now p ≡ false) }
    ensures first { IfNone result (StartsLive span_us now (entries_of pool.old)) }
    ensures unchanged { IfNone result (pool.new ≡ pool.old) }
    ensures queue { IsQueue pool.new }
    ensures lists { length pool.new.a ≡ length pool.old.a }
    ensures spare { pool.old.spare ≤ pool.new.spare }
{
    match pool.first_b(0) {
        None => None,
        Some(node) => {
            if is_live(pool.get(node), span_us, now) {
                return None;
            }
            Some(pool.remove(node))
        }
    }
}
