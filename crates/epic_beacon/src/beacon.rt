//! One issued hop, and the chain that it ends.
ghost use Rattle.std.specs.Prelude.{◌≡◌, option_map};
ghost use Rattle.epic_num.specs.Chains.{chain, issue_at, last_names};
ghost use Rattle.epic_beacon.specs.Issuing.{stands_in};
ghost use Rattle.epic_beacon.specs.Store.{beacon_at, issues_of};

use epic_num::{AsId, HopName, SegKind, same_as};

/// A hop that was issued.
#[derive(Clone, Copy, Debug, PartialEq, Eq)]
pub struct Beacon {
    pub name: HopName,
    /// The number of the issue that it goes on from, 0 for none.
    pub parent: u32,
    /// The hop's authenticator.
    pub sigma: [u8; 16],
    /// What links its chain is made of.
    pub kind: SegKind,
}

/// The beacon with a number, which counts from 1.
#[tactic(auto, unfolding(crate::specs::Store::beacon_at))]
pub(crate) fn beacon_at(beacons: &[Beacon], number: u32) -> Option<Beacon>
    ensures { result ≡ beacon_at beacons.now number }
{
    if number == 0 {
        None
    } else {
        beacons.get(number as usize - 1).copied()
    }
}

/// Whether the AS stands among a beacon and those that it goes on from, at most so many in all.
fn stands_in(beacons: &[Beacon], number: u32, most: u8, a: AsId) -> bool
    ensures { result ≡ stands_in a (last_names (issues_of beacons.now) most number) }
{
    let mut place = number;
    for i in 0..most {
        match beacon_at(beacons, place) {
            None => return false,
            Some(beacon) => {
                if same_as(beacon.name.asn, a) {
                    return true;
                }
                place = beacon.parent;
            }
        }
    }
    false
}

/// Whether the AS stands in the chain of a beacon, which is that of the number.
pub(crate) fn stands_in_chain(beacons: &[Beacon], number: u32, beacon: &Beacon, a: AsId) -> bool
    requires { beacon_at beacons.now number ≡ Some beacon.now }
    ensures { result ≡ stands_in a (chain (issues_of beacons.now) number) }
{
    stands_in(beacons, number, beacon.name.body.pos, a)
}

/// The issue of a number, and the number of the issue that it goes on from.
pub(crate) fn issue_at(beacons: &[Beacon], number: u32) -> Option<(HopName, u32)>
    ensures { result ≡ option_map (λ i. (i.name, i.parent)) (issue_at (issues_of beacons.now) number) }
{
    match beacon_at(beacons, number) {
        Some(beacon) => Some((beacon.name, beacon.parent)),
        None => None,
    }
}
