//! The words of `gen`.

ghost use Rattle.std.specs.Prelude.{◌≡◌, ◌≤◌, map, IfSome, MatchOption, None, Some};
ghost use Rattle.std.specs.String.{string_bytes};
ghost use Rattle.epic_words.specs.Answers.{gen_in};
ghost use Rattle.epic_words.specs.Request.{gen_of};

use crate::number::number;

/// The most packets of `gen`.
const MOST_PACKETS: u64 = 100_000;

/// What `gen SEED PACKETS` names.
#[derive(Clone, Copy, Debug, PartialEq, Eq)]
pub struct GenWords {
    /// The number from which keys and payloads are made.
    pub seed: u64,
    /// How many packets are sent, from 1 to 100,000.
    pub packets: u32,
}

/// Reads the words after `gen`: SEED, a decimal number of 64 bits, and PACKETS, one from 1 to
/// 100,000. `None` where the words are others. No memory is taken.
#[tactic(auto, unfolding(crate::specs::Request::gen_of))]
pub fn gen_words(words: &[String]) -> Option<GenWords>
    ensures value { MatchOption result
        (gen_of (map string_bytes words.entry.now) ≡ None)
        (λ w. gen_of (map string_bytes words.entry.now) ≡ Some (gen_in w)) }
    ensures some { IfSome result (λ w. 1 ≤ w.packets) }
    ensures few { IfSome result (λ w. w.packets ≤ 100000) }
{
    let [seed, packets] = words else {
        return None;
    };
    let seed = number(seed, 0, u64::MAX)?;
    let packets = number(packets, 1, MOST_PACKETS)?;
    Some(GenWords {
        seed,
        packets: packets as u32,
    })
}
