//! Numbers in words.

ghost use Rattle.std.specs.Prelude.{◌≡◌, ◌≤◌, IfSome};
ghost use Rattle.epic_words.specs.Request.{number_in};

use epic_num::read_number;

/// The most digits of a number of 64 bits.
const MOST_DIGITS: usize = 20;

/// The decimal number of a word, if it is one within these bounds.
pub(crate) fn number(word: &str, least: u64, most: u64) -> Option<u64>
    ensures value { result ≡ number_in least most word.now }
    ensures most { IfSome result (λ n. n ≤ most) }
    ensures least { IfSome result (λ n. least ≤ n) }
{
    if word.len() > MOST_DIGITS {
        return None;
    }
    match read_number(word.as_bytes(), most) {
        Ok(n) if n >= least => Some(n),
        _ => None,
    }
}
