//! The words of `hop`.

ghost use Rattle.std.specs.Prelude.{◌≡◌, map, MatchOption, None, Some};
ghost use Rattle.std.specs.String.{string_bytes};
ghost use Rattle.epic_words.specs.Answers.{hop_in};
ghost use Rattle.epic_words.specs.Request.{hop_of};

use hex::FromHex;

/// What `hop KEY FILE` names.
#[derive(Clone, Copy, Debug, PartialEq, Eq)]
pub struct HopWords<'a> {
    /// The forwarding key.
    pub key: [u8; 16],
    /// The name of the file.
    pub file: &'a str,
}

/// Reads the words after `hop`: KEY, of 32 hexadecimal digits, and FILE. `None` where the words
/// are others. No memory is taken.
#[tactic(auto, unfolding(crate::specs::Request::hop_of))]
pub fn hop_words(words: &[String]) -> Option<HopWords<'_>>
    ensures { MatchOption result
        (hop_of (map string_bytes words.entry.now) ≡ None)
        (λ hop. hop_of (map string_bytes words.entry.now) ≡ Some (hop_in hop)) }
{
    let [key, file] = words else {
        return None;
    };
    let key = <[u8; 16] as FromHex>::from_hex(key.as_str()).ok()?;
    Some(HopWords {
        key,
        file: file.as_str(),
    })
}
