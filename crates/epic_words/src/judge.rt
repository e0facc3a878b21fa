//! The words of `judge`.

ghost use Rattle.std.specs.Prelude.{◌≡◌, map, MatchOption, None, Some};
ghost use Rattle.std.specs.String.{string_bytes};
ghost use Rattle.epic_words.specs.Answers.{judge_in};
ghost use Rattle.epic_words.specs.Request.{judge_of};

/// What `judge TOPOLOGY LEDGER VERDICTS` names.
#[derive(Clone, Copy, Debug, PartialEq, Eq)]
pub struct JudgeWords<'a> {
    /// The name of the topology's file.
    pub topology: &'a str,
    /// The name of the ledger file.
    pub ledger: &'a str,
    /// The name of the verdict file.
    pub verdicts: &'a str,
}

/// Reads the words after `judge`: TOPOLOGY, LEDGER and VERDICTS, which may be one name since
/// nothing is written. `None` where the words are others. No memory is taken.
#[tactic(auto, unfolding(crate::specs::Request::judge_of))]
pub fn judge_words(words: &[String]) -> Option<JudgeWords<'_>>
    ensures { MatchOption result
        (judge_of (map string_bytes words.entry.now) ≡ None)
        (λ w. judge_of (map string_bytes words.entry.now) ≡ Some (judge_in w)) }
{
    let [topology, ledger, verdicts] = words else {
        return None;
    };
    Some(JudgeWords {
        topology: topology.as_str(),
        ledger: ledger.as_str(),
        verdicts: verdicts.as_str(),
    })
}
