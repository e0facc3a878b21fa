//! The words for a budget and a span.

ghost use Rattle.std.specs.Prelude.{◌≡◌, ◌≤◌, IfOk, IfSome, Some, option_map};
ghost use Rattle.epic_words.specs.Answers.{AsksFor, policing_in};
ghost use Rattle.epic_words.specs.Request.{number_in, police_of, policing};

use crate::error::WordsError;
use crate::number::number;

/// The most bytes of a budget.
const MOST_BUDGET: u64 = 1_099_511_627_776;

/// The most microseconds of a span.
const MOST_SPAN_US: u64 = 3_600_000_000;

/// What `--budget N` and `--span N` ask for.
#[derive(Clone, Copy, Debug, PartialEq, Eq)]
pub struct PoliceWords {
    /// How many bytes each source AS may pass within a span, from 1 to 1,099,511,627,776.
    pub budget: u64,
    /// The span, from 1 to 3,600,000,000 microseconds.
    pub span_us: u64,
}

/// The numbers of a budget and a span, if both are within their limits.
fn limits(budget: &str, span: &str) -> Option<PoliceWords>
    ensures value { option_map policing_in result
        ≡ policing (number_in 1 1099511627776 budget.now) (number_in 1 3600000000 span.now) }
    ensures some_bytes { IfSome result (λ p. 1 ≤ p.budget) }
    ensures most_bytes { IfSome result (λ p. p.budget ≤ 1099511627776) }
    ensures some_time { IfSome result (λ p. 1 ≤ p.span_us) }
    ensures most_time { IfSome result (λ p. p.span_us ≤ 3600000000) }
{
    let budget = number(budget, 1, MOST_BUDGET)?;
    let span_us = number(span, 1, MOST_SPAN_US)?;
    Some(PoliceWords { budget, span_us })
}

/// What the words for a budget and a span ask for. `Refused`: one of them stands alone, or is no
/// number within its limits.
#[tactic(auto, unfolding(crate::specs::Request::police_of))]
pub(crate) fn police<'a>(
    budget: Option<&'a str>,
    span: Option<&'a str>,
) -> Result<Option<PoliceWords>, WordsError>
    ensures value { AsksFor (λ police. option_map policing_in police)
        (police_of (option_map (λ word. word.now) budget.entry)
        (option_map (λ word. word.now) span.entry)) result }
    ensures memory { result ≡ Err WordsError.OutOfMemory → ⊥ }
    ensures some_bytes { IfOk result (λ police. IfSome police (λ p. 1 ≤ p.budget)) }
    ensures most_bytes { IfOk result (λ police. IfSome police (λ p. p.budget ≤ 1099511627776)) }
    ensures some_time { IfOk result (λ police. IfSome police (λ p. 1 ≤ p.span_us)) }
    ensures most_time { IfOk result (λ police. IfSome police (λ p. p.span_us ≤ 3600000000)) }
{
    match (budget, span) {
        (None, None) => Ok(None),
        (Some(budget), Some(span)) => match limits(budget, span) {
            Some(police) => Ok(Some(police)),
            None => Err(WordsError::Refused),
        },
        _ => Err(WordsError::Refused),
    }
}
