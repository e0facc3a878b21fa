//! The words of events.

ghost use Rattle.std.specs.Prelude.{◌≡◌, ◌∷◌, [], codes, decimal, IfOk};
ghost use Rattle.std.specs.String.{string_bytes};
ghost use Rattle.hex.specs.Hex.{encode_lower};
ghost use Rattle.epic_num.specs.Bodies.{body_bytes};
ghost use Rattle.epic_num.specs.Names.{host_text};
ghost use Rattle.epic_ledger.specs.declared.event.Event.TheVariants as variants;
ghost use Rattle.epic_audit.specs.ForgedText.{words_text};
ghost use Rattle.epic_text.specs.Report as report;
ghost use Rattle.epic_record.specs.LedgerText as spec;

use epic_ledger::Event;
use epic_num::{AsId, Holder, HopName, HostId};
use std::alloc::{AllocError, Global};

/// The generation of a hop's key, its body, and the number of the issue that it goes on from.
fn hop_words(alloc: Global, name: &HopName, parent: u32) -> Result<String, AllocError>
    ensures { IfOk result (λ words. string_bytes words ≡
        words_text (decimal name.now.generation ∷ encode_lower (body_bytes name.now.body) ∷ decimal parent ∷ [])) }
{
    let generation = name.generation;
    let body = hex::encode(alloc, name.body.to_bytes().as_slice())?;
    format!(in alloc; "{generation} {body} {parent}")
}

/// The words of an issue.
#[tactic(auto, unfolding(crate::specs::LedgerText::event_words))]
fn issue_words(
    alloc: Global,
    step: u32,
    number: u32,
    name: &HopName,
    parent: u32,
) -> Result<String, AllocError>
    ensures { IfOk result (λ words. string_bytes words ≡
        words_text (spec.event_words (variants.Issue step number name.now parent))) }
{
    let asn = name.asn;
    let hop = hop_words(alloc, name, parent)?;
    format!(in alloc; "issue {step} {number} {asn} {hop}")
}

/// Numbers with a comma between two.
#[tactic(auto, using(epic_text::proofs::PathLemmas::numbers_text_cons))]
fn numbers_text(alloc: Global, numbers: &[u32]) -> Result<String, AllocError>
    ensures { IfOk result (λ text. string_bytes text ≡ report.numbers_text numbers.now) }
{
    match numbers {
        [] => Ok(String::new(alloc)),
        [last] => last.to_string(alloc),
        [first, rest @ ..] => {
            let rest = numbers_text(alloc, rest)?;
            format!(in alloc; "{first},{rest}")
        }
    }
}

/// How many hops an arrived packet has, and whether its destination field was checked.
fn end_words(alloc: Global, ts: u64, hops: u8, checked: bool) -> Result<String, AllocError>
    ensures { IfOk result (λ words. string_bytes words ≡
        words_text (decimal ts ∷ decimal hops ∷ spec.checked_text checked ∷ [])) }
{
    if checked {
        format!(in alloc; "{ts} {hops} 1")
    } else {
        format!(in alloc; "{ts} {hops} 0")
    }
}

/// The words of an arrival.
#[tactic(auto, unfolding(crate::specs::LedgerText::event_words))]
fn arrive_words(
    alloc: Global,
    step: u32,
    host: HostId,
    src: HostId,
    ts: u64,
    hops: u8,
    checked: bool,
) -> Result<String, AllocError>
    ensures { IfOk result (λ words. string_bytes words ≡
        words_text (spec.event_words (variants.Arrive step host src ts hops checked))) }
{
    let end = end_words(alloc, ts, hops, checked)?;
    format!(in alloc; "arrive {step} {host} {src} {end}")
}

/// The words of an accepted hop.
#[tactic(auto, unfolding(crate::specs::LedgerText::event_words))]
fn pass_words(
    alloc: Global,
    step: u32,
    a: AsId,
    hop: u8,
    generation: u32,
    emission: u32,
) -> Result<String, AllocError>
    ensures { IfOk result (λ words. string_bytes words ≡
        words_text (spec.event_words (variants.Pass step a hop generation emission))) }
{
    format!(in alloc; "pass {step} {a} {hop} {generation} {emission}")
}

/// The word of an AS or a host that was revealed.
#[tactic(auto, unfolding(crate::specs::LedgerText::holder_text))]
fn holder_text(alloc: Global, holder: Holder) -> Result<String, AllocError>
    ensures { IfOk result (λ text. string_bytes text ≡ spec.holder_text holder) }
{
    match holder {
        Holder::As(a) => a.to_string(alloc),
        Holder::Host(host) => host.to_string(alloc),
    }
}

/// The words of a reveal.
#[tactic(auto, unfolding(crate::specs::LedgerText::event_words))]
fn reveal_words(alloc: Global, step: u32, holder: Holder) -> Result<String, AllocError>
    ensures { IfOk result (λ words. string_bytes words ≡
        words_text (spec.event_words (variants.Reveal step holder))) }
{
    let holder = holder_text(alloc, holder)?;
    format!(in alloc; "reveal {step} {holder}")
}

/// The words of an event.
#[tactic(auto, unfolding(crate::specs::LedgerText::event_words))]
pub fn event_words(alloc: Global, event: &Event) -> Result<String, AllocError>
    ensures { IfOk result (λ words. string_bytes words ≡
        words_text (spec.event_words event.now)) }
{
    match event {
        Event::Issue {
            step,
            no,
            name,
            parent,
        } => issue_words(alloc, *step, *no, name, *parent),
        Event::Fetch {
            step,
            source,
            owner,
            epoch,
        } => format!(in alloc; "fetch {step} {source} {owner} {epoch}"),
        Event::Send {
            step,
            emission,
            segments,
        } => {
            let segments = numbers_text(alloc, segments)?;
            format!(in alloc; "send {step} {emission} {segments}")
        }
        Event::Pass {
            step,
            a,
            hop,
            generation,
            emission,
        } => pass_words(alloc, *step, *a, *hop, *generation, *emission),
        Event::Arrive {
            step,
            host,
            src,
            ts,
            hops,
            checked,
        } => arrive_words(alloc, *step, *host, *src, *ts, *hops, *checked),
        Event::Reveal { step, holder } => reveal_words(alloc, *step, *holder),
        Event::Roll {
            step,
            a,
            generation,
        } => format!(in alloc; "roll {step} {a} {generation}"),
    }
}
