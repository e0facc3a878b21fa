//! The words of verdicts, and their lines.

ghost use Rattle.std.specs.Prelude.{◌≡◌, ◌∷◌, ◌++◌, codes, decimal, IfOk, IsTrue};
ghost use Rattle.std.specs.String.{string_bytes};
ghost use Rattle.hex.specs.Hex.{encode_lower};
ghost use Rattle.epic_topo.specs.Network.{has};
ghost use Rattle.epic_audit.specs.ForgedText.{words_text};
ghost use Rattle.epic_text.specs.Line.{Prints};
ghost use Rattle.epic_text.specs.Report.{dest_line, hop_line};
ghost use Rattle.epic_text.specs.VerdictText as spec;
ghost use Rattle.epic_text.specs.VerdictText.{IsTellable};

use crate::line::{allocated, append, print_line};
use epic_audit::forged_text;
use epic_fields::{link, sigma};
use epic_num::{Collision, HopName, OutOfMemory, Part, Verdict};
use epic_topo::Topology;
use epic_view::PacketRef;
use itoa::Buffer;
use std::alloc::{AllocError, Global};

/// What is proved of an acceptance.
fn proved_words(alloc: Global, issue: u32, send: u32) -> Result<String, AllocError>
    ensures { IfOk result (λ words. string_bytes words ≡
        words_text (spec.proved_words issue send)) }
{
    if issue == 0 {
        format!(in alloc; "proved {send}")
    } else if send == 0 {
        format!(in alloc; "proved {issue}")
    } else {
        format!(in alloc; "proved {issue} {send}")
    }
}

/// The AS of a hop, the generation of its key, and the hop's body.
#[tactic(auto, unfolding(crate::specs::VerdictText::hop_text))]
fn hop_text(alloc: Global, name: &HopName) -> Result<String, AllocError>
    ensures { IfOk result (λ text. string_bytes text ≡ spec.hop_text name.now) }
{
    let asn = name.asn;
    let generation = name.generation;
    let body = hex::encode(alloc, name.body.to_bytes().as_slice())?;
    format!(in alloc; "{asn} {generation} {body}")
}

/// The tag that both hops of a collision have.
#[tactic(auto, unfolding(crate::specs::VerdictText::common_tag))]
fn common_tag(
    alloc: Global,
    topo: &Topology,
    part: Part,
    name: &HopName,
) -> Result<String, AllocError>
    requires { IsTrue (has topo.now name.now.asn) }
    ensures { IfOk result (λ text. string_bytes text ≡
        encode_lower (spec.common_tag topo.now part name.now)) }
{
    match part {
        Part::Link => hex::encode(alloc, link(topo, name).as_slice()),
        Part::Sigma => hex::encode(alloc, sigma(topo, name).as_slice()),
    }
}

/// The word for the tag that two hops have in common.
fn part_word(part: Part) -> &'static str
    ensures { result.now ≡ spec.part_word part }
{
    match part {
        Part::Link => "link",
        Part::Sigma => "sigma",
    }
}

/// Two hops with one tag.
fn collided_words(
    alloc: Global,
    topo: &Topology,
    collision: &Collision,
) -> Result<String, AllocError>
    requires { IsTrue (has topo.now collision.now.left.asn) }
    ensures { IfOk result (λ words. string_bytes words ≡
        words_text (spec.collided_words topo.now collision.now)) }
{
    let part = part_word(collision.part);
    let left = hop_text(alloc, &collision.left)?;
    let right = hop_text(alloc, &collision.right)?;
    let tag = common_tag(alloc, topo, collision.part, &collision.left)?;
    format!(in alloc; "collided {part} {left} {right} {tag}")
}

/// Appends the words of a verdict on an acceptance of `packet`, as it came in. On an error `to` is as it was.
#[tactic(auto, unfolding(crate::specs::VerdictText::verdict_words, epic_audit::specs::ForgedText::forged_text))]
pub fn print_verdict(
    to: &mut Vec<u8>,
    topo: &Topology,
    packet: &PacketRef<'_>,
    verdict: &Verdict,
) -> Result<(), OutOfMemory>
    requires { IsTellable topo.now packet.now verdict.now }
    ensures { Prints to.old.items to.new.items
        (words_text (spec.verdict_words topo.now packet.now verdict.now))
        result }
{
    let alloc = *to.allocator();
    match verdict {
        Verdict::Proved { issue, send } => {
            let words = allocated(proved_words(alloc, *issue, *send))?;
            append(to, words.as_bytes())
        }
        Verdict::Unclaimed => append(to, b"unclaimed"),
        Verdict::Opened { step } => {
            let words = allocated(format!(in alloc; "opened {step}"))?;
            append(to, words.as_bytes())
        }
        Verdict::Forged(forgery) => forged_text(to, topo, packet, forgery),
        Verdict::Collided(collision) => {
            let words = allocated(collided_words(alloc, topo, collision))?;
            append(to, words.as_bytes())
        }
    }
}

/// The words before the verdict on a hop, with room for those of most verdicts.
fn hop_words(alloc: Global, hop: usize) -> Result<Vec<u8>, OutOfMemory>
    ensures { IfOk result (λ words. words.items ≡ codes "hop " ++ (decimal hop ++ codes " ")) }
{
    let mut buffer = Buffer::new();
    let mut words = allocated(Vec::with_capacity(alloc, 64))?;
    append(&mut words, b"hop ")?;
    append(&mut words, buffer.format(hop).as_bytes())?;
    append(&mut words, b" ")?;
    Ok(words)
}

/// Appends the line of a hop that a router handled, by its index in the packet, from 0. `packet` is as it came in. On an
/// error `to` is as it was.
#[tactic(auto, using(crate::proofs::VerdictLemmas::hop_front))]
pub fn print_hop(
    to: &mut Vec<u8>,
    step: u32,
    topo: &Topology,
    packet: &PacketRef<'_>,
    hop: usize,
    verdict: &Verdict,
) -> Result<(), OutOfMemory>
    requires { IsTellable topo.now packet.now verdict.now }
    ensures { Prints to.old.items to.new.items
        (hop_line topo.now step packet.now hop verdict.now)
        result }
{
    let mut words = hop_words(*to.allocator(), hop)?;
    print_verdict(&mut words, topo, packet, verdict)?;
    print_line(to, step, &words)
}

/// Appends the line of a destination. `packet` is as it came in. On an error `to` is as it was.
#[tactic(auto, using(crate::proofs::VerdictLemmas::dest_front))]
pub fn print_dest(
    to: &mut Vec<u8>,
    step: u32,
    topo: &Topology,
    packet: &PacketRef<'_>,
    verdict: &Verdict,
) -> Result<(), OutOfMemory>
    requires { IsTellable topo.now packet.now verdict.now }
    ensures { Prints to.old.items to.new.items
        (dest_line topo.now step packet.now verdict.now)
        result }
{
    let mut words = allocated(Vec::from_slice(*to.allocator(), b"dest "))?;
    print_verdict(&mut words, topo, packet, verdict)?;
    print_line(to, step, &words)
}

#[cfg(test)]
mod tests;
