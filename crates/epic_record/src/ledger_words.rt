//! What the words of a line of a ledger file tell, by its first word.

ghost use Rattle.std.specs.Prelude.{map};
ghost use Rattle.std.specs.List.{All};
ghost use Rattle.epic_text.specs.Script.{IsShort};
ghost use Rattle.epic_record.specs.LedgerLine.{accept_dest_of, accept_hop_of, accept_of, arrive_of, due_of, emit_of, fetch_of, issue_of, pass_of, reveal_of, roll_of, send_of, told_by, told_by_words, turn_of};
ghost use Rattle.epic_record.specs.Words.{IsLine};

use crate::Item;
use crate::fault::{FileKind, LineError};
use crate::word::{
    bad, read_as, read_body, read_bytes, read_holder, read_host, read_segments, read_source,
    read_u8, read_u16, read_u32, read_u64,
};
use epic_ledger::Event;
use epic_num::{HopName, Place};
use std::alloc::Global;

/// The words after `issue`: a step, the issue's number, a hop's AS, the generation of its key and its body, and the
/// number of the issue that it goes on from.
fn issue(arguments: &[&[u8]]) -> Result<Item, LineError>
    requires { All (λ word. IsShort word.now) arguments.now }
    ensures { IsLine (issue_of (map (λ word. word.now) arguments.now)) result }
{
    match arguments {
        [step, no, asn, generation, body, parent] => Ok(Item::Event(Event::Issue {
            step: read_u32(step, 2)?,
            no: read_u32(no, 3)?,
            name: HopName {
                asn: read_as(asn, 4)?,
                generation: read_u32(generation, 5)?,
                body: read_body(body, 6)?,
            },
            parent: read_u32(parent, 7)?,
        })),
        _ => Err(LineError::Refused(FileKind::WordCount)),
    }
}

/// The words after `fetch`: a step, two ASes and an epoch.
fn fetch(arguments: &[&[u8]]) -> Result<Item, LineError>
    requires { All (λ word. IsShort word.now) arguments.now }
    ensures { IsLine (fetch_of (map (λ word. word.now) arguments.now)) result }
{
    match arguments {
        [step, source, owner, epoch] => Ok(Item::Event(Event::Fetch {
            step: read_u32(step, 2)?,
            source: read_as(source, 3)?,
            owner: read_as(owner, 4)?,
            epoch: read_u64(epoch, 5)?,
        })),
        _ => Err(LineError::Refused(FileKind::WordCount)),
    }
}

/// The words after `send`: a step, an emission and the last issues of the path's segments.
fn send(alloc: Global, arguments: &[&[u8]]) -> Result<Item, LineError>
    requires { All (λ word. IsShort word.now) arguments.now }
    ensures { IsLine (send_of (map (λ word. word.now) arguments.now)) result }
{
    match arguments {
        [step, emission, segments] => Ok(Item::Event(Event::Send {
            step: read_u32(step, 2)?,
            emission: read_u32(emission, 3)?,
            segments: read_segments(alloc, segments, 4)?,
        })),
        _ => Err(LineError::Refused(FileKind::WordCount)),
    }
}

/// The words after `pass`: a step, an AS, a hop's index, the generation of its key, and the packet's emission.
fn pass(arguments: &[&[u8]]) -> Result<Item, LineError>
    requires { All (λ word. IsShort word.now) arguments.now }
    ensures { IsLine (pass_of (map (λ word. word.now) arguments.now)) result }
{
    match arguments {
        [step, asn, hop, generation, emission] => Ok(Item::Event(Event::Pass {
            step: read_u32(step, 2)?,
            a: read_as(asn, 3)?,
            hop: read_u8(hop, 4)?,
            generation: read_u32(generation, 5)?,
            emission: read_u32(emission, 6)?,
        })),
        _ => Err(LineError::Refused(FileKind::WordCount)),
    }
}

/// The words after `arrive`: a step, two hosts, a timestamp, the packet's number of hops, and whether its destination
/// field was checked.
fn arrive(arguments: &[&[u8]]) -> Result<Item, LineError>
    requires { All (λ word. IsShort word.now) arguments.now }
    ensures { IsLine (arrive_of (map (λ word. word.now) arguments.now)) result }
{
    match arguments {
        [step, host, src, ts, hops, checked] => {
            let step = read_u32(step, 2)?;
            let host = read_host(host, 3)?;
            let src = read_source(src, 4)?;
            let ts = read_u64(ts, 5)?;
            let hops = read_u8(hops, 6)?;
            let checked = read_u8(checked, 7)?;
            if checked > 1 {
                return Err(LineError::Refused(FileKind::BadPlace));
            }
            Ok(Item::Event(Event::Arrive {
                step,
                host,
                src,
                ts,
                hops,
                checked: checked == 1,
            }))
        }
        _ => Err(LineError::Refused(FileKind::WordCount)),
    }
}

/// The words after `reveal`: a step, and an AS or a host.
fn reveal(arguments: &[&[u8]]) -> Result<Item, LineError>
    requires { All (λ word. IsShort word.now) arguments.now }
    ensures { IsLine (reveal_of (map (λ word. word.now) arguments.now)) result }
{
    match arguments {
        [step, holder] => Ok(Item::Event(Event::Reveal {
            step: read_u32(step, 2)?,
            holder: read_holder(holder, 3)?,
        })),
        _ => Err(LineError::Refused(FileKind::WordCount)),
    }
}

/// The words after `roll`: a step, an AS and a generation.
fn roll(arguments: &[&[u8]]) -> Result<Item, LineError>
    requires { All (λ word. IsShort word.now) arguments.now }
    ensures { IsLine (roll_of (map (λ word. word.now) arguments.now)) result }
{
    match arguments {
        [step, asn, generation] => Ok(Item::Event(Event::Roll {
            step: read_u32(step, 2)?,
            a: read_as(asn, 3)?,
            generation: read_u32(generation, 4)?,
        })),
        _ => Err(LineError::Refused(FileKind::WordCount)),
    }
}

/// The words after `emit E turn`: an AS, an interface and bytes.
fn turn(alloc: Global, no: &[u8], arguments: &[&[u8]]) -> Result<Item, LineError>
    requires number { IsShort no.now }
    requires arguments { All (λ word. IsShort word.now) arguments.now }
    ensures { IsLine (turn_of no.now (map (λ word. word.now) arguments.now)) result }
{
    match arguments {
        [asn, iface, bytes] => Ok(Item::Emission {
            no: read_u32(no, 2)?,
            place: Place::Router {
                asn: read_as(asn, 4)?,
                iface: read_u16(iface, 5)?,
            },
            bytes: read_bytes(alloc, bytes, 6)?,
        }),
        _ => Err(LineError::Refused(FileKind::WordCount)),
    }
}

/// The words after `emit E arrive`: a host and bytes.
fn due(alloc: Global, no: &[u8], arguments: &[&[u8]]) -> Result<Item, LineError>
    requires number { IsShort no.now }
    requires arguments { All (λ word. IsShort word.now) arguments.now }
    ensures { IsLine (due_of no.now (map (λ word. word.now) arguments.now)) result }
{
    match arguments {
        [host, bytes] => Ok(Item::Emission {
            no: read_u32(no, 2)?,
            place: Place::Host(read_host(host, 4)?),
            bytes: read_bytes(alloc, bytes, 5)?,
        }),
        _ => Err(LineError::Refused(FileKind::WordCount)),
    }
}

/// The words after `emit`: the emission's number, and where it is due.
fn emit(alloc: Global, arguments: &[&[u8]]) -> Result<Item, LineError>
    requires { All (λ word. IsShort word.now) arguments.now }
    ensures { IsLine (emit_of (map (λ word. word.now) arguments.now)) result }
{
    match arguments {
        [no, place, more @ ..] => {
            if *place == b"turn".as_slice() {
                turn(alloc, no, more)
            } else if *place == b"arrive".as_slice() {
                due(alloc, no, more)
            } else {
                Err(bad(3))
            }
        }
        _ => Err(LineError::Refused(FileKind::WordCount)),
    }
}

/// The words after `accept hop`: an AS, the generation of its key, a hop's index and bytes.
fn accept_hop(alloc: Global, arguments: &[&[u8]]) -> Result<Item, LineError>
    requires { All (λ word. IsShort word.now) arguments.now }
    ensures { IsLine (accept_hop_of (map (λ word. word.now) arguments.now)) result }
{
    match arguments {
        [asn, generation, hop, bytes] => Ok(Item::AcceptHop {
            a: read_as(asn, 3)?,
            generation: read_u32(generation, 4)?,
            hop: read_u8(hop, 5)?,
            bytes: read_bytes(alloc, bytes, 6)?,
        }),
        _ => Err(LineError::Refused(FileKind::WordCount)),
    }
}

/// The words after `accept dest`: a host and bytes.
fn accept_dest(alloc: Global, arguments: &[&[u8]]) -> Result<Item, LineError>
    requires { All (λ word. IsShort word.now) arguments.now }
    ensures { IsLine (accept_dest_of (map (λ word. word.now) arguments.now)) result }
{
    match arguments {
        [host, bytes] => Ok(Item::AcceptDest {
            host: read_host(host, 3)?,
            bytes: read_bytes(alloc, bytes, 4)?,
        }),
        _ => Err(LineError::Refused(FileKind::WordCount)),
    }
}

/// The words after `accept`: what was accepted.
fn accept(alloc: Global, arguments: &[&[u8]]) -> Result<Item, LineError>
    requires { All (λ word. IsShort word.now) arguments.now }
    ensures { IsLine (accept_of (map (λ word. word.now) arguments.now)) result }
{
    match arguments {
        [] => Err(LineError::Refused(FileKind::WordCount)),
        [what, more @ ..] => {
            if *what == b"hop".as_slice() {
                accept_hop(alloc, more)
            } else if *what == b"dest".as_slice() {
                accept_dest(alloc, more)
            } else {
                Err(bad(2))
            }
        }
    }
}

/// What a line tells whose first word is `verb`.
fn item_by_verb(alloc: Global, verb: &[u8], arguments: &[&[u8]]) -> Result<Item, LineError>
    requires { All (λ word. IsShort word.now) arguments.now }
    ensures { IsLine (told_by verb.now (map (λ word. word.now) arguments.now)) result }
{
    if verb == b"issue".as_slice() {
        issue(arguments)
    } else if verb == b"fetch".as_slice() {
        fetch(arguments)
    } else if verb == b"send".as_slice() {
        send(alloc, arguments)
    } else if verb == b"pass".as_slice() {
        pass(arguments)
    } else if verb == b"arrive".as_slice() {
        arrive(arguments)
    } else if verb == b"reveal".as_slice() {
        reveal(arguments)
    } else if verb == b"roll".as_slice() {
        roll(arguments)
    } else if verb == b"emit".as_slice() {
        emit(alloc, arguments)
    } else if verb == b"accept".as_slice() {
        accept(alloc, arguments)
    } else {
        Err(LineError::Refused(FileKind::UnknownVerb))
    }
}

/// What the words of a line tell.
pub fn item_by_words(alloc: Global, words: &[&[u8]]) -> Result<Item, LineError>
    requires { All (λ word. IsShort word.now) words.now }
    ensures { IsLine (told_by_words (map (λ word. word.now) words.now)) result }
{
    match words {
        [] => Err(LineError::Refused(FileKind::UnknownVerb)),
        [verb, arguments @ ..] => item_by_verb(alloc, verb, arguments),
    }
}
