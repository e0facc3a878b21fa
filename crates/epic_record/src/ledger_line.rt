//! The lines of a ledger file.

ghost use Rattle.std.specs.Prelude.{◌≡◌, ◌∷◌, [], codes, decimal, IfOk};
ghost use Rattle.std.specs.String.{string_bytes};
ghost use Rattle.epic_num.specs.declared.passed.Place.TheVariants.{Host, Router};
ghost use Rattle.epic_num.specs.Names.{as_text};
ghost use Rattle.epic_audit.specs.ForgedText.{words_text};
ghost use Rattle.epic_text.specs.Line.{Prints};
ghost use Rattle.epic_record.specs.declared.item.Item.TheVariants as items;
ghost use Rattle.epic_record.specs.LedgerText.{item_line};

use crate::Item;
use crate::event_words::event_words;
use crate::line::{allocated, print_words};
use crate::packet_line::print_packet_line;
use epic_ledger::Event;
use epic_num::{AsId, HostId, OutOfMemory, Place};
use std::alloc::{AllocError, Global};

/// Appends the line of an event. On an error `to` is as it was.
#[tactic(auto, unfolding(crate::specs::LedgerText::item_line))]
pub fn print_event(to: &mut Vec<u8>, event: &Event) -> Result<(), OutOfMemory>
    ensures { Prints to.old.items to.new.items (item_line (items.Event event.now)) result }
{
    let words = allocated(event_words(*to.allocator(), event))?;
    print_words(to, words)
}

/// The words before the bytes of an emission that is due at a router.
fn turn_words(alloc: Global, no: u32, a: AsId, iface: u16) -> Result<String, AllocError>
    ensures { IfOk result (λ words. string_bytes words ≡
        words_text (codes "emit" ∷ decimal no ∷ codes "turn" ∷ as_text a.0 ∷ decimal iface ∷ [])) }
{
    format!(in alloc; "emit {no} turn {a} {iface}")
}

/// Appends the line of an emission that is due at a router. On an error `to` is as it was.
#[tactic(auto, using(crate::proofs::LineEnds::turn_line))]
fn print_turn(
    to: &mut Vec<u8>,
    no: u32,
    a: AsId,
    iface: u16,
    bytes: &[u8],
) -> Result<(), OutOfMemory>
    ensures { Prints to.old.items to.new.items
        (item_line (items.Emission no (Router a iface) bytes.now))
        result }
{
    let words = allocated(turn_words(*to.allocator(), no, a, iface))?;
    print_packet_line(to, words.as_bytes(), bytes)
}

/// Appends the line of an emission that is due at a host. On an error `to` is as it was.
#[tactic(auto, using(crate::proofs::LineEnds::arrive_line))]
fn print_arrive(to: &mut Vec<u8>, no: u32, host: HostId, bytes: &[u8]) -> Result<(), OutOfMemory>
    ensures { Prints to.old.items to.new.items (item_line (items.Emission no (Host host) bytes.now)) result }
{
    let words = allocated(format!(in *to.allocator(); "emit {no} arrive {host}"))?;
    print_packet_line(to, words.as_bytes(), bytes)
}

/// Appends the line of an emission: its number, from 1, the place where it is due, and its bytes.
///
/// On an error `to` is as it was.
pub fn print_emission(
    to: &mut Vec<u8>,
    no: u32,
    place: &Place,
    bytes: &[u8],
) -> Result<(), OutOfMemory>
    ensures { Prints to.old.items to.new.items (item_line (items.Emission no place.now bytes.now)) result }
{
    match place {
        Place::Router { asn, iface } => print_turn(to, no, *asn, *iface, bytes),
        Place::Host(host) => print_arrive(to, no, *host, bytes),
    }
}

/// The words before the bytes of a packet whose hop was accepted.
fn hop_words(alloc: Global, a: AsId, generation: u32, hop: usize) -> Result<String, AllocError>
    ensures { IfOk result (λ words. string_bytes words ≡
        words_text (codes "accept" ∷ codes "hop" ∷ as_text a.0 ∷ decimal generation ∷ decimal hop ∷ [])) }
{
    format!(in alloc; "accept hop {a} {generation} {hop}")
}

/// Appends the line of a hop that the router of an AS accepted.
#[tactic(auto, using(crate::proofs::LineEnds::hop_line))]
pub(crate) fn print_accept(
    to: &mut Vec<u8>,
    a: AsId,
    generation: u32,
    hop: usize,
    bytes: &[u8],
) -> Result<(), OutOfMemory>
    ensures { Prints to.old.items to.new.items
        (item_line (items.AcceptHop a generation hop bytes.now))
        result }
{
    let words = allocated(hop_words(*to.allocator(), a, generation, hop))?;
    print_packet_line(to, words.as_bytes(), bytes)
}

/// Appends the line of a hop that the router of an AS accepted, by its index in the packet, from 0, under a generation of
/// the AS's key. `bytes` are the packet's as it came in. On an error `to` is as it was.
pub fn print_accept_hop(
    to: &mut Vec<u8>,
    a: AsId,
    generation: u32,
    hop: u8,
    bytes: &[u8],
) -> Result<(), OutOfMemory>
    ensures { Prints to.old.items to.new.items
        (item_line (items.AcceptHop a generation hop bytes.now))
        result }
{
    print_accept(to, a, generation, usize::from(hop), bytes)
}

/// Appends the line of a packet that a destination took. `bytes` are the packet's as it came in. On an error `to` is as
/// it was.
#[tactic(auto, using(crate::proofs::LineEnds::dest_line))]
pub fn print_accept_dest(to: &mut Vec<u8>, host: HostId, bytes: &[u8]) -> Result<(), OutOfMemory>
    ensures { Prints to.old.items to.new.items (item_line (items.AcceptDest host bytes.now)) result }
{
    let words = allocated(format!(in *to.allocator(); "accept dest {host}"))?;
    print_packet_line(to, words.as_bytes(), bytes)
}

/// Appends the line of an item. On an error `to` is as it was.
pub fn print_item(to: &mut Vec<u8>, item: &Item) -> Result<(), OutOfMemory>
    ensures { Prints to.old.items to.new.items (item_line item.now) result }
{
    match item {
        Item::Event(event) => print_event(to, event),
        Item::Emission { no, place, bytes } => print_emission(to, *no, place, bytes.as_slice()),
        Item::AcceptHop {
            a,
            generation,
            hop,
            bytes,
        } => print_accept_hop(to, *a, *generation, *hop, bytes.as_slice()),
        Item::AcceptDest { host, bytes } => print_accept_dest(to, *host, bytes.as_slice()),
    }
}
