//! The packets under way, in one row of bytes.
ghost use Rattle.std.specs.Prelude.{◌≡◌, ◌+◌, ◌^◌, ◌<◌, ◌≤◌, [], ◌∷◌, ◌++◌, None, length, take, drop, slice_get, option_map, IsSome, IfSome, IsOk, OnOk};
ghost use Rattle.std.specs.Option.{option_map_or};
ghost use Rattle.epic_num.specs.Levels.{is_first_byte};
ghost use Rattle.epic_layout.specs.Layout.{fault, parse};
ghost use Rattle.epic_ledger.specs.History.{Emission, emission_at, emitted};

use crate::limits::{MAX_BYTES, MAX_EMISSIONS};
use crate::packet::packet_in;
use epic_num::Place;
use epic_view::PacketRef;
use std::alloc::{AllocError, Global};
use std::marker::Model;

/// Where a packet is due, and where its bytes lie.
#[derive(Clone, Copy)]
pub struct Span {
    pub place: Place,
    pub start: u32,
    pub len: u32,
}

/// The span at an index, from 0.
fn span_at(spans: &[Span], index: usize) -> Option<Span>
    ensures { result ≡ slice_get spans.now index }
{
    spans.get(index).copied()
}

/// The bytes of a row at a span.
fn bytes_in(row: &[u8], span: Span) -> &[u8]
    requires { span.start + span.len ≤ length row.now }
    ensures { result.now ≡ take span.len (drop span.start row.now) }
{
    let start = span.start as usize;
    &row[start..start + span.len as usize]
}

/// Packets with their places, numbered from 1. Their bytes lie in one row.
#[derive(Drop)]
pub struct Emissions {
    spans: Vec<Span>,
    row: Vec<u8>,
}

impl Model for Emissions {
    ghost use Rattle.epic_ledger.specs.Parts.{Row};
    ghost use Rattle.std.specs.Prelude.{length, vec_capacity};

    ghost Value = { Row };

    ghost use Rattle.epic_ledger.specs.Rows.{emissions_in, room, IsRow};
    ghost use Rattle.epic_ledger.specs.declared.limits.TheConstants.{MAX_EMISSIONS, MAX_BYTES};

    ghost view = { λ e. record { emissions = emissions_in e.row.items e.spans.items; spare = room (vec_capacity e.spans) MAX_EMISSIONS (length e.spans.items); byte_spare = room (vec_capacity e.row) MAX_BYTES (length e.row.items) } };

    ghost invariant = { λ e. IsRow e.row.items e.spans.items };
}

impl Emissions {
    pub fn new(alloc: Global) -> Emissions
        ensures { result.emissions ≡ [] }
    {
        Emissions {
            spans: Vec::new(alloc),
            row: Vec::new(alloc),
        }
    }

    /// How many there are.
    pub fn len(&self) -> u32
        ensures { result ≡ length self.now.emissions }
    {
        self.spans.len() as u32
    }

    /// How many bytes they have in all.
    pub fn total(&self) -> u64
        ensures { result ≡ emitted self.now.emissions }
    {
        self.row.len() as u64
    }

    pub fn spare(&self) -> u32
        ensures { result ≡ self.now.spare }
    {
        (self.spans.capacity().min(MAX_EMISSIONS) - self.spans.len()) as u32
    }

    pub fn byte_spare(&self) -> u64
        ensures { result ≡ self.now.byte_spare }
    {
        (self.row.capacity().min(MAX_BYTES) - self.row.len()) as u64
    }

    /// Makes room for so many more emissions with so many bytes in all.
    pub fn reserve(&mut self, emissions: u32, bytes: u64) -> Result<(), AllocError>
        requires few { length self.old.emissions + emissions < 2 ^ 31 }
        requires few_bytes { emitted self.old.emissions + bytes < 2 ^ 30 }
        ensures emissions { self.new.emissions ≡ self.old.emissions }
        ensures spare { OnOk result (emissions ≤ self.new.spare) }
        ensures byte_spare { OnOk result (bytes ≤ self.new.byte_spare) }
        ensures succeeds { emissions ≤ self.old.spare → bytes ≤ self.old.byte_spare → IsOk result }
        ensures kept { self.old.spare ≤ self.new.spare }
        ensures bytes_kept { self.old.byte_spare ≤ self.new.byte_spare }
    {
        self.spans.reserve(emissions as usize)?;
        self.row.reserve(bytes as usize)?;
        Ok(())
    }

    /// Adds a packet, and answers its number.
    pub fn push(&mut self, place: Place, bytes: &[u8]) -> u32
        requires room { 1 ≤ self.old.spare }
        requires byte_room { length bytes.now ≤ self.old.byte_spare }
        requires faultless { fault is_first_byte bytes.now ≡ None }
        ensures emissions { self.new.emissions ≡ self.old.emissions ++ record { place = place; bytes = bytes.now } ∷ [] }
        ensures number { result ≡ length self.new.emissions }
        ensures spare { self.old.spare ≤ self.new.spare + 1 }
        ensures byte_spare { self.old.byte_spare ≤ self.new.byte_spare + length bytes.now }
    {
        let start = self.row.len() as u32;
        self.spans.push_reserved(Span {
            place,
            start,
            len: bytes.len() as u32,
        });
        let Ok(()) = self.row.extend_from_slice(bytes) else {
            unreachable!()
        };
        self.spans.len() as u32
    }

    /// The place and the bytes of an emission.
    #[tactic(auto, using(std::proofs::lemmas::Option::gets), unfolding(crate::specs::History::emission_at, crate::specs::Rows::emission_in))]
    pub fn get(&self, number: u32) -> Option<(Place, &[u8])>
        ensures value { option_map {U = Emission} (λ e. record { place = e.0; bytes = e.1.now }) result ≡ emission_at self.now.emissions number }
        ensures faultless { IfSome result (λ e. fault is_first_byte e.1.now ≡ None) }
    {
        if number == 0 {
            return None;
        }
        match span_at(self.spans.as_slice(), number as usize - 1) {
            Some(span) => Some((span.place, bytes_in(self.row.as_slice(), span))),
            None => None,
        }
    }

    /// The packet of an emission.
    pub fn packet(&self, number: u32) -> Option<PacketRef<'_>>
        ensures { result ≡ option_map (λ e. parse e.bytes) (emission_at self.now.emissions number) }
    {
        match self.get(number) {
            Some((_, bytes)) => Some(packet_in(bytes)),
            None => None,
        }
    }

    /// The bytes of an emission that is there.
    pub fn bytes_of(&self, number: u32) -> &[u8]
        requires { IsSome (emission_at self.now.emissions number) }
        ensures bytes { result.now ≡ option_map_or (λ e. e.bytes) (emission_at self.now.emissions number) [] }
        ensures faultless { fault is_first_byte result.now ≡ None }
    {
        match self.get(number) {
            Some((_, bytes)) => bytes,
            None => unreachable!(),
        }
    }
}
