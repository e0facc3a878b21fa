//! What the destination field of a packet is made over, laid out on the heap.

ghost use Rattle.std.specs.Prelude.{◌≡◌, ◌++◌, ◌<◌, take, IfOk, IsTrue, OnOk};
ghost use Rattle.std.specs.List.{concat, flat_map};
ghost use Rattle.epic_num.specs.Levels.{is_tagged};
ghost use Rattle.epic_layout.specs.Contents.{field, hop_count};
ghost use Rattle.epic_layout.specs.Spelling as spelling;
ghost use Rattle.epic_layout.specs.Spelling.{hop_bytes, path_bytes, segment_bytes};
ghost use Rattle.epic_layout.specs.Updates.{own_updates};

use epic_fields::dest_domain;
use epic_num::Level;
use epic_view::PacketRef;
use std::alloc::{AllocError, Global};

/// What the destination field of a packet of level 2 or 3 is made over, with the updates that stand in the packet.
#[tactic(auto, unfolding(epic_layout::specs::Spelling::dest_message, epic_layout::specs::Contents::shape, epic_num::specs::Messages::host_bytes, epic_num::specs::BigEndian::u16_bytes, epic_num::specs::BigEndian::u32_bytes, epic_num::specs::BigEndian::u64_bytes))]
pub fn dest_message(alloc: Global, packet: &PacketRef<'_>) -> Result<Vec<u8>, AllocError>
    requires { IsTrue (is_tagged packet.now.first) }
    ensures { IfOk result (λ v. v.items ≡
        spelling.dest_message packet.now (own_updates packet.now)) }
{
    let path = path_bytes(alloc, packet)?;
    let updates = own_updates(alloc, packet)?;
    joined(
        alloc,
        &[
            &[dest_domain(packet.first_byte())],
            &packet.ts().to_be_bytes(),
            &packet.src().asn.0.to_be_bytes(),
            &packet.src().host.to_be_bytes(),
            &packet.dst().asn.0.to_be_bytes(),
            &packet.dst().host.to_be_bytes(),
            &path,
            &updates,
            &packet.shape().payload.to_be_bytes(),
            packet.payload(),
        ],
    )
}

/// The parts one after the other.
fn joined(alloc: Global, parts: &[&[u8]]) -> Result<Vec<u8>, AllocError>
    ensures { IfOk result (λ v. v.items ≡ flat_map (λ part. part.now) parts.now) }
{
    let mut bytes = Vec::new(alloc);
    for part in parts {
        bytes.extend_from_slice(part)?;
    }
    Ok(bytes)
}

/// The path bytes: the number of segments, their headers, and the hops without their fields.
#[tactic(auto, unfolding(epic_layout::specs::Spelling::path_bytes, epic_layout::specs::Contents::shape))]
fn path_bytes(alloc: Global, packet: &PacketRef<'_>) -> Result<Vec<u8>, AllocError>
    ensures { IfOk result (λ v. v.items ≡ path_bytes packet.now.route) }
{
    let heads = segment_heads(alloc, packet)?;
    let hops = hop_heads(alloc, packet)?;
    joined(alloc, &[&[packet.shape().segments], &heads, &hops])
}

/// The headers of the segments.
fn segment_heads(alloc: Global, packet: &PacketRef<'_>) -> Result<Vec<u8>, AllocError>
    ensures { IfOk result (λ v. v.items ≡ flat_map segment_bytes packet.now.route.segments) }
{
    let count = packet.shape().segments;
    let mut bytes = Vec::new(alloc);
    for i in 0..count {
        bytes.extend_from_slice(&packet.segment_head(i))?;
    }
    Ok(bytes)
}

/// The hops without their fields.
#[tactic(auto, unfolding(epic_layout::specs::Route::hop))]
fn hop_heads(alloc: Global, packet: &PacketRef<'_>) -> Result<Vec<u8>, AllocError>
    ensures { IfOk result (λ v. v.items ≡ flat_map hop_bytes packet.now.route.hops) }
{
    let count = packet.shape().hops;
    let mut bytes = Vec::new(alloc);
    for j in 0..count {
        bytes.extend_from_slice(&packet.hop_head(j))?;
    }
    Ok(bytes)
}

/// The updates that stand in the packet: each hop's field at level 3, and none at other levels.
#[tactic(auto, unfolding(epic_layout::specs::Updates::own_updates, epic_layout::specs::Spelling::update_count, epic_num::specs::Levels::level_number, epic_layout::specs::Contents::shape))]
fn own_updates(alloc: Global, packet: &PacketRef<'_>) -> Result<Vec<u8>, AllocError>
    ensures { IfOk result (λ v. v.items ≡ concat (own_updates packet.now)) }
{
    match packet.shape().level {
        Level::L3 => fields(alloc, packet),
        _ => Ok(Vec::new(alloc)),
    }
}

/// The fields of all hops.
#[tactic(auto, using(crate::proofs::FieldBytes::take_field), unfolding(epic_layout::specs::Contents::field))]
fn fields(alloc: Global, packet: &PacketRef<'_>) -> Result<Vec<u8>, AllocError>
    ensures { IfOk result (λ v. v.items ≡
        concat (take (hop_count packet.now) packet.now.fields)) }
{
    let count = packet.shape().hops;
    let mut bytes = Vec::new(alloc);
    for j in 0..count {
        append_field(&mut bytes, packet, j)?;
    }
    Ok(bytes)
}

/// Appends the field of a hop.
pub fn append_field(to: &mut Vec<u8>, packet: &PacketRef<'_>, hop: u8) -> Result<(), AllocError>
    requires { hop < hop_count packet.now }
    ensures { OnOk result (to.new.items ≡ to.old.items ++ field packet.now hop) }
{
    let field = packet.field(hop);
    to.extend_from_slice(&field.bytes[..field.width as usize])?;
    Ok(())
}
