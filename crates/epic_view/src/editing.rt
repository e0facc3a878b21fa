//! Edits of a packet's bytes.
ghost use Rattle.std.specs.Prelude.{◌≡◌, ◌+◌, ◌<◌, ◌≤◌, length, None, slice_set, IsTrue};
ghost use Rattle.epic_num.specs.Levels.{width_of, is_first_byte, is_tagged};
ghost use Rattle.epic_layout.specs.Pieces.{byte};
ghost use Rattle.epic_layout.specs.Contents.{IsBytes, with_field, with_dest_field, advanced};
ghost use Rattle.epic_layout.specs.Layout.{parse, fault, hops_in, field_offset, dest_offset};
ghost use Rattle.epic_layout.specs.Spelling.{spelling};
ghost use Rattle.epic_view.specs.View.{IsView};
ghost use Rattle.epic_layout.specs.Contents.{field_bytes};
ghost use Rattle.epic_view.specs.Pieces.{with_piece};

use crate::frame::{Frame, hop_at};
use crate::reading::are_bytes;
use epic_layout::wire::{CURRENT_AT, DEST_LEN, HOP_LEN};
use epic_num::Field;

/// Writes `part` from `at` on.
#[tactic(auto, unfolding(crate::specs::Pieces::with_piece))]
fn put(bytes: &mut [u8], at: usize, part: &[u8])
    requires { at + length part.now ≤ length bytes.old }
    ensures replaced { bytes.new ≡ with_piece bytes.old at part.now }
    ensures fits { IsBytes bytes.new }
{
    bytes[at..at + part.len()].copy_from_slice(part);
    are_bytes(bytes);
}

/// Puts a field in the place of the hop's.
#[tactic(auto, using(epic_layout::proofs::Offsets::width_most))]
pub fn set_field(bytes: &mut [u8], frame: Frame, hop: u8, field: &Field)
    requires view { IsView bytes.old frame }
    requires there { hop < hops_in bytes.old }
    requires width { field.now.width ≡ width_of (byte bytes.old 0) }
    ensures view { IsView bytes.new frame }
    ensures bytes { bytes.new ≡ with_piece bytes.old (field_offset bytes.old hop) (field_bytes field.now) }
    ensures packet { parse bytes.new ≡ with_field (parse bytes.old) hop (field_bytes field.now) }
    ensures spelled { bytes.new ≡ spelling (parse bytes.new) }
    ensures faultless { fault is_first_byte bytes.new ≡ None }
{
    let at = hop_at(bytes, frame, hop) + HOP_LEN;
    put(bytes, at, &field.bytes[..field.width as usize]);
}

/// Puts a destination field in the place of the packet's, which has level 2 or 3.
#[tactic(auto, using(epic_layout::proofs::Fields::dest_fields))]
pub fn set_dest_field(bytes: &mut [u8], frame: Frame, field: &[u8; DEST_LEN])
    requires view { IsView bytes.old frame }
    requires tagged { IsTrue (is_tagged (byte bytes.old 0)) }
    ensures view { IsView bytes.new frame }
    ensures bytes { bytes.new ≡ with_piece bytes.old (dest_offset bytes.old) field.now }
    ensures packet { parse bytes.new ≡ with_dest_field (parse bytes.old) field.now }
    ensures spelled { bytes.new ≡ spelling (parse bytes.new) }
    ensures faultless { fault is_first_byte bytes.new ≡ None }
{
    put(bytes, frame.shape.header as usize - DEST_LEN, field);
}

/// Goes on by `n` hops.
pub fn advance(bytes: &mut [u8], frame: Frame, n: u8)
    requires view { IsView bytes.old frame }
    requires there { byte bytes.old CURRENT_AT + n ≤ hops_in bytes.old }
    ensures view { IsView bytes.new frame }
    ensures bytes { bytes.new ≡ slice_set bytes.old CURRENT_AT (byte bytes.old CURRENT_AT + n) }
    ensures packet { parse bytes.new ≡ advanced (parse bytes.old) n }
    ensures spelled { bytes.new ≡ spelling (parse bytes.new) }
    ensures faultless { fault is_first_byte bytes.new ≡ None }
{
    bytes[CURRENT_AT] += n;
    are_bytes(bytes);
}
