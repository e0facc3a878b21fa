//! A packet that is read and edited where its bytes lie.
ghost use Rattle.epic_view.specs.View.{IsView};

use crate::frame::{Frame, frame_of};
use crate::{PacketRef, editing};
use epic_layout::Shape;
use epic_layout::wire::{CURRENT_AT, DEST_LEN};
use epic_num::Field;

/// A packet that is read and edited where its bytes lie.
#[derive(Drop)]
pub struct PacketView<'a> {
    bytes: &'a mut [u8],
    frame: Frame,
    ghost view: { IsView bytes.now frame },
}

#[tactic(auto, using(epic_layout::proofs::Parsed::parsed), unfolding(epic_layout::specs::Layout::parse))]
impl<'a> PacketView<'a> {
    ghost use Rattle.std.specs.Prelude.{◌≡◌, ◌+◌, ◌<◌, ◌≤◌, Ok, None, slice_set, IsTrue};
    ghost use Rattle.epic_num.specs.Levels.{width_of, is_first_byte, is_tagged};
    ghost use Rattle.epic_layout.specs.Contents as contents;
    ghost use Rattle.epic_layout.specs.Contents.{hop_count, field_bytes};
    ghost use Rattle.epic_layout.specs.Layout as layout;
    ghost use Rattle.epic_layout.specs.Layout.{parse, fault};
    ghost use Rattle.epic_view.specs.Editing.{bytes_of, packet_of};
    ghost use Rattle.epic_layout.specs.Spelling.{spelling};

    /// The view of bytes that `check` found to have this shape. What was checked is not checked again; a view that came
    /// back in a `Result` would tell callers nothing of the bytes afterwards.
    #[tactic(auto, using(epic_layout::proofs::Soundness::checked))]
    pub fn of(bytes: &'a mut [u8], checked: Shape) -> PacketView<'a>
        requires { Ok checked ≡ layout.checked bytes.old }
        ensures same_reference { result.bytes.ghost_name ≡ bytes.entry.ghost_name }
        ensures bytes { bytes_of result ≡ bytes.old }
    {
        let frame = frame_of(bytes, checked);
        PacketView { bytes, frame }
    }

    /// The packet as it stands, to be read.
    pub fn as_ref(&self) -> PacketRef<'_>
        ensures { result ≡ packet_of self.now }
    {
        PacketRef::framed(self.bytes, self.frame)
    }

    /// Puts a field in the place of the hop's.
    pub fn set_field(&mut self, hop: u8, field: &Field)
        requires there { hop < hop_count (packet_of self.old) }
        requires width { field.now.width ≡ width_of (packet_of self.old).first }
        ensures same_reference { self.new.bytes.ghost_name ≡ self.old.bytes.ghost_name }
        ensures packet { packet_of self.new ≡ contents.with_field (packet_of self.old) hop (field_bytes field.now) }
        ensures spelled { bytes_of self.new ≡ spelling (packet_of self.new) }
        ensures faultless { fault is_first_byte (bytes_of self.new) ≡ None }
    {
        editing::set_field(self.bytes, self.frame, hop, field);
    }

    /// Puts a destination field in the place of the packet's, which has level 2 or 3.
    pub fn set_dest_field(&mut self, field: &[u8; DEST_LEN])
        requires { IsTrue (is_tagged (packet_of self.old).first) }
        ensures same_reference { self.new.bytes.ghost_name ≡ self.old.bytes.ghost_name }
        ensures packet { packet_of self.new ≡ contents.with_dest_field (packet_of self.old) field.now }
        ensures spelled { bytes_of self.new ≡ spelling (packet_of self.new) }
        ensures faultless { fault is_first_byte (bytes_of self.new) ≡ None }
    {
        editing::set_dest_field(self.bytes, self.frame, field);
    }

    /// Goes on by `n` hops.
    pub fn advance(&mut self, n: u8)
        requires { (packet_of self.old).current + n ≤ hop_count (packet_of self.old) }
        ensures same_reference { self.new.bytes.ghost_name ≡ self.old.bytes.ghost_name }
        ensures bytes { bytes_of self.new ≡ slice_set (bytes_of self.old) CURRENT_AT ((packet_of self.old).current + n) }
        ensures packet { packet_of self.new ≡ contents.advanced (packet_of self.old) n }
        ensures spelled { bytes_of self.new ≡ spelling (packet_of self.new) }
        ensures faultless { fault is_first_byte (bytes_of self.new) ≡ None }
    {
        editing::advance(self.bytes, self.frame, n);
    }
}
