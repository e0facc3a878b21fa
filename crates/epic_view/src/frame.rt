//! The sizes of a packet, and where its hops lie.
ghost use Rattle.std.specs.Prelude.{◌≡◌, ◌<◌, ◌+◌, ◌≤◌, length};
ghost use Rattle.epic_layout.specs.Contents.{shape};
ghost use Rattle.epic_layout.specs.Layout.{parse, hops_in, hop_len, hop_offset};
ghost use Rattle.epic_layout.specs.Sound.{IsSound};
ghost use Rattle.epic_view.specs.View.{IsView};

use epic_layout::Shape;
use epic_layout::wire::{SEGMENTS_AT, row_len, segment_start};

/// The sizes of a packet, and where its parts lie, computed once.
#[derive(Clone, Copy)]
pub struct Frame {
    pub shape: Shape,
    /// Where the first hop begins.
    pub hops_at: usize,
    /// How many bytes a hop takes.
    pub hop_len: usize,
}

/// The frame of a packet's bytes, whose shape was checked.
#[tactic(auto, using(epic_layout::proofs::Shapes::shape_sizes))]
pub fn frame_of(bytes: &[u8], checked: Shape) -> Frame
    requires sound { IsSound bytes.now }
    requires shape { checked ≡ shape (parse bytes.now) }
    ensures { IsView bytes.now result }
{
    Frame {
        shape: checked,
        hops_at: segment_start(bytes[SEGMENTS_AT]),
        hop_len: row_len(bytes[0]),
    }
}

/// Where the hop begins.
#[tactic(auto, using(epic_layout::proofs::Offsets::hop_there, epic_layout::proofs::Offsets::width_most), unfolding(epic_layout::specs::Layout::hop_offset))]
pub fn hop_at(bytes: &[u8], frame: Frame, hop: u8) -> usize
    requires view { IsView bytes.now frame }
    requires there { hop < hops_in bytes.now }
    ensures offset { result ≡ hop_offset bytes.now hop }
    ensures within { result + hop_len bytes.now ≤ length bytes.now }
{
    frame.hops_at + frame.hop_len * hop as usize
}
