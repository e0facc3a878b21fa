//! The tags of a packet's hops, under the keys that a router keeps ready.
ghost use Rattle.std.specs.Prelude.{◌≡◌, ◌<◌, ℕ, List, IfOk, IsTrue};
ghost use Rattle.std.specs.Result.{result_err};
ghost use Rattle.epic_fields.specs.PacketTags.{field_over, update_over};
ghost use Rattle.epic_keys.specs.Keys.{master_key};
ghost use Rattle.epic_layout.specs.Contents.{as_field, hop_count};
ghost use Rattle.epic_num.specs.Levels.{is_tagged, width_of};
ghost use Rattle.epic_num.specs.Tables.{first_row};
ghost use Rattle.epic_router.specs.Acceptance.{IsAccepting, failing};
ghost use Rattle.epic_router.specs.Candidates.{candidates_of, field_fits, tags_fit};
ghost use Rattle.epic_router.specs.Checks.{tag_rows};
ghost use Rattle.epic_router.specs.Passing.{HasWidth, IsUpdate};
ghost use Rattle.epic_router.specs.Ready.{IsReady};

use crate::accepted::Accepted;
use crate::ready::ForwardingKey;
use epic_cmac::CmacKey;
use epic_fields::{
    carries_field, carries_link, field_part, tag_over_by, untagged_field, update_part,
};
use epic_num::{AsId, Check, Field, is_tagged};
use epic_topo::Topology;
use epic_view::PacketRef;

/// A packet at a router, with the keys that its tags are checked by.
#[derive(Drop)]
pub struct Visit<'a, 'p> {
    pub topo: &'a Topology,
    pub a: AsId,
    pub packet: &'a PacketRef<'p>,
    /// The present moment, in microseconds.
    pub moment: u64,
    /// The forwarding keys of the present generation and of the one before it.
    pub present: &'a ForwardingKey,
    pub previous: &'a ForwardingKey,
    /// The key that the AS shares with the packet's source, at levels 2 and 3, made ready.
    pub shared: &'a CmacKey,
    pub ghost ready: { IsReady topo.now a packet.now present.now previous.now shared.now },
}

/// The field that a hop has, and at levels 2 and 3 the update that may take its place.
#[derive(Clone, Copy)]
struct HopTags {
    field: Field,
    update: Field,
}

/// What is right of a hop's tags under one generation: its field, and besides its field the link tag that the next hop
/// carries; and the update that takes the field's place at level 3.
#[derive(Clone, Copy)]
struct Fit {
    field: bool,
    both: bool,
    update: Field,
}

/// A hop's field and update, over its authenticator and the key that its AS shares with the packet's source.
fn hop_tags(sigma: &[u8; 16], shared: &CmacKey, packet: &PacketRef<'_>, j: u8) -> HopTags
    ensures field { (key : List ℕ) → (IsTrue (is_tagged packet.now.first) → shared.now ≡ key) → result.field ≡ as_field (field_over key sigma.now packet.now j) }
    ensures update { IsTrue (is_tagged packet.now.first) → result.update ≡ as_field (update_over shared.now sigma.now packet.now j) }
    ensures field_width { result.field.width ≡ width_of packet.now.first }
    ensures update_width { result.update.width ≡ width_of packet.now.first }
{
    let first = packet.first_byte();
    if is_tagged(first) {
        let tag = tag_over_by(shared, sigma, packet, j);
        HopTags {
            field: field_part(first, &tag),
            update: update_part(first, &tag),
        }
    } else {
        let field = untagged_field(sigma, packet, j);
        HopTags {
            field,
            update: field,
        }
    }
}

impl Visit<'_, '_> {
    /// Tries hop `j` under one forwarding key of the AS.
    fn fit(&self, key: &ForwardingKey, j: u8) -> Fit
        requires master { key.now.master ≡ master_key self.now.topo.now self.now.a }
        requires there { j < hop_count self.now.packet.now }
        ensures field { result.field ≡ field_fits self.now.topo.now self.now.a self.now.packet.now j key.now.number }
        ensures both { result.both ≡ tags_fit self.now.topo.now self.now.a self.now.packet.now j key.now.number }
        ensures update { IsUpdate self.now.topo.now self.now.a key.now.number self.now.packet.now j result.update }
        ensures width { HasWidth self.now.packet.now result.update }
    {
        let body = self.packet.body(j);
        let (sigma, link) = key.authenticator_and_link_tag(&body);
        let tags = hop_tags(&sigma, self.shared, self.packet, j);
        let field = carries_field(&tags.field, self.packet, j);
        Fit {
            field,
            both: field && carries_link(&link, self.packet, j),
            update: tags.update,
        }
    }

    /// Tries hop `j` under the generations of its AS's forwarding key that are taken: the present one, and then the one
    /// before it. The first under which both tags are right counts.
    pub fn tags(&self, j: u8) -> Result<Accepted, (Check, u8)>
        requires there { j < hop_count self.now.packet.now }
        ensures refusal { result_err result ≡ first_row (tag_rows self.now.topo.now self.now.a (candidates_of self.now.present.now.number) self.now.packet.now j) }
        ensures accepted { IfOk result (λ x. IsAccepting self.now.topo.now self.now.a (candidates_of self.now.present.now.number) self.now.packet.now j x) }
    {
        let generation = self.present.generation();
        let present = self.fit(self.present, j);
        if present.both {
            return Ok(Accepted {
                generation,
                update: present.update,
            });
        }
        if generation == 0 {
            return Err((failing(present.field), j));
        }
        let previous = self.fit(self.previous, j);
        if previous.both {
            return Ok(Accepted {
                generation: generation - 1,
                update: previous.update,
            });
        }
        Err((failing(present.field || previous.field), j))
    }
}

/// Which tag is wrong, where a field is right under some generation, or under none.
fn failing(field: bool) -> Check
    ensures { result ≡ failing field }
{
    if field {
        Check::BadLink
    } else {
        Check::BadField
    }
}
