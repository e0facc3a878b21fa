//! What a packet's tags look at, as laws over the definitions.

ghost use Rattle.epic_fields.specs.Laws.{DestFieldsLookAtContent, FormulasLookAtStamp, TagsLookAtStamp};

/// A hop's tags look at the packet's first byte, timestamp and source alone, so at no field; a destination field at what
/// its message is made over alone.
pub fn tags_look_at_no_field()
    ensures hops { TagsLookAtStamp }
    ensures formulas { FormulasLookAtStamp }
    ensures destinations { DestFieldsLookAtContent }
{}
