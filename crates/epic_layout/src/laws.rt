//! What holds of all packets and of all bytes, proved of the definitions alone.
ghost use Rattle.std.specs.Prelude.{List};
ghost use Rattle.epic_layout.specs.declared.head.SegmentHead.{SegmentHead};
ghost use Rattle.epic_layout.specs.Laws.{PacketsAreSpelled, SpellingsAreOne, PacketsAreOne, SpellingsHaveLengths, PathsAreOne, PlacesAreOne, NeighboursFollow, SuccessorsFollow, SegmentsJoin};
ghost use Rattle.epic_layout.specs.Reading.{BytesAreRead};
ghost use Rattle.epic_layout.specs.Packets.{ValidPacketsAreOne};
ghost use Rattle.epic_layout.specs.Spelling.{DestMessagesDiffer, KindsDiffer};

/// A packet has one spelling, and bytes spell at most one packet, so that decoding gives back what was encoded.
pub fn spellings()
    ensures spelled { PacketsAreSpelled }
    ensures one_spelling { SpellingsAreOne }
    ensures one_packet { PacketsAreOne }
    ensures lengths { SpellingsHaveLengths }
    ensures one_value { ValidPacketsAreOne }
    ensures read { BytesAreRead }
{}

/// Equal path bytes are those of the same hops.
pub fn paths()
    ensures { PathsAreOne }
{}

/// Each hop has a place in its segment, neighbours in a segment follow one another in construction order, and a segment
/// begins where another ends.
pub fn places()
    ensures places { (segments : List SegmentHead) → PlacesAreOne segments }
    ensures neighbours { NeighboursFollow }
    ensures successors { SuccessorsFollow }
    ensures joins { (segments : List SegmentHead) → SegmentsJoin segments }
{}

/// Equal messages of destination fields are made over the same first byte, timestamp, source, destination, path,
/// updates and payload, and none begins as a message of a hop's field does.
pub fn dest_messages()
    ensures contents { DestMessagesDiffer }
    ensures kinds { KindsDiffer }
{}
