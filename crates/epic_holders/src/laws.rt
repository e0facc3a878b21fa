//! What holds of the makers of fields over all kept ledgers, proved of the definitions alone.
ghost use Rattle.epic_holders.specs.Laws.{MakersAgree, MakersHold, MakersStay};

/// The verdict on the maker of an accepted hop of level 1 is Made exactly where the hop's source sent the packet so, and is
/// always true. It rests on issues, sent packets and reveals alone, so that other events leave it as it is.
pub fn makers()
    ensures hold { MakersHold }
    ensures agree { MakersAgree }
    ensures stay { MakersStay }
{}
