//! What holds of every topology that was read.

ghost use Rattle.std.specs.Prelude.{ℕ, List, IfOk};
ghost use Rattle.epic_topo.specs.Lawful.{HasOnePlaceEach, HasReadableNames, IsTopology, LinksLeadBack};
ghost use Rattle.epic_topo.specs.Network.{Network};
ghost use Rattle.epic_topo.specs.Reading.{topology};

/// A law: each topology that a text tells of is lawful.
pub fn texts_tell_of_lawful_topologies()
    ensures { (text : List ℕ) → IfOk (topology text) IsTopology }
{}

/// A law: in a lawful topology each link leads back from its other end, as what it is there.
pub fn links_lead_back()
    ensures { (n : Network) → IsTopology n → LinksLeadBack n }
{}

/// A law: in a lawful topology each AS has one place, and no place is above 4,095.
pub fn each_as_has_one_place()
    ensures { (n : Network) → IsTopology n → HasOnePlaceEach n }
{}

/// A law: in a lawful topology each AS can be read from a text.
pub fn ases_have_readable_names()
    ensures { (n : Network) → IsTopology n → HasReadableNames n }
{}
