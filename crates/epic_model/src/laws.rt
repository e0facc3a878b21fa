//! What holds of packets and of ledgers, proved of the definitions alone.
ghost use Rattle.epic_model.specs.Carried.{HonestPacketsAreProved, HonestPacketsArrive};
ghost use Rattle.epic_model.specs.Keeping.{HonestSendsAreProved, HonestSendsArrive, InvArrivals, InvCarries, InvIssues, InvLater, InvOthers, InvPasses, InvSends, InvStart, InvTurns, InvTwice, NextIsUnsent, SomeSendIsHonest};
ghost use Rattle.epic_model.specs.Sends.{SendsAreKept, SentPacketsHaveRoads};
ghost use Rattle.epic_model.specs.Sound.{ArrivalsAreSound, TurnsAreSound};
ghost use Rattle.epic_model.specs.Standing.{HostsStand, OtherHostsStand, OthersStand, RoutersStand, WindowsLast, WindowsTell};
ghost use Rattle.epic_model.specs.World.{HonestCarriesArrive, HonestCarriesAreProved, VerdictsAreRight, WorldsGoOn, WorldsStart};
ghost use Rattle.epic_model.specs.Twice.{ArrivalsStayOnce, NoneTwiceByEmissions, NothingTwice, TurnsBeginWell, TurnsStayOnce};

/// A law: with nothing in it a ledger remembers nothing twice, and neither turns nor arrivals put anything twice into it.
pub fn none_twice()
    ensures nothing { NothingTwice }
    ensures turns { TurnsStayOnce }
    ensures arrivals { ArrivalsStayOnce }
{}

/// A law: so no router accepts a packet twice, where passes of second hops stand beside those of first hops. Turns keep that.
pub fn none_twice_by_emissions()
    ensures emissions { NoneTwiceByEmissions }
    ensures begin { TurnsBeginWell }
{}

/// A law: turns and arrivals of any bytes keep what every ledger of a world keeps.
pub fn passes_are_sound()
    ensures turns { TurnsAreSound }
    ensures arrivals { ArrivalsAreSound }
{}

/// A law: a packet that was sent over issues that are kept has a road, and its fields are those of the formulas.
pub fn sent_packets_have_roads()
    ensures { SentPacketsHaveRoads }
{}

/// A law: a packet that is sent over a lawful path of ended issues is kept, and has a way.
pub fn sends_are_kept()
    ensures { SendsAreKept }
{}

/// A law: an honest packet on a road is carried to its destination and is accepted all the way. Its hops are proved where no
/// other hop has passed with its path bytes.
pub fn honest_packets_arrive()
    ensures arrive { HonestPacketsArrive }
    ensures proved { HonestPacketsAreProved }
{}

/// A law: so it is with every packet that was sent, over a ledger that keeps what every ledger keeps. And it accepts no packet
/// twice.
pub fn honest_sends_arrive()
    ensures arrive { HonestSendsArrive }
    ensures proved { HonestSendsAreProved }
    ensures twice { InvTwice }
{}

/// A law: a ledger with nothing in it keeps this, and goes on to as things happen: time, turns, arrivals, passes and carries, other
/// events, issues, and packets that are sent.
pub fn inv_is_kept()
    ensures start { InvStart }
    ensures later { InvLater }
    ensures turns { InvTurns }
    ensures arrivals { InvArrivals }
    ensures passes { InvPasses }
    ensures carries { InvCarries }
    ensures others { InvOthers }
    ensures issues { InvIssues }
    ensures sends { InvSends }
{}

/// A law: a source's next timestamp is one with which it has sent nothing yet.
pub fn timestamps_are_new()
    ensures { NextIsUnsent }
{}

/// A law: there is a ledger that keeps all this, with a packet that was sent and is honest, so that the laws above speak of something.
pub fn some_send_is_honest()
    ensures { SomeSendIsHonest }
{}

/// A law: every state that steps lead to keeps what ledgers keep, so that the laws above hold of it.
pub fn worlds_go_on()
    ensures start { WorldsStart }
    ensures steps { WorldsGoOn }
{}

/// A law: every verdict of every passage of a step is Proved exactly where the provenance stands in the ledger before the passage,
/// and is always true; and the answer tells each passage.
pub fn verdicts_are_right()
    ensures { VerdictsAreRight }
{}

/// A law: the step that carries the emission of a packet that was sent, at a moment at which it is honest, brings it to its
/// destination, which takes it.
pub fn honest_carries_arrive()
    ensures arrive { HonestCarriesArrive }
    ensures proved { HonestCarriesAreProved }
{}

/// A law: a window that stands for what the ledger tells of a router or a host tells the same, goes on to as time passes, and
/// stands for the ledger that a turn or an arrival leaves, where it remembers what was accepted. The windows of others stand as
/// they are.
pub fn windows_stand()
    ensures tell { WindowsTell }
    ensures last { WindowsLast }
    ensures routers { RoutersStand }
    ensures others { OthersStand }
    ensures hosts { HostsStand }
    ensures other_hosts { OtherHostsStand }
{}
