//! What routers of all levels accept, proved of the definitions alone.
ghost use Rattle.epic_router.specs.RightTurns.{TurnsAreRight};

/// A law: what a router accepts is right at each hop that it handles, whatever the bytes and whatever its window tells.
pub fn turns_are_right()
    ensures { TurnsAreRight }
{}
