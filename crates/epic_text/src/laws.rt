//! What holds of every script.
ghost use Rattle.epic_text.specs.RunScript.{CommandsAreSpelled};

/// The parts of each command of a script fit their types, its bytes are bytes, and its packet is of
/// a level and version that exist.
pub fn commands_are_spelled()
    ensures { CommandsAreSpelled }
{}
