//! What a packet's first byte says of its version and level.
ghost use Rattle.std.specs.Prelude.{◌≡◌};
ghost use Rattle.epic_num.specs.Levels.{first_byte, is_first_byte, is_tagged, is_timed, is_updated, level_of, version_of, width_of};

use crate::Level;

/// The first byte of a packet of version 1 or 2.
#[tactic(auto, unfolding(crate::specs::Levels::first_byte, crate::specs::Levels::level_number))]
pub fn first_byte(version: u8, level: Level) -> u8
    ensures { result ≡ first_byte version level }
{
    let number = match level {
        Level::L0 => 0,
        Level::L1 => 1,
        Level::L2 => 2,
        Level::L3 => 3,
    };
    if version == 1 {
        0xE0 + number
    } else {
        0xF0 + number
    }
}

/// Whether packets of some version and level begin so.
#[tactic(auto, unfolding(crate::specs::Levels::is_first_byte))]
pub fn is_first_byte(first: u8) -> bool
    ensures { result ≡ is_first_byte first }
{
    matches!(first, 0xE0..=0xE3 | 0xF2 | 0xF3)
}

/// Whether it is one of level 2 or 3, whose packets carry a destination field.
#[tactic(auto, unfolding(crate::specs::Levels::is_tagged))]
pub fn is_tagged(first: u8) -> bool
    ensures { result ≡ is_tagged first }
{
    matches!(first, 0xE2 | 0xE3 | 0xF2 | 0xF3)
}

/// Whether it is one of level 1, 2 or 3, whose fields are made for one packet and its timestamp.
#[tactic(auto, unfolding(crate::specs::Levels::is_timed, crate::specs::Levels::level_number))]
pub fn is_timed(first: u8) -> bool
    ensures { result ≡ is_timed first }
{
    !matches!(level_of(first), Level::L0)
}

/// Whether it is one of level 3, at which each router puts its update in the place of its field.
#[tactic(auto, unfolding(crate::specs::Levels::is_updated, crate::specs::Levels::level_number))]
pub fn is_updated(first: u8) -> bool
    ensures { result ≡ is_updated first }
{
    matches!(level_of(first), Level::L3)
}

/// The level of a packet with this first byte.
#[tactic(auto, unfolding(crate::specs::Levels::level_of))]
pub fn level_of(first: u8) -> Level
    ensures { result ≡ level_of first }
{
    match first % 16 {
        0 => Level::L0,
        1 => Level::L1,
        2 => Level::L2,
        _ => Level::L3,
    }
}

/// The version of a packet with this first byte, 1 or 2.
#[tactic(auto, unfolding(crate::specs::Levels::version_of))]
pub fn version_of(first: u8) -> u8
    ensures { result ≡ version_of first }
{
    if first < 0xF0 { 1 } else { 2 }
}

/// How many bytes each hop's field has in a packet with this first byte, 3 or 6.
#[tactic(auto, unfolding(crate::specs::Levels::width_of))]
pub fn width_of(first: u8) -> u8
    ensures { result ≡ width_of first }
{
    if first < 0xF0 { 3 } else { 6 }
}
