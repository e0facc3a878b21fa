//! The settings of a topology's text.
ghost use Rattle.std.specs.Prelude.{◌≡◌, ◌≤◌, option_map, IfOk};
ghost use Rattle.toml.specs.View.{table_view, view};
ghost use Rattle.epic_num.specs.Moments.{IsProfile};
ghost use Rattle.epic_topo.specs.Reading.{profile_of, setting_at, settings};

use crate::reading::values::{fault, in_range, table_in, value_at};
use crate::{TopoError, TopoKey, TopoKind};
use epic_num::Profile;
use std::alloc::Global;
use toml::{Table, Value};

// An integer of the profile, which may be absent.
#[tactic(auto, unfolding(crate::specs::Reading::setting_at))]
fn setting_at(
    table: &Table,
    key: TopoKey,
    least: u64,
    most: u64,
    default: u64,
) -> Result<u64, TopoError>
    requires { default ≤ most }
    ensures value { result ≡ setting_at key least most default (table_view table.now) }
    ensures within { IfOk result (λ n. n ≤ most) }
{
    let Some(value) = value_at(table, key) else {
        return Ok(default);
    };
    match value.as_integer() {
        Some(number) => in_range(TopoKind::BadProfile, key, 0, least, most, number),
        None => Err(fault(TopoKind::WrongKind, key, 0)),
    }
}

// The settings of the profile's table, whose epoch is in seconds.
#[tactic(auto, unfolding(crate::specs::Reading::settings))]
fn settings(table: &Table) -> Result<Profile, TopoError>
    ensures { result ≡ settings (table_view table.now) }
{
    let lifetime_us = setting_at(table, TopoKey::LifetimeUs, 1, 3_600_000_000, 2_000_000)?;
    let skew_us = setting_at(table, TopoKey::SkewUs, 0, 3_600_000_000, 1_000_000)?;
    let epoch_s = setting_at(table, TopoKey::EpochS, 1, 31_536_000, 86_400)?;
    let window = setting_at(table, TopoKey::Window, 1, 65_536, 4_096)?;
    Ok(Profile {
        lifetime_us,
        skew_us,
        epoch_us: epoch_s * 1_000_000,
        window: window as u32,
    })
}

/// The settings of a topology, whose profile may be absent.
pub(crate) fn profile_of(alloc: Global, profile: Option<&Value>) -> Result<Profile, TopoError>
    ensures value { result ≡ profile_of (option_map (λ v. view v.now) profile.entry) }
    ensures ranges { IfOk result IsProfile }
{
    match profile {
        Some(value) => settings(table_in(value, TopoKey::Profile, 0)?),
        None => settings(&Table::new(alloc)),
    }
}
