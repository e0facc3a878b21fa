//! The values of a topology's tables, by their keys.
ghost use Rattle.std.specs.Prelude.{◌≡◌, ◌≤◌, length, option_map, IfOk};
ghost use Rattle.toml.specs.Data.{as_table};
ghost use Rattle.toml.specs.View.{items_view, table_view, view};
ghost use Rattle.epic_topo.specs.Reading.{in_range, mapped, or_fails, rows, text_at, value_at};

use crate::{TopoError, TopoKey, TopoKind};
use toml::{Table, Value};

/// A fault of the topology's text.
pub(crate) fn fault(kind: TopoKind, key: TopoKey, item: u32) -> TopoError
    ensures { result ≡ TopoError.Bad kind key item }
{
    TopoError::Bad { kind, key, item }
}

/// The value at a key of a table.
pub(crate) fn value_at(table: &Table, key: TopoKey) -> Option<&Value>
    ensures { option_map (λ v. view v.now) result ≡ value_at key (table_view table.now) }
{
    table.get(key.word())
}

/// The table that a value has to be.
pub(crate) fn table_in(value: &Value, key: TopoKey, place: u32) -> Result<&Table, TopoError>
    ensures { mapped (λ t. table_view t.now) result ≡ or_fails TopoKind.WrongKind key place (as_table (view value.now)) }
{
    match value.as_table() {
        Some(table) => Ok(table),
        None => Err(fault(TopoKind::WrongKind, key, place)),
    }
}

/// The text at a key that has to be there.
#[tactic(auto, unfolding(crate::specs::Reading::text_at))]
pub(crate) fn text_at(table: &Table, key: TopoKey, place: u32) -> Result<&str, TopoError>
    ensures { mapped (λ s. s.now) result ≡ text_at key place (table_view table.now) }
{
    let Some(value) = value_at(table, key) else {
        return Err(fault(TopoKind::Missing, key, place));
    };
    match value.as_str() {
        Some(text) => Ok(text),
        None => Err(fault(TopoKind::WrongKind, key, place)),
    }
}

/// A number that has to be in its range.
pub(crate) fn in_range(
    kind: TopoKind,
    key: TopoKey,
    place: u32,
    least: u64,
    most: u64,
    number: i64,
) -> Result<u64, TopoError>
    ensures value { result ≡ in_range kind key place least most number }
    ensures within { IfOk result (λ n. (least ≤ n) × (n ≤ most)) }
{
    if number < 0 {
        return Err(fault(kind, key, place));
    }
    let number = number as u64;
    if least <= number && number <= most {
        Ok(number)
    } else {
        Err(fault(kind, key, place))
    }
}

/// The items of an array of at most `most`.
#[tactic(auto, using(crate::proofs::Items::item_count_view), unfolding(crate::specs::Reading::rows))]
pub(crate) fn rows(value: &Value, key: TopoKey, most: usize) -> Result<&[Value], TopoError>
    ensures value { mapped (λ vs. items_view vs.now) result ≡ rows key most (view value.now) }
    ensures few { IfOk result (λ vs. length vs.now ≤ most) }
{
    let Some(values) = value.as_array() else {
        return Err(fault(TopoKind::WrongKind, key, 0));
    };
    if values.len() <= most {
        Ok(values.as_slice())
    } else {
        Err(fault(TopoKind::TooMany, key, 0))
    }
}
