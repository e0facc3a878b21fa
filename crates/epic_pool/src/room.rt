//! Room for one more index, and values of nothing.
ghost use Rattle.std.specs.Prelude.{◌≡◌, ◌<◌, replicate, None, IfOk, OnOk, vec_len, vec_capacity};

use crate::family::Links;
use epic_num::OutOfMemory;
use std::alloc::Global;

/// Makes room for one more index in both families and among the values.
pub fn make_room<T>(
    a: &mut Links,
    b: &mut Links,
    values: &mut Vec<Option<T>>,
) -> Result<(), OutOfMemory>
    ensures next_a { a.new.next.items ≡ a.old.next.items }
    ensures prev_a { a.new.prev.items ≡ a.old.prev.items }
    ensures next_b { b.new.next.items ≡ b.old.next.items }
    ensures prev_b { b.new.prev.items ≡ b.old.prev.items }
    ensures values { values.new.items ≡ values.old.items }
    ensures next_a_room { OnOk result (vec_len a.new.next < vec_capacity a.new.next) }
    ensures prev_a_room { OnOk result (vec_len a.new.prev < vec_capacity a.new.prev) }
    ensures next_b_room { OnOk result (vec_len b.new.next < vec_capacity b.new.next) }
    ensures prev_b_room { OnOk result (vec_len b.new.prev < vec_capacity b.new.prev) }
    ensures values_room { OnOk result (vec_len values.new < vec_capacity values.new) }
{
    a.next.reserve(1).map_err(|_| OutOfMemory)?;
    a.prev.reserve(1).map_err(|_| OutOfMemory)?;
    b.next.reserve(1).map_err(|_| OutOfMemory)?;
    b.prev.reserve(1).map_err(|_| OutOfMemory)?;
    values.reserve(1).map_err(|_| OutOfMemory)?;
    Ok(())
}

/// So many places for values, with nothing in them.
pub fn nothing<T: Drop>(alloc: Global, count: u32) -> Result<Vec<Option<T>>, OutOfMemory>
    ensures { IfOk result (λ values. values.items ≡ replicate count None) }
{
    let mut values = Vec::new(alloc);
    for _ in 0..count {
        values.push(None).map_err(|_| OutOfMemory)?;
    }
    Ok(values)
}
