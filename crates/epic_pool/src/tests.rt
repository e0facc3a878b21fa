//! That a full pool gives a value back, and what stands in the lists after many calls.
ghost use Rattle.std.specs.Prelude.{◌≡◌, ◌<◌, length};

use super::*;
use epic_num::OutOfMemory;
use std::alloc::Global;
use std::process::Abort;
use std::test::Fail;

/// Puts a value into a list of either family of a pool of three lists each.
fn put(pool: &mut Pool<u32>, a: u32, b: u32, value: u32) -> Result<u32, Fail>
    requires lists_a { length pool.old.a ≡ 3 }
    requires lists_b { length pool.old.b ≡ 3 }
    requires a { a < 3 }
    requires b { b < 3 }
    ensures a { length pool.new.a ≡ 3 }
    ensures b { length pool.new.b ≡ 3 }
{
    pool.reserve(1)?;
    match pool.insert(a, b, value) {
        Ok(node) => Ok(node),
        Err(_) => Err(Fail::from(OutOfMemory)),
    }
}

/// Puts the numbers below `count` into the lists in turn, and answers their nodes.
fn put_all(alloc: Global, pool: &mut Pool<u32>, count: u32) -> Result<Vec<u32>, Fail>
    requires a { length pool.old.a ≡ 3 }
    requires b { length pool.old.b ≡ 3 }
    ensures a { length pool.new.a ≡ 3 }
    ensures b { length pool.new.b ≡ 3 }
{
    let mut nodes = Vec::new(alloc);
    for i in 0..count {
        nodes.push(put(pool, i % 3, i / 3 % 3, i)?)?;
    }
    Ok(nodes)
}

/// Removes every fifth of some nodes.
fn remove_fifths(rt: &impl Abort, pool: &mut Pool<u32>, nodes: &[u32])
    requires a { length pool.old.a ≡ 3 }
    requires b { length pool.old.b ≡ 3 }
    ensures a { length pool.new.a ≡ 3 }
    ensures b { length pool.new.b ≡ 3 }
{
    for node in nodes.iter().step_by(5) {
        assert!(rt; pool.is_live(*node));
        let value = pool.remove(*node);
        assert!(rt; value % 5 == 0 && !pool.is_live(*node));
    }
}

/// The values of a list of the first family, or of the second, in order.
fn values_of(
    rt: &impl Abort,
    alloc: Global,
    pool: &Pool<u32>,
    is_second: bool,
    list: u32,
) -> Result<Vec<u32>, Fail>
    requires a { list < length pool.now.a }
    requires b { list < length pool.now.b }
{
    let mut values = Vec::new(alloc);
    let mut next = if is_second {
        pool.first_b(list)
    } else {
        pool.first_a(list)
    };
    for _ in 0..100 {
        let Some(node) = next else {
            break;
        };
        assert!(rt; pool.is_live(node));
        values.push(*pool.get(node))?;
        next = if is_second {
            pool.next_b(node)
        } else {
            pool.next_a(node)
        };
    }
    Ok(values)
}

/// Puts a value into list 0 of either family, where there is room.
fn put_first(pool: &mut Pool<u32>, value: u32) -> Result<u32, Fail>
    requires lists_a { length pool.old.a ≡ 2 }
    requires lists_b { length pool.old.b ≡ 1 }
    ensures a { length pool.new.a ≡ 2 }
    ensures b { length pool.new.b ≡ 1 }
{
    match pool.insert(0, 0, value) {
        Ok(node) => Ok(node),
        Err(_) => Err(Fail::from(OutOfMemory)),
    }
}

/// Puts so many values into list 0 of either family, and answers the first node.
fn fill(pool: &mut Pool<u32>, count: u32) -> Result<u32, Fail>
    requires a { length pool.old.a ≡ 2 }
    requires b { length pool.old.b ≡ 1 }
    ensures a { length pool.new.a ≡ 2 }
    ensures b { length pool.new.b ≡ 1 }
{
    let first = put_first(pool, 0)?;
    for i in 1..count {
        put_first(pool, i)?;
    }
    Ok(first)
}

#[test]
fn a_full_pool_gives_the_value_back(rt: HostRuntime) -> Result<(), Fail> {
    let mut pool = Pool::new(rt.alloc(), 2, 1)?;
    assert_eq!(rt; pool.spare(), 0);
    pool.reserve(2)?;
    let room = pool.spare();
    assert!(rt; room >= 2);
    let first = fill(&mut pool, room)?;
    assert_eq!(rt; pool.spare(), 0);
    assert!(rt; matches!(pool.insert(0, 0, 9), Err(Full(9))));
    assert!(rt; pool.is_live(first));
    assert_eq!(rt; pool.remove(first), 0);
    assert!(rt; pool.insert(0, 0, 9).is_ok());
    Ok(())
}

#[test]
fn lists_have_what_was_put_in_and_not_removed(rt: HostRuntime) -> Result<(), Fail> {
    let mut pool = Pool::new(rt.alloc(), 3, 3)?;
    let nodes = put_all(rt.alloc(), &mut pool, 60)?;
    remove_fifths(&rt, &mut pool, &nodes);
    for list in 0..3u32 {
        let in_a: Vec<u32> = (0..60u32)
            .filter(|i| *i % 3 == list && *i % 5 != 0)
            .collect(rt.alloc())?;
        assert_eq!(rt; values_of(&rt, rt.alloc(), &pool, false, list)?, in_a);
        let in_b: Vec<u32> = (0..60u32)
            .filter(|i| *i / 3 % 3 == list && *i % 5 != 0)
            .collect(rt.alloc())?;
        assert_eq!(rt; values_of(&rt, rt.alloc(), &pool, true, list)?, in_b);
    }
    Ok(())
}
