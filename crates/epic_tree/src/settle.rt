//! Bringing two trees round a place into balance.
ghost use Rattle.std.specs.Prelude.{◌≡◌, ◌+◌, ◌^◌, ◌<◌, ◌≤◌, length};
ghost use Rattle.epic_tree.specs.Shapes.{leant_left, leant_right, settled};
ghost use Rattle.epic_tree.specs.Arena.{height_at, shape, Stands, AreBeside, Keeps, beside_count};
ghost use Rattle.epic_tree.specs.Turned.{lifted_left, lifted_right, turned};

use crate::arena::{Node, fork, height, read};

/// Two trees, and the place that comes between them.
#[derive(Clone, Copy)]
struct Pair {
    left: u32,
    at: u32,
    right: u32,
}

/// Makes a tree of a pair, and puts it to the right of another under a place.
#[tactic(auto, unfolding(crate::specs::Turned::lifted_left))]
fn lift_left(nodes: &mut [Node], outer: u32, top: u32, pair: Pair)
    requires top_within { top < length nodes.old }
    requires within { pair.at < length nodes.old }
    requires outer_low { height_at nodes.old outer < 2 ^ 31 }
    requires left_low { height_at nodes.old pair.left < 2 ^ 31 }
    requires right_low { height_at nodes.old pair.right < 2 ^ 31 }
    ensures { nodes.new ≡ lifted_left nodes.old outer top pair }
{
    fork(nodes, pair.left, pair.at, pair.right);
    fork(nodes, outer, top, pair.at);
}

/// The same to the left of another.
#[tactic(auto, unfolding(crate::specs::Turned::lifted_right))]
fn lift_right(nodes: &mut [Node], pair: Pair, top: u32, outer: u32)
    requires top_within { top < length nodes.old }
    requires within { pair.at < length nodes.old }
    requires outer_low { height_at nodes.old outer < 2 ^ 31 }
    requires left_low { height_at nodes.old pair.left < 2 ^ 31 }
    requires right_low { height_at nodes.old pair.right < 2 ^ 31 }
    ensures { nodes.new ≡ lifted_right nodes.old pair top outer }
{
    fork(nodes, pair.left, pair.at, pair.right);
    fork(nodes, pair.at, top, outer);
}

/// Makes a tree of each of two pairs, and one of both round a place.
#[tactic(auto, unfolding(crate::specs::Turned::turned))]
fn turn(nodes: &mut [Node], before: Pair, at: u32, after: Pair)
    requires within { at < length nodes.old }
    requires before_within { before.at < length nodes.old }
    requires after_within { after.at < length nodes.old }
    requires before_left_low { height_at nodes.old before.left < 2 ^ 31 }
    requires before_right_low { height_at nodes.old before.right < 2 ^ 31 }
    requires after_left_low { height_at nodes.old after.left < 2 ^ 31 }
    requires after_right_low { height_at nodes.old after.right < 2 ^ 31 }
    ensures { nodes.new ≡ turned nodes.old before at after }
{
    fork(nodes, before.left, before.at, before.right);
    fork(nodes, after.left, after.at, after.right);
    fork(nodes, before.at, at, after.at);
}

/// Puts two trees round a place, where the left one is the higher by two, and answers where the tree
/// is then.
fn lean_left(nodes: &mut [Node], left: u32, at: u32, right: u32) -> u32
    requires beside { AreBeside nodes.old left at right }
    requires high { height_at nodes.old right + 1 < height_at nodes.old left }
    requires low { height_at nodes.old left ≤ 2 ^ 31 }
    ensures stands { Stands nodes.new result (leant_left (shape nodes.old left) at (shape nodes.old right)) }
    ensures kept { Keeps (beside_count nodes.old left at right) nodes.old nodes.new }
{
    let top = read(nodes, left);
    let inner = top.right;
    if height(nodes, inner) <= height(nodes, top.left) {
        let pair = Pair {
            left: inner,
            at,
            right,
        };
        lift_left(nodes, top.left, left, pair);
        left
    } else {
        let mid = read(nodes, inner);
        let before = Pair {
            left: top.left,
            at: left,
            right: mid.left,
        };
        let after = Pair {
            left: mid.right,
            at,
            right,
        };
        turn(nodes, before, inner, after);
        inner
    }
}

/// The same where the right one is the higher by two.
fn lean_right(nodes: &mut [Node], left: u32, at: u32, right: u32) -> u32
    requires beside { AreBeside nodes.old left at right }
    requires high { height_at nodes.old left + 1 < height_at nodes.old right }
    requires low { height_at nodes.old right ≤ 2 ^ 31 }
    ensures stands { Stands nodes.new result (leant_right (shape nodes.old left) at (shape nodes.old right)) }
    ensures kept { Keeps (beside_count nodes.old left at right) nodes.old nodes.new }
{
    let top = read(nodes, right);
    let inner = top.left;
    if height(nodes, inner) <= height(nodes, top.right) {
        let pair = Pair {
            left,
            at,
            right: inner,
        };
        lift_right(nodes, pair, right, top.right);
        right
    } else {
        let mid = read(nodes, inner);
        let before = Pair {
            left,
            at,
            right: mid.left,
        };
        let after = Pair {
            left: mid.right,
            at: right,
            right: top.right,
        };
        turn(nodes, before, inner, after);
        inner
    }
}

/// Puts two trees round a place, brings them into balance, and answers where the tree is then.
pub fn settle(nodes: &mut [Node], left: u32, at: u32, right: u32) -> u32
    requires beside { AreBeside nodes.old left at right }
    requires left_low { height_at nodes.old left ≤ 2 ^ 31 }
    requires right_low { height_at nodes.old right ≤ 2 ^ 31 }
    ensures stands { Stands nodes.new result (settled (shape nodes.old left) at (shape nodes.old right)) }
    ensures kept { Keeps (beside_count nodes.old left at right) nodes.old nodes.new }
{
    let before = height(nodes, left);
    let after = height(nodes, right);
    if before > after + 1 {
        lean_left(nodes, left, at, right)
    } else if after > before + 1 {
        lean_right(nodes, left, at, right)
    } else {
        fork(nodes, left, at, right);
        at
    }
}
