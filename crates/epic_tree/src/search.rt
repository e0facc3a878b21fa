//! Searching a tree of nodes.
ghost use Rattle.std.specs.Prelude.{◌≡◌, ℕ, ◌<◌, length};
ghost use Rattle.epic_tree.specs.Sides.{by_tag};
ghost use Rattle.epic_tree.specs.Shapes.{sought};
ghost use Rattle.epic_tree.specs.Arena.{shape, tags_of, Stands};

use crate::Aim;
use crate::arena::{NIL, Node, read};
use std::cmp::Ordering;

/// On which side of a place what is sought stands. Their tags are compared first.
#[tactic(auto, using(crate::proofs::Standing::tag_at))]
pub fn side_at<S: Aim>(nodes: &[Node], at: u32, tag: u32, aim: &S) -> Ordering
    requires within { at < length nodes.now }
    requires known { S.knows aim.now at }
    ensures { result ≡ by_tag (tags_of nodes.now) tag (S.side aim.now) at }
{
    match tag.cmp(&read(nodes, at).tag) {
        Ordering::Less => Ordering::Less,
        Ordering::Equal => aim.side(at),
        Ordering::Greater => Ordering::Greater,
    }
}

/// The place where it stands, in the tree at a place.
pub fn find_under<S: Aim>(nodes: &[Node], root: u32, aim: &S) -> Option<u32>
    requires stands { Stands nodes.now root (shape nodes.now root) }
    requires known { (i : ℕ) → i < length nodes.now → S.knows aim.now i }
    ensures { result ≡
        sought (by_tag (tags_of nodes.now) (S.tag aim.now) (S.side aim.now)) (shape nodes.now root) }
{
    let tag = aim.tag();
    let mut at = root;
    while at != NIL {
        let node = read(nodes, at);
        match side_at(nodes, at, tag, aim) {
            Ordering::Less => at = node.left,
            Ordering::Equal => return Some(at),
            Ordering::Greater => at = node.right,
        }
    }
    None
}
