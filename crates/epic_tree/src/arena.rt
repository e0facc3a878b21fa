//! Nodes of trees, which name each other by their places in a slice.
ghost use Rattle.std.specs.Prelude.{◌≡◌, ◌+◌, ◌^◌, ◌<◌, length};
ghost use Rattle.epic_tree.specs.Arena.{node_at, height_at, with_fork};

/// The place of no node.
pub const NIL: u32 = u32::MAX;

/// How many nodes there are at most.
pub const MAX_NODES: usize = 0x7fff_ffff;

/// A node at a place: the places of the nodes under it, how high the tree there is, and the tag.
#[derive(Clone, Copy)]
pub struct Node {
    pub left: u32,
    pub right: u32,
    pub height: u32,
    pub tag: u32,
}

/// The node at a place.
#[tactic(auto, unfolding(crate::specs::Arena::node_at))]
pub fn read(nodes: &[Node], at: u32) -> Node
    requires { at < length nodes.now }
    ensures { result ≡ node_at nodes.now at }
{
    nodes[at as usize]
}

/// How high the tree at a place is, 0 where there is no node.
#[tactic(auto, using(std::proofs::lemmas::Option::gets), unfolding(crate::specs::Arena::node_at))]
pub fn height(nodes: &[Node], at: u32) -> u32
    ensures { result ≡ height_at nodes.now at }
{
    match nodes.get(at as usize) {
        Some(node) => node.height,
        None => 0,
    }
}

/// Puts two trees under the node at a place.
#[tactic(auto, unfolding(crate::specs::Arena::forked))]
pub fn fork(nodes: &mut [Node], left: u32, at: u32, right: u32)
    requires within { at < length nodes.old }
    requires left_low { height_at nodes.old left + 1 < 2 ^ 32 }
    requires right_low { height_at nodes.old right + 1 < 2 ^ 32 }
    ensures { nodes.new ≡ with_fork nodes.old left at right }
{
    let tag = read(nodes, at).tag;
    let higher = height(nodes, left).max(height(nodes, right));
    nodes[at as usize] = Node {
        left,
        right,
        height: higher + 1,
        tag,
    };
}
