//! Circular doubly linked lists by index, over the successor and the predecessor of each index.
ghost use Rattle.std.specs.Prelude.{◌≡◌, ◌<◌, ◌≤◌, length, slice_index};
ghost use Rattle.epic_pool.specs.Rings.{IsRings, Linked, Unlinked};

/// Puts the index `node`, which stands alone, at the end of the list with the head `head`.
pub fn link(next: &mut [u32], prev: &mut [u32], base: u32, head: u32, node: u32)
    requires rings { IsRings base next.old prev.old }
    requires head { head < base }
    requires node { base ≤ node }
    requires inside { node < length next.old }
    requires alone { slice_index next.old node ≡ node }
    ensures { Linked base head node next.old next.new prev.new }
{
    let last = prev[head as usize];
    next[last as usize] = node;
    prev[node as usize] = last;
    next[node as usize] = head;
    prev[head as usize] = node;
}

/// Takes the index `node` out of its list.
pub fn unlink(next: &mut [u32], prev: &mut [u32], base: u32, node: u32)
    requires rings { IsRings base next.old prev.old }
    requires node { base ≤ node }
    requires inside { node < length next.old }
    ensures { Unlinked base node next.old next.new prev.new }
{
    let before = prev[node as usize];
    let after = next[node as usize];
    next[before as usize] = after;
    prev[after as usize] = before;
    next[node as usize] = node;
    prev[node as usize] = node;
}
