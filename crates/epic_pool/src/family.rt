//! The links of a family of lists.
ghost use Rattle.std.specs.Prelude.{◌≡◌, ◌<◌, ◌≤◌, length, slice_index, IfOk, vec_len, vec_capacity};
ghost use Rattle.epic_pool.specs.Inside.{node_after};
ghost use Rattle.epic_pool.specs.Rings.{IsRings, Linked, Unlinked, Grown, Alone};

use crate::links;
use epic_num::OutOfMemory;
use std::alloc::Global;

/// Which index follows each index of a family, and which one it follows.
#[derive(Drop)]
pub struct Links {
    pub next: Vec<u32>,
    pub prev: Vec<u32>,
}

impl Links {
    /// So many indices, each of which stands alone: the heads of empty lists.
    pub fn alone(alloc: Global, count: u32) -> Result<Links, OutOfMemory>
        ensures { IfOk result (λ links. Alone count links.next.items links.prev.items) }
    {
        let mut next = Vec::new(alloc);
        let mut prev = Vec::new(alloc);
        for i in 0..count {
            next.push(i).map_err(|_| OutOfMemory)?;
            prev.push(i).map_err(|_| OutOfMemory)?;
        }
        Ok(Links { next, prev })
    }

    /// Puts the index `node`, which stands alone, at the end of the list with the head `head`.
    pub fn link(&mut self, base: u32, head: u32, node: u32)
        requires rings { IsRings base self.old.next.items self.old.prev.items }
        requires head { head < base }
        requires node { base ≤ node }
        requires inside { node < length self.old.next.items }
        requires alone { slice_index self.old.next.items node ≡ node }
        ensures { Linked base head node self.old.next.items self.new.next.items self.new.prev.items }
    {
        links::link(&mut self.next, &mut self.prev, base, head, node);
    }

    /// Takes the index `node` out of its list.
    pub fn unlink(&mut self, base: u32, node: u32)
        requires rings { IsRings base self.old.next.items self.old.prev.items }
        requires node { base ≤ node }
        requires inside { node < length self.old.next.items }
        ensures { Unlinked base node self.old.next.items self.new.next.items self.new.prev.items }
    {
        links::unlink(&mut self.next, &mut self.prev, base, node);
    }

    /// The node that follows an index in its list.
    #[tactic(auto, unfolding(crate::specs::Inside::node_after))]
    pub fn after(&self, base: u32, i: u32) -> Option<u32>
        requires { i < length self.now.next.items }
        ensures { result ≡ node_after base self.now.next.items i }
    {
        let node = self.next[i as usize];
        if node < base { None } else { Some(node) }
    }

    /// One more index, which stands alone. There is room for it.
    pub fn grow(&mut self, base: u32, node: u32)
        requires rings { IsRings base self.old.next.items self.old.prev.items }
        requires node { node ≡ length self.old.next.items }
        requires next_room { vec_len self.old.next < vec_capacity self.old.next }
        requires prev_room { vec_len self.old.prev < vec_capacity self.old.prev }
        ensures { Grown base self.old.next.items self.new.next.items self.new.prev.items }
    {
        self.next.push_reserved(node);
        self.prev.push_reserved(node);
    }
}
