//! Segments as a search travels them, by the AS that they lead away from.
ghost use Rattle.std.specs.Prelude.{◌≡◌, [], ◌∷◌, ◌++◌, IsTrue, OnOk, if◌then◌else◌};
ghost use Rattle.epic_num.specs.Same.{same_as};
ghost use Rattle.epic_num.specs.Segments.{is_well_formed};
ghost use Rattle.epic_path.specs.Routes.{last_issue};
ghost use Rattle.epic_path.specs.Search.{is_up, link_from, link_to, links_at};

use crate::ends::{first_as, last_as};
use epic_num::{AsId, SegKind, Segment};
use std::alloc::{AllocError, Global};
use std::collections::BTreeMap;

/// A segment in one direction.
#[derive(Clone, Copy)]
pub struct Link {
    /// The AS where it ends.
    pub end: AsId,
    pub hops: u8,
    /// The segment's last issue.
    pub issue: u32,
}

#[tactic(auto, unfolding(epic_num::specs::Segments::last_hop, crate::specs::Routes::last_issue))]
pub fn last_issue(segment: &Segment) -> u32
    ensures { result ≡ last_issue segment.now }
{
    segment.hops.last().map_or(0, |hop| hop.issue)
}

#[tactic(auto, unfolding(crate::specs::Search::link_to))]
pub fn link_to(end: AsId, segment: &Segment) -> Link
    ensures { result ≡ link_to end segment.now }
{
    Link {
        end,
        hops: segment.hops.as_slice().len() as u8,
        issue: last_issue(segment),
    }
}

/// The link over a segment that leads up from `at`.
pub fn up_link(at: AsId, segment: &Segment) -> Option<Link>
    requires { IsTrue (is_well_formed segment.now) }
    ensures { result ≡ link_from is_up at segment.now }
{
    match segment.kind {
        SegKind::Core => None,
        SegKind::Child => {
            if last_as(segment) == at {
                Some(link_to(first_as(segment), segment))
            } else {
                None
            }
        }
    }
}

/// Links by the AS where they start.
#[derive(Drop)]
pub struct Links {
    pub by_start: BTreeMap<u64, Vec<Link>>,
}

impl Links {
    #[tactic(auto, unfolding(crate::specs::Search::links_at))]
    pub fn new(alloc: Global) -> Links
        ensures { (at : AsId) → links_at result at ≡ [] }
    {
        Links {
            by_start: BTreeMap::new(alloc),
        }
    }

    pub fn add(&mut self, start: AsId, link: Link) -> Result<(), AllocError>
        ensures { OnOk result ((at : AsId)
            → links_at self.new at ≡ links_at self.old at ++ (if same_as start at then link ∷ [] else [])) }
    {
        self.by_start.entry(start.0)?.or_default().push(link)?;
        Ok(())
    }

    #[tactic(auto, unfolding(crate::specs::Search::links_at))]
    pub fn at(&self, start: AsId) -> &[Link]
        ensures { result.now ≡ links_at self.now start }
    {
        match self.by_start.get(&start.0) {
            Some(links) => links.as_slice(),
            None => &[],
        }
    }
}
