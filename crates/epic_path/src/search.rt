//! The search for the paths to one AS.
ghost use Rattle.std.specs.Prelude.{◌≡◌, [], ◌∷◌, ◌++◌, ◌+◌, ◌<◌, ◌≤◌, All, IfOk, IfSome, IsTrue, OnOk, flat_map, length};
ghost use Rattle.epic_num.specs.Segments.{is_well_formed};
ghost use Rattle.epic_path.specs.Search.{Finds, core_links, extended, last_links, links_at, no_path, onward, paths_down, paths_ended, paths_from, paths_over_core, up_links};

use crate::ends::{first_as, last_as};
use crate::joining::MOST_HOPS;
use crate::links::{Link, Links, link_to, up_link};
use crate::paths_error::PathsError;
use arrayvec::ArrayVec;
use epic_num::{AsId, PathRef, SegKind, Segment};
use std::alloc::{AllocError, Global};

fn copy_of(path: &PathRef) -> PathRef
    ensures { result ≡ path.now }
{
    let Ok(issues) = ArrayVec::try_from(path.issues.as_slice()) else {
        unreachable!()
    };
    PathRef {
        issues,
        hops: path.hops,
    }
}

#[tactic(auto, unfolding(crate::specs::Search::no_path))]
fn no_path() -> PathRef
    ensures path { result ≡ no_path }
    ensures issues { length result.issues.items ≡ 0 }
{
    PathRef {
        issues: ArrayVec::new(),
        hops: 0,
    }
}

/// The path that goes on over `link`, if it is not too long then.
#[tactic(auto, unfolding(crate::specs::Search::extended))]
fn extended(path: &PathRef, link: &Link) -> Option<PathRef>
    requires { length path.now.issues.items < 3 }
    ensures path { result ≡ extended path.now link.now }
    ensures issues { IfSome result (λ p. length p.issues.items ≡ length path.now.issues.items + 1) }
{
    let hops = usize::from(path.hops) + usize::from(link.hops);
    if hops > MOST_HOPS {
        return None;
    }
    let mut longer = copy_of(path);
    longer.issues.push(link.issue);
    longer.hops = hops as u8;
    Some(longer)
}

/// What is looked up on the way to one AS.
#[derive(Drop)]
pub struct Search {
    pub to: AsId,
    /// How many paths are looked for.
    pub most: u32,
    /// Over core segments.
    pub cores: Links,
    /// Over child segments, from their first AS down to `to`.
    pub downs: Links,
}

impl Search {
    fn add(&mut self, segment: &Segment) -> Result<(), AllocError>
        requires { IsTrue (is_well_formed segment.now) }
        ensures to { self.new.to ≡ self.old.to }
        ensures most { self.new.most ≡ self.old.most }
        ensures cores { OnOk result ((at : AsId)
            → links_at self.new.cores at ≡ links_at self.old.cores at ++ core_links (segment.now ∷ []) at) }
        ensures downs { OnOk result ((at : AsId)
            → links_at self.new.downs at ≡ links_at self.old.downs at ++ last_links self.old.to (segment.now ∷ []) at) }
    {
        let first = first_as(segment);
        let last = last_as(segment);
        match segment.kind {
            SegKind::Core => {
                self.cores.add(first, link_to(last, segment))?;
                self.cores.add(last, link_to(first, segment))?;
            }
            SegKind::Child => {
                if last == self.to {
                    self.downs.add(first, link_to(last, segment))?;
                }
            }
        }
        Ok(())
    }

    pub fn new(
        alloc: Global,
        segments: &[Segment],
        to: AsId,
        most: u32,
    ) -> Result<Search, AllocError>
        requires { All (λ s. IsTrue (is_well_formed s)) segments.now }
        ensures to { IfOk result (λ search. search.to ≡ to) }
        ensures most { IfOk result (λ search. search.most ≡ most) }
        ensures cores { IfOk result (λ search. (at : AsId)
            → links_at search.cores at ≡ core_links segments.now at) }
        ensures downs { IfOk result (λ search. (at : AsId)
            → links_at search.downs at ≡ last_links to segments.now at) }
    {
        let mut search = Search {
            to,
            most,
            cores: Links::new(alloc),
            downs: Links::new(alloc),
        };
        for segment in segments {
            search.add(segment)?;
        }
        Ok(search)
    }

    /// Keeps a path that was found.
    fn keep(&self, found: &mut Vec<PathRef>, path: PathRef) -> Result<(), PathsError>
        requires room { length found.old.items ≤ self.now.most }
        ensures finds { Finds self.now.most found.old.items (path ∷ []) found.new.items result }
        ensures fits { OnOk result (length found.new.items ≤ self.now.most) }
    {
        if found.len() >= self.most as usize {
            return Err(PathsError::TooMany);
        }
        match found.push(path) {
            Ok(()) => Ok(()),
            Err(_) => Err(PathsError::OutOfMemory),
        }
    }

    /// Finds `path`, which has come to `at`, if that is where paths end.
    #[tactic(auto, unfolding(epic_num::specs::Same::same_as, crate::specs::Search::paths_ended))]
    fn find_ended(
        &self,
        found: &mut Vec<PathRef>,
        path: &PathRef,
        at: AsId,
    ) -> Result<(), PathsError>
        requires room { length found.old.items ≤ self.now.most }
        ensures finds { Finds self.now.most found.old.items
            (paths_ended self.now.to path.now at) found.new.items result }
        ensures fits { OnOk result (length found.new.items ≤ self.now.most) }
    {
        if at == self.to {
            self.keep(found, copy_of(path))
        } else {
            Ok(())
        }
    }

    /// Finds the path that goes on from `path` over `down`, and ends there.
    #[tactic(auto, unfolding(crate::specs::Search::onward))]
    fn find_over_down(
        &self,
        found: &mut Vec<PathRef>,
        path: &PathRef,
        down: &Link,
    ) -> Result<(), PathsError>
        requires legs { length path.now.issues.items < 3 }
        requires room { length found.old.items ≤ self.now.most }
        ensures finds { Finds self.now.most found.old.items
            (onward (λ p end. p ∷ []) path.now down.now) found.new.items result }
        ensures fits { OnOk result (length found.new.items ≤ self.now.most) }
    {
        match extended(path, down) {
            Some(longer) => self.keep(found, longer),
            None => Ok(()),
        }
    }

    /// Finds the paths that begin with `path`, which has come to `at`, and end there or over a link down from there.
    fn find_down(
        &self,
        found: &mut Vec<PathRef>,
        path: &PathRef,
        at: AsId,
    ) -> Result<(), PathsError>
        requires legs { length path.now.issues.items < 3 }
        requires room { length found.old.items ≤ self.now.most }
        ensures finds { Finds self.now.most found.old.items
            (paths_down (links_at self.now.downs) self.now.to path.now at) found.new.items result }
        ensures fits { OnOk result (length found.new.items ≤ self.now.most) }
    {
        self.find_ended(found, path, at)?;
        for down in self.downs.at(at) {
            self.find_over_down(found, path, down)?;
        }
        Ok(())
    }

    /// Finds the paths that go on from `path` over `core`, and end there or over a link down from there.
    #[tactic(auto, unfolding(crate::specs::Search::onward))]
    fn find_after_core(
        &self,
        found: &mut Vec<PathRef>,
        path: &PathRef,
        core: &Link,
    ) -> Result<(), PathsError>
        requires legs { length path.now.issues.items < 2 }
        requires room { length found.old.items ≤ self.now.most }
        ensures finds { Finds self.now.most found.old.items
            (onward (paths_down (links_at self.now.downs) self.now.to) path.now core.now) found.new.items result }
        ensures fits { OnOk result (length found.new.items ≤ self.now.most) }
    {
        match extended(path, core) {
            Some(longer) => self.find_down(found, &longer, core.end),
            None => Ok(()),
        }
    }

    /// Finds what `find_down` does, and the paths that go over a core link before that.
    fn find_over_core(
        &self,
        found: &mut Vec<PathRef>,
        path: &PathRef,
        at: AsId,
    ) -> Result<(), PathsError>
        requires legs { length path.now.issues.items < 2 }
        requires room { length found.old.items ≤ self.now.most }
        ensures finds { Finds self.now.most found.old.items
            (paths_over_core (links_at self.now.cores) (links_at self.now.downs) self.now.to path.now at)
            found.new.items result }
        ensures fits { OnOk result (length found.new.items ≤ self.now.most) }
    {
        self.find_down(found, path, at)?;
        for core in self.cores.at(at) {
            self.find_after_core(found, path, core)?;
        }
        Ok(())
    }

    /// Finds the paths that begin over the link up of one segment, if it has one that leads away from `from`.
    fn find_after_up(
        &self,
        found: &mut Vec<PathRef>,
        segment: &Segment,
        from: AsId,
    ) -> Result<(), PathsError>
        requires formed { IsTrue (is_well_formed segment.now) }
        requires room { length found.old.items ≤ self.now.most }
        ensures finds { let rest = paths_over_core (links_at self.now.cores) (links_at self.now.downs) self.now.to
            in Finds self.now.most found.old.items
            (flat_map (onward rest no_path) (up_links (segment.now ∷ []) from)) found.new.items result }
        ensures fits { OnOk result (length found.new.items ≤ self.now.most) }
    {
        let Some(up) = up_link(from, segment) else {
            return Ok(());
        };
        match extended(&no_path(), &up) {
            Some(longer) => self.find_over_core(found, &longer, up.end),
            None => Ok(()),
        }
    }

    /// Finds the paths from `from`, in no order.
    pub fn find_from(
        &self,
        found: &mut Vec<PathRef>,
        segments: &[Segment],
        from: AsId,
    ) -> Result<(), PathsError>
        requires formed { All (λ s. IsTrue (is_well_formed s)) segments.now }
        requires room { length found.old.items ≤ self.now.most }
        ensures finds { Finds self.now.most found.old.items
            (paths_from (up_links segments.now from) (links_at self.now.cores) (links_at self.now.downs)
            from self.now.to) found.new.items result }
        ensures fits { OnOk result (length found.new.items ≤ self.now.most) }
    {
        self.find_over_core(found, &no_path(), from)?;
        for segment in segments {
            self.find_after_up(found, segment, from)?;
        }
        Ok(())
    }
}
