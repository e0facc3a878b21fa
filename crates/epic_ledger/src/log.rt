//! The events in order, and the issues among them.
ghost use Rattle.std.specs.Prelude.{◌≡◌, ◌+◌, ◌^◌, ◌<◌, ◌≤◌, [], ◌∷◌, ◌++◌, length, map, option_map, position, vec_len, vec_capacity, IfSome, IsOk, OnOk};
ghost use Rattle.std.specs.Option.{option_map_or};
ghost use Rattle.epic_num.specs.Chains as chains;
ghost use Rattle.epic_num.specs.Same.{same_name};
ghost use Rattle.epic_num.specs.Chains.{ancestor, no_name};
ghost use Rattle.epic_tree.specs.Index.{IsTagged};
ghost use Rattle.epic_ledger.specs.Ranks.{name_cmp, name_tag, names_of};
ghost use Rattle.epic_ledger.specs.Facts.{as_issue, issues_in};
ghost use Rattle.epic_ledger.specs.Queries as queries;
ghost use Rattle.epic_ledger.specs.Rows.{issue_in};

use crate::Event;
use crate::limits::MAX_EVENTS;
use crate::names::{Named, place_of};
use epic_num::HopName;
use epic_tree::Tree;
use std::alloc::{AllocError, Global};
use std::marker::Model;

/// A hop that was issued, and the number of the issue that it goes on from, 0 for none.
#[derive(Clone, Copy)]
pub struct Issued {
    pub name: HopName,
    pub parent: u32,
}

/// Events in order, and their issues apart.
#[derive(Drop)]
pub struct Log {
    events: Vec<Event>,
    issues: Vec<Issued>,
    names: Tree,
}

impl Model for Log {
    ghost use Rattle.epic_ledger.specs.Parts.{Logged};
    ghost use Rattle.std.specs.Prelude.{◌-◌, length, min, vec_capacity};

    ghost Value = { Logged };

    ghost use Rattle.epic_ledger.specs.Rows.{room, IsLog};
    ghost use Rattle.epic_ledger.specs.declared.limits.TheConstants.{MAX_EVENTS};

    ghost view = { λ l. record {
      events = l.events.items;
      spare = min (room (vec_capacity l.events) MAX_EVENTS (length l.events.items))
          (min (vec_capacity l.issues - length l.issues.items) l.names.spare);
    } };

    ghost invariant = { λ l. IsLog l.events.items l.issues.items l.names };
}

/// The issue of a number, which counts from 1.
#[tactic(auto, using(std::proofs::lemmas::Option::gets), unfolding(epic_num::specs::Chains::issue_at))]
fn issue_at(issues: &[Issued], number: u32) -> Option<Issued>
    ensures { option_map issue_in result ≡ chains.issue_at (map issue_in issues.now) number }
{
    if number == 0 {
        return None;
    }
    issues.get(number as usize - 1).copied()
}

/// The number of the issue that an issue goes on from, 0 for none.
#[tactic(auto, unfolding(crate::specs::Rows::issue_in))]
fn parent_of(issues: &[Issued], number: u32) -> u32
    ensures { result ≡ option_map_or (λ i. i.parent) (chains.issue_at (map issue_in issues.now) number) 0 }
{
    match issue_at(issues, number) {
        Some(issue) => issue.parent,
        None => 0,
    }
}

/// The number of the issue that an issue goes on from, so many issues before it.
fn ancestor_of(issues: &[Issued], number: u32, back: u8) -> u32
    ensures { result ≡ ancestor (map issue_in issues.now) number back }
{
    let mut at = number;
    for i in 0..back {
        at = parent_of(issues, at);
    }
    at
}

/// The issue's name and parent, where the event is an issue.
#[tactic(auto, unfolding(crate::specs::Facts::as_issue, crate::specs::Rows::issue_in))]
fn as_issue(event: &Event) -> Option<Issued>
    ensures { option_map issue_in result ≡ as_issue event.now }
{
    match event {
        Event::Issue { name, parent, .. } => Some(Issued {
            name: *name,
            parent: *parent,
        }),
        _ => None,
    }
}

/// Adds the issue that the event is, if it is one.
fn add_issue(issues: &mut Vec<Issued>, names: &mut Tree, event: &Event)
    requires room { vec_len issues.old < vec_capacity issues.old }
    requires names_room { 1 ≤ names.old.spare }
    requires named { IsTagged name_cmp name_tag no_name (names_of issues.old.items) names.old }
    ensures named { IsTagged name_cmp name_tag no_name (names_of issues.new.items) names.new }
    ensures names_spare { names.old.spare ≤ names.new.spare + 1 }
    ensures issues { map issue_in issues.new.items ≡ map issue_in issues.old.items ++ issues_in (event.now ∷ []) }
    ensures len { vec_len issues.new ≤ vec_len issues.old + 1 }
    ensures capacity { vec_capacity issues.new ≡ vec_capacity issues.old }
{
    if let Some(issue) = as_issue(event) {
        let named = Named {
            issues: issues.as_slice(),
            name: issue.name,
        };
        names.add(&named);
        issues.push_reserved(issue);
    }
}

impl Log {
    pub fn new(alloc: Global) -> Log
        ensures { result.events ≡ [] }
    {
        Log {
            events: Vec::new(alloc),
            issues: Vec::new(alloc),
            names: Tree::new(alloc),
        }
    }

    pub fn events(&self) -> &[Event]
        ensures value { result.now ≡ self.now.events }
        ensures few { length result.now < 2 ^ 31 }
    {
        self.events.as_slice()
    }

    pub fn len(&self) -> u32
        ensures { result ≡ length self.now.events }
    {
        self.events.len() as u32
    }

    pub fn spare(&self) -> u32
        ensures { result ≡ self.now.spare }
    {
        let events = self.events.capacity().min(MAX_EVENTS) - self.events.len();
        let issues = self.issues.capacity() - self.issues.len();
        events.min(issues.min(self.names.spare() as usize)) as u32
    }

    /// Makes room for so many more events.
    pub fn reserve(&mut self, events: u32) -> Result<(), AllocError>
        requires { length self.old.events + events < 2 ^ 31 }
        ensures events { self.new.events ≡ self.old.events }
        ensures spare { OnOk result (events ≤ self.new.spare) }
        ensures succeeds { events ≤ self.old.spare → IsOk result }
        ensures kept { self.old.spare ≤ self.new.spare }
    {
        self.events.reserve(events as usize)?;
        self.issues.reserve(events as usize)?;
        self.names.reserve(events)?;
        Ok(())
    }

    /// Adds an event.
    pub fn push(&mut self, event: Event)
        requires { 1 ≤ self.old.spare }
        ensures events { self.new.events ≡ self.old.events ++ event ∷ [] }
        ensures spare { self.old.spare ≤ self.new.spare + 1 }
    {
        add_issue(&mut self.issues, &mut self.names, &event);
        self.events.push_reserved(event);
    }

    /// How many issues there are.
    pub fn issues(&self) -> u32
        ensures { result ≡ length (issues_in self.now.events) }
    {
        self.issues.len() as u32
    }

    /// The name of an issue, and the number of the issue that it goes on from.
    #[tactic(auto, unfolding(crate::specs::Rows::issue_in))]
    pub fn issue(&self, number: u32) -> Option<(HopName, u32)>
        ensures { result ≡ option_map (λ i. (i.name, i.parent)) (chains.issue_at (issues_in self.now.events) number) }
    {
        match issue_at(self.issues.as_slice(), number) {
            Some(issue) => Some((issue.name, issue.parent)),
            None => None,
        }
    }

    /// The number of the first issue of a name.
    pub fn issue_of(&self, name: &HopName) -> Option<u32>
        ensures { result ≡ queries.issue_of (issues_in self.now.events) name.now }
    {
        match place_of(self.issues.as_slice(), &self.names, name) {
            Some(place) => Some(place + 1),
            None => None,
        }
    }

    /// The number of the issue that an issue goes on from, so many issues before it.
    pub fn ancestor(&self, number: u32, back: u8) -> u32
        ensures { result ≡ ancestor (issues_in self.now.events) number back }
    {
        ancestor_of(self.issues.as_slice(), number, back)
    }
}
