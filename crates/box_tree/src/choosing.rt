//! What is seen of the alternatives of a choice.

ghost use Rattle.std.specs.Prelude.{◌≡◌, ◌∷◌, [], List, map, Some, IfOk};
ghost use Rattle.std.specs.Map.{lookup};
ghost use Rattle.akl_terms.specs.declared.term.Node.{Node};
ghost use Rattle.akl_terms.specs.Names.{same_name};
ghost use Rattle.table_laws.specs.Walks.{alternatives_in, alternatives_of};
ghost use Rattle.box_tree.specs.Tables.{TableValue, table_of, box_row, goal_atom, shape_held};
ghost use Rattle.box_tree.specs.Paths.{known_with, seen_as, body_in, body_of_only};

use crate::entries::{BoxEntry, Held};
use crate::starting::only;
use crate::table::Table;
use crate::view::Alternative;
use akl_terms::{Goal, Name};
use std::alloc::{AllocError, Global};

impl Held {
    // The alternatives of a choice.
    pub(crate) fn alternatives(&self) -> &[Name]
        ensures { (nodes : List Node) → result.now ≡ alternatives_in (shape_held nodes self.now) }
    {
        match self {
            Held::Atom(_) => &[],
            Held::Choice { alternatives, .. } => alternatives.as_slice(),
        }
    }
}

// How many of the stores down to an alternative, of which this is the entry, are known to be solved together. So many are of
// those around it; where these are all, the latest change of one of them is given. With its own these are the whole. An `Err`
// comes for want of memory.
#[inline(always)]
fn known_with(
    entry: &BoxEntry,
    known: usize,
    latest: Option<u64>,
    whole: usize,
) -> Result<usize, AllocError>
    ensures { IfOk result (λ k. (nodes : List Node) → k ≡ known_with (Some (box_row nodes entry.now)) known latest whole) }
{
    let Some(number) = latest else {
        return Ok(known);
    };
    if entry.is_solved_over(number)? {
        return Ok(whole);
    }
    Ok(known)
}

impl BoxEntry {
    // What is seen of an alternative, of which this is the entry. An `Err` comes for want of memory.
    fn seen(
        &self,
        name: Name,
        known: usize,
        latest: Option<u64>,
        whole: usize,
    ) -> Result<Alternative, AllocError>
        ensures { (t : TableValue) → lookup (same_name name) t.boxes ≡ Some self.now → IfOk result (λ a. a ≡ seen_as t known latest whole name) }
    {
        let store = self.store.share()?;
        let known = known_with(self, known, latest, whole)?;
        Ok(Alternative {
            name,
            solved: self.goals.is_empty(),
            store,
            known,
            collected: self.collected,
        })
    }
}

impl Table {
    /// The alternatives of a goal in order, where it is a choice; none of another, and where it isn't there.
    pub fn alternatives_of(&self, goal: Name) -> &[Name]
        ensures { result.now ≡ alternatives_of ((table_of self.now).goal_of goal) }
    {
        match self.goals.get(goal) {
            Some(entry) => entry.held.alternatives(),
            None => &[],
        }
    }

    // What is seen of an alternative. An `Err` comes for want of memory, and where it isn't there.
    fn alternative_seen(
        &self,
        name: Name,
        known: usize,
        latest: Option<u64>,
        whole: usize,
    ) -> Result<Alternative, AllocError>
        ensures { IfOk result (λ a. a ≡ seen_as self.now known latest whole name) }
    {
        let Some(entry) = self.boxes.get(name) else {
            return Err(AllocError);
        };
        entry.seen(name, known, latest, whole)
    }

    // What is seen of alternatives, of which none is looked at for its body.
    fn alternatives_seen(
        &self,
        alloc: Global,
        names: &[Name],
        known: usize,
        latest: Option<u64>,
        whole: usize,
    ) -> Result<Vec<Alternative>, AllocError>
        ensures { IfOk result (λ v. v.items ≡ map (seen_as self.now known latest whole) names.now) }
    {
        let mut seen = Vec::new(alloc);
        for name in names {
            let alternative = self.alternative_seen(*name, known, latest, whole)?;
            seen.push(alternative)?;
        }
        Ok(seen)
    }

    // What is seen of the only alternative of a choice, and its body.
    fn only_seen(
        &self,
        alloc: Global,
        name: Name,
        known: usize,
        latest: Option<u64>,
        whole: usize,
    ) -> Result<(Vec<Alternative>, Vec<Goal>), AllocError>
        ensures alternatives { IfOk result (λ p. p.0.items ≡ seen_as self.now known latest whole name ∷ []) }
        ensures body { IfOk result (λ p. map (goal_atom self.now.program.templates.nodes) p.1.items ≡ body_in ((table_of self.now).box_of name)) }
    {
        let Some(entry) = self.boxes.get(name) else {
            return Err(AllocError);
        };
        let alternative = entry.seen(name, known, latest, whole)?;
        let alternatives = only(alloc, alternative)?;
        let body = Vec::from_slice(alloc, entry.body.as_slice())?;
        Ok((alternatives, body))
    }

    /// What is seen of the alternatives of a choice, and the body of the only one; no goals where there is none or more
    /// than one. So many of the stores around them are known to be solved together; where these are all, the latest change
    /// of one of them is given. The whole is how many stores there are down to each, with its own. An `Err` comes for want
    /// of memory, and where one of them isn't there.
    pub(crate) fn choice_seen(
        &self,
        alloc: Global,
        names: &[Name],
        known: usize,
        latest: Option<u64>,
        whole: usize,
    ) -> Result<(Vec<Alternative>, Vec<Goal>), AllocError>
        ensures alternatives { IfOk result (λ p. p.0.items ≡ map (seen_as self.now known latest whole) names.now) }
        ensures body { IfOk result (λ p. map (goal_atom self.now.program.templates.nodes) p.1.items ≡ body_of_only (table_of self.now) names.now) }
    {
        match names {
            [name] => self.only_seen(alloc, *name, known, latest, whole),
            _ => {
                let seen = self.alternatives_seen(alloc, names, known, latest, whole)?;
                Ok((seen, Vec::new(alloc)))
            }
        }
    }
}
