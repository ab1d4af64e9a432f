//! What is seen of a place.

ghost use Rattle.std.specs.Prelude.{◌≡◌, ◌+◌, List, ◌∷◌, Some, IfOk, slice_index};
ghost use Rattle.std.specs.Map.{lookup};
ghost use Rattle.akl_terms.specs.Names.{same_name};
ghost use Rattle.akl_terms.specs.declared.name.Name.{Name};
ghost use Rattle.akl_terms.specs.declared.term.Node.{Node};
ghost use Rattle.box_tree.specs.Tables.{table_of, box_row, goals_in};
ghost use Rattle.box_tree.specs.Paths.{home_at, outside_of, IsPath, HasPath, sight_held, sight_in, is_at_least, solving_in, is_solved_over, solving_over, known_in, latest_in};

use crate::alone::stands_alone;
use crate::entries::{BoxEntry, Held};
use crate::short::ShortList;
use crate::table::Table;
use crate::view::Sight;
use akl_terms::{Name, Place};
use std::alloc::{AllocError, Global};

pub(crate) fn sight_held(held: &Held) -> Sight
    ensures { result ≡ sight_held held.now }
{
    match held {
        Held::Atom(goal) => Sight::Atom(*goal),
        Held::Choice { op, .. } => Sight::Choice { op: *op },
    }
}

// Whether a store was solved when there were at least so many labels.
pub(crate) fn is_at_least(solved_at: Option<u64>, latest: u64) -> bool
    ensures { result ≡ is_at_least solved_at latest }
{
    match solved_at {
        Some(at) => !(at < latest),
        None => false,
    }
}

impl BoxEntry {
    /// When its store was solved, and the number of the last label that changed it.
    pub(crate) fn solving(&self) -> (Option<u64>, u64)
        ensures { (nodes : List Node) → result ≡ solving_in (Some (box_row nodes self.now)) }
    {
        (self.solved_at, self.changed)
    }

    /// Whether its store is solved with those around it, where these are and others around it were last changed by the label
    /// of this number. An `Err` comes for want of memory.
    #[inline(always)]
    pub(crate) fn is_solved_over(&self, latest: u64) -> Result<bool, AllocError>
        ensures { IfOk result (λ solved. (nodes : List Node) → solved ≡ is_solved_over (Some (box_row nodes self.now)) latest) }
    {
        if is_at_least(self.solved_at, latest) {
            return Ok(true);
        }
        if self.solved_at.is_none() || self.goals.is_empty() {
            return Ok(false);
        }
        stands_alone(self.store.get())
    }
}

impl Table {
    /// What stands at a place, and its box; `None` where it isn't there.
    pub fn sight_of(&self, place: Place) -> Option<(Name, Sight)>
        ensures { result ≡ sight_in self.now place }
    {
        match place {
            Place::Goal(name) => match self.goals.get(name) {
                Some(entry) => Some((entry.home, sight_held(&entry.held))),
                None => None,
            },
            Place::Box(name) => match self.boxes.get(name) {
                Some(entry) => Some((
                    name,
                    Sight::Box {
                        failing: entry.failing,
                    },
                )),
                None => None,
            },
        }
    }

    /// The box in which the choice stands that holds a box; `None` of a root box, and where it isn't there.
    pub fn outside(&self, name: Name) -> Option<Name>
        ensures { result ≡ outside_of (table_of self.now) name }
    {
        match self.boxes.get(name) {
            Some(entry) => self.home_around(entry.holder),
            None => None,
        }
    }

    /// The box in which the choice stands that holds a box; `None` where none does.
    pub(crate) fn home_around(&self, holder: Option<Name>) -> Option<Name>
        ensures { result ≡ home_at (table_of self.now) holder }
    {
        match holder {
            Some(goal) => self.home_of(goal),
            None => None,
        }
    }

    /// The boxes down to a box, outermost first. It takes as long as they are many. An `Err` comes for want of memory.
    pub fn path_to(&self, alloc: Global, name: Name) -> Result<ShortList<Name>, AllocError>
        requires { HasPath self.now name }
        ensures { IfOk result (λ path. IsPath (table_of self.now) name path.items) }
    {
        let mut path = ShortList::of(name);
        let mut at = name;
        while let Some(home) = self.outside(at) {
            path.push(alloc, home)?;
            at = home;
        }
        path.reverse();
        Ok(path)
    }

    /// The goals of a box, in increasing order of names; none where it isn't there. An `Err` comes for want of memory.
    pub fn goals_of(&self, alloc: Global, name: Name) -> Result<Vec<Name>, AllocError>
        ensures { IfOk result (λ goals. goals.items ≡ goals_in ((table_of self.now).box_of name)) }
    {
        let mut goals = Vec::new(alloc);
        let Some(entry) = self.boxes.get(name) else {
            return Ok(goals);
        };
        for goal in entry.goals.iter() {
            goals.push(*goal)?;
        }
        Ok(goals)
    }

    /// How many of the outermost boxes are known to be solved together; where all are, also the number of the last label that
    /// changed one of them. When the outermost was solved and last changed is known, and the entry of the box with this name.
    /// An `Err` comes for want of memory.
    #[inline(always)]
    pub(crate) fn known_of(
        &self,
        path: &[Name],
        outermost: (Option<u64>, u64),
        home: Name,
        entry: &BoxEntry,
    ) -> Result<(usize, Option<u64>), AllocError>
        requires home { lookup (same_name home) self.now.boxes ≡ Some entry.now }
        requires outermost { (n : Name) (ns : List Name) → path.now ≡ n ∷ ns → outermost ≡ solving_in ((table_of self.now).box_of n) }
        ensures known { IfOk result (λ p. p.0 ≡ known_in (table_of self.now) 0 path.now) }
        ensures latest { IfOk result (λ p. p.1 ≡ latest_in (table_of self.now) 0 path.now) }
    {
        let Some((_, inner)) = path.split_first() else {
            return Ok((0, Some(0)));
        };
        let (first_solved_at, first_changed) = outermost;
        if !is_at_least(first_solved_at, 0) {
            return Ok((0, None));
        }
        if inner.is_empty() {
            return Ok((1, Some(first_changed)));
        }
        self.known_inside(inner, first_changed, home, entry)
    }

    // How many of the outermost boxes are known to be solved together, of which the first one is and was last changed by the label
    // of this number; where all are, also the number of the last label that changed one of them. The entry of one box is
    // known. An `Err` comes for want of memory.
    fn known_inside(
        &self,
        inner: &[Name],
        changed: u64,
        home: Name,
        entry: &BoxEntry,
    ) -> Result<(usize, Option<u64>), AllocError>
        requires { lookup (same_name home) self.now.boxes ≡ Some entry.now }
        ensures known { IfOk result (λ p. p.0 ≡ known_in (table_of self.now) changed inner.now + 1) }
        ensures latest { IfOk result (λ p. p.1 ≡ latest_in (table_of self.now) changed inner.now) }
    {
        let mut known = 1;
        let mut latest = changed;
        for name in inner {
            let (solved, changed) = self.solving_over(*name, home, entry, latest)?;
            if !solved {
                return Ok((known, None));
            }
            latest = latest.max(changed);
            known += 1;
        }
        Ok((known, Some(latest)))
    }

    // Whether a box's store is solved with those around it, where these are and others around it were last changed by the
    // label of this number, and the number of the last label that changed it; not, and 0, of a box that isn't there. The entry
    // of one box is known. An `Err` comes for want of memory.
    fn solving_over(
        &self,
        name: Name,
        home: Name,
        entry: &BoxEntry,
        latest: u64,
    ) -> Result<(bool, u64), AllocError>
        requires { lookup (same_name home) self.now.boxes ≡ Some entry.now }
        ensures { IfOk result (λ p. p ≡ solving_over ((table_of self.now).box_of name) latest) }
    {
        if name == home {
            let solved = entry.is_solved_over(latest)?;
            return Ok((solved, entry.changed));
        }
        let Some(other) = self.boxes.get(name) else {
            return Ok((false, 0));
        };
        let solved = other.is_solved_over(latest)?;
        Ok((solved, other.changed))
    }

    /// A worker's next number.
    pub(crate) fn next_of(&self, worker: u32) -> u64
        ensures { result ≡ slice_index self.now.next worker }
    {
        self.next.get(worker as usize).copied().unwrap_or(0)
    }
}
