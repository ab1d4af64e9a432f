//! Clauses with what the tests need of each.

ghost use Rattle.std.specs.Prelude.{◌≡◌, ◌<◌, ◌≤◌, ℕ, [], Some, length, map, slice_get, IfOk, OnOk};
ghost use Rattle.std.specs.List.{All};
ghost use Rattle.akl_syntax.specs.Answers.{clause_view};
ghost use Rattle.akl_syntax.specs.Sizes.{clause_size};
ghost use Rattle.clause_keys.specs.Keys.{defined_by};
ghost use Rattle.clause_checks.specs.declared.tally.Tally.{Tally};
ghost use Rattle.clause_checks.specs.Tallies.{SameCallees, AreListed, Lists, clause_of};

use crate::goals::goals_in;
use crate::tally::{Tally, count};
use akl_syntax::{SourceClause, SourceGoal};
use clause_keys::Callees;
use std::alloc::{AllocError, Global};

/// A clause, its goals in the order of the text, those inside of inline choices too, and the tally of its
/// definition among the clauses before it.
#[derive(Drop)]
pub struct Listed<'a> {
    pub clause: &'a SourceClause,
    pub goals: Vec<&'a SourceGoal>,
    pub before: Tally,
}

/// The clauses in order, what they define, and a tally for each definition.
#[derive(Drop)]
pub struct Listing<'a> {
    pub clauses: Vec<Listed<'a>>,
    pub callees: Callees,
    pub tallies: Vec<Tally>,
}

impl<'a> Listing<'a> {
    fn new(alloc: Global) -> Self
        ensures clauses { result.clauses.items ≡ [] }
        ensures callees { result.callees ≡ [] }
        ensures tallies { result.tallies.items ≡ [] }
    {
        Listing {
            clauses: Vec::new(alloc),
            callees: Callees::new(alloc),
            tallies: Vec::new(alloc),
        }
    }

    /// Lists a clause more.
    fn add(&mut self, alloc: Global, clause: &'a SourceClause) -> Result<(), AllocError>
        requires lengths { length self.old.tallies.items ≡ length self.old.callees }
        requires room { length self.old.callees < 4294967295 }
        requires small { clause_size (clause_view clause.now) ≤ 1000000 }
        requires few { (d : ℕ) (t : Tally) → slice_get self.old.tallies.items d ≡ Some t → t.clauses < 1000000 }
        ensures { OnOk result (Lists (clause_view clause.now) self.old self.new) }
    {
        let definition = self.callees.add_clause(clause)?;
        let before = count(&mut self.tallies, definition as usize, clause.part.op)?;
        let goals = goals_in(alloc, clause)?;
        self.clauses.push(Listed {
            clause,
            goals,
            before,
        })?;
        Ok(())
    }
}

/// Lists the clauses.
pub fn list_clauses(alloc: Global, clauses: &[SourceClause]) -> Result<Listing<'_>, AllocError>
    requires few { length clauses.now ≤ 1000000 }
    requires small { All (λ c. clause_size (clause_view c) ≤ 1000000) clauses.now }
    ensures same { IfOk result (λ l. map clause_of l.clauses.items ≡ map clause_view clauses.now) }
    ensures listed { IfOk result (λ l. AreListed [] l.clauses.items) }
    ensures callees { IfOk result (λ l. SameCallees l.callees (map defined_by (map clause_view clauses.now))) }
{
    let mut listing = Listing::new(alloc);
    for clause in clauses {
        listing.add(alloc, clause)?;
    }
    Ok(listing)
}
