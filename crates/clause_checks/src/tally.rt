//! How many clauses a definition has so far.

ghost use Rattle.std.specs.Prelude.{◌≡◌, ◌<◌, ◌≤◌, Some, length, slice_get, IfOk};
ghost use Rattle.clause_checks.specs.Tallies.{Tallies};
ghost use Rattle.clause_checks.specs.declared.tally.Tally.{Tally};

use akl_terms::Op;
use std::alloc::AllocError;

/// How many clauses a definition has among some, and the operator of the first of them.
#[derive(Clone, Copy)]
pub struct Tally {
    pub clauses: usize,
    pub op: Op,
}

/// Counts a clause of the definition, and gives the tally before it. A definition without a tally gets
/// the next.
pub fn count(tallies: &mut Vec<Tally>, definition: usize, op: Op) -> Result<Tally, AllocError>
    requires within { definition ≤ length tallies.old.items }
    requires few { (t : Tally) → slice_get tallies.old.items definition ≡ Some t → t.clauses < 1000000 }
    ensures { IfOk result (Tallies tallies.old.items op definition tallies.new.items) }
{
    if definition < tallies.len() {
        let before = tallies[definition];
        tallies[definition] = Tally {
            clauses: before.clauses + 1,
            op: before.op,
        };
        return Ok(before);
    }
    tallies.push(Tally { clauses: 1, op })?;
    Ok(Tally { clauses: 0, op })
}
