//! The clauses of each definition.

ghost use Rattle.std.specs.Prelude.{◌≡◌, ◌<◌, ◌≤◌, ◌+◌, IfOk, OnOk, length, map};
ghost use Rattle.std.specs.List.{All};
ghost use Rattle.akl_syntax.specs.Answers.{clause_view, clauses_view};
ghost use Rattle.akl_syntax.specs.Sizes.{clause_size, clauses_size};
ghost use Rattle.clause_keys.specs.Keys.{defined_by, Adds, IsAbsent, AreUnique};
ghost use Rattle.clause_store.specs.Groups.{put_at, AreGathered};

use akl_syntax::SourceClause;
use clause_keys::Callees;
use std::alloc::{AllocError, Global};

/// Puts the clause into the group of this number, which may be the next.
fn put(
    alloc: Global,
    groups: &mut Vec<Vec<SourceClause>>,
    at: usize,
    clause: SourceClause,
) -> Result<(), AllocError>
    requires { at ≤ length groups.old.items }
    ensures { OnOk result (map clauses_view groups.new.items ≡ put_at (map clauses_view groups.old.items) at (clause_view clause)) }
{
    if at == groups.len() {
        groups.push(Vec::new(alloc))?;
    }
    groups[at].push(clause)?;
    Ok(())
}

/// The clauses of each definition that they define, in order of first occurrence. What they define gets its number,
/// behind those that are known.
pub fn gather(
    alloc: Global,
    callees: &mut Callees,
    known: usize,
    clauses: Vec<SourceClause>,
) -> Result<Vec<Vec<SourceClause>>, AllocError>
    requires known { known ≡ length callees.old }
    requires unique { AreUnique callees.old }
    requires new { All (λ c. IsAbsent callees.old (defined_by c)) (clauses_view clauses) }
    requires few { length callees.old + clauses_size (clauses_view clauses) ≤ 4294967295 }
    ensures { IfOk result (λ groups. AreGathered callees.old (clauses_view clauses) callees.new (map clauses_view groups.items)) }
{
    let mut groups = Vec::new(alloc);
    for clause in clauses {
        let number = callees.add_clause(&clause)? as usize;
        put(alloc, &mut groups, number - known, clause)?;
    }
    Ok(groups)
}
