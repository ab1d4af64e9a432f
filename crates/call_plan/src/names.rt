//! How many names are drawn.

ghost use Rattle.std.specs.Prelude.{◌≡◌, ◌<◌, ◌≤◌, ◌^◌, MatchOption};
ghost use Rattle.akl_model.specs.Instances.{drawn_by};

use akl_terms::Clause;

// One less than the number of names that are too many for one label.
pub(crate) const MOST: u64 = 4294967295;

// How many names the alternatives of these clauses draw; `None` where these are too many.
pub(crate) fn names_of(clauses: &[Clause]) -> Option<u64>
    ensures { MatchOption result (2 ^ 32 ≤ drawn_by clauses.now) (λ n. (n ≡ drawn_by clauses.now) × (n < 2 ^ 32)) }
{
    let mut names: u64 = 0;
    for clause in clauses {
        let guard = clause.guard.len() as u64;
        if guard > MOST {
            return None;
        }
        names += 2 + guard;
        if names > MOST {
            return None;
        }
    }
    Some(names)
}
