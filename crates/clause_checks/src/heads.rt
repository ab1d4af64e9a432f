//! Clauses with a reserved head.

ghost use Rattle.std.specs.Prelude.{◌≡◌, ◌≤◌, map, length, option_map, IfSome};
ghost use Rattle.std.specs.List.{All};
ghost use Rattle.akl_syntax.specs.Answers.{clause_view};
ghost use Rattle.akl_syntax.specs.Sizes.{clause_size};
ghost use Rattle.clause_checks.specs.Rows.{first, is_reserved, key_if_reserved, clause_key};
ghost use Rattle.clause_checks.specs.Tallies.{clause_of};

use crate::listed::Listed;
use akl_syntax::{Head, SourceClause};
use clause_keys::is_reserved as is_reserved_key;

/// Whether the clause's head is reserved.
fn is_reserved(clause: &SourceClause) -> bool
    ensures { result ≡ is_reserved clause.now.head (length clause.now.arguments.items) }
{
    match &clause.head {
        Head::Named(symbol) => is_reserved_key(symbol.as_str(), clause.arguments.len()),
        Head::Lifted { .. } => false,
    }
}

/// The first clause with a reserved head.
pub fn first_reserved_clause<'a>(listed: &[Listed<'a>]) -> Option<&'a SourceClause>
    requires { All (λ x. clause_size (clause_of x) ≤ 1000000) listed.now }
    ensures found { option_map (λ c. clause_key (clause_view c.now)) result ≡ first key_if_reserved (map clause_of listed.now) }
    ensures small { IfSome result (λ c. clause_size (clause_view c.now) ≤ 1000000) }
{
    for clause in listed {
        if is_reserved(clause.clause) {
            return Some(clause.clause);
        }
    }
    None
}
