//! Definitions: how many clauses they have, and their operators.

ghost use Rattle.std.specs.Prelude.{◌≡◌, ◌≤◌, ◌||◌, not, [], List, map, length, option_map, IfSome, IfNone};
ghost use Rattle.std.specs.List.{All, list_any};
ghost use Rattle.akl_terms.specs.declared.program.Op.TheVariants as ops;
ghost use Rattle.akl_syntax.specs.Answers.{clause_view};
ghost use Rattle.akl_syntax.specs.Clauses.{Clause};
ghost use Rattle.akl_syntax.specs.Sizes.{clause_size};
ghost use Rattle.akl_syntax.specs.GoalView.{goal};
ghost use Rattle.clause_keys.specs.Keys.{defined_by};
ghost use Rattle.clause_keys.specs.Conditions.{AreUnmixed};
ghost use Rattle.clause_checks.specs.Rows.{first, is_callee, own, with_before, first_crowded_in_clause, same_op, mixed_choice, key_if_mixed, clause_key};
ghost use Rattle.clause_checks.specs.Tallies.{AreListed, IsListed, clause_of};

use crate::choices::{first_crowded_choice, mixed_goals};
use crate::limits::ALTERNATIVES;
use crate::listed::Listed;
use akl_syntax::{Head, SourceClause};
use akl_terms::Op;

/// Whether the clause is of a definition that collects.
fn collects(clause: &SourceClause) -> bool
    ensures { result ≡ same_op ops.Collect clause.now.part.op }
{
    clause.part.op == Op::Collect
}

/// Whether both clauses are of one definition.
fn same_definition(clause: &SourceClause, other: &SourceClause) -> bool
    ensures { result ≡ is_callee (defined_by (clause_view clause.now)) (defined_by (clause_view other.now)) }
{
    match &clause.head {
        Head::Named(symbol) => match &other.head {
            Head::Named(found) => {
                symbol.as_str() == found.as_str() && clause.arguments.len() == other.arguments.len()
            }
            Head::Lifted { .. } => false,
        },
        Head::Lifted { number, .. } => match &other.head {
            Head::Lifted { number: found, .. } => {
                if collects(clause) != collects(other) {
                    return false;
                }
                number == found && clause.arguments.len() == other.arguments.len()
            }
            Head::Named(_) => false,
        },
    }
}

/// How many clauses the definition of the clause has.
fn definition_size(listed: &[Listed], clause: &SourceClause) -> usize
    ensures { result ≡ length (own (clause_view clause.now) (map clause_of listed.now)) }
{
    listed
        .iter()
        .filter(|other| same_definition(clause, other.clause))
        .count()
}

/// How many clauses the clause's definition has, where the clause is the first that is too many, else how
/// many parts the first inline choice in it with too many has.
fn first_crowded_in_clause(listed: &[Listed], clause: &Listed) -> Option<usize>
    ensures { (before : List Clause) → IsListed before clause.now → result ≡ first_crowded_in_clause (map clause_of listed.now) (before, clause_of clause.now) }
{
    if clause.before.clauses >= ALTERNATIVES {
        return Some(definition_size(listed, clause.clause));
    }
    first_crowded_choice(&clause.goals)
}

/// How many clauses the first definition, or parts the first inline choice, with too many has.
pub fn first_crowded(listed: &[Listed]) -> Option<usize>
    requires { AreListed [] listed.now }
    ensures { result ≡ first (first_crowded_in_clause (map clause_of listed.now)) (with_before [] (map clause_of listed.now)) }
{
    for clause in listed {
        if let Some(count) = first_crowded_in_clause(listed, clause) {
            return Some(count);
        }
    }
    None
}

/// Whether the clause has another operator than the first of its definition, or a mixed inline choice.
fn is_mixed(clause: &Listed) -> bool
    ensures { result ≡ (not (same_op clause.now.clause.now.part.op clause.now.before.op) || list_any mixed_choice (map (λ g. goal g.now) clause.now.goals.items)) }
{
    clause.clause.part.op != clause.before.op || mixed_goals(&clause.goals)
}

/// The first clause with another operator than an earlier one of its definition, or with an inline choice
/// two parts of which have different operators.
pub fn first_mixed_clause<'a>(listed: &[Listed<'a>]) -> Option<&'a SourceClause>
    requires listed { AreListed [] listed.now }
    requires small { All (λ x. clause_size (clause_of x) ≤ 1000000) listed.now }
    ensures found { option_map (λ c. clause_key (clause_view c.now)) result ≡ first key_if_mixed (with_before [] (map clause_of listed.now)) }
    ensures small { IfSome result (λ c. clause_size (clause_view c.now) ≤ 1000000) }
    ensures unmixed { IfNone result (AreUnmixed (map clause_of listed.now)) }
{
    for clause in listed {
        if is_mixed(clause) {
            return Some(clause.clause);
        }
    }
    None
}
