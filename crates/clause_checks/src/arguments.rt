//! Terms and atoms with too many arguments.

ghost use Rattle.std.specs.Prelude.{◌≡◌, map, length, option_map};
ghost use Rattle.std.specs.Option.{option_or};
ghost use Rattle.term_syntax.specs.Tree.{trees, steps};
ghost use Rattle.term_syntax.specs.View.{tree, step};
ghost use Rattle.akl_syntax.specs.Answers.{clause_view};
ghost use Rattle.akl_syntax.specs.Goals.{goals, parts};
ghost use Rattle.akl_syntax.specs.GoalView.{goal, part};
ghost use Rattle.clause_checks.specs.Rows.{first, first_wide_in_term, first_wide_in_terms, first_wide_in_steps, first_wide_in_arguments, first_wide_in_goal, first_wide_in_goals, first_wide_in_parts, first_wide_in_collected, wide_head_arity, first_wide_in_clause};
ghost use Rattle.clause_checks.specs.Tallies.{clause_of};

use crate::limits::{ARGUMENTS, above};
use crate::listed::Listed;
use akl_syntax::{Head, SourceClause, SourceGoal, SourcePart, SourceStep, SourceTerm};

/// How many arguments the first term with too many has, the outer one first.
#[cycle(terms)]
fn first_wide_in_term(term: &SourceTerm) -> Option<usize>
    ensures { result ≡ first_wide_in_term (tree term.now) }
{
    match term {
        SourceTerm::Var(_) => None,
        SourceTerm::Int(_) => None,
        SourceTerm::Struct { arguments, .. } => first_wide_in_arguments(arguments),
        SourceTerm::List { items, tail } => {
            if let Some(count) = first_wide_in_terms(items) {
                return Some(count);
            }
            match tail {
                Some(tail) => first_wide_in_term(tail),
                None => None,
            }
        }
        SourceTerm::Chain { first, rest } => {
            if let Some(count) = first_wide_in_term(first) {
                return Some(count);
            }
            first_wide_in_steps(rest)
        }
    }
}

/// How many arguments there are, where they are too many, else how many the first term in them with
/// too many has.
#[cycle(terms)]
pub fn first_wide_in_arguments(arguments: &[SourceTerm]) -> Option<usize>
    ensures { result ≡ first_wide_in_arguments (trees (map tree arguments.now)) }
{
    if let Some(count) = above(ARGUMENTS, arguments.len()) {
        return Some(count);
    }
    first_wide_in_terms(arguments)
}

/// How many arguments the first term in the terms with too many has.
#[cycle(terms)]
pub fn first_wide_in_terms(terms: &[SourceTerm]) -> Option<usize>
    ensures { result ≡ first_wide_in_terms (trees (map tree terms.now)) }
{
    for term in terms {
        if let Some(count) = first_wide_in_term(term) {
            return Some(count);
        }
    }
    None
}

/// How many arguments the first term in the operands with too many has.
#[cycle(terms)]
fn first_wide_in_steps(operands: &[SourceStep]) -> Option<usize>
    ensures { result ≡ first_wide_in_steps (steps (map step operands.now)) }
{
    for step in operands {
        if let Some(count) = first_wide_in_term(&step.right) {
            return Some(count);
        }
    }
    None
}

/// How many arguments the first atom or term in the goal with too many has, in the order of the text.
#[cycle(goals)]
fn first_wide_in_goal(written: &SourceGoal) -> Option<usize>
    ensures { result ≡ first_wide_in_goal (goal written.now) }
{
    match written {
        SourceGoal::Call { arguments, .. } => first_wide_in_arguments(arguments),
        SourceGoal::Choice(parts) => first_wide_in_parts(parts),
        SourceGoal::Collect {
            collected,
            goals,
            result: list,
        } => {
            if let Some(count) = first_wide_in_term(collected) {
                return Some(count);
            }
            if let Some(count) = first_wide_in_goals(goals) {
                return Some(count);
            }
            first_wide_in_term(list)
        }
        SourceGoal::Lifted { .. } => None,
        SourceGoal::LiftedCollect { result: list, .. } => first_wide_in_term(list),
    }
}

/// How many arguments the first atom or term in the goals with too many has.
#[cycle(goals)]
pub fn first_wide_in_goals(written: &[SourceGoal]) -> Option<usize>
    ensures { result ≡ first_wide_in_goals (goals (map goal written.now)) }
{
    for goal in written {
        if let Some(count) = first_wide_in_goal(goal) {
            return Some(count);
        }
    }
    None
}

/// How many arguments the first atom or term in the parts with too many has.
#[cycle(goals)]
fn first_wide_in_parts(written: &[SourcePart]) -> Option<usize>
    ensures { result ≡ first_wide_in_parts (parts (map part written.now)) }
{
    for part in written {
        if let Some(count) = first_wide_in_part(part) {
            return Some(count);
        }
    }
    None
}

/// How many arguments the first atom or term in the part with too many has.
#[cycle(goals)]
fn first_wide_in_part(written: &SourcePart) -> Option<usize>
    ensures { result ≡ option_or (first_wide_in_goals (goals (map goal written.now.guard.items))) (first_wide_in_goals (goals (map goal written.now.body.items))) }
{
    if let Some(count) = first_wide_in_goals(&written.guard) {
        return Some(count);
    }
    first_wide_in_goals(&written.body)
}

/// How many arguments the head has, where it has too many. Those of a lifted definition aren't
/// written.
fn wide_head_arity(clause: &SourceClause) -> Option<usize>
    ensures { result ≡ wide_head_arity clause.now.head (length clause.now.arguments.items) }
{
    match &clause.head {
        Head::Named(_) => above(ARGUMENTS, clause.arguments.len()),
        Head::Lifted { .. } => None,
    }
}

/// How many arguments the first term in what the clause collects with too many has.
fn first_wide_in_collected(collected: &Option<SourceTerm>) -> Option<usize>
    ensures { result ≡ first_wide_in_collected (option_map tree collected.now) }
{
    match collected {
        Some(term) => first_wide_in_term(term),
        None => None,
    }
}

/// How many arguments the first atom or term in the clause with too many has.
fn first_wide_in_clause(clause: &SourceClause) -> Option<usize>
    ensures { result ≡ first_wide_in_clause (clause_view clause.now) }
{
    if let Some(count) = wide_head_arity(clause) {
        return Some(count);
    }
    if let Some(count) = first_wide_in_terms(&clause.arguments) {
        return Some(count);
    }
    if let Some(count) = first_wide_in_collected(&clause.collected) {
        return Some(count);
    }
    first_wide_in_part(&clause.part)
}

/// How many arguments the first atom or term with too many has.
pub fn first_wide(listed: &[Listed]) -> Option<usize>
    ensures { result ≡ first first_wide_in_clause (map clause_of listed.now) }
{
    for clause in listed {
        if let Some(count) = first_wide_in_clause(clause.clause) {
            return Some(count);
        }
    }
    None
}
