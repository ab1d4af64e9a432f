//! The tests of loading, in their order.

ghost use Rattle.std.specs.Prelude.{◌≡◌, ◌≤◌, [], map, length, option_map, OnOk, IfSome};
ghost use Rattle.std.specs.List.{All};
ghost use Rattle.akl_syntax.specs.Answers.{clause_view, query_view};
ghost use Rattle.akl_syntax.specs.Goals.{goals};
ghost use Rattle.akl_syntax.specs.GoalView.{goal};
ghost use Rattle.akl_syntax.specs.Sizes.{clause_size, clauses_size, goal_size, query_size};
ghost use Rattle.clause_keys.specs.Keys.{defined_by, called_by};
ghost use Rattle.clause_keys.specs.Conditions.{HasNoNested, IsLoadable, MayCollect, IsClauseLoadable, AreUnmixed};
ghost use Rattle.clause_checks.specs.declared.error.LoadError.TheVariants.{Undefined};
ghost use Rattle.clause_checks.specs.Rows.{first, above, goal_key};
ghost use Rattle.clause_checks.specs.Tallies.{AreListed, HasGoals, SameCallees, clause_of};
ghost use Rattle.clause_checks.specs.Refusals.{Answers, crowded_refusal, variables_refusal, wide_refusal, reserved_refusal, mixed_refusal, refusal_of_few, parts_refusal, names_refusal, wide_goals_refusal, mixed_goals_refusal, refusal_of, goals_refusal, query_refusal_of};
ghost use Rattle.clause_checks.specs.Accepted.{AreAccepted, IsAccepted};

use crate::arguments::{first_wide, first_wide_in_goals};
use crate::callees::callees_of;
use crate::calls::{first_undefined, first_undefined_goal};
use crate::choices::{first_crowded_choice, mixed_goals};
use crate::definitions::{first_crowded, first_mixed_clause};
use crate::error::{Limit, LoadError};
use crate::goals::goals_asked;
use crate::heads::first_reserved_clause;
use crate::keys::{clause_key, goal_key, no_key};
use crate::limits::{CLAUSES, VARIABLES, above, none_above};
use crate::listed::{Listed, list_clauses};
use akl_syntax::{SourceClause, SourceGoal, SourceQuery};
use akl_terms::Program;
use clause_keys::Callees;
use std::alloc::Global;

/// Refuses a definition with too many clauses, and an inline choice with too many parts.
fn none_crowded(listed: &[Listed]) -> Result<(), LoadError>
    requires { AreListed [] listed.now }
    ensures { Answers (crowded_refusal (map clause_of listed.now)) result }
{
    none_above(Limit::PerDefinition, first_crowded(listed))
}

/// How many variables the first clause with too many has.
fn first_many_variables(listed: &[Listed]) -> Option<usize>
    ensures { result ≡ first (λ c. above 256 (length c.names)) (map clause_of listed.now) }
{
    for clause in listed {
        if let Some(count) = above(VARIABLES, clause.clause.names.len()) {
            return Some(count);
        }
    }
    None
}

/// Refuses a clause with too many variables.
fn few_variables(listed: &[Listed]) -> Result<(), LoadError>
    ensures { Answers (variables_refusal (map clause_of listed.now)) result }
{
    none_above(Limit::Variables, first_many_variables(listed))
}

/// Refuses an atom or a term with too many arguments.
fn none_wide(listed: &[Listed]) -> Result<(), LoadError>
    ensures { Answers (wide_refusal (map clause_of listed.now)) result }
{
    none_above(Limit::Arity, first_wide(listed))
}

/// Refuses a clause with a reserved head.
fn none_reserved(listed: &[Listed]) -> Result<(), LoadError>
    requires { All (λ x. clause_size (clause_of x) ≤ 1000000) listed.now }
    ensures { Answers (reserved_refusal (map clause_of listed.now)) result }
{
    match first_reserved_clause(listed) {
        Some(clause) => Err(LoadError::Reserved {
            key: clause_key(clause)?,
        }),
        None => Ok(()),
    }
}

/// Refuses different operators of one definition or of one inline choice.
fn none_mixed(listed: &[Listed]) -> Result<(), LoadError>
    requires listed { AreListed [] listed.now }
    requires small { All (λ x. clause_size (clause_of x) ≤ 1000000) listed.now }
    ensures checked { Answers (mixed_refusal (map clause_of listed.now)) result }
    ensures unmixed { OnOk result (AreUnmixed (map clause_of listed.now)) }
{
    match first_mixed_clause(listed) {
        Some(clause) => Err(LoadError::MixedGuards {
            key: clause_key(clause)?,
        }),
        None => Ok(()),
    }
}

/// Refuses the goal that was found to call what has no definition.
fn none_undefined(alloc: Global, found: Option<&SourceGoal>) -> Result<(), LoadError>
    requires { IfSome found (λ g. goal_size (goal g.now) ≤ 1000000) }
    ensures { Answers (option_map Undefined (option_map (λ g. goal_key (goal g.now)) found.entry)) result }
{
    match found {
        Some(goal) => Err(LoadError::Undefined {
            key: goal_key(alloc, goal)?,
        }),
        None => Ok(()),
    }
}

/// Makes the tests of clauses of which there aren't too many.
fn check_listed(alloc: Global, callees: &Callees, listed: &[Listed]) -> Result<(), LoadError>
    requires listed { AreListed [] listed.now }
    requires goals { All HasGoals listed.now }
    requires small { All (λ x. clause_size (clause_of x) ≤ 1000000) listed.now }
    requires callees { SameCallees callees.now (map defined_by (map clause_of listed.now)) }
    ensures checked { Answers (refusal_of_few (map clause_of listed.now)) result }
    ensures unmixed { OnOk result (AreUnmixed (map clause_of listed.now)) }
{
    none_crowded(listed)?;
    few_variables(listed)?;
    none_wide(listed)?;
    none_reserved(listed)?;
    none_mixed(listed)?;
    none_undefined(alloc, first_undefined(callees, listed))
}

/// Refuses an inline choice with too many parts.
fn few_parts(written: &[&SourceGoal]) -> Result<(), LoadError>
    ensures { Answers (parts_refusal (map (λ g. goal g.now) written.now)) result }
{
    none_above(Limit::PerDefinition, first_crowded_choice(written))
}

/// Refuses too many variables.
fn few_names(variables: usize) -> Result<(), LoadError>
    ensures { Answers (names_refusal variables) result }
{
    none_above(Limit::Variables, above(VARIABLES, variables))
}

/// Refuses an atom or a term with too many arguments.
fn no_wide_goal(written: &[SourceGoal]) -> Result<(), LoadError>
    ensures { Answers (wide_goals_refusal (goals (map goal written.now))) result }
{
    none_above(Limit::Arity, first_wide_in_goals(written))
}

/// Refuses different operators of one inline choice.
fn no_mixed_goal(alloc: Global, written: &[&SourceGoal]) -> Result<(), LoadError>
    ensures { Answers (mixed_goals_refusal (map (λ g. goal g.now) written.now)) result }
{
    if mixed_goals(written) {
        return Err(LoadError::MixedGuards {
            key: no_key(alloc, 0),
        });
    }
    Ok(())
}

/// Makes the tests of goals with so many variables. `written` are these and those inside of them.
fn check_written(
    alloc: Global,
    callees: &Callees,
    variables: usize,
    asked: &[SourceGoal],
    written: &[&SourceGoal],
) -> Result<(), LoadError>
    requires { All (λ g. goal_size (goal g.now) ≤ 1000000) written.now }
    ensures { Answers (goals_refusal callees.now variables (goals (map goal asked.now)) (map (λ g. goal g.now) written.now)) result }
{
    few_parts(written)?;
    few_names(variables)?;
    no_wide_goal(asked)?;
    no_mixed_goal(alloc, written)?;
    none_undefined(alloc, first_undefined_goal(callees, written))
}

/// Whether clauses can be loaded, once they are lifted.
///
/// The tests are made in this order. In each the first clause in the order of the text decides, and in it
/// the first place from left to right:
/// - `TooMany` of `Clauses`: there are more than 10,000, with their number;
/// - `TooMany` of `PerDefinition`: a clause is the 257th of its definition, with the number of all clauses
///   of the definition, or an inline choice has more than 256 parts, with their number;
/// - `TooMany` of `Variables`: a clause has more than 256, with their number;
/// - `TooMany` of `Arity`: an atom or a term has more than 32 arguments, with their number;
/// - `Reserved`: a clause's head is reserved, with its key;
/// - `MixedGuards`: a clause has another operator than an earlier one of its definition, or two parts of
///   an inline choice in it have different operators, with the key of the clause's definition;
/// - `Undefined`: a goal is neither reserved nor calls what has a clause, with its key.
///
/// `Memory` may come in place of each of these, and in place of `Ok`.
pub fn check_clauses(alloc: Global, clauses: &[SourceClause]) -> Result<(), LoadError>
    requires small { clauses_size (map clause_view clauses.now) ≤ 1000000 }
    ensures checked { Answers (refusal_of (map clause_view clauses.now)) result }
    ensures accepted { OnOk result (AreAccepted (map clause_view clauses.now)) }
    ensures loadable { OnOk result (All (λ c. HasNoNested c.part.guard → HasNoNested c.part.body → MayCollect c.part.op c.head c.collected c.part.body → IsClauseLoadable (map defined_by (map clause_view clauses.now)) c) (map clause_view clauses.now)) }
    ensures unmixed { OnOk result (AreUnmixed (map clause_view clauses.now)) }
{
    none_above(Limit::Clauses, above(CLAUSES, clauses.len()))?;
    let listing = list_clauses(alloc, clauses)?;
    check_listed(alloc, &listing.callees, listing.clauses.as_slice())
}

/// Whether a query can be loaded over a program, once it is lifted.
///
/// The tests are made in this order. In each the first place from left to right decides:
/// - `TooMany` of `PerDefinition`: an inline choice has more than 256 parts, with their number;
/// - `TooMany` of `Variables`: there are more than 256, with their number;
/// - `TooMany` of `Arity`: an atom or a term has more than 32 arguments, with their number;
/// - `MixedGuards`: two parts of an inline choice have different operators; the key is the empty symbol
///   without arguments;
/// - `Undefined`: a goal is neither reserved nor calls a definition of the program, with its key.
///
/// `Memory` may come in place of each of these, and in place of `Ok`.
pub fn check_goals(alloc: Global, program: &Program, query: &SourceQuery) -> Result<(), LoadError>
    requires { query_size (query_view query.now) ≤ 1000000 }
    ensures checked { Answers (query_refusal_of program.now (query_view query.now)) result }
    ensures accepted { OnOk result (IsAccepted (map called_by program.now.definitions) (query_view query.now)) }
    ensures loadable { OnOk result (HasNoNested (query_view query.now).goals → All (IsLoadable (map called_by program.now.definitions)) (query_view query.now).goals) }
    ensures few { OnOk result (length query.now.names.items ≤ 256) }
{
    let written = goals_asked(alloc, query)?;
    let callees = callees_of(alloc, program.definitions.as_slice())?;
    check_written(
        alloc,
        &callees,
        query.names.len(),
        &query.goals,
        written.as_slice(),
    )
}
