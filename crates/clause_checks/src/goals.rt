//! The goals of a clause or a query in the order of the text, those inside of others too.

ghost use Rattle.std.specs.Prelude.{◌≡◌, ◌++◌, map, IfOk, OnOk};
ghost use Rattle.akl_syntax.specs.Goals.{goals, parts};
ghost use Rattle.akl_syntax.specs.GoalView.{goal, part};
ghost use Rattle.akl_syntax.specs.Answers.{clause_view, query_view};
ghost use Rattle.clause_checks.specs.Within.{goals_of, goals_of_all, goals_of_parts, goals_in, goals_asked};

use akl_syntax::{SourceClause, SourceGoal, SourcePart, SourceQuery};
use std::alloc::{AllocError, Global};

/// Adds the goal, and behind it those inside of it.
#[cycle(goals)]
fn add_goal<'a>(written: &'a SourceGoal, found: &mut Vec<&'a SourceGoal>) -> Result<(), AllocError>
    ensures { OnOk result (map (λ g. goal g.now) found.new.items ≡ map (λ g. goal g.now) found.old.items ++ goals_of (goal written.now)) }
{
    found.push(written)?;
    match written {
        SourceGoal::Choice(parts) => add_parts(parts, found),
        SourceGoal::Collect { goals, .. } => add_goals(goals, found),
        SourceGoal::Call { .. } => Ok(()),
        SourceGoal::Lifted { .. } => Ok(()),
        SourceGoal::LiftedCollect { .. } => Ok(()),
    }
}

/// Adds the goals, each with those inside of it.
#[cycle(goals)]
fn add_goals<'a>(
    written: &'a [SourceGoal],
    found: &mut Vec<&'a SourceGoal>,
) -> Result<(), AllocError>
    ensures { OnOk result (map (λ g. goal g.now) found.new.items ≡ map (λ g. goal g.now) found.old.items ++ goals_of_all (goals (map goal written.now))) }
{
    for goal in written {
        add_goal(goal, found)?;
    }
    Ok(())
}

/// Adds the goals of the guards and the bodies.
#[cycle(goals)]
fn add_parts<'a>(
    written: &'a [SourcePart],
    found: &mut Vec<&'a SourceGoal>,
) -> Result<(), AllocError>
    ensures { OnOk result (map (λ g. goal g.now) found.new.items ≡ map (λ g. goal g.now) found.old.items ++ goals_of_parts (parts (map part written.now))) }
{
    for part in written {
        add_goals(&part.guard, found)?;
        add_goals(&part.body, found)?;
    }
    Ok(())
}

/// The goals of a clause.
pub fn goals_in(alloc: Global, clause: &SourceClause) -> Result<Vec<&SourceGoal>, AllocError>
    ensures { IfOk result (λ v. map (λ g. goal g.now) v.items ≡ goals_in (clause_view clause.now)) }
{
    let mut found = Vec::new(alloc);
    add_goals(&clause.part.guard, &mut found)?;
    add_goals(&clause.part.body, &mut found)?;
    Ok(found)
}

/// The goals of a query.
pub fn goals_asked(alloc: Global, query: &SourceQuery) -> Result<Vec<&SourceGoal>, AllocError>
    ensures { IfOk result (λ v. map (λ g. goal g.now) v.items ≡ goals_asked (query_view query.now)) }
{
    let mut found = Vec::new(alloc);
    add_goals(&query.goals, &mut found)?;
    Ok(found)
}
