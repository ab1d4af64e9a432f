//! Goals whose variables have their numbers.

ghost use Rattle.std.specs.Prelude.{◌≡◌, ◌++◌, length, map, IfOk};
ghost use Rattle.term_syntax.specs.View.{tree};
ghost use Rattle.term_syntax.specs.Variables.{tree_variables};
ghost use Rattle.akl_syntax.specs.Goals.{goals, parts, collect};
ghost use Rattle.akl_syntax.specs.GoalView.{goal, part};
ghost use Rattle.akl_syntax.specs.Variables.{goal_variables, goals_variables, parts_variables};
ghost use Rattle.variable_scopes.specs.Numbering.{state, AreBelow, Numbered, NumbersInside};
ghost use Rattle.variable_scopes.specs.Shapes.{tree_shape, goal_shape, goals_shape, parts_shape};
ghost use Rattle.variable_scopes.specs.Spellings.{goal_spellings, goals_spellings, parts_spellings};

use crate::numbering::Numbering;
use crate::terms::{numbered_all, numbered_term, numbered_terms};
use crate::variables::add_term;
use akl_syntax::{SourceGoal, SourcePart, SourceTerm};
use std::alloc::{AllocError, Global};

/// The goal with the numbers of its variables.
#[cycle(goals)]
fn numbered_goal(
    alloc: Global,
    numbering: &mut Numbering,
    written: &SourceGoal,
) -> Result<SourceGoal, AllocError>
    requires { AreBelow (length numbering.old.current.items) (goal_variables (goal written.now)) }
    ensures shape { IfOk result (λ g. goal_shape (goal g) ≡ goal_shape (goal written.now)) }
    ensures numbers { IfOk result (λ g. Numbered (state numbering.old) (goal_spellings (goal written.now)) (goal_variables (goal g)) (state numbering.new)) }
{
    match written {
        SourceGoal::Call { symbol, arguments } => Ok(SourceGoal::Call {
            symbol: symbol.duplicate()?,
            arguments: numbered_terms(alloc, numbering, arguments)?,
        }),
        SourceGoal::Choice(parts) => {
            let parts = numbered_parts(alloc, numbering, parts)?;
            Ok(SourceGoal::Choice(parts))
        }
        SourceGoal::Lifted { number, arguments } => {
            let arguments = numbered_all(alloc, numbering, arguments)?;
            Ok(SourceGoal::Lifted {
                number: *number,
                arguments,
            })
        }
        SourceGoal::Collect {
            collected,
            goals,
            result,
        } => {
            let (collected, goals) = numbered_inside(alloc, numbering, collected, goals)?;
            let result = numbered_term(alloc, numbering, result)?;
            Ok(SourceGoal::Collect {
                collected,
                goals,
                result,
            })
        }
        SourceGoal::LiftedCollect {
            number,
            arguments,
            result,
        } => {
            let arguments = numbered_all(alloc, numbering, arguments)?;
            let result = numbered_term(alloc, numbering, result)?;
            Ok(SourceGoal::LiftedCollect {
                number: *number,
                arguments,
                result,
            })
        }
    }
}

/// The term and the goals of a collecting goal with the numbers of their variables.
#[cycle(goals)]
fn numbered_inside(
    alloc: Global,
    numbering: &mut Numbering,
    collected: &SourceTerm,
    written: &[SourceGoal],
) -> Result<(SourceTerm, Vec<SourceGoal>), AllocError>
    requires { AreBelow (length numbering.old.current.items) (tree_variables (tree collected.now) ++ goals_variables (goals (map goal written.now))) }
    ensures term { IfOk result (λ x. tree_shape (tree x.0) ≡ tree_shape (tree collected.now)) }
    ensures goals { IfOk result (λ x. goals_shape (goals (map goal x.1.items)) ≡ goals_shape (goals (map goal written.now))) }
    ensures numbers { IfOk result (λ x. NumbersInside (state numbering.old) (tree_variables (tree collected.now)) (goals_spellings (goals (map goal written.now))) (tree_variables (tree x.0) ++ goals_variables (goals (map goal x.1.items))) (state numbering.new)) }
{
    let mut spellings = Vec::new(alloc);
    add_term(&mut spellings, collected)?;
    let outside = numbering.named(alloc, &spellings)?;
    numbering.enter(&spellings);
    let collected = numbered_term(alloc, numbering, collected)?;
    let goals = numbered_goals(alloc, numbering, written)?;
    numbering.leave(&outside);
    Ok((collected, goals))
}

/// The goals with the numbers of their variables.
#[cycle(goals)]
pub fn numbered_goals(
    alloc: Global,
    numbering: &mut Numbering,
    written: &[SourceGoal],
) -> Result<Vec<SourceGoal>, AllocError>
    requires { AreBelow (length numbering.old.current.items) (goals_variables (goals (map goal written.now))) }
    ensures shape { IfOk result (λ v. goals_shape (goals (map goal v.items)) ≡ goals_shape (goals (map goal written.now))) }
    ensures numbers { IfOk result (λ v. Numbered (state numbering.old) (goals_spellings (goals (map goal written.now))) (goals_variables (goals (map goal v.items))) (state numbering.new)) }
{
    let mut found = Vec::new(alloc);
    for goal in written {
        let next = numbered_goal(alloc, numbering, goal)?;
        found.push(next)?;
    }
    Ok(found)
}

/// The parts of an inline choice with the numbers of their variables.
#[cycle(goals)]
fn numbered_parts(
    alloc: Global,
    numbering: &mut Numbering,
    written: &[SourcePart],
) -> Result<Vec<SourcePart>, AllocError>
    requires { AreBelow (length numbering.old.current.items) (parts_variables (parts (map part written.now))) }
    ensures shape { IfOk result (λ v. parts_shape (parts (map part v.items)) ≡ parts_shape (parts (map part written.now))) }
    ensures numbers { IfOk result (λ v. Numbered (state numbering.old) (parts_spellings (parts (map part written.now))) (parts_variables (parts (map part v.items))) (state numbering.new)) }
{
    let mut found = Vec::new(alloc);
    for part in written {
        let guard = numbered_goals(alloc, numbering, &part.guard)?;
        let body = numbered_goals(alloc, numbering, &part.body)?;
        found.push(SourcePart {
            guard,
            op: part.op,
            body,
        })?;
    }
    Ok(found)
}
