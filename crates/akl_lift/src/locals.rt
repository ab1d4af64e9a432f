//! The variables that are local to the collecting goals of a query, and its names without those of these.

ghost use Rattle.std.specs.Prelude.{◌≡◌, ◌++◌, map, IfOk, OnOk};
ghost use Rattle.akl_syntax.specs.Goals.{goals, parts};
ghost use Rattle.akl_syntax.specs.GoalView.{goal, part};
ghost use Rattle.akl_lift.specs.Lifting.{local_in, local_in_all, local_in_parts, hidden_name, hidden_from};

use crate::seen::is_known;
use crate::variables::add_term;
use akl_syntax::{SourceGoal, SourcePart};
use akl_terms::Text;
use std::alloc::{AllocError, Global};

/// Adds the variables of the terms that are collected in a goal.
#[cycle(locals)]
fn add_in_goal(found: &mut Vec<u32>, written: &SourceGoal) -> Result<(), AllocError>
    ensures { OnOk result (found.new.items ≡ found.old.items ++ local_in (goal written.now)) }
{
    match written {
        SourceGoal::Choice(parts) => add_in_parts(found, parts),
        SourceGoal::Collect {
            collected,
            goals,
            ..
        } => {
            add_term(found, collected)?;
            add_locals(found, goals)
        }
        SourceGoal::Call { .. } => Ok(()),
        SourceGoal::Lifted { .. } => Ok(()),
        SourceGoal::LiftedCollect { .. } => Ok(()),
    }
}

/// Adds the variables of the terms that are collected in goals.
#[cycle(locals)]
pub fn add_locals(found: &mut Vec<u32>, written: &[SourceGoal]) -> Result<(), AllocError>
    ensures { OnOk result (found.new.items ≡ found.old.items ++ local_in_all (goals (map goal written.now))) }
{
    for goal in written {
        add_in_goal(found, goal)?;
    }
    Ok(())
}

/// Adds the variables of the terms that are collected in parts.
#[cycle(locals)]
fn add_in_parts(found: &mut Vec<u32>, written: &[SourcePart]) -> Result<(), AllocError>
    ensures { OnOk result (found.new.items ≡ found.old.items ++ local_in_parts (parts (map part written.now))) }
{
    for part in written {
        add_locals(found, &part.guard)?;
        add_locals(found, &part.body)?;
    }
    Ok(())
}

/// The name of a variable, or an underscore where it is local.
fn hidden_name(alloc: Global, locals: &[u32], number: u32, name: &Text) -> Result<Text, AllocError>
    ensures { IfOk result (λ t. t ≡ hidden_name locals.now number name.now) }
{
    if is_known(locals, number) {
        Ok(Text::from_str(alloc, "_")?)
    } else {
        Ok(name.duplicate()?)
    }
}

/// The names, each by its number, with an underscore for each of a local variable.
pub fn hidden_names(alloc: Global, locals: &[u32], names: &[Text]) -> Result<Vec<Text>, AllocError>
    ensures { IfOk result (λ v. v.items ≡ hidden_from locals.now 0 names.now) }
{
    // No query has so many variables.
    if names.len() > 4294967295 {
        return Err(AllocError);
    }
    let mut found = Vec::new(alloc);
    for (index, name) in names.iter().enumerate() {
        let next = hidden_name(alloc, locals, index as u32, name)?;
        found.push(next)?;
    }
    Ok(found)
}
