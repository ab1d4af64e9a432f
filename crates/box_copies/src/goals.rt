//! The goals, the body and the shown terms of a copy.

ghost use Rattle.std.specs.Prelude.{◌≡◌, IfOk, map, option_map};
ghost use Rattle.box_tree.specs.declared.inside.InnerGoal.{InnerGoal};
ghost use Rattle.box_copies.specs.Renamer.{swapped_name, term_by, op_by, goal_by, shown_by};
ghost use Rattle.box_copies.specs.Made.{without, IsHeldAs, AreGoalsAs};

use crate::names::NewNames;
use crate::stores::swapped_term;
use akl_terms::{Goal, Name, ShownTerm, Term};
use box_tree::{Held, HeldOp, InnerGoal};
use std::alloc::{AllocError, Global};

fn swapped_goal(names: &NewNames, goal: Goal) -> Goal
    ensures { result ≡ goal_by (swapped_name names.now) goal }
{
    Goal {
        code: goal.code,
        frame: names.swapped(goal.frame),
    }
}

// The names of alternatives but one, under new names.
fn swapped_others(
    alloc: Global,
    names: &NewNames,
    alternatives: &[Name],
    alternative: Name,
) -> Result<Vec<Name>, AllocError>
    ensures { IfOk result (λ v. v.items ≡ map (swapped_name names.now) (without alternative alternatives.now)) }
{
    let mut others = Vec::new(alloc);
    for name in alternatives {
        if *name != alternative {
            others.push(names.swapped(*name))?;
        }
    }
    Ok(others)
}

// The operator of a choice, under new names.
fn swapped_op(names: &NewNames, op: HeldOp) -> HeldOp
    ensures { result ≡ op_by (swapped_name names.now) op }
{
    match op {
        HeldOp::Condition => HeldOp::Condition,
        HeldOp::Commit => HeldOp::Commit,
        HeldOp::Choice => HeldOp::Choice,
        HeldOp::Collect(result) => HeldOp::Collect(swapped_term(names, result)),
    }
}

/// What is collected of a box, under new names.
pub(crate) fn swapped_collected(names: &NewNames, collected: Option<Term>) -> Option<Term>
    ensures { result ≡ option_map (term_by (swapped_name names.now)) collected }
{
    match collected {
        Some(term) => Some(swapped_term(names, term)),
        None => None,
    }
}

// What a goal holds, without the alternative.
fn copied_held(
    alloc: Global,
    names: &NewNames,
    held: &Held,
    alternative: Name,
) -> Result<Held, AllocError>
    ensures { IfOk result (IsHeldAs (swapped_name names.now) alternative held.now) }
{
    match held {
        Held::Atom(goal) => Ok(Held::Atom(swapped_goal(names, *goal))),
        Held::Choice {
            op,
            alternatives,
            since,
        } => {
            let others = swapped_others(alloc, names, alternatives.as_slice(), alternative)?;
            Ok(Held::Choice {
                op: swapped_op(names, *op),
                alternatives: others,
                since: *since,
            })
        }
    }
}

/// The goals of a box, under new names and without the alternative.
pub(crate) fn copied_goals(
    alloc: Global,
    names: &NewNames,
    goals: &[InnerGoal],
    alternative: Name,
) -> Result<Vec<(Name, Held)>, AllocError>
    ensures { IfOk result (λ v. AreGoalsAs (swapped_name names.now) alternative goals.now v.items) }
{
    let mut copies = Vec::new(alloc);
    for goal in goals {
        let held = copied_held(alloc, names, &goal.held, alternative)?;
        copies.push((names.swapped(goal.name), held))?;
    }
    Ok(copies)
}

/// A body under new names.
pub(crate) fn copied_body(
    alloc: Global,
    names: &NewNames,
    body: &[Goal],
) -> Result<Vec<Goal>, AllocError>
    ensures { IfOk result (λ v. v.items ≡ map (goal_by (swapped_name names.now)) body.now) }
{
    let mut copies = Vec::new(alloc);
    for goal in body {
        copies.push(swapped_goal(names, *goal))?;
    }
    Ok(copies)
}

/// Shown terms under new names.
pub(crate) fn copied_shown(
    alloc: Global,
    names: &NewNames,
    shown: &[ShownTerm],
) -> Result<Vec<ShownTerm>, AllocError>
    ensures { IfOk result (λ v. v.items ≡ map (shown_by (swapped_name names.now)) shown.now) }
{
    let mut copies = Vec::new(alloc);
    for term in shown {
        let name = term.name.duplicate()?;
        copies.push(ShownTerm {
            name,
            term: swapped_term(names, term.term),
        })?;
    }
    Ok(copies)
}
