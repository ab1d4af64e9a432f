//! Inline choices: how many parts they have, and their operators.

ghost use Rattle.std.specs.Prelude.{◌≡◌, map};
ghost use Rattle.std.specs.List.{list_any};
ghost use Rattle.akl_syntax.specs.Goals.{parts};
ghost use Rattle.akl_syntax.specs.GoalView.{goal, part};
ghost use Rattle.clause_checks.specs.Rows.{first, too_many_parts, mixed_parts, mixed_choice};

use crate::limits::{ALTERNATIVES, above};
use akl_syntax::{SourceGoal, SourcePart};
use akl_terms::Op;

/// How many parts an inline choice has, where it has too many. The goals in it aren't looked at.
fn too_many_parts(written: &SourceGoal) -> Option<usize>
    ensures { result ≡ too_many_parts (goal written.now) }
{
    match written {
        SourceGoal::Choice(parts) => above(ALTERNATIVES, parts.len()),
        SourceGoal::Call { .. } => None,
        SourceGoal::Collect { .. } => None,
        SourceGoal::Lifted { .. } => None,
        SourceGoal::LiftedCollect { .. } => None,
    }
}

/// How many parts the first inline choice with too many has.
pub fn first_crowded_choice(written: &[&SourceGoal]) -> Option<usize>
    ensures { result ≡ first too_many_parts (map (λ g. goal g.now) written.now) }
{
    for goal in written {
        if let Some(count) = too_many_parts(goal) {
            return Some(count);
        }
    }
    None
}

/// Whether some part has another operator.
fn mixed_parts(op: Op, written: &[SourcePart]) -> bool
    ensures { result ≡ mixed_parts op (parts (map part written.now)) }
{
    for part in written {
        if part.op != op {
            return true;
        }
    }
    false
}

/// Whether two parts of an inline choice have different operators. The goals in it aren't looked at.
fn mixed_choice(written: &SourceGoal) -> bool
    ensures { result ≡ mixed_choice (goal written.now) }
{
    match written {
        SourceGoal::Choice(parts) => match parts.split_first() {
            Some((first, rest)) => mixed_parts(first.op, rest),
            None => false,
        },
        SourceGoal::Call { .. } => false,
        SourceGoal::Collect { .. } => false,
        SourceGoal::Lifted { .. } => false,
        SourceGoal::LiftedCollect { .. } => false,
    }
}

/// Whether two parts of one inline choice have different operators.
pub fn mixed_goals(written: &[&SourceGoal]) -> bool
    ensures { result ≡ list_any mixed_choice (map (λ g. goal g.now) written.now) }
{
    for goal in written {
        if mixed_choice(goal) {
            return true;
        }
    }
    false
}
