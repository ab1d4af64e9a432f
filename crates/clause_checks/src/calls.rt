//! Goals that call what has no clause.

ghost use Rattle.std.specs.Prelude.{◌≡◌, ◌≤◌, map, option_map, IfSome};
ghost use Rattle.std.specs.List.{All};
ghost use Rattle.akl_syntax.specs.GoalView.{goal};
ghost use Rattle.akl_syntax.specs.Sizes.{goal_size, clause_size};
ghost use Rattle.clause_checks.specs.Within.{goals_in};
ghost use Rattle.clause_checks.specs.Tallies.{HasGoals, clause_of};
ghost use Rattle.clause_checks.specs.Rows.{first, is_defined, goal_key, key_if_undefined};

use crate::listed::Listed;
use akl_syntax::SourceGoal;
use clause_keys::{Callees, meaning_of};

/// Whether the goal is reserved, calls one of the callees, or has others inside, which aren't looked at.
fn is_defined(callees: &Callees, written: &SourceGoal) -> bool
    requires { goal_size (goal written.now) ≤ 1000000 }
    ensures { result ≡ is_defined callees.now (goal written.now) }
{
    match written {
        SourceGoal::Call { symbol, arguments } => {
            let symbol = symbol.as_str();
            meaning_of(symbol, arguments.len()).is_some()
                || callees.named(symbol, arguments.len() as u32).is_some()
        }
        SourceGoal::Choice(_) => true,
        SourceGoal::Collect { .. } => true,
        SourceGoal::Lifted { number, arguments } => {
            callees.lifted(*number, arguments.len() as u32).is_some()
        }
        SourceGoal::LiftedCollect {
            number,
            arguments,
            ..
        } => callees
            .collecting(*number, arguments.len() as u32)
            .is_some(),
    }
}

/// The first goal that is neither reserved nor calls one of the callees.
pub fn first_undefined_goal<'a>(
    callees: &Callees,
    written: &[&'a SourceGoal],
) -> Option<&'a SourceGoal>
    requires { All (λ g. goal_size (goal g.now) ≤ 1000000) written.now }
    ensures found { option_map (λ g. goal_key (goal g.now)) result ≡ first (key_if_undefined callees.now) (map (λ g. goal g.now) written.now) }
    ensures small { IfSome result (λ g. goal_size (goal g.now) ≤ 1000000) }
{
    for goal in written {
        if !is_defined(callees, goal) {
            return Some(goal);
        }
    }
    None
}

/// The first goal of the clauses that is neither reserved nor calls one of the callees.
pub fn first_undefined<'a>(callees: &Callees, listed: &[Listed<'a>]) -> Option<&'a SourceGoal>
    requires goals { All HasGoals listed.now }
    requires small { All (λ x. clause_size (clause_of x) ≤ 1000000) listed.now }
    ensures found { option_map (λ g. goal_key (goal g.now)) result ≡ first (λ c. first (key_if_undefined callees.now) (goals_in c)) (map clause_of listed.now) }
    ensures small { IfSome result (λ g. goal_size (goal g.now) ≤ 1000000) }
{
    for clause in listed {
        if let Some(goal) = first_undefined_goal(callees, &clause.goals) {
            return Some(goal);
        }
    }
    None
}
