//! The keys that refusals name.

ghost use Rattle.std.specs.Prelude.{◌≡◌, ◌≤◌, [], IfOk};
ghost use Rattle.akl_syntax.specs.Answers.{clause_view};
ghost use Rattle.akl_syntax.specs.GoalView.{goal};
ghost use Rattle.akl_syntax.specs.Sizes.{clause_size, goal_size};
ghost use Rattle.clause_checks.specs.Rows.{key, clause_key, goal_key};

use akl_syntax::{Head, SourceClause, SourceGoal};
use akl_terms::{Key, Text};
use std::alloc::{AllocError, Global};

/// The key of what the clause defines. Of a lifted definition it is that of the definition around it.
pub fn clause_key(clause: &SourceClause) -> Result<Key, AllocError>
    requires { clause_size (clause_view clause.now) ≤ 1000000 }
    ensures { IfOk result (λ k. k ≡ clause_key (clause_view clause.now)) }
{
    match &clause.head {
        Head::Named(symbol) => Ok(Key {
            symbol: symbol.duplicate()?,
            arity: clause.arguments.len() as u32,
        }),
        Head::Lifted { inside, .. } => Ok(Key {
            symbol: inside.symbol.duplicate()?,
            arity: inside.arity,
        }),
    }
}

/// The key of what the goal calls. An inline choice, a collecting goal and what was made of one have
/// the empty symbol.
pub fn goal_key(alloc: Global, written: &SourceGoal) -> Result<Key, AllocError>
    requires { goal_size (goal written.now) ≤ 1000000 }
    ensures { IfOk result (λ k. k ≡ goal_key (goal written.now)) }
{
    match written {
        SourceGoal::Call { symbol, arguments } => Ok(Key {
            symbol: symbol.duplicate()?,
            arity: arguments.len() as u32,
        }),
        SourceGoal::Choice(_) => Ok(no_key(alloc, 0)),
        SourceGoal::Collect { .. } => Ok(no_key(alloc, 0)),
        SourceGoal::Lifted { arguments, .. } => Ok(no_key(alloc, arguments.len() as u32)),
        SourceGoal::LiftedCollect { arguments, .. } => { Ok(no_key(alloc, arguments.len() as u32)) }
    }
}

/// The empty symbol with so many arguments.
pub fn no_key(alloc: Global, arity: u32) -> Key
    ensures { result ≡ key [] arity }
{
    Key {
        symbol: Text::new(String::new(alloc)),
        arity,
    }
}
