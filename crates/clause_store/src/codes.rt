//! The codes of written goals.

ghost use Rattle.std.specs.Prelude.{◌≡◌, ◌<◌, IfOk, map};
ghost use Rattle.std.specs.List.{All};
ghost use Rattle.term_syntax.specs.Tree.{trees};
ghost use Rattle.term_syntax.specs.View.{tree};
ghost use Rattle.akl_syntax.specs.Goals.{call, lifted, lifted_collect, goals};
ghost use Rattle.akl_syntax.specs.GoalView.{goal};
ghost use Rattle.akl_syntax.specs.Sizes.{goal_size, goals_size};
ghost use Rattle.clause_keys.specs.Conditions.{IsLoadable};
ghost use Rattle.clause_store.specs.Standing.{HasRoom};
ghost use Rattle.clause_store.specs.Putting.{reserved_code, IsGoalPut, AreGoalsPut};

use crate::nodes::{put_term, put_terms};
use crate::variables::put_variables;
use akl_syntax::{SourceGoal, SourceTerm};
use akl_terms::{Code, Templates};
use clause_keys::{Callees, Reserved, meaning_of};
use std::alloc::{AllocError, Global};

/// The code of a reserved goal whose arguments are the neighbouring nodes from `first` on. `true` has none.
fn reserved_code(meaning: Reserved, first: u32) -> Option<Code>
    requires { first < 4294967295 }
    ensures { result ≡ reserved_code meaning first }
{
    let second = first + 1;
    match meaning {
        Reserved::True => None,
        Reserved::Fail => Some(Code::Fail),
        Reserved::Equal => Some(Code::Equal {
            left: first,
            right: second,
        }),
        Reserved::Arith(test) => Some(Code::Arith {
            test,
            left: first,
            right: second,
        }),
        Reserved::OpenPort => Some(Code::OpenPort {
            port: first,
            stream: second,
        }),
        Reserved::Send => Some(Code::Send {
            message: first,
            port: second,
        }),
    }
}

/// Puts the arguments of a call, and gives its code.
fn call_code(
    alloc: Global,
    callees: &Callees,
    templates: &mut Templates,
    symbol: &str,
    arguments: &[SourceTerm],
) -> Result<Option<Code>, AllocError>
    requires loadable { IsLoadable callees.now (call symbol.now (trees (map tree arguments.now))) }
    requires room { HasRoom templates.old (goal_size (call symbol.now (trees (map tree arguments.now)))) }
    ensures { IfOk result (λ o. IsGoalPut callees.now templates.old templates.new (call symbol.now (trees (map tree arguments.now))) o) }
{
    let (first, count) = put_terms(alloc, templates, arguments)?;
    if let Some(meaning) = meaning_of(symbol, arguments.len()) {
        return Ok(reserved_code(meaning, first));
    }
    let Some(definition) = callees.named(symbol, count) else {
        unreachable!();
    };
    Ok(Some(Code::Call {
        definition,
        first,
        count,
    }))
}

/// Puts the arguments of a call of a definition that was made of an inline choice, and gives its code.
fn lifted_code(
    alloc: Global,
    callees: &Callees,
    templates: &mut Templates,
    number: u32,
    arguments: &[u32],
) -> Result<Option<Code>, AllocError>
    requires loadable { IsLoadable callees.now (lifted number arguments.now) }
    requires room { HasRoom templates.old (goal_size (lifted number arguments.now)) }
    ensures { IfOk result (λ o. IsGoalPut callees.now templates.old templates.new (lifted number arguments.now) o) }
{
    let first = put_variables(alloc, templates, arguments)?;
    let count = arguments.len() as u32;
    let Some(definition) = callees.lifted(number, count) else {
        unreachable!();
    };
    Ok(Some(Code::Call {
        definition,
        first,
        count,
    }))
}

/// Puts the arguments and the result of a call of a definition that was made of a collecting goal, and gives its code.
fn collecting_code(
    alloc: Global,
    callees: &Callees,
    templates: &mut Templates,
    number: u32,
    arguments: &[u32],
    list: &SourceTerm,
) -> Result<Option<Code>, AllocError>
    requires loadable { IsLoadable callees.now (lifted_collect number arguments.now (tree list.now)) }
    requires room { HasRoom templates.old (goal_size (lifted_collect number arguments.now (tree list.now))) }
    ensures { IfOk result (λ o. IsGoalPut callees.now templates.old templates.new (lifted_collect number arguments.now (tree list.now)) o) }
{
    let first = put_variables(alloc, templates, arguments)?;
    let node = put_term(alloc, templates, list)?;
    let count = arguments.len() as u32;
    let Some(definition) = callees.collecting(number, count) else {
        unreachable!();
    };
    Ok(Some(Code::Collect {
        definition,
        first,
        count,
        result: node,
    }))
}

/// Puts what a goal needs, and gives its code. `true` has none.
fn goal_code(
    alloc: Global,
    callees: &Callees,
    templates: &mut Templates,
    written: &SourceGoal,
) -> Result<Option<Code>, AllocError>
    requires loadable { IsLoadable callees.now (goal written.now) }
    requires room { HasRoom templates.old (goal_size (goal written.now)) }
    ensures { IfOk result (λ o. IsGoalPut callees.now templates.old templates.new (goal written.now) o) }
{
    match written {
        SourceGoal::Call { symbol, arguments } => {
            call_code(alloc, callees, templates, symbol.as_str(), arguments)
        }
        SourceGoal::Lifted { number, arguments } => {
            lifted_code(alloc, callees, templates, *number, arguments)
        }
        SourceGoal::LiftedCollect {
            number,
            arguments,
            result: list,
        } => collecting_code(alloc, callees, templates, *number, arguments, list),
        SourceGoal::Choice(_) => unreachable!(),
        SourceGoal::Collect { .. } => unreachable!(),
    }
}

/// Puts what goals need, and gives their codes in order.
pub fn goal_codes(
    alloc: Global,
    callees: &Callees,
    templates: &mut Templates,
    written: &[SourceGoal],
) -> Result<Vec<Code>, AllocError>
    requires loadable { All (IsLoadable callees.now) (map goal written.now) }
    requires room { HasRoom templates.old (goals_size (goals (map goal written.now))) }
    ensures { IfOk result (λ v. AreGoalsPut callees.now templates.old templates.new (map goal written.now) v.items) }
{
    let mut codes = Vec::new(alloc);
    for goal in written {
        if let Some(code) = goal_code(alloc, callees, templates, goal)? {
            codes.push(code)?;
        }
    }
    Ok(codes)
}
