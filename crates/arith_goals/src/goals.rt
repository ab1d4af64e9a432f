//! What arithmetic goals come to.

ghost use Rattle.std.specs.Prelude.{◌≡◌, IfOk, Some};
ghost use Rattle.akl_terms.specs.Arithmetic.{compares};
ghost use Rattle.akl_terms.specs.Equal.{Equations, IsTold, IsConsistentBy};
ghost use Rattle.akl_terms.specs.Template.{tree};
ghost use Rattle.rational_unify.specs.Known.{IsSolved};
ghost use Rattle.rational_unify.specs.Forms.{IsFormOf};
ghost use Rattle.local_store.specs.Chained.{ToldBy};
ghost use Rattle.arith_goals.specs.Answers.{Answers, AnswersIn, ComesTo, IsArithmetic, WaitsAtEnd, WaitsAtEndIn};

use crate::walk::{Walked, walk_expression};
use akl_terms::{Code, Goal, Templates, Term, Test, Var};
use local_store::{Chain, take_stores};
use rational_unify::{AddedBindings, Form, Lookup};
use std::alloc::{AllocError, Global};

/// What an arithmetic goal comes to under the equations of a chain.
#[derive(Clone, Copy, Debug, PartialEq, Eq)]
pub enum ArithValue {
    /// The value of the right side of `is`.
    Is(i128),
    /// The comparison holds.
    Holds,
    /// The comparison doesn't hold.
    Fails,
    /// The first obstacle is a class that isn't structured; the variable stands for it, as the end of
    /// its chain of bindings.
    Waits { on: Var },
    /// The first obstacle is a term that is no expression, a value that is undefined or beyond 128
    /// bits, or an expression inside itself.
    Never,
}

/// What an arithmetic goal comes to under the equations that a chain's stores tell.
///
/// Of `is` the right side is walked, of a comparison the left side and then the right one; depth
/// first, left operands before right ones, and no operation twice. What isn't known to be solved of
/// the chain is solved first.
pub fn evaluate(alloc: Global, chain: &Chain, goal: Goal) -> Result<ArithValue, AllocError>
    requires consistent { IsConsistentBy (ToldBy chain.now.nodes chain.now.stores) }
    requires arithmetic { IsArithmetic goal.code }
    ensures answers { IfOk result (λ answer. AnswersIn chain.now goal answer) }
    ensures end { IfOk result (λ answer. WaitsAtEndIn chain.now answer) }
{
    let templates = chain.templates();
    let known = chain.known();
    if known == chain.stores().len() {
        return evaluate_over(alloc, templates, chain, goal);
    }
    let base = chain.outer(known);
    let mut form = Form {
        known: &base,
        added: AddedBindings::new(alloc),
    };
    match take_stores(alloc, templates, &mut form, &chain.stores()[known..])? {
        // Not where the chain is consistent.
        Some(_) => Ok(ArithValue::Never),
        None => evaluate_over(alloc, templates, &form, goal),
    }
}

/// What an arithmetic goal comes to, read through bindings that are a solved form.
pub fn evaluate_over<K: Lookup>(
    alloc: Global,
    templates: &Templates,
    known: &K,
    goal: Goal,
) -> Result<ArithValue, AllocError>
    requires solved { IsSolved templates.now.nodes (K.bindings known.now) }
    requires arithmetic { IsArithmetic goal.code }
    ensures answers { IfOk result (λ answer. (E : Equations) → IsFormOf templates.now.nodes (K.bindings known.now) (IsTold E) → Answers templates.now E goal answer) }
    ensures end { IfOk result (λ answer. WaitsAtEnd templates.now.nodes (K.bindings known.now) answer) }
{
    let Code::Arith { test, left, right } = goal.code else {
        // Not where the goal is arithmetic.
        return Ok(ArithValue::Never);
    };
    let frame = goal.frame;
    let left = Term::Mol { node: left, frame };
    let right = Term::Mol { node: right, frame };
    match test {
        Test::Is => Ok(match walk_expression(alloc, templates, known, right)? {
            Walked::Is(value) => ArithValue::Is(value),
            Walked::Waits(on) => ArithValue::Waits { on },
            Walked::Never => ArithValue::Never,
        }),
        _ => compare(alloc, templates, known, test, left, right),
    }
}

/// What a comparison of two expressions comes to, read through bindings.
fn compare<K: Lookup>(
    alloc: Global,
    templates: &Templates,
    known: &K,
    test: Test,
    left: Term,
    right: Term,
) -> Result<ArithValue, AllocError>
    requires solved { IsSolved templates.now.nodes (K.bindings known.now) }
    requires comparison { test ≡ Test.Is → ⊥ }
    ensures comes { IfOk result (λ answer. (E : Equations) → IsFormOf templates.now.nodes (K.bindings known.now) (IsTold E)
        → ComesTo templates.now.symbols E test (tree templates.now.nodes left) (tree templates.now.nodes right) answer) }
    ensures end { IfOk result (λ answer. WaitsAtEnd templates.now.nodes (K.bindings known.now) answer) }
{
    let first = match walk_expression(alloc, templates, known, left)? {
        Walked::Is(value) => value,
        Walked::Waits(on) => return Ok(ArithValue::Waits { on }),
        Walked::Never => return Ok(ArithValue::Never),
    };
    let second = match walk_expression(alloc, templates, known, right)? {
        Walked::Is(value) => value,
        Walked::Waits(on) => return Ok(ArithValue::Waits { on }),
        Walked::Never => return Ok(ArithValue::Never),
    };
    if holds(test, first, second) {
        Ok(ArithValue::Holds)
    } else {
        Ok(ArithValue::Fails)
    }
}

/// Whether a comparison holds of two values.
fn holds(test: Test, left: i128, right: i128) -> bool
    requires { test ≡ Test.Is → ⊥ }
    ensures { compares test left right ≡ Some result }
{
    match test {
        // Not a comparison.
        Test::Is => false,
        Test::Less => left < right,
        Test::Greater => left > right,
        Test::AtMost => left <= right,
        Test::AtLeast => left >= right,
        Test::Same => left == right,
        Test::Differs => left != right,
    }
}
