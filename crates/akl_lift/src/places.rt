//! Variables by their places in an order.

ghost use Rattle.std.specs.Prelude.{◌≡◌, ◌≤◌, ◌==◌, map, IfOk, length};
ghost use Rattle.std.specs.List.{position};
ghost use Rattle.term_syntax.specs.Tree.{trees, steps};
ghost use Rattle.term_syntax.specs.View.{tree, step, tail_view};
ghost use Rattle.akl_lift.specs.Places.{place, placed_variable, placed_tree, placed_trees, placed_tail, placed_steps};

use akl_syntax::{SourceStep, SourceTerm};
use std::alloc::{AllocError, Global};

fn position(order: &[u32], number: u32) -> Option<usize>
    ensures { result ≡ position (λ n. n == number) order.now }
{
    order.iter().position(|n| *n == number)
}

/// The place of a variable in an order; one that isn't there keeps its number.
fn place(order: &[u32], number: u32) -> u32
    requires { length order.now ≤ 4294967295 }
    ensures { result ≡ place order.now number }
{
    match position(order, number) {
        Some(index) => index as u32,
        None => number,
    }
}

/// The variables by their places.
pub fn placed(alloc: Global, order: &[u32], numbers: &[u32]) -> Result<Vec<u32>, AllocError>
    requires { length order.now ≤ 4294967295 }
    ensures { IfOk result (λ v. v.items ≡ map (place order.now) numbers.now) }
{
    let mut found = Vec::new(alloc);
    for number in numbers {
        found.push(place(order, *number))?;
    }
    Ok(found)
}

/// The variables as terms, by their places.
pub fn placed_variables(
    alloc: Global,
    order: &[u32],
    numbers: &[u32],
) -> Result<Vec<SourceTerm>, AllocError>
    requires { length order.now ≤ 4294967295 }
    ensures { IfOk result (λ v. map tree v.items ≡ map (placed_variable order.now) numbers.now) }
{
    let mut found = Vec::new(alloc);
    for number in numbers {
        found.push(SourceTerm::Var(place(order, *number)))?;
    }
    Ok(found)
}

/// A copy of a term in which variables go by their places.
#[cycle(terms)]
pub fn placed_term(
    alloc: Global,
    order: &[u32],
    term: &SourceTerm,
) -> Result<SourceTerm, AllocError>
    requires { length order.now ≤ 4294967295 }
    ensures { IfOk result (λ t. tree t ≡ placed_tree order.now (tree term.now)) }
{
    match term {
        SourceTerm::Var(number) => Ok(SourceTerm::Var(place(order, *number))),
        SourceTerm::Int(value) => Ok(SourceTerm::Int(*value)),
        SourceTerm::Struct { symbol, arguments } => Ok(SourceTerm::Struct {
            symbol: symbol.duplicate()?,
            arguments: placed_terms(alloc, order, arguments)?,
        }),
        SourceTerm::List { items, tail } => Ok(SourceTerm::List {
            items: placed_terms(alloc, order, items)?,
            tail: placed_tail(alloc, order, tail)?,
        }),
        SourceTerm::Chain { first, rest } => {
            let first = placed_term(alloc, order, first)?;
            let rest = placed_steps(alloc, order, rest)?;
            let first = Box::new(alloc, first)?;
            Ok(SourceTerm::Chain { first, rest })
        }
    }
}

/// Copies of terms in which variables go by their places.
#[cycle(terms)]
pub fn placed_terms(
    alloc: Global,
    order: &[u32],
    terms: &[SourceTerm],
) -> Result<Vec<SourceTerm>, AllocError>
    requires { length order.now ≤ 4294967295 }
    ensures { IfOk result (λ v. trees (map tree v.items) ≡ placed_trees order.now (trees (map tree terms.now))) }
{
    let mut found = Vec::new(alloc);
    for term in terms {
        let next = placed_term(alloc, order, term)?;
        found.push(next)?;
    }
    Ok(found)
}

/// A copy of what stands behind the items of a list.
#[cycle(terms)]
fn placed_tail(
    alloc: Global,
    order: &[u32],
    tail: &Option<Box<SourceTerm>>,
) -> Result<Option<Box<SourceTerm>>, AllocError>
    requires { length order.now ≤ 4294967295 }
    ensures { IfOk result (λ o. tail_view o ≡ placed_tail order.now (tail_view tail.now)) }
{
    match tail {
        Some(tail) => {
            let term = placed_term(alloc, order, tail)?;
            let term = Box::new(alloc, term)?;
            Ok(Some(term))
        }
        None => Ok(None),
    }
}

/// Copies of operands in which variables go by their places.
#[cycle(terms)]
fn placed_steps(
    alloc: Global,
    order: &[u32],
    operands: &[SourceStep],
) -> Result<Vec<SourceStep>, AllocError>
    requires { length order.now ≤ 4294967295 }
    ensures { IfOk result (λ v. steps (map step v.items) ≡ placed_steps order.now (steps (map step operands.now))) }
{
    let mut found = Vec::new(alloc);
    for step in operands {
        let symbol = step.symbol.duplicate()?;
        let right = placed_term(alloc, order, &step.right)?;
        found.push(SourceStep { symbol, right })?;
    }
    Ok(found)
}
