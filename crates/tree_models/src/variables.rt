//! The variables of bindings and shown terms.

ghost use Rattle.std.specs.Prelude.{◌≡◌, ◌++◌, IfOk, OnOk, map};
ghost use Rattle.constraint_laws.specs.Touched.{IsAmong};
ghost use Rattle.local_store.specs.Chained.{bindings_from};
ghost use Rattle.tree_models.specs.Variables.{AreVariablesOf, free_in, free_variables, AreOnce};

use crate::starts::{push_bound, shown_starts, start_graph};
use akl_terms::{Seen, ShownTerm, Templates, Term, Var};
use local_store::{Shared, Store};
use rational_unify::Nothing;
use std::alloc::{AllocError, Global};

/// All bindings of stores, those of inner stores first.
pub fn all_bindings(alloc: Global, stores: &[Shared<Store>]) -> Result<Vec<(Var, Term)>, AllocError>
    ensures { IfOk result (λ list. list.items ≡ bindings_from stores.now) }
{
    let mut list = Vec::new(alloc);
    let mut left = stores.len();
    while left > 0 {
        left -= 1;
        let bindings = stores[left].get().bindings()?;
        push_bindings(&mut list, bindings.as_slice())?;
    }
    Ok(list)
}

// Adds bindings.
fn push_bindings(list: &mut Vec<(Var, Term)>, bindings: &[(Var, Term)]) -> Result<(), AllocError>
    ensures { OnOk result (list.new.items ≡ list.old.items ++ bindings.now) }
{
    for binding in bindings {
        list.push(*binding)?;
    }
    Ok(())
}

/// The variables that occur in bindings or in shown terms, each once, in increasing order.
///
/// This costs a step for each symbol that occurs under one frame.
pub fn variables_of(
    alloc: Global,
    templates: &Templates,
    bindings: &[(Var, Term)],
    shown: &[ShownTerm],
) -> Result<Vec<Var>, AllocError>
    ensures { IfOk result (λ list. AreVariablesOf templates.now.nodes bindings.now shown.now list.items) }
{
    let mut starts = shown_starts(alloc, shown)?;
    push_bound(&mut starts, bindings)?;
    let graph = start_graph(alloc, templates, &Nothing, &starts)?;
    let mut list = free_variables(alloc, &graph.seens)?;
    push_keys(&mut list, bindings)?;
    put_in_order(&mut list);
    Ok(list)
}

// The variables with which nodes begin.
fn free_variables(alloc: Global, seens: &[Seen]) -> Result<Vec<Var>, AllocError>
    ensures { IfOk result (λ list. list.items ≡ free_variables seens.now) }
{
    let mut list = Vec::new(alloc);
    for seen in seens {
        push_free(&mut list, *seen)?;
    }
    Ok(list)
}

// Adds the variable with which a node begins, if it is one.
fn push_free(list: &mut Vec<Var>, seen: Seen) -> Result<(), AllocError>
    ensures { OnOk result (list.new.items ≡ list.old.items ++ free_in seen) }
{
    match seen {
        Seen::Free(variable) => Ok(list.push(variable)?),
        _ => Ok(()),
    }
}

// Adds the variables of bindings.
fn push_keys(list: &mut Vec<Var>, bindings: &[(Var, Term)]) -> Result<(), AllocError>
    ensures { OnOk result (list.new.items ≡ list.old.items ++ map (λ b. b.0) bindings.now) }
{
    for binding in bindings {
        list.push(binding.0)?;
    }
    Ok(())
}

// Puts variables in increasing order, each once.
fn put_in_order(list: &mut Vec<Var>)
    ensures { AreOnce list.old.items list.new.items }
{
    list.sort_unstable();
    list.dedup();
}
