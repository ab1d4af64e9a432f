//! The model of a chain of stores.

ghost use Rattle.std.specs.Prelude.{IfOk};
ghost use Rattle.akl_terms.specs.Equal.{IsConsistentBy};
ghost use Rattle.local_store.specs.Chained.{ToldBy, equations_of};
ghost use Rattle.rational_unify.specs.Known.{IsSolved, end_of};
ghost use Rattle.tree_models.specs.Found.{IsModelGraph, IsTableOf, IsTableUnder};
ghost use Rattle.tree_models.specs.Solutions.{IsModelOfChain};

use crate::cell::Cell;
use crate::made::make_model;
use crate::starts::{StartGraph, push_variables, shown_starts, start_graph};
use crate::variables::{all_bindings, variables_of};
use akl_terms::{ShownTerm, Templates, Var};
use local_store::{Chain, take_stores};
use rational_unify::{AddedBindings, Form, Lookup};
use std::alloc::{AllocError, Global};
use tree_classes::{find_classes, find_tops};

/// A variable, and the place of its tree.
#[derive(Clone, Copy, Debug, PartialEq, Eq)]
pub struct Given {
    pub variable: Var,
    pub place: u64,
}

/// A finite table: cells, the places of variables in increasing order, and the places of shown terms.
#[derive(Drop)]
pub struct TreeModel {
    pub cells: Vec<Cell>,
    pub given: Vec<Given>,
    pub shown: Vec<u64>,
}

/// The table that solves the equations of a consistent chain, with the places of shown terms.
///
/// No two of its places are the same tree, a variable's place is free exactly where nothing is told of it, and the
/// places are numbered by first visit: depth first and left to right, from the shown terms in order, then from the
/// variables in increasing order.
pub fn find_model(
    alloc: Global,
    chain: &Chain,
    shown: &[ShownTerm],
) -> Result<TreeModel, AllocError>
    requires { IsConsistentBy (ToldBy chain.now.nodes chain.now.stores) }
    ensures { IfOk result (IsModelOfChain chain.now shown.now) }
{
    let bindings = all_bindings(alloc, chain.stores())?;
    let variables = variables_of(alloc, chain.templates(), &bindings, shown)?;
    chain_model(alloc, chain, shown, &variables)
}

// The model of a chain's bindings, over these variables.
fn chain_model(
    alloc: Global,
    chain: &Chain,
    shown: &[ShownTerm],
    variables: &[Var],
) -> Result<TreeModel, AllocError>
    requires { IsConsistentBy (ToldBy chain.now.nodes chain.now.stores) }
    ensures { IfOk result (IsTableOf chain.now.nodes (equations_of chain.now.nodes chain.now.stores) shown.now variables.now) }
{
    let templates = chain.templates();
    let known = chain.known();
    let base = chain.outer(known);
    let mut form = Form {
        known: &base,
        added: AddedBindings::new(alloc),
    };
    match take_stores(alloc, templates, &mut form, &chain.stores()[known..])? {
        // Not where the chain is consistent.
        Some(_) => unreachable!(),
        None => form_model(alloc, templates, &form, shown, variables),
    }
}

// The model of a solved form, over these variables.
fn form_model<K: Lookup>(
    alloc: Global,
    templates: &Templates,
    form: &K,
    shown: &[ShownTerm],
    variables: &[Var],
) -> Result<TreeModel, AllocError>
    requires { IsSolved templates.now.nodes (K.bindings form.now) }
    ensures { IfOk result (IsTableUnder templates.now.nodes (end_of templates.now.nodes (K.bindings form.now)) shown.now variables.now) }
{
    let graph = model_graph(alloc, templates, form, shown, variables)?;
    let tops = find_tops(alloc, &graph.seens)?;
    let classes = find_classes(alloc, &graph.rows, tops)?;
    make_model(alloc, &graph, classes.firsts(), shown.len(), variables)
}

// The graph of shown terms and variables.
fn model_graph<K: Lookup>(
    alloc: Global,
    templates: &Templates,
    form: &K,
    shown: &[ShownTerm],
    variables: &[Var],
) -> Result<StartGraph, AllocError>
    requires { IsSolved templates.now.nodes (K.bindings form.now) }
    ensures { IfOk result (IsModelGraph templates.now (end_of templates.now.nodes (K.bindings form.now)) shown.now variables.now) }
{
    let mut starts = shown_starts(alloc, shown)?;
    push_variables(&mut starts, variables)?;
    let graph = start_graph(alloc, templates, form, &starts)?;
    Ok(graph)
}
