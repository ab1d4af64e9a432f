//! Graphs of terms and variables.

ghost use Rattle.std.specs.Prelude.{◌≡◌, ◌++◌, IfOk, OnOk, map};
ghost use Rattle.rational_unify.specs.Known.{IsSolved, end_of};
ghost use Rattle.term_graph.specs.Building.{IsTermGraph, IsBuilding, IsNumbered};
ghost use Rattle.term_graph.specs.Built.{IsBuiltAlong};
ghost use Rattle.term_graph.specs.Reached.{AreReached};
ghost use Rattle.tree_models.specs.Starts.{start_tree, AreNodesOf};
ghost use Rattle.tree_models.specs.declared.starts.Start.TheVariants as starts;

use akl_terms::{Seen, ShownTerm, Templates, Term, Var};
use rational_unify::Lookup;
use std::alloc::{AllocError, Global};
use term_graph::Builder;

/// What a graph is built from.
#[derive(Clone, Copy)]
pub enum Start {
    Term(Term),
    Variable(Var),
}

/// What each node begins with, the nodes of its arguments, and the nodes from which the graph was built.
#[derive(Drop)]
pub struct StartGraph {
    pub seens: Vec<Seen>,
    pub rows: Vec<Vec<usize>>,
    pub starts: Vec<usize>,
}

/// The shown terms, in order.
pub fn shown_starts(alloc: Global, shown: &[ShownTerm]) -> Result<Vec<Start>, AllocError>
    ensures { IfOk result (λ list. list.items ≡ map (λ s. starts.Term s.term) shown.now) }
{
    let mut list = Vec::new(alloc);
    for line in shown {
        list.push(Start::Term(line.term))?;
    }
    Ok(list)
}

/// Adds the terms to which variables are bound.
pub fn push_bound(list: &mut Vec<Start>, bindings: &[(Var, Term)]) -> Result<(), AllocError>
    ensures { OnOk result (list.new.items ≡ list.old.items ++ map (λ b. starts.Term b.1) bindings.now) }
{
    for binding in bindings {
        list.push(Start::Term(binding.1))?;
    }
    Ok(())
}

/// Adds variables.
pub fn push_variables(list: &mut Vec<Start>, variables: &[Var]) -> Result<(), AllocError>
    ensures { OnOk result (list.new.items ≡ list.old.items ++ map (λ x. starts.Variable x) variables.now) }
{
    for variable in variables {
        list.push(Start::Variable(*variable))?;
    }
    Ok(())
}

/// The graph of what stands for terms and variables and, step by step, for the arguments of that.
pub fn start_graph<K: Lookup>(
    alloc: Global,
    templates: &Templates,
    form: &K,
    starts: &[Start],
) -> Result<StartGraph, AllocError>
    requires { IsSolved templates.now.nodes (K.bindings form.now) }
    ensures graph { IfOk result (λ g. IsTermGraph templates.now (end_of templates.now.nodes (K.bindings form.now)) g.seens.items (map (λ v. v.items) g.rows.items)) }
    ensures built { IfOk result (λ g. IsBuiltAlong templates.now (end_of templates.now.nodes (K.bindings form.now)) g.seens.items (map (λ v. v.items) g.rows.items)) }
    ensures starts { IfOk result (λ g. AreNodesOf templates.now (end_of templates.now.nodes (K.bindings form.now)) g.seens.items (map (start_tree templates.now.nodes) starts.now) g.starts.items) }
    ensures reached { IfOk result (λ g. AreReached templates.now (end_of templates.now.nodes (K.bindings form.now)) (map (start_tree templates.now.nodes) starts.now) g.seens.items) }
{
    let mut builder = Builder::new(alloc);
    let mut nodes = Vec::new(alloc);
    for start in starts {
        let node = number(&mut builder, templates, form, *start)?;
        nodes.push(node)?;
    }
    let rows = builder.complete(alloc, templates, form)?;
    Ok(StartGraph {
        seens: builder.into_seens(),
        rows,
        starts: nodes,
    })
}

// The node of what stands for a term or a variable.
fn number<K: Lookup>(
    builder: &mut Builder,
    templates: &Templates,
    form: &K,
    start: Start,
) -> Result<usize, AllocError>
    requires solved { IsSolved templates.now.nodes (K.bindings form.now) }
    requires building { IsBuilding templates.now (end_of templates.now.nodes (K.bindings form.now)) builder.old }
    ensures { IfOk result (λ i. IsNumbered templates.now (end_of templates.now.nodes (K.bindings form.now)) builder.old builder.new i (start_tree templates.now.nodes start)) }
{
    match start {
        Start::Term(term) => builder.number(templates, form, term),
        Start::Variable(variable) => builder.number_variable(templates, form, variable),
    }
}
