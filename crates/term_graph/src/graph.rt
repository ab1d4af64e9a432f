//! The graph of the trees that terms reach.

ghost use Rattle.std.specs.Prelude.{◌≡◌, IfOk, length, map};
ghost use Rattle.akl_terms.specs.Template.{tree};
ghost use Rattle.rational_unify.specs.Known.{IsSolved, end_of};
ghost use Rattle.term_graph.specs.Building.{IsTermGraph, AreEndsAt};
ghost use Rattle.term_graph.specs.Built.{IsBuiltAlong};

use crate::builder::Builder;
use akl_terms::{Seen, ShownTerm, Templates};
use rational_unify::Lookup;
use std::alloc::{AllocError, Global};

/// What each node begins with, the nodes of its arguments, and the nodes of the shown terms.
///
/// A symbol with its arguments is one node under each frame, so the graph is finite; each other
/// occurrence is a node of its own.
#[derive(Drop)]
pub struct TermGraph {
    pub seens: Vec<Seen>,
    pub rows: Vec<Vec<usize>>,
    pub shown: Vec<usize>,
}

/// The graph of what stands for the shown terms and, step by step, for the arguments of that.
pub fn build_graph<K: Lookup>(
    alloc: Global,
    templates: &Templates,
    form: &K,
    shown: &[ShownTerm],
) -> Result<TermGraph, AllocError>
    requires { IsSolved templates.now.nodes (K.bindings form.now) }
    ensures graph { IfOk result (λ g. IsTermGraph templates.now (end_of templates.now.nodes (K.bindings form.now)) g.seens.items (map (λ v. v.items) g.rows.items)) }
    ensures built { IfOk result (λ g. IsBuiltAlong templates.now (end_of templates.now.nodes (K.bindings form.now)) g.seens.items (map (λ v. v.items) g.rows.items)) }
    ensures shown { IfOk result (λ g. AreEndsAt templates.now (end_of templates.now.nodes (K.bindings form.now)) g.seens.items shown.now g.shown.items) }
{
    let mut builder = Builder::new(alloc);
    let mut nodes = Vec::new(alloc);
    for line in shown {
        let node = builder.number(templates, form, line.term)?;
        nodes.push(node)?;
    }
    let rows = builder.complete(alloc, templates, form)?;
    Ok(TermGraph {
        seens: builder.into_seens(),
        rows,
        shown: nodes,
    })
}
