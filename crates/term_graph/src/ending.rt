//! What stands for terms and variables.

ghost use Rattle.akl_terms.specs.Template.{tree};
ghost use Rattle.akl_terms.specs.Tree as trees;
ghost use Rattle.rational_unify.specs.Known.{IsSolved, end_of};
ghost use Rattle.term_graph.specs.Building.{IsEndSeen};

use akl_terms::{Seen, Templates, Term, Var};
use rational_unify::{Lookup, chain_end};

/// How the end of a term's chain begins.
pub fn term_end<K: Lookup>(templates: &Templates, form: &K, term: Term) -> Seen
    requires { IsSolved templates.now.nodes (K.bindings form.now) }
    ensures { IsEndSeen templates.now (end_of templates.now.nodes (K.bindings form.now)) (tree templates.now.nodes term) result }
{
    templates.look(chain_end(templates, form, term))
}

/// How the end of a variable's chain begins.
pub fn variable_end<K: Lookup>(templates: &Templates, form: &K, variable: Var) -> Seen
    requires { IsSolved templates.now.nodes (K.bindings form.now) }
    ensures { IsEndSeen templates.now (end_of templates.now.nodes (K.bindings form.now)) (trees.variable variable) result }
{
    match form.get(variable) {
        Some(term) => term_end(templates, form, term),
        None => Seen::Free(variable),
    }
}
