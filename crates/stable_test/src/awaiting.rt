//! What an atom waits on.

ghost use Rattle.std.specs.Prelude.{◌≡◌, IfOk, MatchOption};
ghost use Rattle.akl_terms.specs.Equal.{IsConsistentBy};
ghost use Rattle.akl_terms.specs.Template.{tree};
ghost use Rattle.akl_model.specs.Stable.{AtomWaitsOn};
ghost use Rattle.rational_unify.specs.Solving.{bindings_in};
ghost use Rattle.local_store.specs.Chained.{ToldBy, bindings_from};
ghost use Rattle.box_tree.specs.Tables.{goal_atom};
ghost use Rattle.stable_test.specs.Reaching.{IsFree, IsHeaded};

use akl_terms::{Code, Goal, Program, Seen, Term, Var};
use arith_goals::{ArithValue, evaluate};
use box_tree::View;
use local_store::{Chain, take_stores};
use rational_unify::{AddedBindings, Form, chain_end};
use std::alloc::{AllocError, Global};

/// A variable on which an atom waits in the box of a view, whose equations are consistent; `None` exactly where it waits
/// on none. This costs a solution of the stores down to the box that aren't known to be solved.
pub fn awaited(
    alloc: Global,
    program: &Program,
    view: &View,
    atom: Goal,
) -> Result<Option<Var>, AllocError>
    requires program { program.now ≡ view.now.table.program }
    requires consistent { IsConsistentBy (ToldBy program.now.templates.nodes view.now.stores) }
    ensures { IfOk result (λ on. MatchOption on
        ((x : _) → AtomWaitsOn program.now (bindings_in program.now.templates.nodes (bindings_from view.now.stores)) (goal_atom program.now.templates.nodes atom) x → ⊥)
        (λ x. AtomWaitsOn program.now (bindings_in program.now.templates.nodes (bindings_from view.now.stores)) (goal_atom program.now.templates.nodes atom) x)) }
{
    let chain = view.chain(&program.templates);
    match atom.code {
        Code::Arith { .. } => match evaluate(alloc, &chain, atom)? {
            ArithValue::Waits { on } => Ok(Some(on)),
            _ => Ok(None),
        },
        Code::Send { message: _, port } => {
            let operand = Term::Mol {
                node: port,
                frame: atom.frame,
            };
            free_end(alloc, &chain, operand)
        }
        _ => Ok(None),
    }
}

// The variable at the end of a term's chain, where the equations of the stores are consistent; `None` exactly where a
// term with a head is there.
fn free_end(alloc: Global, chain: &Chain, term: Term) -> Result<Option<Var>, AllocError>
    requires { IsConsistentBy (ToldBy chain.now.nodes chain.now.stores) }
    ensures { IfOk result (λ on. MatchOption on
        (IsHeaded (bindings_in chain.now.nodes (bindings_from chain.now.stores)) (tree chain.now.nodes term))
        (λ x. IsFree (bindings_in chain.now.nodes (bindings_from chain.now.stores)) (tree chain.now.nodes term) x)) }
{
    let templates = chain.templates();
    let known = chain.known();
    let base = chain.outer(known);
    let mut form = Form {
        known: &base,
        added: AddedBindings::new(alloc),
    };
    match take_stores(alloc, templates, &mut form, &chain.stores()[known..])? {
        // Not where the chain is consistent.
        Some(_) => Ok(None),
        None => match templates.look(chain_end(templates, &form, term)) {
            Seen::Free(on) => Ok(Some(on)),
            _ => Ok(None),
        },
    }
}
