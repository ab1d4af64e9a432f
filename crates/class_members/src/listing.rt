//! Members of classes.

ghost use Rattle.std.specs.Prelude.{◌≡◌, ◌≤◌, ◌∷◌, [], IfOk, None, length, take};
ghost use Rattle.constraint_laws.specs.Touched.{IsAmong};
ghost use Rattle.rational_unify.specs.Known.{IsSolved, found_in};
ghost use Rattle.local_store.specs.Chained.{bindings_from, IsKnown};
ghost use Rattle.class_members.specs.Members.{AreMembers};
ghost use Rattle.class_members.specs.Listed.{AreListed};

use crate::candidates::candidates_of;
use crate::ending::Ends;
use akl_terms::{Templates, Var};
use local_store::{Chain, take_stores};
use rational_unify::{AddedBindings, Form, Lookup, variable_end};
use std::alloc::{AllocError, Global};

/// Members of the classes of these variables, enough of them that each other member is equal to one by the outermost
/// store alone, and with each the oldest that is equal to it by that store. A structured variable has none, and where
/// all is inconsistent nothing is listed. A member may be listed more than once.
///
/// Where the outermost store is known to be solved, it binds no listed member, and it is only asked about single
/// variables: the cost is that of the stores inside it.
pub fn members(alloc: Global, chain: &Chain, of: &[Var]) -> Result<Vec<Var>, AllocError>
    ensures members { IfOk result (λ list. AreMembers chain.now.nodes chain.now.stores of.now list.items) }
    ensures unbound { IfOk result (λ list. 1 ≤ chain.now.known → (y : _) → IsAmong y list.items → found_in (bindings_from (take 1 chain.now.stores)) y ≡ None) }
{
    let templates = chain.templates();
    let known = chain.known();
    if known == chain.stores().len() {
        return members_in(alloc, chain, of);
    }
    let base = chain.outer(known);
    let mut form = Form {
        known: &base,
        added: AddedBindings::new(alloc),
    };
    match take_stores(alloc, templates, &mut form, &chain.stores()[known..])? {
        Some(_) => Ok(Vec::new(alloc)),
        None => {
            let candidates = candidates_of(alloc, base.stores(), form.added.as_slice())?;
            members_among(alloc, templates, &form, of, candidates.as_slice())
        }
    }
}

// As `members`, where the whole chain is known to be solved.
fn members_in(alloc: Global, chain: &Chain, of: &[Var]) -> Result<Vec<Var>, AllocError>
    requires { IsKnown chain.now.nodes chain.now.stores (length chain.now.stores) }
    ensures members { IfOk result (λ list. AreMembers chain.now.nodes chain.now.stores of.now list.items) }
    ensures unbound { IfOk result (λ list. 1 ≤ length chain.now.stores → (y : _) → IsAmong y list.items → found_in (bindings_from (take 1 chain.now.stores)) y ≡ None) }
{
    if chain.stores().len() == 1 {
        if let [variable] = of {
            return end_alone(alloc, chain.templates(), chain, *variable);
        }
    }
    let candidates = candidates_of(alloc, chain.stores(), &[])?;
    members_among(alloc, chain.templates(), chain, of, candidates.as_slice())
}

// As `members_among`, of one variable without candidates: the end of its chain.
fn end_alone<W: Lookup>(
    alloc: Global,
    templates: &Templates,
    whole: &W,
    variable: Var,
) -> Result<Vec<Var>, AllocError>
    requires { IsSolved templates.now.nodes (W.bindings whole.now) }
    ensures { IfOk result (λ list. AreListed templates.now.nodes (W.bindings whole.now) (variable ∷ []) [] list.items) }
{
    match variable_end(templates, whole, variable) {
        Some(end) => Vec::from_slice(alloc, &[end]),
        None => Ok(Vec::new(alloc)),
    }
}

// The ends of the chains of these variables, and of the candidates those whose chains end in one of them.
fn members_among<W: Lookup>(
    alloc: Global,
    templates: &Templates,
    whole: &W,
    of: &[Var],
    candidates: &[Var],
) -> Result<Vec<Var>, AllocError>
    requires { IsSolved templates.now.nodes (W.bindings whole.now) }
    ensures { IfOk result (λ list. AreListed templates.now.nodes (W.bindings whole.now) of.now candidates.now list.items) }
{
    let ends = Ends::of_all(alloc, templates, whole, of)?;
    let mut others = Vec::new(alloc);
    for candidate in candidates {
        if ends.has_end_of(templates, whole, *candidate) {
            others.push(*candidate)?;
        }
    }
    let mut list = ends.into_vec();
    list.extend_from_slice(&others)?;
    Ok(list)
}
