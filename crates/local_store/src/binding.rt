//! What is bound or made equal where bindings are added.
ghost use Rattle.std.specs.Prelude.{◌≡◌, ◌++◌, [], IfOk};
ghost use Rattle.rational_unify.specs.Known.{IsSolved};
ghost use Rattle.rational_unify.specs.Solving.{bindings_in};
ghost use Rattle.local_store.specs.Chained.{bindings_from, equations_of};
ghost use Rattle.local_store.specs.Bound.{bound_by, AreFound, BindsOver, AreNewlyBound};

use crate::chain::Chain;
use crate::telling::take_stores;
use akl_terms::{Templates, Term, Var};
use rational_unify::{AddedBindings, Form, Lookup, end_variable};
use smallvec::SmallVec;
use std::alloc::{AllocError, Global};

// Lists the variables of these bindings, each with the one in which its chain ends, where it ends in one.
pub(crate) fn bound_by<W: Lookup>(
    templates: &Templates,
    whole: &W,
    bindings: &[(Var, Term)],
    list: &mut SmallVec<Var, 4>,
) -> Result<(), AllocError>
    requires solved { IsSolved templates.now.nodes (W.bindings whole.now) }
    requires found { AreFound (W.bindings whole.now) bindings.now }
    ensures { IfOk result (λ _. list.new.items ≡ list.old.items ++ bound_by templates.now.nodes (W.bindings whole.now) bindings.now) }
{
    for binding in bindings {
        list.push(binding.0)?;
        // A bound variable's chain ends where its term's does.
        if let Some(end) = end_variable(templates, whole, binding.1) {
            list.push(end)?;
        }
    }
    Ok(())
}

// Lists what bindings bind or make equal over a solved form.
fn binds_over<K: Lookup>(
    alloc: Global,
    templates: &Templates,
    known: &K,
    bindings: &[(Var, Term)],
    list: &mut SmallVec<Var, 4>,
) -> Result<(), AllocError>
    requires solved { IsSolved templates.now.nodes (K.bindings known.now) }
    requires empty { list.old.items ≡ [] }
    ensures { IfOk result (λ _. BindsOver templates.now.nodes (K.bindings known.now) bindings.now list.new.items) }
{
    let mut form = Form {
        known,
        added: AddedBindings::new(alloc),
    };
    match form.take(alloc, templates, bindings)? {
        Some(_) => Ok(()),
        None => bound_by(templates, &form, form.added.as_slice(), list),
    }
}

// Lists what bindings bind or make equal over a chain.
pub(crate) fn bound_over(
    alloc: Global,
    chain: &Chain,
    bindings: &[(Var, Term)],
    list: &mut SmallVec<Var, 4>,
) -> Result<(), AllocError>
    requires { list.old.items ≡ [] }
    ensures { IfOk result (λ _. AreNewlyBound (equations_of chain.now.nodes chain.now.stores) (equations_of chain.now.nodes chain.now.stores)
        (bindings_in chain.now.nodes (bindings.now ++ bindings_from chain.now.stores)) list.new.items) }
{
    let templates = chain.templates();
    let known = chain.known();
    let base = chain.outer(known);
    let mut form = Form {
        known: &base,
        added: AddedBindings::new(alloc),
    };
    match take_stores(alloc, templates, &mut form, &chain.stores()[known..])? {
        Some(_) => Ok(()),
        None => binds_over(alloc, templates, &form, bindings, list),
    }
}
