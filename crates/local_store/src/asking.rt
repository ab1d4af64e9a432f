//! What a chain says, and how it is made solved.
ghost use Rattle.std.specs.Prelude.{◌≡◌, ◌++◌, [], IfOk};
ghost use Rattle.akl_terms.specs.Equal.{IsConsistentBy};
ghost use Rattle.rational_unify.specs.Known.{IsSolved};
ghost use Rattle.rational_unify.specs.Forms.{IsClashOfBindings};
ghost use Rattle.local_store.specs.Chained.{ToldBy, IsFormChain, around};
ghost use Rattle.local_store.specs.Asking.{Decides, Values, end_in, tree_valued, ResolvesOver, Resolves};

use crate::chain::Chain;
use crate::shared::Shared;
use crate::store::Store;
use crate::telling::{innermost, take_store, take_stores};
use akl_terms::{Seen, Templates, Term, Var};
use rational_unify::{AddedBindings, Form, Lookup, chain_end};
use std::alloc::{AllocError, Global};

/// What `consistent` answers.
#[derive(Clone, Copy, Debug, PartialEq, Eq)]
pub enum Consistency {
    Consistent,
    /// Two terms of different heads that the equations make equal.
    Clash { left: Term, right: Term },
}

/// What stands for the class of a term: a variable exactly where it isn't structured.
#[derive(Clone, Copy, Debug, PartialEq, Eq)]
pub enum Valued {
    Free(Var),
    Bound(Term),
}

/// Whether the chain's equations are consistent.
pub fn consistent(alloc: Global, chain: &Chain) -> Result<Consistency, AllocError>
    ensures { IfOk result (λ answer. Decides chain.now.nodes chain.now.stores answer) }
{
    let known = chain.known();
    if known == chain.stores().len() {
        return Ok(Consistency::Consistent);
    }
    let base = chain.outer(known);
    let mut form = Form {
        known: &base,
        added: AddedBindings::new(alloc),
    };
    match take_stores(
        alloc,
        chain.templates(),
        &mut form,
        &chain.stores()[known..],
    )? {
        Some(clash) => Ok(Consistency::Clash {
            left: clash.left,
            right: clash.right,
        }),
        None => Ok(Consistency::Consistent),
    }
}

/// What stands for a term's class: the end of its chain of bindings.
pub fn value(chain: &Chain, term: Term) -> Valued
    requires { IsFormChain chain.now.nodes chain.now.stores }
    ensures class { Values chain.now.nodes chain.now.stores term result }
    ensures end { tree_valued chain.now.nodes result ≡ end_in chain.now.nodes chain.now.stores term }
{
    let templates = chain.templates();
    let last = chain_end(templates, chain, term);
    match templates.look(last) {
        Seen::Free(variable) => Valued::Free(variable),
        _ => Valued::Bound(last),
    }
}

/// A store with which what is found in the chain is a solved form and stands for the same equations.
pub fn solved_store(alloc: Global, chain: &Chain) -> Result<Shared<Store>, AllocError>
    requires consistent { IsConsistentBy (ToldBy chain.now.nodes chain.now.stores) }
    requires around { IsFormChain chain.now.nodes (around chain.now.stores) }
    ensures { IfOk result (λ s. Resolves chain.now.nodes chain.now.stores s) }
{
    let stores = chain.stores();
    let outer = chain.outer(stores.len().saturating_sub(1));
    let store = innermost(alloc, stores)?;
    let store = resolved(alloc, chain.templates(), &outer, &store)?;
    Shared::new(alloc, store)
}

// A store with what is found for its bindings over a solved form, in their place.
fn resolved<K: Lookup>(
    alloc: Global,
    templates: &Templates,
    known: &K,
    store: &Store,
) -> Result<Store, AllocError>
    requires solved { IsSolved templates.now.nodes (K.bindings known.now) }
    requires consistent { (left right : Term) → IsClashOfBindings templates.now.nodes (K.bindings known.now ++ []) store.now.bindings left right → ⊥ }
    ensures { IfOk result (λ s. ResolvesOver templates.now.nodes (K.bindings known.now) store.now s) }
{
    let mut form = Form {
        known,
        added: AddedBindings::new(alloc),
    };
    // There is no clash.
    take_store(alloc, templates, &mut form, store)?;
    store.with_only(form.added.as_slice())
}
