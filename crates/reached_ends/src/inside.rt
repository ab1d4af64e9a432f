//! The ends of what the stores inside a root box lead to.

ghost use Rattle.std.specs.Prelude.{◌≡◌, ◌<◌, [], ◌∷◌, true, IfOk, MatchOption, length, ⊤};
ghost use Rattle.reached_ends.specs.Reached.{IsReached, AreReached, AreBoundOver};
ghost use Rattle.reached_ends.specs.Leading.{StandsInBindings};
ghost use Rattle.reached_ends.specs.Walks.{state_of, ComesFrom, Goes};

use crate::owned::are_owned;
use crate::walk::Walk;
use akl_terms::{Templates, Var};
use local_store::{Chain, Shared, Store};
use std::alloc::{AllocError, Global};

// So many variables and terms are looked at.
const MOST: usize = 64;

/// The variables that the root box's store leaves unbound and to which what stands in the stores inside it leads, through what
/// the root box's store binds and through all subterms; `None` where the stores aren't known to be solved together, or more
/// than 64 variables and arguments stand on the way. An `Err` is want of memory.
pub fn ends_inside(alloc: Global, chain: &Chain) -> Result<Option<Vec<Var>>, AllocError>
    ensures { IfOk result (λ found. MatchOption found ⊤ (λ ends. IsReached chain.now ends.items)) }
{
    let stores = chain.stores();
    if chain.known() < stores.len() {
        return Ok(None);
    }
    let Some((root, inner)) = stores.split_first() else {
        return Ok(None);
    };
    let Some(ends) = ends_of(alloc, chain.templates(), root.get(), inner)? else {
        return Ok(None);
    };
    if !are_owned(stores, ends.as_slice()) {
        // Not where what is bound is in scope.
        return Ok(None);
    }
    Ok(Some(ends))
}

// The same of a root store and of those inside it.
fn ends_of(
    alloc: Global,
    templates: &Templates,
    root: &Store,
    inner: &[Shared<Store>],
) -> Result<Option<Vec<Var>>, AllocError>
    ensures { IfOk result (λ found. MatchOption found ⊤ (λ ends. AreReached templates.now.nodes root.now inner.now ends.items)) }
{
    let mut walk = Walk::new(alloc, MOST);
    for store in inner {
        if !take_store(&mut walk, templates, root, store.get())? {
            return Ok(None);
        }
    }
    Ok(Some(walk.ends))
}

// What a store binds is reached, and all to which that leads. Answers whether it may be.
fn take_store(
    walk: &mut Walk,
    templates: &Templates,
    root: &Store,
    store: &Store,
) -> Result<bool, AllocError>
    ensures goes { IfOk result (λ fits. fits ≡ true → Goes templates.now.nodes root.now.bindings (state_of walk.old) (state_of walk.new)) }
    ensures from { IfOk result (λ fits. fits ≡ true → ComesFrom templates.now.nodes root.now.bindings (StandsInBindings templates.now.nodes store.now.bindings) (state_of walk.old) (state_of walk.new)) }
    ensures all { IfOk result (λ fits. fits ≡ true → walk.new.waiting.items ≡ []) }
    ensures bound { IfOk result (λ fits. fits ≡ true → AreBoundOver templates.now.nodes walk.new.reached.items store.now.bindings) }
{
    let bindings = store.bindings()?;
    for binding in bindings.as_slice() {
        if !walk.reach(root, binding.0)? {
            return Ok(false);
        }
        walk.waiting.push(binding.1)?;
    }
    walk.finish(templates, root)
}
