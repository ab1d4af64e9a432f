//! The variables that the inner stores of a chain bind.

ghost use Rattle.std.specs.Prelude.{◌≡◌, ◌++◌, IfOk};
ghost use Rattle.class_members.specs.Listed.{candidates_of, inner_keys, unbound_keys};

use akl_terms::{Term, Var};
use local_store::{Shared, Store};
use std::alloc::{AllocError, Global};

/// Of stores that are solved together the variables that the inner ones bind and the outermost doesn't, and those of
/// the bindings that were added to them.
pub fn candidates_of(
    alloc: Global,
    solved: &[Shared<Store>],
    added: &[(Var, Term)],
) -> Result<Vec<Var>, AllocError>
    ensures { IfOk result (λ list. list.items ≡ candidates_of solved.now added.now) }
{
    let mut list = inner_keys(alloc, solved)?;
    for binding in added {
        list.push(binding.0)?;
    }
    Ok(list)
}

// The variables that the inner stores bind and the outermost doesn't.
fn inner_keys(alloc: Global, stores: &[Shared<Store>]) -> Result<Vec<Var>, AllocError>
    ensures { IfOk result (λ list. list.items ≡ inner_keys stores.now) }
{
    let mut list = Vec::new(alloc);
    let Some((outermost, inner)) = stores.split_first() else {
        return Ok(list);
    };
    for store in inner {
        let bindings = store.get().bindings()?;
        push_unbound(&mut list, outermost.get(), bindings.as_slice())?;
    }
    Ok(list)
}

// Puts the variables of these bindings that a store doesn't bind at the end of a list.
fn push_unbound(
    list: &mut Vec<Var>,
    outermost: &Store,
    bindings: &[(Var, Term)],
) -> Result<(), AllocError>
    ensures { IfOk result (λ _. list.new.items ≡ list.old.items ++ unbound_keys outermost.now bindings.now) }
{
    for binding in bindings {
        if outermost.first_binding(binding.0).is_none() {
            list.push(binding.0)?;
        }
    }
    Ok(())
}
