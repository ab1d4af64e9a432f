//! What an alternative tells over the stores around it.

ghost use Rattle.std.specs.Prelude.{◌≡◌, IfOk};
ghost use Rattle.local_store.specs.Stored.{with_bindings};
ghost use Rattle.rule_plan.specs.Made.{store_with};
ghost use Rattle.rational_unify.specs.Known.{found_in};
ghost use Rattle.call_plan.specs.Owns.{is_plain, bindings_of};

use akl_terms::{Name, Term, Var};
use local_store::{Shared, Store};
use rational_unify::found;
use std::alloc::{AllocError, Global};

/// What an alternative tells over the stores around it.
#[derive(Drop)]
pub(crate) enum Own {
    /// Plain bindings of variables of its frame.
    Plain(Vec<(Var, Term)>),
    /// A store that has its frame and what was found for its head.
    Store(Shared<Store>),
}

impl Own {
    // Whether these are plain bindings.
    pub(crate) fn is_plain(&self) -> bool
        ensures { result ≡ is_plain self.now }
    {
        matches!(self, Own::Plain(_))
    }

    // What a variable is bound to; `None` exactly where it isn't bound.
    pub(crate) fn first_binding(&self, variable: Var) -> Option<Term>
        ensures { result ≡ found_in (bindings_of self.now) variable }
    {
        match self {
            Own::Plain(bindings) => found(bindings.as_slice(), variable),
            Own::Store(store) => store.get().first_binding(variable),
        }
    }
}

// A store that has a frame and these bindings.
pub(crate) fn store_of(
    alloc: Global,
    frame: Name,
    bindings: &[(Var, Term)],
) -> Result<Shared<Store>, AllocError>
    ensures { IfOk result (λ s. s ≡ with_bindings (store_with frame) bindings.now) }
{
    let mut store = Store::new(alloc);
    store.add_frame(frame)?;
    store.add_all(bindings)?;
    Shared::new(alloc, store)
}
