//! Stores that are solved with those around them, whatever these have become.

ghost use Rattle.std.specs.Prelude.{◌≡◌, IfOk};
ghost use Rattle.box_tree.specs.Alone.{stands_alone, is_of_older, may_stand};

use akl_terms::{Term, Var};
use local_store::Store;
use std::alloc::AllocError;

// Whether a term is no variable, or one of an older frame: a term of a frame counts as a variable.
fn is_of_older(variable: Var, term: Term) -> bool
    ensures { result ≡ is_of_older variable term }
{
    match term {
        Term::Mol { frame, .. } => frame < variable.frame,
        Term::Int(_) | Term::Port(_) => true,
    }
}

// Whether a binding behind that of another variable is of a variable behind that one and of the store's own frames, and leads
// to an older variable, if to any.
fn may_stand(store: &Store, behind: Option<Var>, binding: (Var, Term)) -> bool
    ensures { result ≡ may_stand store.now.frames behind binding }
{
    let (variable, term) = binding;
    let once = match behind {
        Some(other) => other < variable,
        None => true,
    };
    once && is_of_older(variable, term) && store.has_frame(variable.frame)
}

/// Whether a store binds variables of its own frames alone, none of them twice, and each to an integer, to a port or to a term of
/// an older frame. An `Err` comes for want of memory.
pub(crate) fn stands_alone(store: &Store) -> Result<bool, AllocError>
    ensures { IfOk result (λ alone. alone ≡ stands_alone store.now) }
{
    let bindings = store.bindings()?;
    let mut behind = None;
    for binding in bindings.as_slice() {
        if !may_stand(store, behind, *binding) {
            return Ok(false);
        }
        behind = Some(binding.0);
    }
    Ok(true)
}
