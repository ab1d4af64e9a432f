//! What the innermost store of a chain tells the variables from outside of it.

ghost use Rattle.std.specs.Prelude.{◌-◌, length, IfOk, MatchOption};
ghost use Rattle.akl_terms.specs.Equal.{IsConsistent};
ghost use Rattle.entail_test.specs.Asked.{KeepsApartAt};
ghost use Rattle.local_store.specs.Chained.{equations_of};
ghost use Rattle.idle_plan.specs.Told.{ListsTold};

use akl_terms::Var;
use class_members::members;
use entail_test::{Quietness, quiet};
use local_store::Chain;
use std::alloc::{AllocError, Global};

// Members of the classes that the innermost store touches, where those around it keep its variables apart; `None`
// exactly where all together is inconsistent.
pub(crate) fn told_outside(alloc: Global, chain: &Chain) -> Result<Option<Vec<Var>>, AllocError>
    requires { KeepsApartAt chain.now.nodes chain.now.stores (length chain.now.stores - 1) }
    ensures { IfOk result (λ found. MatchOption found
        (IsConsistent (equations_of chain.now.nodes chain.now.stores) → ⊥)
        (λ list. ListsTold chain.now.nodes chain.now.stores list.items)) }
{
    match quiet(alloc, chain)? {
        Quietness::Inconsistent { .. } => Ok(None),
        Quietness::Quiet => {
            let none = Vec::new(alloc);
            Ok(Some(none))
        }
        Quietness::Noisy { on } => {
            let depth = chain.stores().len().saturating_sub(1);
            let around = chain.outer(depth);
            let list = members(alloc, &around, on.as_slice())?;
            Ok(Some(list))
        }
    }
}
