//! The ends of arguments.

ghost use Rattle.std.specs.Prelude.{◌≡◌, [], IfOk};
ghost use Rattle.local_store.specs.Chained.{bindings_from, IsSolvedChain};
ghost use Rattle.plain_heads.specs.Plain.{AreEnds};

use crate::row::Row;
use akl_terms::Term;
use local_store::Chain;
use rational_unify::chain_end;
use smallvec::SmallVec;
use std::alloc::AllocError;

/// The terms in which the chains of arguments end over a chain that is solved come to a list, which is empty. An `Err` is
/// want of memory.
pub fn put_ends(
    chain: &Chain,
    arguments: Row,
    ends: &mut SmallVec<Term, 4>,
) -> Result<(), AllocError>
    requires solved { IsSolvedChain chain.now.nodes chain.now.stores }
    requires empty { ends.old.items ≡ [] }
    ensures { IfOk result (λ _. AreEnds chain.now.nodes (bindings_from chain.now.stores) arguments.frame arguments.first ends.new.items) }
{
    for index in 0..arguments.count {
        let end = chain_end(chain.templates(), chain, arguments.at(index)?);
        ends.push(end)?;
    }
    Ok(())
}
