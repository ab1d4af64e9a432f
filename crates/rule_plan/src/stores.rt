//! The stores of a chain.

ghost use Rattle.std.specs.Prelude.{IfOk};
ghost use Rattle.akl_terms.specs.Equal.{IsConsistentBy};
ghost use Rattle.local_store.specs.Chained.{ToldBy};
ghost use Rattle.rule_plan.specs.Solving.{ResolvesAll};

use guard_plan::shared;
use local_store::{Chain, Shared, Store, solved_store};
use std::alloc::{AllocError, Global};

// Stores with which a chain is solved throughout, and stands for the same.
pub(crate) fn solved_stores(alloc: Global, chain: &Chain) -> Result<Vec<Shared<Store>>, AllocError>
    requires { IsConsistentBy (ToldBy chain.now.nodes chain.now.stores) }
    ensures { IfOk result (λ stores. ResolvesAll chain.now.nodes chain.now.stores stores.items) }
{
    let path = chain.stores();
    let known = chain.known();
    let mut stores = shared(alloc, &path[..known])?;
    for store in &path[known..] {
        stores.push(store.share()?)?;
        let solved = solved_store(alloc, &Chain::new(chain.templates(), stores.as_slice()))?;
        stores.pop();
        stores.push(solved)?;
    }
    Ok(stores)
}
