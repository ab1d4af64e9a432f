//! Whether the innermost box of a chain is quiet, and what the boxes from a depth on touch.
ghost use Rattle.std.specs.Prelude.{◌≡◌, ◌-◌, ◌<◌, [], IfOk, length};
ghost use Rattle.akl_terms.specs.Equal.{IsConsistent};
ghost use Rattle.entail_test.specs.Asked.{Answers, AreTouchedAt, DecidesWhole, KeepsApartAt, whole_at};

use crate::outside::{Outside, outside_of};
use akl_terms::{Term, Var};
use local_store::Chain;
use std::alloc::{AllocError, Global};

/// What the innermost box tells the variables from outside of it.
#[derive(Drop)]
pub enum Quietness {
    /// All equations together are consistent, and those of the box are quiet.
    Quiet,
    /// All together are consistent, but not quiet: `on` has one variable from outside of each class of the environment
    /// that becomes structured, or equal to another class that isn't structured, and nothing else.
    Noisy { on: Vec<Var> },
    /// All together are inconsistent: two terms of different heads that they make equal.
    Inconsistent { left: Term, right: Term },
}

/// Whether the innermost box is quiet under the others. This is exact where the environment doesn't make a variable
/// of the box equal to an unstructured one from outside; whether all together is consistent it always says.
pub fn quiet(alloc: Global, chain: &Chain) -> Result<Quietness, AllocError>
    ensures whole { IfOk result (DecidesWhole chain.now.nodes chain.now.stores (length chain.now.stores - 1)) }
    ensures answer { IfOk result (λ answer. KeepsApartAt chain.now.nodes chain.now.stores (length chain.now.stores - 1)
        → Answers chain.now.nodes chain.now.stores (length chain.now.stores - 1) answer) }
{
    let depth = chain.stores().len().saturating_sub(1);
    match outside_of(alloc, chain, depth)? {
        Outside::Clash { left, right } => Ok(Quietness::Inconsistent { left, right }),
        Outside::Touched(on) => {
            if on.is_empty() {
                Ok(Quietness::Quiet)
            } else {
                Ok(Quietness::Noisy { on })
            }
        }
    }
}

/// The variables from outside of the boxes from a depth on which these boxes touch: one of each class of the
/// environment, and nothing else. This is exact where all together are consistent and the environment doesn't make a
/// variable of these boxes equal to an unstructured one from outside; where they are inconsistent there is none.
pub fn touches(alloc: Global, chain: &Chain, depth: usize) -> Result<Vec<Var>, AllocError>
    requires { depth < length chain.now.stores }
    ensures none { IfOk result (λ on. (IsConsistent (whole_at chain.now.nodes chain.now.stores depth) → ⊥) → on.items ≡ []) }
    ensures touched { IfOk result (λ on. KeepsApartAt chain.now.nodes chain.now.stores depth → IsConsistent (whole_at chain.now.nodes chain.now.stores depth)
        → AreTouchedAt chain.now.nodes chain.now.stores depth on.items) }
{
    match outside_of(alloc, chain, depth)? {
        Outside::Touched(on) => Ok(on),
        Outside::Clash { .. } => Ok(Vec::new(alloc)),
    }
}
