//! What is added to the store of a box, over the stores down to it.

use akl_terms::{Term, Var};
use local_store::{Chain, Part};
use rational_unify::Lookup;

/// A part that is added to the innermost store of a chain, and the chain.
#[derive(Drop)]
pub struct Within<'a> {
    pub chain: &'a Chain<'a>,
    pub part: &'a Part,
}

impl<'a> Lookup for Within<'a> {
    ghost use Rattle.std.specs.Prelude.{◌++◌};
    ghost use Rattle.local_store.specs.Chained.{bindings_from};

    ghost bindings = { λ w. w.part.now.bindings.items ++ bindings_from w.chain.now.stores };

    fn get(&self, variable: Var) -> Option<Term> {
        match self.part.first_binding(variable) {
            Some(term) => Some(term),
            None => self.chain.get(variable),
        }
    }
}
