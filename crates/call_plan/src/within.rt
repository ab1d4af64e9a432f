//! What is found in an alternative, and in the stores around it.

use crate::own::Own;
use akl_terms::{Term, Var};
use local_store::Chain;
use rational_unify::Lookup;

/// What an alternative tells, and the stores around it.
#[derive(Drop)]
pub(crate) struct Within<'a> {
    pub(crate) around: &'a Chain<'a>,
    pub(crate) own: &'a Own,
}

impl<'a> Lookup for Within<'a> {
    ghost use Rattle.call_plan.specs.Owns.{bindings_within};

    ghost bindings = { λ w. bindings_within w.around.now.stores w.own.now };

    fn get(&self, variable: Var) -> Option<Term> {
        match self.own.first_binding(variable) {
            Some(term) => Some(term),
            None => self.around.get(variable),
        }
    }
}
