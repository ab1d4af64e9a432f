//! Solved forms that grow.

ghost use Rattle.std.specs.Prelude.{◌≡◌, ◌++◌, IfOk, IfNone, MatchOption};
ghost use Rattle.rational_unify.specs.Known.{IsSolved};
ghost use Rattle.rational_unify.specs.Solving.{BindNew};
ghost use Rattle.rational_unify.specs.Older.{LeadOlder, KeepsOlder, IsToOlder, EachOlder};
ghost use Rattle.rational_unify.specs.Forms.{Takes, IsClashOfBindings, OneTaken};

use crate::added::AddedBindings;
use crate::chain::{Together, chain_end};
use crate::known::Lookup;
use crate::solver::{Solved, solve_only};
use akl_terms::{Equation, Seen, Templates, Term, Var};
use smallvec::SmallVec;
use std::alloc::{AllocError, Global};

/// Known bindings with others that were added.
#[derive(Drop)]
pub struct Form<'a, K: Lookup> {
    pub known: &'a K,
    pub added: AddedBindings,
}

impl<'a, K: Lookup> Lookup for Form<'a, K> {
    ghost use Rattle.std.specs.Prelude.{◌++◌};

    ghost bindings = { λ f. K.bindings f.known.now ++ f.added };

    fn get(&self, variable: Var) -> Option<Term> {
        Together {
            known: self.known,
            added: &self.added,
        }
        .get(variable)
    }
}

impl<'a, K: Lookup> Form<'a, K> {
    /// Takes all bindings of a list in, where a variable may have several. `Some` gives two terms
    /// of different heads that they make equal. Where what was there and each binding of the list
    /// lead from younger variables to older ones, so does all together.
    pub fn take(
        &mut self,
        alloc: Global,
        templates: &Templates,
        bindings: &[(Var, Term)],
    ) -> Result<Option<Equation>, AllocError>
        requires { IsSolved templates.now.nodes (K.bindings self.old.known.now ++ self.old.added) }
        ensures known { self.new.known ≡ self.old.known }
        ensures taken { IfOk result (λ found. MatchOption found
            (Takes templates.now.nodes (K.bindings self.old.known.now) self.old.added self.new.added bindings.now)
            (λ clash. IsClashOfBindings templates.now.nodes (K.bindings self.old.known.now ++ self.old.added) bindings.now clash.left clash.right)) }
        ensures older { IfOk result (λ found. IfNone found
            (LeadOlder templates.now.nodes (K.bindings self.old.known.now ++ self.old.added) → EachOlder templates.now.nodes bindings.now
            → LeadOlder templates.now.nodes (K.bindings self.old.known.now ++ self.new.added))) }
    {
        let mut pending = SmallVec::new(alloc);
        for binding in bindings {
            self.take_one(templates, binding.0, binding.1, &mut pending)?;
        }
        if pending.is_empty() {
            return Ok(None);
        }
        match solve_only(alloc, templates, &*self, pending.as_slice())? {
            Solved::Clash { left, right } => Ok(Some(Equation { left, right })),
            Solved::Added(more) => {
                self.add(more.as_slice())?;
                Ok(None)
            }
        }
    }

    /// Takes one binding in: as a binding to the end of its term's chain, or, where its variable
    /// is bound, as an equation that waits.
    fn take_one(
        &mut self,
        templates: &Templates,
        variable: Var,
        term: Term,
        pending: &mut SmallVec<Equation, 2>,
    ) -> Result<(), AllocError>
        requires { IsSolved templates.now.nodes (K.bindings self.old.known.now ++ self.old.added) }
        ensures known { self.new.known ≡ self.old.known }
        ensures taken { IfOk result (λ _. OneTaken templates.now.nodes (K.bindings self.old.known.now ++ self.old.added) self.old.added self.new.added
            pending.old.items pending.new.items variable term) }
        ensures older { IfOk result (λ _. IsToOlder templates.now.nodes (variable, term)
            → KeepsOlder templates.now.nodes (K.bindings self.old.known.now ++ self.old.added) (K.bindings self.old.known.now ++ self.new.added)) }
    {
        if let Some(other) = self.get(variable) {
            pending.push(Equation {
                left: other,
                right: term,
            })?;
            return Ok(());
        }
        let last = chain_end(templates, &*self, term);
        match templates.look(last) {
            Seen::Free(end) if end == variable => Ok(()),
            _ => self.added.push(variable, last),
        }
    }

    /// Adds bindings of variables that have none.
    pub fn add(&mut self, more: &[(Var, Term)]) -> Result<(), AllocError>
        requires { BindNew (K.bindings self.old.known.now ++ self.old.added) more.now }
        ensures known { self.new.known ≡ self.old.known }
        ensures added { IfOk result (λ _. self.new.added ≡ self.old.added ++ more.now) }
    {
        for binding in more {
            self.added.push(binding.0, binding.1)?;
        }
        Ok(())
    }
}
