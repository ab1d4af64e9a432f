//! The bindings that the solver adds.

ghost use Rattle.std.specs.Prelude.{◌≡◌, ◌<◌, ◌^◌, ◌++◌, ◌∷◌, [], IfOk, None, length, slice_get};
ghost use Rattle.rational_unify.specs.Known.{found_in};
ghost use Rattle.rational_unify.specs.Solving.{BindNew};
ghost use Rattle.rational_unify.specs.Indexes.{place_in};
ghost use Rattle.rational_unify.specs.Shortened.{Rebinds};
ghost use Rattle.rational_unify.specs.declared.added.TheConstants.{FEW};

use crate::index::note;
use crate::known::{found, place_among};
use akl_terms::{Term, Var};
use smallvec::SmallVec;
use std::alloc::{AllocError, Global};
use std::collections::HashMap;
use std::marker::Model;

/// Most lists stay so short that looking through them costs less than an index would.
pub const FEW: usize = 8;

/// Bindings in the order in which they were added, at most one of each variable. The first `FEW`
/// are found by looking through them, and the rest by an index of their places.
#[derive(Drop)]
pub struct AddedBindings {
    alloc: Global,
    list: SmallVec<(Var, Term), 4>,
    // Made for the first binding behind these.
    places: Option<HashMap<Var, usize>>,
}

impl Model for AddedBindings {
    ghost use Rattle.std.specs.Prelude.{List};
    ghost use Rattle.akl_terms.specs.declared.name.Var.{Var};
    ghost use Rattle.akl_terms.specs.declared.term.Term.{Term};
    ghost use Rattle.rational_unify.specs.Indexes.{IsIndex, entries_in};
    ghost use Rattle.rational_unify.specs.declared.added.TheConstants.{FEW};

    ghost Value = { List (Var × Term) };

    ghost view = { λ a. a.list.items };

    ghost invariant = { λ a. IsIndex FEW (entries_in a.places) a.list.items };
}

impl AddedBindings {
    /// No bindings.
    pub fn new(alloc: Global) -> Self
        ensures { result ≡ [] }
    {
        AddedBindings {
            alloc,
            list: SmallVec::new(alloc),
            places: None,
        }
    }

    /// The term that a variable is bound to; `None` exactly where it has no binding.
    pub fn get(&self, variable: Var) -> Option<Term>
        ensures { result ≡ found_in self.now variable }
    {
        let list = self.list.as_slice();
        if list.len() <= FEW {
            return found(list, variable);
        }
        match self.place_of(variable) {
            Some(place) => Some(list[place].1),
            None => None,
        }
    }

    /// Binds a variable that has no binding.
    pub fn push(&mut self, variable: Var, term: Term) -> Result<(), AllocError>
        requires { found_in self.old variable ≡ None }
        ensures list { IfOk result (λ _. self.new ≡ self.old ++ (variable, term) ∷ []) }
        ensures small { IfOk result (λ _. length self.new < 2 ^ 64) }
    {
        self.list.push((variable, term))?;
        let place = self.list.len() - 1;
        if place < FEW {
            return Ok(());
        }
        match note(self.alloc, &mut self.places, variable, place) {
            Ok(()) => Ok(()),
            Err(refused) => {
                let _ = self.list.pop();
                Err(refused)
            }
        }
    }

    /// Binds a variable that has a binding to another term; any other variable stays without one.
    pub fn rebind(&mut self, variable: Var, term: Term)
        ensures { Rebinds self.old self.new variable term }
    {
        if let Some(place) = self.place_of(variable) {
            self.list[place] = (variable, term);
        }
    }

    /// The place of a variable's binding; `None` exactly where it has none.
    #[inline(always)]
    fn place_of(&self, variable: Var) -> Option<usize>
        ensures { result ≡ place_in self.now variable }
    {
        let list = self.list.as_slice();
        if list.len() <= FEW {
            return place_among(list, variable);
        }
        match place_among(&list[..FEW], variable) {
            Some(place) => Some(place),
            None => match &self.places {
                Some(places) => places.get(&variable).copied(),
                None => None,
            },
        }
    }

    /// The bindings in order.
    #[inline(always)]
    pub fn as_slice(&self) -> &[(Var, Term)]
        ensures { result.now ≡ self.now }
    {
        self.list.as_slice()
    }
}
