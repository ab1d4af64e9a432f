//! The variables in which chains end.

ghost use Rattle.std.specs.Prelude.{◌≡◌, ◌++◌, ◌∷◌, [], IfOk, IsTrue, ◌↔◌};
ghost use Rattle.constraint_laws.specs.Touched.{IsAmong};
ghost use Rattle.rational_unify.specs.Known.{IsSolved};
ghost use Rattle.class_members.specs.Listed.{AreEnds, EndsAmong};

use akl_terms::{Templates, Var};
use rational_unify::{Lookup, variable_end};
use std::alloc::{AllocError, Global};
use std::collections::HashSet;
use std::marker::Model;

/// Most lists of ends stay so short that looking through them costs less than a set would.
pub const FEW: usize = 8;

/// Variables in which chains end, in order. The first `FEW` are found by looking through them, and
/// the rest by a set.
#[derive(Drop)]
pub struct Ends {
    list: Vec<Var>,
    rest: HashSet<Var>,
}

impl Model for Ends {
    ghost use Rattle.std.specs.Prelude.{List};
    ghost use Rattle.akl_terms.specs.declared.name.Var.{Var};
    ghost use Rattle.class_members.specs.Listed.{IsRest};
    ghost use Rattle.class_members.specs.declared.ending.TheConstants.{FEW};

    ghost Value = { List Var };

    ghost view = { λ e. e.list.items };

    ghost invariant = { λ e. IsRest FEW e.rest.keys e.list.items };
}

impl Ends {
    /// The variables in which the chains of these end, each once.
    pub fn of_all<W: Lookup>(
        alloc: Global,
        templates: &Templates,
        whole: &W,
        variables: &[Var],
    ) -> Result<Self, AllocError>
        requires { IsSolved templates.now.nodes (W.bindings whole.now) }
        ensures { IfOk result (λ ends. AreEnds templates.now.nodes (W.bindings whole.now) variables.now ends) }
    {
        let mut ends = Ends::with_room_for(alloc, variables.len())?;
        for variable in variables {
            if let Some(end) = variable_end(templates, whole, *variable) {
                if !ends.contains(end) {
                    ends.push(end)?;
                }
            }
        }
        Ok(ends)
    }

    /// Whether a variable's chain ends in one of these.
    pub fn has_end_of<W: Lookup>(&self, templates: &Templates, whole: &W, variable: Var) -> bool
        requires { IsSolved templates.now.nodes (W.bindings whole.now) }
        ensures { IsTrue result ↔ EndsAmong templates.now.nodes (W.bindings whole.now) self.now variable }
    {
        match variable_end(templates, whole, variable) {
            Some(end) => self.contains(end),
            None => false,
        }
    }

    /// The ends in order. It takes no memory.
    pub fn into_vec(self) -> Vec<Var>
        ensures { result.items ≡ self }
    {
        self.list
    }

    // No ends, with room for so many.
    fn with_room_for(alloc: Global, count: usize) -> Result<Self, AllocError>
        ensures { IfOk result (λ ends. ends ≡ []) }
    {
        Ok(Ends {
            list: Vec::with_capacity(alloc, count)?,
            rest: HashSet::new(alloc),
        })
    }

    // Whether a variable is one of the ends.
    fn contains(&self, end: Var) -> bool
        ensures { IsTrue result ↔ IsAmong end self.now }
    {
        if self.list.len() <= FEW {
            return self.list.contains(&end);
        }
        self.list[..FEW].contains(&end) || self.rest.contains(&end)
    }

    // Adds an end.
    fn push(&mut self, end: Var) -> Result<(), AllocError>
        ensures { IfOk result (λ _. self.new ≡ self.old ++ end ∷ []) }
    {
        let place = self.list.len();
        self.list.push(end)?;
        if place < FEW {
            return Ok(());
        }
        match self.rest.insert(end) {
            Ok(_) => Ok(()),
            Err(_) => {
                let _ = self.list.pop();
                Err(AllocError)
            }
        }
    }
}
