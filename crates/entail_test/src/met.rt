//! Variables that are met one by one.
ghost use Rattle.std.specs.Prelude.{◌≡◌, [], IfOk, Some, is_some, cond};
ghost use Rattle.std.specs.List.{position};
ghost use Rattle.std.specs.Map.{lookup};
ghost use Rattle.akl_terms.specs.Names.{same_var};

use akl_terms::Var;
use smallvec::SmallVec;
use std::alloc::{AllocError, Global};
use std::collections::HashMap;
use std::marker::Model;

// Most lists of variables stay so short that looking through them costs less than a map would.
const FEW: usize = 8;

/// The variables that were met, each with whether it was met again. The first `FEW` are found by looking through them,
/// and the rest by a map.
#[derive(Drop)]
pub(crate) struct MetVariables {
    few: SmallVec<(Var, bool), 4>,
    rest: HashMap<Var, bool>,
}

impl Model for MetVariables {
    ghost use Rattle.std.specs.Prelude.{List, Bool, ◌++◌};
    ghost use Rattle.akl_terms.specs.declared.name.Var.{Var};

    ghost Value = { List (Var × Bool) };

    ghost view = { λ m. m.few.items ++ m.rest.entries };
}

impl MetVariables {
    /// No variables.
    pub(crate) fn new(alloc: Global) -> MetVariables
        ensures { result ≡ [] }
    {
        MetVariables {
            few: SmallVec::new(alloc),
            rest: HashMap::new(alloc),
        }
    }

    /// Meets a variable: whether it was met before.
    pub(crate) fn meet(&mut self, variable: Var) -> Result<bool, AllocError>
        ensures before { IfOk result (λ again. again ≡ is_some (lookup (same_var variable) self.old)) }
        ensures met { IfOk result (λ again. (x : Var) → lookup (same_var x) self.new ≡ cond (same_var variable x) (Some again) (lookup (same_var x) self.old)) }
    {
        if let Some(place) = place_among(self.few.as_slice(), variable) {
            self.few[place] = (variable, true);
            return Ok(true);
        }
        if self.few.len() < FEW && self.rest.is_empty() {
            self.few.push((variable, false))?;
            return Ok(false);
        }
        meet(&mut self.rest, variable)
    }

    /// Whether a variable was met again; `None` exactly where it wasn't met.
    pub(crate) fn again(&self, variable: Var) -> Option<bool>
        ensures { result ≡ lookup (same_var variable) self.now }
    {
        match place_among(self.few.as_slice(), variable) {
            Some(place) => Some(self.few[place].1),
            None => self.rest.get(&variable).copied(),
        }
    }
}

// The place of a variable in a list; `None` exactly where the list hasn't got it.
fn place_among(list: &[(Var, bool)], variable: Var) -> Option<usize>
    ensures { result ≡ position (λ m. same_var m.0 variable) list.now }
{
    list.iter().position(|met| met.0 == variable)
}

// Meets a variable by a map: whether it was met before.
fn meet(met: &mut HashMap<Var, bool>, variable: Var) -> Result<bool, AllocError>
    ensures before { IfOk result (λ again. again ≡ is_some (lookup (same_var variable) met.old.entries)) }
    ensures met { IfOk result (λ again. (x : Var) → lookup (same_var x) met.new.entries ≡ cond (same_var variable x) (Some again) (lookup (same_var x) met.old.entries)) }
{
    let again = met.contains_key(&variable);
    match met.insert(variable, again) {
        Ok(_) => Ok(again),
        Err(_) => Err(AllocError),
    }
}
