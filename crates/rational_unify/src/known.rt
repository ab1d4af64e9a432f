//! Bindings that are known, and the chains along them.

ghost use Rattle.std.specs.declared.option.Option.{Option};
ghost use Rattle.std.specs.Prelude.{◌≡◌, List};
ghost use Rattle.std.specs.List.{position};
ghost use Rattle.akl_terms.specs.declared.name.Var.{Var};
ghost use Rattle.akl_terms.specs.declared.term.Term.{Term};
ghost use Rattle.akl_terms.specs.Names.{same_var};
ghost use Rattle.rational_unify.specs.Known.{found_in};

use akl_terms::{Term, Var};

/// What variables are bound to.
pub trait Lookup {
    ghost bindings: { Self → List (Var × Term) };

    /// The term that a variable is bound to; `None` exactly where it has no binding.
    fn get(&self, variable: Var) -> Option<Term>
        ensures { result ≡ found_in (bindings self.now) variable };
}

/// The term to which the first binding of a variable in a list binds it; `None` exactly where the
/// list has none.
pub fn found(list: &[(Var, Term)], variable: Var) -> Option<Term>
    ensures { result ≡ found_in list.now variable }
{
    list.iter().find(|b| b.0 == variable).map(|b| b.1)
}

/// The place of the first binding of a variable in a list; `None` exactly where the list has none.
pub fn place_among(list: &[(Var, Term)], variable: Var) -> Option<usize>
    ensures { result ≡ position (λ b. same_var b.0 variable) list.now }
{
    list.iter().position(|b| b.0 == variable)
}

impl Lookup for Vec<(Var, Term)> {
    ghost bindings = { λ v. v.items };

    fn get(&self, variable: Var) -> Option<Term> {
        found(self, variable)
    }
}

/// Binds no variable.
#[derive(Clone, Copy)]
pub struct Nothing;

impl Lookup for Nothing {
    ghost use Rattle.std.specs.Prelude.{[]};

    ghost bindings = { λ _. [] };

    fn get(&self, variable: Var) -> Option<Term> {
        let _ = variable;
        None
    }
}
